//! A row of a table as a pair.

use crate::columns::{fault_of, relation_of, verdict_of};
use ledger_core::{KeepFault, PairRow, Verdict};
use sqlite::Row;
use sqlite::types::ValueRef;
use tin_base::{Change, Place, Rel};

/// The number in a column.
pub(crate) fn number_in(row: &Row, column: usize) -> Result<u32, KeepFault> {
    match row.get(column) {
        Ok(number) => Ok(number),
        Err(error) => Err(fault_of(error)),
    }
}

fn verdict_in(row: &Row, column: usize) -> Result<Verdict, KeepFault> {
    match row.get_ref(column) {
        Ok(ValueRef::Text(word)) => verdict_of(word),
        _ => Err(KeepFault::Failed),
    }
}

fn relation_in(row: &Row, column: usize) -> Result<Rel, KeepFault> {
    match row.get_ref(column) {
        Ok(ValueRef::Text(word)) => relation_of(word),
        _ => Err(KeepFault::Failed),
    }
}

/// The place of a piece, in four columns from this one on.
fn place_in(
    row: &Row,
    layer: usize,
    path: usize,
    segment: usize,
    piece: usize,
) -> Result<Place, KeepFault> {
    Ok(Place {
        layer: number_in(row, layer)?,
        path: number_in(row, path)?,
        segment: number_in(row, segment)?,
        piece: number_in(row, piece)?,
    })
}

fn change_in(row: &Row) -> Result<Change, KeepFault> {
    Ok(Change {
        first: place_in(row, 5, 6, 7, 8)?,
        second: place_in(row, 9, 10, 11, 12)?,
        was: relation_in(row, 3)?,
        now: relation_in(row, 4)?,
    })
}

/// The pair of a row.
pub(crate) fn pair_of(row: &Row) -> Result<PairRow, KeepFault> {
    Ok(PairRow {
        run: number_in(row, 0)?,
        place: number_in(row, 1)?,
        change: change_in(row)?,
        verdict: verdict_in(row, 2)?,
    })
}

/// The pair of the first row, where there is one.
pub(crate) fn first_pair(rows: &[Row]) -> Result<Option<PairRow>, KeepFault> {
    match rows.first() {
        Some(row) => Ok(Some(pair_of(row)?)),
        None => Ok(None),
    }
}
