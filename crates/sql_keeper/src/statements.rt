//! The statements of a ledger, each run by a call of its own.

use crate::columns::{fault_of, word_of_mark};
use crate::new_pairs::{PAIRS_AT_ONCE, text_for, values_for};
use crate::pair_rows::{first_pair, number_in};
use crate::tables::{
    DECIDE, ENTER_RUN, FIND, MAKE_PAIRS, MAKE_RUNS, NEXT, PAIR, TABLES_NAMED, TOTALS,
};
use ledger_core::{KeepFault, Mark, PairRow, Seal, Totals};
use sqlite::types::ValueRef;
use sqlite::{Alter, Connection, Row, Transaction, params};
use std::alloc::Global;
use tin_base::Change;

/// Makes the tables where they are missing. The text of a table is kept as it is written here, so that `sqlite3` reads it
/// too: it does not read `IF NOT EXISTS` there.
pub(crate) fn make_tables<S: Alter>(conn: &mut Connection<S>) -> Result<(), KeepFault> {
    make_table(conn, "runs", MAKE_RUNS)?;
    make_table(conn, "pairs", MAKE_PAIRS)?;
    Ok(())
}

/// Makes a table where there is none of this name.
fn make_table<S: Alter>(
    conn: &mut Connection<S>,
    name: &str,
    statement: &str,
) -> Result<(), KeepFault> {
    let rows = rows_of(conn, TABLES_NAMED, params![name])?;
    match rows.first() {
        Some(row) => {
            if number_in(row, 0)? > 0 {
                return Ok(());
            }
        }
        None => return Err(KeepFault::Failed),
    }
    match conn.execute_batch(statement) {
        Ok(()) => Ok(()),
        Err(error) => Err(fault_of(error)),
    }
}

fn rows_of<S: Alter>(
    conn: &mut Connection<S>,
    text: &str,
    values: &[ValueRef<'_>],
) -> Result<Vec<Row>, KeepFault> {
    match conn.query_all(text, values) {
        Ok(rows) => Ok(rows),
        Err(error) => Err(fault_of(error)),
    }
}

pub(crate) fn find<S: Alter>(
    conn: &mut Connection<S>,
    seal: &Seal,
) -> Result<Option<u32>, KeepFault> {
    let rows = rows_of(conn, FIND, params![&seal.bytes[..]])?;
    match rows.first() {
        Some(row) => Ok(Some(number_in(row, 0)?)),
        None => Ok(None),
    }
}

pub(crate) fn totals<S: Alter>(conn: &mut Connection<S>) -> Result<Totals, KeepFault> {
    let rows = rows_of(conn, TOTALS, &[])?;
    match rows.first() {
        Some(row) => Ok(Totals {
            runs: number_in(row, 0)?,
            pairs: number_in(row, 1)?,
        }),
        None => Err(KeepFault::Failed),
    }
}

pub(crate) fn pair<S: Alter>(
    conn: &mut Connection<S>,
    run: u32,
    place: u32,
) -> Result<Option<PairRow>, KeepFault> {
    let rows = rows_of(conn, PAIR, params![run, place])?;
    first_pair(rows.as_slice())
}

pub(crate) fn next<S: Alter>(
    conn: &mut Connection<S>,
    run: u32,
    from: u32,
) -> Result<Option<PairRow>, KeepFault> {
    let rows = rows_of(conn, NEXT, params![run, from])?;
    first_pair(rows.as_slice())
}

pub(crate) fn decide<S: Alter>(
    conn: &mut Connection<S>,
    run: u32,
    place: u32,
    mark: Mark,
) -> Result<(), KeepFault> {
    match conn.execute(DECIDE, params![run, place, word_of_mark(mark)]) {
        Ok(1) => Ok(()),
        Ok(_) => Err(KeepFault::Failed),
        Err(error) => Err(fault_of(error)),
    }
}

/// Runs a statement that adds rows.
fn put<S: Alter>(
    transaction: &mut Transaction<'_, S>,
    text: &str,
    values: &[ValueRef<'_>],
) -> Result<(), KeepFault> {
    match transaction.execute(text, values) {
        Ok(_) => Ok(()),
        Err(error) => Err(fault_of(error)),
    }
}

/// Adds a run and its pairs.
fn put_all<S: Alter>(
    alloc: Global,
    transaction: &mut Transaction<'_, S>,
    run: u32,
    count: u32,
    seal: &Seal,
    changes: &[Change],
) -> Result<(), KeepFault> {
    put(transaction, ENTER_RUN, params![run, &seal.bytes[..], count])?;
    let mut place = 0u32;
    for some in changes.chunks(PAIRS_AT_ONCE) {
        let text = text_for(alloc, some)?;
        let values = values_for(alloc, run, place, some)?;
        put(transaction, text.as_str(), values.as_slice())?;
        place = place.saturating_add(PAIRS_AT_ONCE as u32);
    }
    Ok(())
}

fn commit<S: Alter>(transaction: Transaction<'_, S>) -> Result<(), KeepFault> {
    match transaction.commit() {
        Ok(()) => Ok(()),
        Err(error) => Err(fault_of(error)),
    }
}

/// Adds a run and its pairs in one transaction, which is undone where it is let go before its end.
fn put_at_once<S: Alter>(
    alloc: Global,
    conn: &mut Connection<S>,
    run: u32,
    count: u32,
    seal: &Seal,
    changes: &[Change],
) -> Result<(), KeepFault> {
    if !conn.is_autocommit() {
        return Err(KeepFault::Failed);
    }
    let mut transaction = conn.transaction();
    put_all(alloc, &mut transaction, run, count, seal, changes)?;
    commit(transaction)
}

/// Adds a run after those that there are, and its pairs; how many there are then.
pub(crate) fn enter<S: Alter>(
    alloc: Global,
    conn: &mut Connection<S>,
    totals: Totals,
    seal: &Seal,
    changes: &[Change],
) -> Result<Totals, KeepFault> {
    let Ok(count) = u32::try_from(changes.len()) else {
        return Err(KeepFault::Failed);
    };
    let more = Totals {
        runs: totals.runs.saturating_add(1),
        pairs: totals.pairs.saturating_add(count),
    };
    put_at_once(alloc, conn, more.runs, count, seal, changes)?;
    Ok(more)
}
