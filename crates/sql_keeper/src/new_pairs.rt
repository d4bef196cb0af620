//! Pairs that are entered: several by one statement, since each statement costs as much as some rows do.

use crate::columns::word_of;
use crate::tables::{ENTER_PAIRS, NEW_PAIR};
use ledger_core::KeepFault;
use sqlite::types::ValueRef;
use std::alloc::Global;
use tin_base::{Change, Place};

/// The most pairs that one statement adds.
pub(crate) const PAIRS_AT_ONCE: usize = 16;

/// How many values a pair has in a statement.
const PAIR_VALUES: usize = 12;

/// The text of a statement that adds a pair for each of these changes.
pub(crate) fn text_for(alloc: Global, changes: &[Change]) -> Result<String, KeepFault> {
    let mut text = String::from_str(alloc, ENTER_PAIRS)?;
    let mut between = "";
    for _ in changes {
        text.push_str(between)?;
        text.push_str(NEW_PAIR)?;
        between = ", ";
    }
    Ok(text)
}

fn put_number(values: &mut Vec<ValueRef<'static>>, number: u32) -> Result<(), KeepFault> {
    values.push(ValueRef::Int(i64::from(number)))?;
    Ok(())
}

fn put_word(values: &mut Vec<ValueRef<'static>>, word: &'static str) -> Result<(), KeepFault> {
    values.push(ValueRef::Text(word.as_bytes()))?;
    Ok(())
}

fn put_place(values: &mut Vec<ValueRef<'static>>, place: Place) -> Result<(), KeepFault> {
    put_number(values, place.layer)?;
    put_number(values, place.path)?;
    put_number(values, place.segment)?;
    put_number(values, place.piece)?;
    Ok(())
}

fn put_change(
    values: &mut Vec<ValueRef<'static>>,
    run: u32,
    place: u32,
    change: &Change,
) -> Result<(), KeepFault> {
    put_number(values, run)?;
    put_number(values, place)?;
    put_word(values, word_of(change.was))?;
    put_word(values, word_of(change.now))?;
    put_place(values, change.first)?;
    put_place(values, change.second)?;
    Ok(())
}

/// The values of the statement that adds a pair for each of these changes, the first at this place of the run.
pub(crate) fn values_for(
    alloc: Global,
    run: u32,
    first: u32,
    changes: &[Change],
) -> Result<Vec<ValueRef<'static>>, KeepFault> {
    let mut values = Vec::with_capacity(alloc, changes.len().saturating_mul(PAIR_VALUES))?;
    let mut place = first;
    for change in changes {
        put_change(&mut values, run, place, change)?;
        place = place.saturating_add(1);
    }
    Ok(values)
}
