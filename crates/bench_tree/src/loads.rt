//! Keys that are loaded in their order, and sets that are made of two.
use crate::lines::{Sheet, report};
use patricia_tree::{BorrowedBytes, Bytes, GenericPatriciaMap, GenericPatriciaSet};
use std::alloc::{AllocError, Global};
use std::io;
use std::rt::Clock;
use std::time::Instant;

fn set_of<Q: BorrowedBytes>(
    alloc: Global,
    keys: &[Q],
) -> Result<GenericPatriciaSet<Q::Owned>, AllocError> {
    GenericPatriciaSet::from_iter(alloc, keys.iter().copied())
}

/// Loads keys in their order into a new map.
pub(super) fn time_load<R: AllocGlobal + Clock + Print, Q: BorrowedBytes>(
    sheet: &Sheet<'_, R>,
    keys: &[Q],
) -> io::Result<()> {
    let mut map: GenericPatriciaMap<Q::Owned, u64> = GenericPatriciaMap::new(sheet.rt.alloc());
    let start = Instant::now(sheet.rt)?;
    let loaded = map.sorted_load(keys.iter().map(|key| (*key, 1)));
    let answer = if loaded.is_ok() { map.len() as u64 } else { 0 };
    report(sheet, "sorted_load", start, keys.len(), answer)
}

/// Makes a map of keys in their order.
pub(super) fn time_made<R: AllocGlobal + Clock + Print, Q: BorrowedBytes>(
    sheet: &Sheet<'_, R>,
    keys: &[Q],
) -> io::Result<()> {
    let start = Instant::now(sheet.rt)?;
    let pairs = keys.iter().map(|key| (*key, 1));
    let map: GenericPatriciaMap<Q::Owned, u64> = GenericPatriciaMap::from_iter(
        sheet.rt.alloc(),
        pairs,
    )?;
    report(sheet, "from_iter", start, keys.len(), map.len() as u64)
}

// Makes the set of what two sets share.
fn time_intersection<R: Clock + Print, T: Bytes>(
    sheet: &Sheet<'_, R>,
    all: &GenericPatriciaSet<T>,
    part: &GenericPatriciaSet<T>,
) -> io::Result<()> {
    let start = Instant::now(sheet.rt)?;
    let both = all.intersection(part)?;
    report(sheet, "intersection", start, part.len(), both.len() as u64)
}

// Makes the set of what the second set has not.
fn time_difference<R: Clock + Print, T: Bytes>(
    sheet: &Sheet<'_, R>,
    all: &GenericPatriciaSet<T>,
    part: &GenericPatriciaSet<T>,
) -> io::Result<()> {
    let start = Instant::now(sheet.rt)?;
    let rest = all.difference(part)?;
    report(sheet, "difference", start, all.len(), rest.len() as u64)
}

// Compares two sets of which the first has all elements of the second.
fn time_subset<R: Clock + Print, T: Bytes>(
    sheet: &Sheet<'_, R>,
    all: &GenericPatriciaSet<T>,
    part: &GenericPatriciaSet<T>,
) -> io::Result<()> {
    let start = Instant::now(sheet.rt)?;
    let is_part = part.is_subset(all)?;
    report(sheet, "is_subset", start, part.len(), u64::from(is_part))
}

// Makes the union of two sets.
fn time_both<R: Clock + Print, T: Bytes>(
    sheet: &Sheet<'_, R>,
    first: &GenericPatriciaSet<T>,
    second: &GenericPatriciaSet<T>,
) -> io::Result<GenericPatriciaSet<T>> {
    let start = Instant::now(sheet.rt)?;
    let union = first.union(second)?;
    report(sheet, "union", start, union.len(), union.len() as u64)?;
    Ok(union)
}

// Makes the union of two sets, and the other sets of it and the second one.
fn time_sets<R: Clock + Print, T: Bytes>(
    sheet: &Sheet<'_, R>,
    first: &GenericPatriciaSet<T>,
    second: &GenericPatriciaSet<T>,
) -> io::Result<()> {
    let union = time_both(sheet, first, second)?;
    time_intersection(sheet, &union, second)?;
    time_difference(sheet, &union, second)?;
    time_subset(sheet, &union, second)
}

/// Makes sets of two lists, and sets of these two.
pub(super) fn time_union<R: AllocGlobal + Clock + Print, Q: BorrowedBytes>(
    sheet: &Sheet<'_, R>,
    first: &[Q],
    second: &[Q],
) -> io::Result<()> {
    let first = set_of(sheet.rt.alloc(), first)?;
    let second = set_of(sheet.rt.alloc(), second)?;
    time_sets(sheet, &first, &second)
}
