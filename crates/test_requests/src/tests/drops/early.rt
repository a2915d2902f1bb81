//! Walks and cursors that are dropped after one or two items.

use super::values::{Counted, KEYS, TREE, are_dropped, cells, chain, has_all, map_of};
use crate::tests::asserts::{done, holds};
use patricia_tree::{BorrowedBytes, Bytes, GenericPatriciaMap};
use std::alloc::{AllocError, Global};
use std::cell::Cell;
use std::process::Abort;

// What a walk gives.
type Item<K, V> = Option<Result<(K, V), AllocError>>;

// The first two items of a walk, which is dropped.
fn first_two<K: Bytes, V: Drop>(map: GenericPatriciaMap<K, V>) -> (Item<K, V>, Item<K, V>) {
    let mut walk = map.into_iter();
    let first = walk.next();
    (first, walk.next())
}

// Whether an item is the value of this number, with a key of so many bytes.
fn is_item<K: Bytes>(item: &Item<K, Counted<'_>>, number: usize, len: usize) -> bool {
    match item {
        Some(Ok((key, value))) => value.number == number && key.as_bytes().len() == len,
        _ => false,
    }
}

// Asserts that a walk is dropped with all values but those of the first two items, whose keys have
// one byte and two, and that these are dropped with the items.
fn check_two<K: Bytes>(
    rt: &impl Abort,
    map: GenericPatriciaMap<K, Counted<'_>>,
    cells: &[Cell<u32>],
) {
    let (first, second) = first_two(map);
    holds!(rt; are_dropped(cells, 2, cells.len()));
    holds!(rt; is_item(&first, 0, 1));
    holds!(rt; is_item(&second, 1, 2));
    drop(first);
    drop(second);
    holds!(rt; are_dropped(cells, 0, cells.len()));
}

// A key of each length up to 65,535.
#[test]
fn two_of_a_deep_map(rt: HostRuntime) {
    let cells = done(&rt, cells(rt.alloc(), 65_535));
    let tree = done(&rt, chain(rt.alloc(), u16::MAX, 3));
    let map = done(&rt, map_of::<Vec<u8>>(rt.alloc(), &tree, &cells));
    check_two(&rt, map, &cells);
}

// Whether each of these gives one item. Then it is dropped.
fn gives_entry<K: Bytes, V: Drop>(map: &GenericPatriciaMap<K, V>) -> bool {
    match map.iter().next() {
        Some(Ok(_)) => true,
        _ => false,
    }
}

fn gives_under<Q: BorrowedBytes, V: Drop>(
    map: &GenericPatriciaMap<Q::Owned, V>,
    prefix: Q,
) -> bool {
    match map.iter_prefix(prefix).next() {
        Some(Ok(_)) => true,
        _ => false,
    }
}

fn lends_entry<K: Bytes, V: Drop>(map: &mut GenericPatriciaMap<K, V>) -> bool {
    let mut cursor = map.iter_mut();
    match cursor.next() {
        Ok(Some(_)) => true,
        _ => false,
    }
}

fn lends_value<K: Bytes, V: Drop>(map: &mut GenericPatriciaMap<K, V>) -> bool {
    let mut cursor = map.values_mut();
    match cursor.next() {
        Ok(Some(_)) => true,
        _ => false,
    }
}

fn lends_under<Q: BorrowedBytes, V: Drop>(
    map: &mut GenericPatriciaMap<Q::Owned, V>,
    prefix: Q,
) -> bool {
    let mut cursor = map.iter_prefix_mut(prefix);
    match cursor.next() {
        Ok(Some(_)) => true,
        _ => false,
    }
}

// Asserts that iterators which are dropped after one item leave a map as it is.
fn check_iterators<Q: BorrowedBytes>(
    rt: &impl Abort,
    map: &GenericPatriciaMap<Q::Owned, Counted<'_>>,
    keys: &[Q],
    prefix: Q,
) {
    holds!(rt; gives_entry(map));
    holds!(rt; has_all(map, keys));
    holds!(rt; gives_under(map, prefix));
    holds!(rt; has_all(map, keys));
}

// Asserts the same of cursors.
fn check_cursors<Q: BorrowedBytes>(
    rt: &impl Abort,
    map: &mut GenericPatriciaMap<Q::Owned, Counted<'_>>,
    keys: &[Q],
    prefix: Q,
) {
    holds!(rt; lends_entry(map));
    holds!(rt; has_all(map, keys));
    holds!(rt; lends_value(map));
    holds!(rt; has_all(map, keys));
    holds!(rt; lends_under(map, prefix));
    holds!(rt; has_all(map, keys));
}

// Asserts that no value is dropped by these, and each by dropping the map.
fn check_one<Q: BorrowedBytes>(
    rt: &impl Abort,
    mut map: GenericPatriciaMap<Q::Owned, Counted<'_>>,
    cells: &[Cell<u32>],
    keys: &[Q],
    prefix: Q,
) {
    holds!(rt; has_all(&map, keys));
    check_iterators(rt, &map, keys, prefix);
    check_cursors(rt, &mut map, keys, prefix);
    holds!(rt; are_dropped(cells, 0, 0));
    drop(map);
    holds!(rt; are_dropped(cells, 0, cells.len()));
}

#[test]
fn one_of_four(rt: HostRuntime) {
    let cells = done(&rt, cells(rt.alloc(), 4));
    let map = done(&rt, map_of::<Vec<u8>>(rt.alloc(), &TREE, &cells));
    check_one(&rt, map, &cells, &KEYS, b"ba");
}
