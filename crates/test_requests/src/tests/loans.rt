// The calls that lend one value, and cursors that take no step.
use super::helpers::map_of;
use crate::tests::asserts::{done, holds};
use patricia_tree::{BorrowedBytes, Bytes, GenericPatriciaMap};
use std::alloc::{AllocError, Global};
use std::process::Abort;

// Lends the value of a key, by each of two calls, and that of the longest key that begins it, and
// writes to each.
fn call_loans<Q: BorrowedBytes>(
    map: &mut GenericPatriciaMap<Q::Owned, u64>,
    key: Q,
) -> (bool, bool, bool, bool) {
    let one = match map.get_mut(key) {
        Some(place) => {
            *place = 1;
            true
        }
        None => false,
    };
    let two = match map.get_longest_common_prefix_mut(key) {
        Some((_, place)) => {
            *place = 2;
            true
        }
        None => false,
    };
    let three = map.with_longest_common_prefix_mut(key, |_, place| {
        *place = 3;
    });
    let four = map.update(key, |place| *place = 4);
    (one, four.is_some(), two, three.is_some())
}

fn lends_no_entry<K: Bytes>(map: &mut GenericPatriciaMap<K, u64>) -> bool {
    map.iter_mut().value().is_none()
}

fn lends_no_value<K: Bytes>(map: &mut GenericPatriciaMap<K, u64>) -> bool {
    map.values_mut().value().is_none()
}

fn lends_none_under<Q: BorrowedBytes>(
    map: &mut GenericPatriciaMap<Q::Owned, u64>,
    prefix: Q,
) -> bool {
    map.iter_prefix_mut(prefix).value().is_none()
}

// Makes each cursor and drops it. None lends a value before its first step.
fn call_cursors<Q: BorrowedBytes>(map: &mut GenericPatriciaMap<Q::Owned, u64>, key: Q) -> bool {
    lends_no_entry(map) && lends_no_value(map) && lends_none_under(map, key)
}

// Makes a map of some keys, and then the calls with others, each with whether it is there.
fn check_all<Q: BorrowedBytes>(
    rt: &impl Abort,
    alloc: Global,
    stored: &[Q],
    keys: &[(Q, bool)],
) -> Result<(), AllocError> {
    let mut map = map_of(alloc, stored)?;
    for (key, is_there) in keys {
        holds!(rt; call_loans(&mut map, *key) == (*is_there, *is_there, true, true));
        holds!(rt; call_cursors(&mut map, *key));
    }
    Ok(())
}

const BYTES: [&[u8]; 4] = [
    b"",
    b"bar",
    b"bar bar bar bar bar bar bar bar bar",
    b"bar bar bar bar bar bar bar bar bar foo foo",
];

const BYTE_KEYS: [(&[u8], bool); 4] = [
    (b"", true),
    (b"ba", false),
    (b"bar bar bar bar bar bar bar bar bar", true),
    (b"bar bar bar bar bar bar bar bar bar foo foo foo", false),
];

const TEXTS: [&str; 3] = ["", "あ", "あいうえおかきくけこさし"];

const TEXT_KEYS: [(&str, bool); 3] = [("あ", true), ("あいうえおかきくけこさし", true), ("ん", false)];

#[test]
fn bytes_made(rt: HostRuntime) {
    done(&rt, check_all(&rt, rt.alloc(), &BYTES, &[]));
}

#[test]
fn bytes_called(rt: HostRuntime) {
    done(&rt, check_all(&rt, rt.alloc(), &BYTES, &BYTE_KEYS));
}

#[test]
fn texts_made(rt: HostRuntime) {
    done(&rt, check_all(&rt, rt.alloc(), &TEXTS, &[]));
}

#[test]
fn texts_called(rt: HostRuntime) {
    done(&rt, check_all(&rt, rt.alloc(), &TEXTS, &TEXT_KEYS));
}
