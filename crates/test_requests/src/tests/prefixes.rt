// The calls about prefixes of keys, with each walk over common prefixes read to its end.
use super::helpers::map_of;
use crate::tests::asserts::{done, holds, same};
use patricia_tree::{BorrowedBytes, Bytes, GenericPatriciaMap};
use std::alloc::{AllocError, Global};
use std::process::Abort;

// What a walk over the common prefixes of a key gives, by each of the three, is so many entries.
fn count_along<Q: BorrowedBytes>(
    rt: &impl Abort,
    map: &GenericPatriciaMap<Q::Owned, u64>,
    key: Q,
    count: usize,
) {
    let mut entries: usize = 0;
    for _ in map.common_prefixes(key) {
        entries = entries.saturating_add(1);
    }
    holds!(rt; entries == count);
}

fn count_values_along<Q: BorrowedBytes>(
    rt: &impl Abort,
    map: &GenericPatriciaMap<Q::Owned, u64>,
    key: Q,
    count: usize,
) {
    let mut values: usize = 0;
    for _ in map.common_prefix_values(key) {
        values = values.saturating_add(1);
    }
    holds!(rt; values == count);
}

fn count_along_owned<K: Bytes>(
    rt: &impl Abort,
    map: &GenericPatriciaMap<K, u64>,
    key: K,
    count: usize,
) {
    let mut values: usize = 0;
    for _ in map.common_prefix_values_owned(key) {
        values = values.saturating_add(1);
    }
    holds!(rt; values == count);
}

// Makes iterators and cursors from a key on, up to it, under it and near it.
fn make_ranges<Q: BorrowedBytes>(map: &GenericPatriciaMap<Q::Owned, u64>, key: Q) {
    drop(map.range_from(key));
    drop(map.range(key, key));
    drop(map.cursor_from(key));
    drop(map.cursor_range(key, key));
    drop(map.cursor_prefix(key));
    drop(map.within(key, 1));
    drop(map.within(key, u32::MAX));
}

// The other calls. A walk under a prefix is made here, and not read, and so are ranges.
fn call_others<Q: BorrowedBytes>(
    rt: &impl Abort,
    map: &GenericPatriciaMap<Q::Owned, u64>,
    key: Q,
    count: usize,
) {
    same!(rt; map.get_longest_common_prefix(key).is_some(), count > 0);
    holds!(rt; map.longest_common_prefix_len(key) <= key.as_bytes().len());
    drop(map.iter_prefix(key));
    make_ranges(map, key);
}

// Makes an owned key of each key, and then the calls where that is asked.
fn call_all<Q: BorrowedBytes>(
    rt: &impl Abort,
    alloc: Global,
    map: &GenericPatriciaMap<Q::Owned, u64>,
    keys: &[(Q, usize)],
    is_called: bool,
) -> Result<(), AllocError> {
    for (key, count) in keys {
        let owned = Q::Owned::from_bytes(alloc, key.as_bytes())?;
        if is_called {
            count_along(rt, map, *key, *count);
            count_values_along(rt, map, *key, *count);
            count_along_owned(rt, map, owned, *count);
            call_others(rt, map, *key, *count);
        }
    }
    Ok(())
}

// Makes a map of some keys, and then the calls where that is asked.
fn check_all<Q: BorrowedBytes>(
    rt: &impl Abort,
    alloc: Global,
    stored: &[Q],
    keys: &[(Q, usize)],
    is_called: bool,
) -> Result<(), AllocError> {
    let map = map_of(alloc, stored)?;
    call_all(rt, alloc, &map, keys, is_called)
}

const BYTES: [&[u8]; 5] = [
    b"",
    b"bar",
    b"bar bar bar bar bar bar bar bar bar",
    b"bar bar bar bar bar bar bar bar bar foo foo",
    b"foo foo foo foo foo foo foo foo foo",
];

// Keys, each with how many of those begin it.
const BYTE_KEYS: [(&[u8], usize); 7] = [
    (b"", 1),
    (b"ba", 1),
    (b"bar", 2),
    (b"bar bar bar bar bar bar bar bar bar", 3),
    (b"bar bar bar bar bar bar bar bar bar foo foo foo", 4),
    (b"foo foo foo foo foo foo foo foo bar", 1),
    (b"zebra", 1),
];

const TEXTS: [&str; 4] = ["あ", "あいうえおかきくけこさし", "あいうえおかきくけこさしす", "いいいいいいいいいいい"];

const TEXT_KEYS: [(&str, usize); 7] = [
    ("", 0),
    ("あ", 1),
    ("あいうえお", 1),
    ("あいうえおかきくけこさしすせ", 3),
    ("いいいいいいいいいいう", 0),
    ("いいいいいいいいいいいう", 1),
    ("ん", 0),
];

#[test]
fn bytes_made(rt: HostRuntime) {
    done(&rt, check_all(&rt, rt.alloc(), &BYTES, &BYTE_KEYS, false));
}

#[test]
fn bytes_called(rt: HostRuntime) {
    done(&rt, check_all(&rt, rt.alloc(), &BYTES, &BYTE_KEYS, true));
}

#[test]
fn texts_made(rt: HostRuntime) {
    done(&rt, check_all(&rt, rt.alloc(), &TEXTS, &TEXT_KEYS, false));
}

#[test]
fn texts_called(rt: HostRuntime) {
    done(&rt, check_all(&rt, rt.alloc(), &TEXTS, &TEXT_KEYS, true));
}
