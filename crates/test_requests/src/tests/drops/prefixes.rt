//! Prefixes that a map hands out, which outlive it.

use crate::tests::asserts::{done, holds};
use crate::tests::helpers::map_of;
use patricia_tree::{BorrowedBytes, GenericPatriciaMap};
use std::alloc::{AllocError, Global};

// The longest key that begins a key, and the shortest.
fn ends_of<Q: BorrowedBytes>(
    map: &GenericPatriciaMap<Q::Owned, u64>,
    key: Q,
) -> (Option<Q>, Option<Q>) {
    let longest = match map.get_longest_common_prefix(key) {
        Some((front, _)) => Some(front),
        None => None,
    };
    match map.common_prefixes(key).next() {
        Some((front, _)) => (longest, Some(front)),
        None => (longest, None),
    }
}

fn is_same<Q: BorrowedBytes>(found: Option<Q>, wanted: Q) -> bool {
    match found {
        Some(found) => found.as_bytes() == wanted.as_bytes(),
        None => false,
    }
}

// Whether a map of two keys hands out their keys for a longer one, and they outlive it.
fn keeps_prefixes<Q: BorrowedBytes>(alloc: Global, keys: &[Q], key: Q) -> Result<bool, AllocError> {
    let map = map_of(alloc, keys)?;
    let (longest, shortest) = ends_of(&map, key);
    drop(map);
    match keys {
        [first, second] => Ok(is_same(longest, *second) && is_same(shortest, *first)),
        _ => Ok(false),
    }
}

const NESTED: [&[u8]; 2] = [b"foo", b"foobar"];

#[test]
fn prefixes_outlive_a_dropped_map(rt: HostRuntime) {
    holds!(rt; done(&rt, keeps_prefixes(rt.alloc(), &NESTED, b"foobarbaz")));
}
