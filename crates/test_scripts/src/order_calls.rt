//! The calls of a map about the order of its keys, and how many begin with a prefix.

use crate::answers::Answers;
use crate::key_calls;
use crate::kinds::Readable;
use crate::walks::add_walk;
use patricia_tree::{BorrowedBytes, Bytes, GenericPatriciaMap};
use std::alloc::{AllocError, Global};

type Map<K> = GenericPatriciaMap<K, u64>;

/// Adds the answers to a call.
pub(super) fn answer<'a, Q: Readable<'a>>(
    alloc: Global,
    map: &Map<Q::Owned>,
    call: &str,
    arguments: &'a [Vec<u8>],
    out: &mut String,
) -> Result<(), AllocError> {
    match call {
        "range" | "cursor_range" => add_range::<Q>(map, call == "range", arguments, out),
        "ends" => add_ends(map, out),
        "beside" | "count" | "fold" => add_each::<Q>(map, call, arguments, out),
        _ => key_calls::answer::<Q>(alloc, call, arguments, out),
    }
}

// The entries from one key on, and before another one where there are two.
fn add_range<'a, Q: Readable<'a>>(
    map: &Map<Q::Owned>,
    is_iterator: bool,
    arguments: &'a [Vec<u8>],
    out: &mut String,
) -> Result<(), AllocError> {
    if let [start] = arguments
        && let Some(start) = Q::read(start)
    {
        return add_from(map, is_iterator, start, out);
    }
    if let [start, end] = arguments
        && let Some(start) = Q::read(start)
        && let Some(end) = Q::read(end)
    {
        return add_between(map, is_iterator, start, end, out);
    }
    out.add("unknown")
}

// An iterator gives them, or a cursor lends them.
fn add_from<Q: BorrowedBytes>(
    map: &Map<Q::Owned>,
    is_iterator: bool,
    start: Q,
    out: &mut String,
) -> Result<(), AllocError> {
    if is_iterator {
        add_walk(map.range_from(start), map.len(), out)
    } else {
        add_walk(map.cursor_from(start), map.len(), out)
    }
}

fn add_between<Q: BorrowedBytes>(
    map: &Map<Q::Owned>,
    is_iterator: bool,
    start: Q,
    end: Q,
    out: &mut String,
) -> Result<(), AllocError> {
    if is_iterator {
        add_walk(map.range(start, end), map.len(), out)
    } else {
        add_walk(map.cursor_range(start, end), map.len(), out)
    }
}

// An entry that a call found, or `none`.
fn add_found<K: Bytes>(found: Option<(K, &u64)>, out: &mut String) -> Result<(), AllocError> {
    match found {
        Some((key, value)) => out.add_pair(key.as_bytes(), *value),
        None => out.add("none"),
    }
}

// The first entry and the last one.
fn add_ends<K: Bytes>(map: &Map<K>, out: &mut String) -> Result<(), AllocError> {
    add_found(map.first_key_value()?, out)?;
    add_found(map.last_key_value()?, out)
}

// The answers about each key.
fn add_each<'a, Q: Readable<'a>>(
    map: &Map<Q::Owned>,
    call: &str,
    keys: &'a [Vec<u8>],
    out: &mut String,
) -> Result<(), AllocError> {
    for key in keys {
        if let Some(key) = Q::read(key) {
            add_one(map, call, key, out)?;
        }
    }
    Ok(())
}

fn add_one<Q: BorrowedBytes>(
    map: &Map<Q::Owned>,
    call: &str,
    key: Q,
    out: &mut String,
) -> Result<(), AllocError> {
    match call {
        "count" => out.add_number(map.count_prefix(key)? as u64),
        "fold" => add_folded(map, key, out),
        _ => add_beside(map, key, out),
    }
}

// The entry before a key, and the one after it.
fn add_beside<Q: BorrowedBytes>(
    map: &Map<Q::Owned>,
    key: Q,
    out: &mut String,
) -> Result<(), AllocError> {
    add_found(map.last_before(key)?, out)?;
    add_found(map.first_after(key)?, out)
}

// A number that tells in which order a closure is called at the values under a prefix, also where
// that is refused.
fn add_folded<Q: BorrowedBytes>(
    map: &Map<Q::Owned>,
    prefix: Q,
    out: &mut String,
) -> Result<(), AllocError> {
    let mut folded: u64 = 0;
    let mut step = |_: &[u8], value: &u64| folded = folded.wrapping_mul(31).wrapping_add(*value);
    let visited = if prefix.is_empty() {
        map.for_each(&mut step)
    } else {
        map.for_each_prefix(prefix, &mut step)
    };
    out.add_number(folded)?;
    visited
}
