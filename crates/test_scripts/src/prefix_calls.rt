//! The calls of a map about prefixes of keys, and about keys that are few edits apart.

use crate::answers::Answers;
use crate::kinds::Readable;
use crate::walks::add_walk;
use crate::{calls, order_calls};
use patricia_tree::{BorrowedBytes, Bytes, GenericPatriciaMap};
use std::alloc::{AllocError, Global};

type Map<K> = GenericPatriciaMap<K, u64>;

/// Adds the answers to a call.
pub(super) fn answer<'a, Q: Readable<'a>>(
    alloc: Global,
    map: &Map<Q::Owned>,
    call: &str,
    arguments: &'a [Vec<u8>],
    out: &mut String,
) -> Result<(), AllocError> {
    match call {
        "longest" | "reach" => add_each::<Q>(map, call == "longest", arguments, out),
        "along" | "along_values" | "along_owned" | "under" | "cursor_prefix" => {
            add_about::<Q>(alloc, map, call, arguments, out)
        }
        "within" => add_within::<Q>(map, arguments, out),
        _ => order_calls::answer::<Q>(alloc, map, call, arguments, out),
    }
}

// The answers about each key.
fn add_each<'a, Q: Readable<'a>>(
    map: &Map<Q::Owned>,
    is_longest: bool,
    keys: &'a [Vec<u8>],
    out: &mut String,
) -> Result<(), AllocError> {
    for key in keys {
        if let Some(key) = Q::read(key) {
            add_one(map, is_longest, key, out)?;
        }
    }
    Ok(())
}

// The entry of the longest key that begins a key, or how far the keys of the map go with it.
fn add_one<Q: BorrowedBytes>(
    map: &Map<Q::Owned>,
    is_longest: bool,
    key: Q,
    out: &mut String,
) -> Result<(), AllocError> {
    if !is_longest {
        return out.add_number(map.longest_common_prefix_len(key) as u64);
    }
    match map.get_longest_common_prefix(key) {
        Some((front, value)) => out.add_pair(front.as_bytes(), *value),
        None => out.add("none"),
    }
}

// The answers of a walk, whose argument is one key.
fn add_about<'a, Q: Readable<'a>>(
    alloc: Global,
    map: &Map<Q::Owned>,
    call: &str,
    arguments: &'a [Vec<u8>],
    out: &mut String,
) -> Result<(), AllocError> {
    if let [key] = arguments
        && let Some(key) = Q::read(key)
    {
        return add_walked(alloc, map, call, key, out);
    }
    out.add("unknown")
}

// The answers of a walk over the common prefixes of a key or under it.
fn add_walked<Q: BorrowedBytes>(
    alloc: Global,
    map: &Map<Q::Owned>,
    call: &str,
    key: Q,
    out: &mut String,
) -> Result<(), AllocError> {
    match call {
        "along" => add_along(map, key, out),
        "along_values" => add_along_values(map, key, out),
        "along_owned" => add_along_a_copy(alloc, map, key, out),
        "under" => add_walk(map.iter_prefix(key), map.len(), out),
        _ => add_walk(map.cursor_prefix(key), map.len(), out),
    }
}

fn add_along<Q: BorrowedBytes>(
    map: &Map<Q::Owned>,
    key: Q,
    out: &mut String,
) -> Result<(), AllocError> {
    for (front, value) in map.common_prefixes(key) {
        out.add_pair(front.as_bytes(), *value)?;
    }
    Ok(())
}

fn add_along_values<Q: BorrowedBytes>(
    map: &Map<Q::Owned>,
    key: Q,
    out: &mut String,
) -> Result<(), AllocError> {
    for value in map.common_prefix_values(key) {
        out.add_number(*value)?;
    }
    Ok(())
}

fn add_along_a_copy<Q: BorrowedBytes>(
    alloc: Global,
    map: &Map<Q::Owned>,
    key: Q,
    out: &mut String,
) -> Result<(), AllocError> {
    let owned = Q::Owned::from_bytes(alloc, key.as_bytes())?;
    add_along_owned(map, owned, out)
}

fn add_along_owned<K: Bytes>(map: &Map<K>, key: K, out: &mut String) -> Result<(), AllocError> {
    for value in map.common_prefix_values_owned(key) {
        out.add_number(*value)?;
    }
    Ok(())
}

// The entries whose key is at most so many edits from a key.
fn add_within<'a, Q: Readable<'a>>(
    map: &Map<Q::Owned>,
    arguments: &'a [Vec<u8>],
    out: &mut String,
) -> Result<(), AllocError> {
    if let [key, limit] = arguments
        && let Some(key) = Q::read(key)
    {
        let limit = u32::try_from(calls::number(limit)).unwrap_or(u32::MAX);
        return add_walk(map.within(key, limit), map.len(), out);
    }
    out.add("unknown")
}
