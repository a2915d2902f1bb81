//! The calls that leave a map as it is.

use crate::answers::Answers;
use crate::kinds::{Readable, Shown};
use crate::prefix_calls;
use crate::walks::{add_first, add_walk};
use patricia_tree::{BorrowedBytes, Bytes, GenericPatriciaMap};
use std::alloc::{AllocError, Global};
use std::iter::IntoIterator;

type Map<K> = GenericPatriciaMap<K, u64>;

/// Adds the answers to a call.
pub(super) fn answer<'a, Q: Readable<'a>>(
    alloc: Global,
    map: &Map<Q::Owned>,
    call: &str,
    arguments: &'a [Vec<u8>],
    out: &mut String,
) -> Result<(), AllocError>
where
    Q::Owned: Shown,
{
    match call {
        "get" | "contains" => add_each::<Q>(map, call == "get", arguments, out),
        "len" => out.add_number(map.len() as u64),
        "empty" => out.add_bool(map.is_empty()),
        "keys" => add_walk(map.keys(), map.len(), out),
        "values" => add_walk(map.values(), map.len(), out),
        "cursor" => add_walk(map.cursor(), map.len(), out),
        "begin" => add_begun(map, out),
        "itself" => out.add_bool(map.equals(map)?),
        "debug" | "wide" => <Q::Owned as Shown>::add_map(map, call == "wide", out),
        _ => prefix_calls::answer::<Q>(alloc, map, call, arguments, out),
    }
}

// What each walk gives first, also over a copy that it owns. The walks are dropped there.
fn add_begun<K: Bytes>(map: &Map<K>, out: &mut String) -> Result<(), AllocError> {
    add_first(map.iter(), out)?;
    add_first(map.keys(), out)?;
    add_first(map.values(), out)?;
    add_first(map.cursor(), out)?;
    let copy = map.clone()?;
    add_first(copy.into_iter(), out)
}

// The answer about each key.
fn add_each<'a, Q: Readable<'a>>(
    map: &Map<Q::Owned>,
    is_get: bool,
    keys: &'a [Vec<u8>],
    out: &mut String,
) -> Result<(), AllocError> {
    for key in keys {
        if let Some(key) = Q::read(key) {
            add_one(map, is_get, key, out)?;
        }
    }
    Ok(())
}

fn add_one<Q: BorrowedBytes>(
    map: &Map<Q::Owned>,
    is_get: bool,
    key: Q,
    out: &mut String,
) -> Result<(), AllocError> {
    if is_get {
        out.add_value(map.get(key).copied())
    } else {
        out.add_bool(map.contains_key(key))
    }
}
