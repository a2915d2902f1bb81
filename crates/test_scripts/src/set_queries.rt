//! The calls that leave a set as it is.

use crate::answers::Answers;
use crate::kinds::{Readable, Shown};
use crate::walks::add_walk;
use patricia_tree::{BorrowedBytes, Bytes, GenericPatriciaSet};
use std::alloc::AllocError;

type Set<K> = GenericPatriciaSet<K>;

/// Adds the answers to a call.
pub(super) fn answer<'a, Q: Readable<'a>>(
    set: &Set<Q::Owned>,
    call: &str,
    arguments: &'a [Vec<u8>],
    out: &mut String,
) -> Result<(), AllocError>
where
    Q::Owned: Shown,
{
    match call {
        "len" => out.add_number(set.len() as u64),
        "empty" => out.add_bool(set.is_empty()),
        "debug" | "wide" => <Q::Owned as Shown>::add_set(set, call == "wide", out),
        "cursor" => add_walk(set.cursor(), set.len(), out),
        "itself" => out.add_bool(set.equals(set)?),
        "range" | "cursor_range" => add_range::<Q>(set, call == "range", arguments, out),
        "ends" => add_ends(set, out),
        _ => add_questions::<Q>(set, call, arguments, out),
    }
}

// The answers about each argument.
fn add_questions<'a, Q: Readable<'a>>(
    set: &Set<Q::Owned>,
    call: &str,
    arguments: &'a [Vec<u8>],
    out: &mut String,
) -> Result<(), AllocError> {
    for argument in arguments {
        if let Some(argument) = Q::read(argument) {
            add_question(set, call, argument, out)?;
        }
    }
    Ok(())
}

fn add_question<Q: BorrowedBytes>(
    set: &Set<Q::Owned>,
    call: &str,
    argument: Q,
    out: &mut String,
) -> Result<(), AllocError> {
    match call {
        "contains" => out.add_bool(set.contains(argument)),
        "reach" => out.add_number(set.longest_common_prefix_len(argument) as u64),
        "longest" => add_longest(set, argument, out),
        "under" => add_walk(set.iter_prefix(argument), set.len(), out),
        "cursor_prefix" => add_walk(set.cursor_prefix(argument), set.len(), out),
        "beside" => add_beside(set, argument, out),
        "fold" => add_folded(set, argument, out),
        "count" => out.add_number(set.count_prefix(argument)? as u64),
        _ => out.add("unknown"),
    }
}

// The longest element that begins a key.
fn add_longest<Q: BorrowedBytes>(
    set: &Set<Q::Owned>,
    key: Q,
    out: &mut String,
) -> Result<(), AllocError> {
    match set.get_longest_common_prefix(key) {
        Some(element) => out.add_key(element.as_bytes()),
        None => out.add("none"),
    }
}

// The elements from one on, and before another one where there are two.
fn add_range<'a, Q: Readable<'a>>(
    set: &Set<Q::Owned>,
    is_iterator: bool,
    arguments: &'a [Vec<u8>],
    out: &mut String,
) -> Result<(), AllocError> {
    if let [start] = arguments
        && let Some(start) = Q::read(start)
    {
        return add_from(set, is_iterator, start, out);
    }
    if let [start, end] = arguments
        && let Some(start) = Q::read(start)
        && let Some(end) = Q::read(end)
    {
        return add_between(set, is_iterator, start, end, out);
    }
    out.add("unknown")
}

// An iterator gives them, or a cursor lends them.
fn add_from<Q: BorrowedBytes>(
    set: &Set<Q::Owned>,
    is_iterator: bool,
    start: Q,
    out: &mut String,
) -> Result<(), AllocError> {
    if is_iterator {
        add_walk(set.range_from(start), set.len(), out)
    } else {
        add_walk(set.cursor_from(start), set.len(), out)
    }
}

fn add_between<Q: BorrowedBytes>(
    set: &Set<Q::Owned>,
    is_iterator: bool,
    start: Q,
    end: Q,
    out: &mut String,
) -> Result<(), AllocError> {
    if is_iterator {
        add_walk(set.range(start, end), set.len(), out)
    } else {
        add_walk(set.cursor_range(start, end), set.len(), out)
    }
}

/// Adds an element that a call found, or `none`.
pub(super) fn add_found<K: Bytes>(found: Option<K>, out: &mut String) -> Result<(), AllocError> {
    match found {
        Some(element) => out.add_key(element.as_bytes()),
        None => out.add("none"),
    }
}

// The first element and the last one.
fn add_ends<K: Bytes>(set: &Set<K>, out: &mut String) -> Result<(), AllocError> {
    add_found(set.first()?, out)?;
    add_found(set.last()?, out)
}

// The element before a key and the one after it.
fn add_beside<Q: BorrowedBytes>(
    set: &Set<Q::Owned>,
    key: Q,
    out: &mut String,
) -> Result<(), AllocError> {
    add_found(set.last_before(key)?, out)?;
    add_found(set.first_after(key)?, out)
}

// A number that tells in which order a closure is called at the elements under a prefix, also where
// that is refused.
fn add_folded<Q: BorrowedBytes>(
    set: &Set<Q::Owned>,
    prefix: Q,
    out: &mut String,
) -> Result<(), AllocError> {
    let mut folded: u64 = 0;
    let mut step = |element: &[u8]| folded = folded
        .wrapping_mul(31)
        .wrapping_add(element.len() as u64);
    let visited = if prefix.is_empty() {
        set.for_each(&mut step)
    } else {
        set.for_each_prefix(prefix, &mut step)
    };
    out.add_number(folded)?;
    visited
}
