//! The functions of the key traits.

use crate::answers::Answers;
use crate::calls;
use crate::kinds::Readable;
use patricia_tree::{BorrowedBytes, Bytes};
use std::alloc::{AllocError, Global};
use std::cmp::Ordering;

/// Adds the answers to a call.
pub(super) fn answer<'a, Q: Readable<'a>>(
    alloc: Global,
    call: &str,
    arguments: &'a [Vec<u8>],
    out: &mut String,
) -> Result<(), AllocError> {
    match call {
        "floor" => add_floors::<Q::Owned>(arguments, out),
        "copy" => add_copies::<Q::Owned>(alloc, arguments, out),
        _ => answer_pair::<Q>(call, arguments, out),
    }
}

// The calls of a key with one argument.
fn answer_pair<'a, Q: Readable<'a>>(
    call: &str,
    arguments: &'a [Vec<u8>],
    out: &mut String,
) -> Result<(), AllocError> {
    let [key, argument] = arguments else {
        return out.add("unknown");
    };
    match Q::read(key) {
        Some(key) => answer_key(call, key, argument, out),
        None => out.add("none"),
    }
}

fn answer_key<Q: BorrowedBytes>(
    call: &str,
    key: Q,
    argument: &[u8],
    out: &mut String,
) -> Result<(), AllocError> {
    match call {
        "common" => add_common(key, argument, out),
        "first" => add_first(key, argument, out),
        "halves" => add_halves(key, calls::number(argument), out),
        _ => out.add("unknown"),
    }
}

// How many bytes of each argument are whole items.
fn add_floors<K: Bytes>(arguments: &[Vec<u8>], out: &mut String) -> Result<(), AllocError> {
    for bytes in arguments {
        out.add_number(K::floor_boundary(bytes) as u64)?;
    }
    Ok(())
}

// The bytes of a key made of an argument.
fn add_copy<K: Bytes>(alloc: Global, bytes: &[u8], out: &mut String) -> Result<(), AllocError> {
    if !K::is_valid_bytes(bytes) {
        return out.add("none");
    }
    let key = K::from_bytes(alloc, bytes)?;
    out.add_key(key.as_bytes())
}

fn add_copies<K: Bytes>(
    alloc: Global,
    arguments: &[Vec<u8>],
    out: &mut String,
) -> Result<(), AllocError> {
    for bytes in arguments {
        add_copy::<K>(alloc, bytes, out)?;
    }
    Ok(())
}

// The length in common, the rest as both calls give it, and whether it is empty.
fn add_common<Q: BorrowedBytes>(key: Q, bytes: &[u8], out: &mut String) -> Result<(), AllocError> {
    let (rest, len) = key.strip_common_prefix_and_len(bytes);
    let again = key.strip_common_prefix(bytes);
    out.add_number(len as u64)?;
    out.add_key(rest.as_bytes())?;
    out.add_key(again.as_bytes())?;
    out.add_bool(rest.is_empty())
}

// The order of the first items.
fn add_first<Q: BorrowedBytes>(key: Q, bytes: &[u8], out: &mut String) -> Result<(), AllocError> {
    if !Q::Owned::is_valid_bytes(bytes) {
        return out.add("none");
    }
    let order = match key.cmp_first_item(bytes) {
        Ordering::Less => "less",
        Ordering::Equal => "equal",
        Ordering::Greater => "greater",
    };
    out.add(order)
}

// The first bytes of a key and the others, where the first are whole items.
fn add_halves<Q: BorrowedBytes>(key: Q, n: usize, out: &mut String) -> Result<(), AllocError> {
    let Some(front) = key.as_bytes().get(..n) else {
        return out.add("none");
    };
    if !Q::Owned::is_valid_bytes(front) {
        return out.add("none");
    }
    out.add_key(key.keep_n_prefix(n).as_bytes())?;
    out.add_key(key.strip_n_prefix(n).as_bytes())
}
