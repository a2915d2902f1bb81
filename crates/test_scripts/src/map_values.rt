//! The calls of a map that make or change values.

use crate::answers::Answers;
use crate::calls;
use crate::kinds::Readable;
use patricia_tree::map::IterMut;
use patricia_tree::{BorrowedBytes, Bytes, GenericPatriciaMap};
use std::alloc::AllocError;
use std::mem;

type Map<K> = GenericPatriciaMap<K, u64>;

/// Adds the answers to a call.
pub(super) fn answer<'a, Q: Readable<'a>>(
    map: &mut Map<Q::Owned>,
    call: &str,
    arguments: &'a [Vec<u8>],
    out: &mut String,
) -> Result<(), AllocError> {
    if call == "raise" {
        return add_raised(map, calls::first_number(arguments) as u64, out);
    }
    for pair in arguments.chunks(2) {
        if let [key, value] = pair
            && let Some(key) = Q::read(key)
        {
            add_one::<Q>(map, call, key, calls::number(value) as u64, out)?;
        }
    }
    Ok(())
}

fn add_one<Q: BorrowedBytes>(
    map: &mut Map<Q::Owned>,
    call: &str,
    key: Q,
    value: u64,
    out: &mut String,
) -> Result<(), AllocError> {
    match call {
        "fill" => add_filled(map, key, value, out),
        "get_or_insert" => add_left(map, key, value, out),
        "lend" => add_lent(lend(map, key, value), out),
        "lend_with" => add_lent(
            map.with_longest_common_prefix_mut(key, |front, there| {
                (front, mem::replace(there, value))
            }),
            out,
        ),
        _ => out.add_value(map.update(key, |there| mem::replace(there, value))),
    }
}

// Makes the value of a new key.
fn add_filled<Q: BorrowedBytes>(
    map: &mut Map<Q::Owned>,
    key: Q,
    value: u64,
    out: &mut String,
) -> Result<(), AllocError> {
    match map.insert_with(key, || value) {
        Ok(is_new) => out.add_bool(is_new),
        Err(error) => Err(error),
    }
}

// Leaves a value in place of the one that is there, which is made if there is none.
fn add_left<Q: BorrowedBytes>(
    map: &mut Map<Q::Owned>,
    key: Q,
    value: u64,
    out: &mut String,
) -> Result<(), AllocError> {
    match map.get_or_insert_with(key, || 0) {
        Ok(there) => out.add_number(mem::replace(there, value)),
        Err(error) => Err(error),
    }
}

// Leaves a value in place of that of the longest key that begins a key.
fn lend<Q: BorrowedBytes>(map: &mut Map<Q::Owned>, key: Q, value: u64) -> Option<(Q, u64)> {
    let (front, there) = map.get_longest_common_prefix_mut(key)?;
    Some((front, mem::replace(there, value)))
}

// Adds the entry that was there.
fn add_lent<Q: BorrowedBytes>(lent: Option<(Q, u64)>, out: &mut String) -> Result<(), AllocError> {
    match lent {
        Some((front, value)) => out.add_pair(front.as_bytes(), value),
        None => out.add("none"),
    }
}

// Adds a number to each value by a cursor, behind its entry as it was.
fn add_raised<K: Bytes>(map: &mut Map<K>, more: u64, out: &mut String) -> Result<(), AllocError> {
    let len = map.len();
    let mut cursor = map.iter_mut();
    for _ in 0..=len {
        if !raise_again(&mut cursor, more, out)? {
            break;
        }
    }
    Ok(())
}

// A step, and where it is refused once more on the same cursor. Returns whether it lent an entry.
fn raise_again<K: Bytes>(
    cursor: &mut IterMut<'_, K, u64>,
    more: u64,
    out: &mut String,
) -> Result<bool, AllocError> {
    match raise(cursor, more, out) {
        Ok(is_lent) => Ok(is_lent),
        Err(_) => {
            out.add("refused")?;
            raise(cursor, more, out)
        }
    }
}

fn raise<K: Bytes>(
    cursor: &mut IterMut<'_, K, u64>,
    more: u64,
    out: &mut String,
) -> Result<bool, AllocError> {
    match cursor.next() {
        Ok(Some((key, value))) => {
            out.add_pair(key.as_bytes(), *value)?;
            *value = value.saturating_add(more);
            Ok(true)
        }
        Ok(None) => Ok(false),
        Err(error) => Err(error),
    }
}
