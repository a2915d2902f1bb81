//! What is answered about tree bytes.

use crate::answers::Answers;
use patricia_tree::wire::{WireError, pair_from_json, pair_to_json};
use std::alloc::{AllocError, Global};

// The number that bytes spell, the high byte first.
fn number(bytes: &[u8]) -> u64 {
    let mut number: u64 = 0;
    for byte in bytes {
        number = number.wrapping_mul(256).wrapping_add(u64::from(*byte));
    }
    number
}

// The number of records whose levels have so many bytes, and the deepest level.
fn records(bytes: &[u8], width: usize) -> (u64, u64) {
    let mut records: u64 = 0;
    let mut deepest: u64 = 0;
    let mut left = bytes;
    for _ in 0..bytes.len() {
        let [_, n, behind @ ..] = left else {
            break;
        };
        let Some((level, rest)) = behind.split_at_checked(width) else {
            break;
        };
        records = records.wrapping_add(1);
        deepest = deepest.max(number(level));
        left = rest.get(*n as usize..).unwrap_or(&[]);
    }
    (records, deepest)
}

/// Adds the numbers of bytes and of records of an encoding, and the deepest level.
pub fn add_size(
    tree: Result<Vec<u8>, WireError>,
    is_wide: bool,
    out: &mut String,
) -> Result<(), AllocError> {
    let bytes = match tree {
        Ok(bytes) => bytes,
        Err(fault) => return out.add_tree(Err(fault)),
    };
    let (records, deepest) = records(&bytes, if is_wide { 4 } else { 2 });
    out.add_number(bytes.len() as u64)?;
    out.add_number(records)?;
    out.add_number(deepest)
}

// Adds a JSON, and what is read from it: its bytes, and the JSON of its values.
fn add_pair(alloc: Global, text: &str, out: &mut String) -> Result<(), AllocError> {
    out.add(text)?;
    let Ok((bytes, values)) = pair_from_json(alloc, text) else {
        return out.add("unread");
    };
    let values = pair_to_json(alloc, &[], values)?;
    out.add_key(&bytes)?;
    out.add(&values)
}

fn add_json_of(
    alloc: Global,
    bytes: &[u8],
    values: &str,
    out: &mut String,
) -> Result<(), AllocError> {
    let Ok((_, values)) = pair_from_json(alloc, values) else {
        return out.add("unread");
    };
    let text = pair_to_json(alloc, bytes, values)?;
    add_pair(alloc, &text, out)
}

/// Adds the JSON of an encoding and of values with commas between, and what is read from it.
pub fn add_json(
    alloc: Global,
    tree: Result<Vec<u8>, WireError>,
    values: &str,
    out: &mut String,
) -> Result<(), AllocError> {
    let values = format!(in alloc; "[[],[{values}]]")?;
    match tree {
        Ok(bytes) => add_json_of(alloc, &bytes, &values, out),
        Err(fault) => out.add_tree(Err(fault)),
    }
}
