//! The calls of a map that take many pairs, or another map.

use crate::answering::{add_entries, add_refusal};
use crate::answers::Answers;
use crate::calls;
use crate::kinds::Readable;
use crate::map_calls::MapCalls;
use patricia_tree::{BorrowedBytes, Bytes, GenericPatriciaMap, LoadError};
use std::alloc::{AllocError, Global};

type Map<K> = GenericPatriciaMap<K, u64>;

/// Adds the answers to a call, whose arguments are keys, each with its value after it.
pub(super) fn answer<'a, Q: Readable<'a>>(
    alloc: Global,
    asked: &mut MapCalls<Q::Owned>,
    call: &str,
    arguments: &'a [Vec<u8>],
    out: &mut String,
) -> Result<(), AllocError> {
    let pairs = pairs_again::<Q>(alloc, arguments)?;
    match call {
        "extend" => add_extended(asked, &pairs, out),
        "load" => add_loaded(asked, &pairs, out),
        _ => add_made_of(
            asked,
            GenericPatriciaMap::from_iter(alloc, pairs)?,
            call,
            out,
        ),
    }
}

fn pairs<'a, Q: Readable<'a>>(
    alloc: Global,
    arguments: &'a [Vec<u8>],
) -> Result<Vec<(Q, u64)>, AllocError> {
    let mut pairs = Vec::new(alloc);
    for pair in arguments.chunks(2) {
        if let [key, value] = pair
            && let Some(key) = Q::read(key)
        {
            pairs.push((key, calls::number(value) as u64))?;
        }
    }
    Ok(pairs)
}

// The same. What is refused here is none of the library's, and asked for once more.
fn pairs_again<'a, Q: Readable<'a>>(
    alloc: Global,
    arguments: &'a [Vec<u8>],
) -> Result<Vec<(Q, u64)>, AllocError> {
    match pairs::<Q>(alloc, arguments) {
        Ok(pairs) => Ok(pairs),
        Err(_) => pairs::<Q>(alloc, arguments),
    }
}

// Puts pairs into the map. Adds how many it took, too.
fn add_extended<Q: BorrowedBytes>(
    asked: &mut MapCalls<Q::Owned>,
    pairs: &[(Q, u64)],
    out: &mut String,
) -> Result<(), AllocError> {
    let mut taken: u64 = 0;
    let extended = asked.map.extend(
        pairs.iter().map(|pair| {
            taken = taken.saturating_add(1);
            *pair
        }),
    );
    out.add_number(taken)?;
    match extended {
        Ok(()) => add_entries(asked, out),
        Err(error) => Err(error),
    }
}

// Loads pairs, and where one is refused what it left, and from this one on once more.
fn add_loaded<Q: BorrowedBytes>(
    asked: &mut MapCalls<Q::Owned>,
    pairs: &[(Q, u64)],
    out: &mut String,
) -> Result<(), AllocError> {
    let Some(taken) = load(&mut asked.map, pairs, out)? else {
        return add_entries(asked, out);
    };
    add_refusal(asked, out)?;
    let left = pairs.get(taken.saturating_sub(1)..).unwrap_or(&[]);
    match load(&mut asked.map, left, out)? {
        Some(_) => Err(AllocError),
        None => add_entries(asked, out),
    }
}

// Loads pairs up to the first that is not in order. Adds how many it took, and whether one was not
// in order. Returns how many it took where memory ran out.
fn load<Q: BorrowedBytes>(
    map: &mut Map<Q::Owned>,
    pairs: &[(Q, u64)],
    out: &mut String,
) -> Result<Option<usize>, AllocError> {
    let mut taken: usize = 0;
    let loaded = map.sorted_load(
        pairs.iter().map(|pair| {
            taken = taken.saturating_add(1);
            *pair
        }),
    );
    out.add_number(taken as u64)?;
    match loaded {
        Ok(()) => Ok(None),
        Err(LoadError::Memory) => Ok(Some(taken)),
        Err(LoadError::NotInOrder) => {
            out.add_text(&LoadError::NotInOrder)?;
            Ok(None)
        }
    }
}

// The calls with another map.
fn add_made_of<K: Bytes>(
    asked: &mut MapCalls<K>,
    other: Map<K>,
    call: &str,
    out: &mut String,
) -> Result<(), AllocError> {
    match call {
        "merge" => add_merged(asked, other, out),
        "same" => add_same(asked, &MapCalls { map: other }, out),
        _ => {
            asked.map = other;
            add_entries(asked, out)
        }
    }
}

// Merges another map in. Of two values for one key the greater stays. Adds how often the closure
// was called, too.
fn add_merged<K: Bytes>(
    asked: &mut MapCalls<K>,
    other: Map<K>,
    out: &mut String,
) -> Result<(), AllocError> {
    let mut count: u64 = 0;
    let merged = asked.map.merge_with(other, |value, new| {
        count = count.saturating_add(1);
        *value = (*value).max(new);
    });
    out.add_number(count)?;
    match merged {
        Ok(()) => add_entries(asked, out),
        Err(error) => Err(error),
    }
}

// Whether the map has the same entries as another one, or what the other one has where that is
// refused.
fn add_same<K: Bytes>(
    asked: &MapCalls<K>,
    other: &MapCalls<K>,
    out: &mut String,
) -> Result<(), AllocError> {
    match asked.map.equals(&other.map) {
        Ok(is_same) => out.add_bool(is_same),
        Err(error) => {
            add_entries(other, out)?;
            Err(error)
        }
    }
}
