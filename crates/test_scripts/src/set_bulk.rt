//! The calls of a set that take many elements, or another set.

use crate::answering::{add_entries, add_refusal};
use crate::answers::Answers;
use crate::kinds::Readable;
use crate::set_calls::SetCalls;
use crate::set_pairs;
use patricia_tree::{BorrowedBytes, Bytes, GenericPatriciaSet, LoadError};
use std::alloc::{AllocError, Global};

/// Adds the answers to a call, whose arguments are elements.
pub(super) fn answer<'a, Q: Readable<'a>>(
    alloc: Global,
    asked: &mut SetCalls<Q::Owned>,
    call: &str,
    arguments: &'a [Vec<u8>],
    out: &mut String,
) -> Result<(), AllocError> {
    let elements = elements_again::<Q>(alloc, arguments)?;
    match call {
        "extend" => add_extended(asked, &elements, out),
        "load" => add_loaded(asked, &elements, out),
        _ => add_made_of(
            asked,
            GenericPatriciaSet::from_iter(alloc, elements)?,
            call,
            out,
        ),
    }
}

fn elements<'a, Q: Readable<'a>>(
    alloc: Global,
    arguments: &'a [Vec<u8>],
) -> Result<Vec<Q>, AllocError> {
    let mut elements = Vec::new(alloc);
    for element in arguments {
        if let Some(element) = Q::read(element) {
            elements.push(element)?;
        }
    }
    Ok(elements)
}

// The same. What is refused here is none of the library's, and asked for once more.
fn elements_again<'a, Q: Readable<'a>>(
    alloc: Global,
    arguments: &'a [Vec<u8>],
) -> Result<Vec<Q>, AllocError> {
    match elements::<Q>(alloc, arguments) {
        Ok(elements) => Ok(elements),
        Err(_) => elements::<Q>(alloc, arguments),
    }
}

// Puts elements into the set. Adds how many it took, too.
fn add_extended<Q: BorrowedBytes>(
    asked: &mut SetCalls<Q::Owned>,
    elements: &[Q],
    out: &mut String,
) -> Result<(), AllocError> {
    let mut taken: u64 = 0;
    let extended = asked.set.extend(
        elements.iter().map(|element| {
            taken = taken.saturating_add(1);
            *element
        }),
    );
    out.add_number(taken)?;
    match extended {
        Ok(()) => add_entries(asked, out),
        Err(error) => Err(error),
    }
}

// Loads elements, and where one is refused what it left, and from this one on once more.
fn add_loaded<Q: BorrowedBytes>(
    asked: &mut SetCalls<Q::Owned>,
    elements: &[Q],
    out: &mut String,
) -> Result<(), AllocError> {
    let Some(taken) = load(&mut asked.set, elements, out)? else {
        return add_entries(asked, out);
    };
    add_refusal(asked, out)?;
    let left = elements.get(taken.saturating_sub(1)..).unwrap_or(&[]);
    match load(&mut asked.set, left, out)? {
        Some(_) => Err(AllocError),
        None => add_entries(asked, out),
    }
}

// Loads elements up to the first that is not in order. Adds how many it took, and whether one was
// not in order. Returns how many it took where memory ran out.
fn load<Q: BorrowedBytes>(
    set: &mut GenericPatriciaSet<Q::Owned>,
    elements: &[Q],
    out: &mut String,
) -> Result<Option<usize>, AllocError> {
    let mut taken: usize = 0;
    let loaded = set.sorted_load(
        elements.iter().map(|element| {
            taken = taken.saturating_add(1);
            *element
        }),
    );
    out.add_number(taken as u64)?;
    match loaded {
        Ok(()) => Ok(None),
        Err(LoadError::Memory) => Ok(Some(taken)),
        Err(LoadError::NotInOrder) => {
            out.add_text(&LoadError::NotInOrder)?;
            Ok(None)
        }
    }
}

// The calls with another set. Where one is refused, it adds what the other set has.
fn add_made_of<K: Bytes>(
    asked: &mut SetCalls<K>,
    other: GenericPatriciaSet<K>,
    call: &str,
    out: &mut String,
) -> Result<(), AllocError> {
    if call == "from_iter" {
        asked.set = other;
        return add_entries(asked, out);
    }
    match add_of_two(asked, &other, call, out) {
        Ok(()) => Ok(()),
        Err(error) => {
            add_entries(&SetCalls { set: other }, out)?;
            Err(error)
        }
    }
}

// What a call makes of two sets, or tells of them.
fn add_of_two<K: Bytes>(
    asked: &SetCalls<K>,
    other: &GenericPatriciaSet<K>,
    call: &str,
    out: &mut String,
) -> Result<(), AllocError> {
    if matches!(call, "subset" | "disjoint" | "same") {
        return set_pairs::add_told(&asked.set, other, call, out);
    }
    let set = set_pairs::made(&asked.set, other, call)?;
    add_entries(&SetCalls { set }, out)
}
