//! The calls of a map and of a set alike: copies, parts and encodings.

use crate::answering::{Listed, add_entries};
use crate::answers::Answers;
use crate::kinds::Readable;
use crate::{calls, encodings};
use patricia_tree::wire::{DecodeError, WireError};
use std::alloc::{AllocError, Global};
use std::mem;

/// A map or a set.
pub trait Whole<'a, Q: Readable<'a>>: Listed {
    /// A copy.
    fn copied(&self) -> Result<Self, AllocError>;

    /// Removes what begins with the prefix.
    fn split(&mut self, prefix: Q) -> Result<Self, AllocError>;

    /// Puts a key in, that of a map with the value.
    fn put(&mut self, key: Q, value: u64) -> Result<(), AllocError>;

    /// The tree bytes, or wide ones.
    fn tree(&self, is_wide: bool) -> Result<Vec<u8>, WireError>;

    /// How many entries there are.
    fn count(&self) -> usize;

    /// Puts what tree bytes mean with the numbers from 1 on as values in place of it.
    fn open(
        &mut self,
        alloc: Global,
        is_wide: bool,
        tree: &[u8],
        count: usize,
    ) -> Result<(), DecodeError>;

    /// Puts what tree bytes mean with the values that are there in place of it.
    fn read_again(&mut self, alloc: Global, is_wide: bool, tree: &[u8]) -> Result<(), DecodeError>;

    /// Adds the values as JSON with commas between. Those of a set are nothing.
    fn add_values(&self, alloc: Global, values: &mut String) -> Result<(), AllocError>;

    /// Adds the answers to another call.
    fn answer_other(
        &mut self,
        alloc: Global,
        call: &str,
        arguments: &'a [Vec<u8>],
        out: &mut String,
    ) -> Result<(), AllocError>;
}

/// Adds the answers to a call.
pub fn answer<'a, Q: Readable<'a>, W: Whole<'a, Q>>(
    asked: &mut W,
    alloc: Global,
    call: &str,
    arguments: &'a [Vec<u8>],
    out: &mut String,
) -> Result<(), AllocError> {
    match call {
        "iter" => add_entries(asked, out),
        "clone" => add_copy(asked, out),
        "split" | "split_off" => add_split(asked, call == "split_off", arguments, out),
        "twin" => add_twin(asked, out),
        "part" => add_part(asked, arguments, out),
        "open" | "open_wide" => add_opened(asked, alloc, call == "open_wide", arguments, out),
        "reload" | "reload_wide" => add_reloaded(asked, alloc, call == "reload_wide", out),
        "fronts" => put_fronts(asked, arguments),
        "tree" | "tree_wide" => out.add_tree(asked.tree(call == "tree_wide")),
        "size" | "size_wide" => {
            encodings::add_size(asked.tree(call == "size_wide"), call == "size_wide", out)
        }
        "json" => add_json(asked, alloc, out),
        _ => asked.answer_other(alloc, call, arguments, out),
    }
}

// What was taken, and what is left. The calls go on with what is left, or with what was taken.
fn add_parts<W: Listed>(
    taken: &mut W,
    left: &mut W,
    is_taken: bool,
    out: &mut String,
) -> Result<(), AllocError> {
    add_entries(taken, out)?;
    out.add("and")?;
    add_entries(left, out)?;
    if is_taken {
        mem::swap(taken, left);
    }
    Ok(())
}

// What a split takes, and what it leaves. The argument is one prefix.
fn add_split<'a, Q: Readable<'a>, W: Whole<'a, Q>>(
    asked: &mut W,
    is_taken: bool,
    arguments: &'a [Vec<u8>],
    out: &mut String,
) -> Result<(), AllocError> {
    if let [prefix] = arguments
        && let Some(prefix) = Q::read(prefix)
    {
        let mut taken = asked.split(prefix)?;
        return add_parts(&mut taken, asked, is_taken, out);
    }
    out.add("unknown")
}

// The copy, and what was copied. The calls go on with the copy.
fn add_copy<'a, Q: Readable<'a>, W: Whole<'a, Q>>(
    asked: &mut W,
    out: &mut String,
) -> Result<(), AllocError> {
    let mut copy = asked.copied()?;
    add_parts(&mut copy, asked, true, out)
}

// How many entries a copy has, with which the calls go on.
fn add_twin<'a, Q: Readable<'a>, W: Whole<'a, Q>>(
    asked: &mut W,
    out: &mut String,
) -> Result<(), AllocError> {
    *asked = asked.copied()?;
    out.add_number(asked.count() as u64)
}

// How many entries a split takes, with which the calls go on, and how many it leaves.
fn add_part<'a, Q: Readable<'a>, W: Whole<'a, Q>>(
    asked: &mut W,
    arguments: &'a [Vec<u8>],
    out: &mut String,
) -> Result<(), AllocError> {
    if let [prefix] = arguments
        && let Some(prefix) = Q::read(prefix)
    {
        let taken = asked.split(prefix)?;
        let left = mem::replace(asked, taken);
        out.add_number(asked.count() as u64)?;
        return out.add_number(left.count() as u64);
    }
    out.add("unknown")
}

// How many entries there are, or the fault, once tree bytes are read with so many values.
fn add_opened<'a, Q: Readable<'a>, W: Whole<'a, Q>>(
    asked: &mut W,
    alloc: Global,
    is_wide: bool,
    arguments: &'a [Vec<u8>],
    out: &mut String,
) -> Result<(), AllocError> {
    let [tree, count] = arguments else {
        return out.add("unknown");
    };
    match asked.open(alloc, is_wide, tree, calls::number(count)) {
        Ok(()) => out.add_number(asked.count() as u64),
        Err(fault) => out.add_fault(fault),
    }
}

// How many entries there are once the tree bytes are read again.
fn add_reloaded<'a, Q: Readable<'a>, W: Whole<'a, Q>>(
    asked: &mut W,
    alloc: Global,
    is_wide: bool,
    out: &mut String,
) -> Result<(), AllocError> {
    let tree = match asked.tree(is_wide) {
        Ok(tree) => tree,
        Err(fault) => return out.add_tree(Err(fault)),
    };
    match asked.read_again(alloc, is_wide, &tree) {
        Ok(()) => out.add_number(asked.count() as u64),
        Err(fault) => out.add_fault(fault),
    }
}

// Puts each prefix of the keys in but the empty one, each with its length as its value.
fn put_fronts<'a, Q: Readable<'a>, W: Whole<'a, Q>>(
    asked: &mut W,
    keys: &'a [Vec<u8>],
) -> Result<(), AllocError> {
    for key in keys {
        put_fronts_of(asked, key)?;
    }
    Ok(())
}

fn put_fronts_of<'a, Q: Readable<'a>, W: Whole<'a, Q>>(
    asked: &mut W,
    key: &'a [u8],
) -> Result<(), AllocError> {
    for n in 1..=key.len() {
        if let Some(front) = key.get(..n)
            && let Some(front) = Q::read(front)
        {
            asked.put(front, n as u64)?;
        }
    }
    Ok(())
}

// The JSON of the tree bytes and the values, and what is read from it.
fn add_json<'a, Q: Readable<'a>, W: Whole<'a, Q>>(
    asked: &W,
    alloc: Global,
    out: &mut String,
) -> Result<(), AllocError> {
    let mut values = String::new(alloc);
    asked.add_values(alloc, &mut values)?;
    encodings::add_json(alloc, asked.tree(false), &values, out)
}
