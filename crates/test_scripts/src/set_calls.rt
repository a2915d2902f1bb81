//! The calls of a set.

use crate::answering::{Answering, Listed, add_entries};
use crate::answers::Answers;
use crate::kinds::{Readable, Shown};
use crate::walks::add_walk;
use crate::wholes::{self, Whole};
use crate::{calls, set_bulk, set_queries};
use patricia_tree::wire::WireError;
use patricia_tree::{BorrowedBytes, Bytes, DecodeError, GenericPatriciaSet};
use std::alloc::{AllocError, Global};
use std::iter::IntoIterator;
use std::mem;

type Set<K> = GenericPatriciaSet<K>;

/// A set that answers calls.
#[derive(Drop)]
pub(super) struct SetCalls<K: Bytes> {
    pub(super) set: Set<K>,
}

impl<K: Bytes> Listed for SetCalls<K> {
    fn empty(alloc: Global) -> Self {
        SetCalls {
            set: GenericPatriciaSet::new(alloc),
        }
    }

    fn add_walked(&self, out: &mut String) -> Result<(), AllocError> {
        add_walk((&self.set).into_iter(), self.set.len(), out)
    }
}

impl<'a, Q: Readable<'a>> Answering<'a, Q> for SetCalls<Q::Owned>
where
    Q::Owned: Shown,
{
    fn answer(
        &mut self,
        alloc: Global,
        call: &str,
        arguments: &'a [Vec<u8>],
        out: &mut String,
    ) -> Result<(), AllocError> {
        wholes::answer::<Q, Self>(self, alloc, call, arguments, out)
    }
}

impl<'a, Q: Readable<'a>> Whole<'a, Q> for SetCalls<Q::Owned>
where
    Q::Owned: Shown,
{
    fn copied(&self) -> Result<Self, AllocError> {
        let set = self.set.clone()?;
        Ok(SetCalls { set })
    }

    fn split(&mut self, prefix: Q) -> Result<Self, AllocError> {
        let set = self.set.split_by_prefix(prefix)?;
        Ok(SetCalls { set })
    }

    fn put(&mut self, key: Q, _value: u64) -> Result<(), AllocError> {
        self.set.insert(key)?;
        Ok(())
    }

    fn tree(&self, is_wide: bool) -> Result<Vec<u8>, WireError> {
        if is_wide {
            self.set.wide_tree_bytes()
        } else {
            self.set.tree_bytes()
        }
    }

    fn count(&self) -> usize {
        self.set.len()
    }

    fn open(
        &mut self,
        alloc: Global,
        is_wide: bool,
        tree: &[u8],
        count: usize,
    ) -> Result<(), DecodeError> {
        let values = match nothings(alloc, count) {
            Ok(values) => values,
            Err(_) => return Err(DecodeError::Memory),
        };
        self.set = read(alloc, is_wide, tree, values)?;
        Ok(())
    }

    fn read_again(&mut self, alloc: Global, is_wide: bool, tree: &[u8]) -> Result<(), DecodeError> {
        let values = match nothings(alloc, self.set.len()) {
            Ok(values) => values,
            Err(_) => return Err(DecodeError::Memory),
        };
        self.set = read(alloc, is_wide, tree, values)?;
        Ok(())
    }

    fn add_values(&self, _alloc: Global, values: &mut String) -> Result<(), AllocError> {
        for n in 0..self.set.len() {
            values.push_str(if n == 0 { "null" } else { ",null" })?;
        }
        Ok(())
    }

    fn answer_other(
        &mut self,
        alloc: Global,
        call: &str,
        arguments: &'a [Vec<u8>],
        out: &mut String,
    ) -> Result<(), AllocError> {
        match call {
            "insert" | "remove" => add_changes::<Q>(
                &mut self.set,
                call == "insert",
                arguments,
                out,
            ),
            "retain" => add_retained(self, calls::first_number(arguments), out),
            "pop_first" | "pop_last" => add_popped(&mut self.set, call == "pop_first", out),
            "cut" => add_cut::<Q>(&mut self.set, arguments, out),
            "extend"
            | "from_iter"
            | "load"
            | "union"
            | "intersection"
            | "difference"
            | "subset"
            | "disjoint"
            | "same" => { set_bulk::answer::<Q>(alloc, self, call, arguments, out) }
            "read" | "read_wide" => add_read(alloc, self, call == "read_wide", arguments, out),
            "take" => add_taken(
                mem::replace(&mut self.set, GenericPatriciaSet::new(alloc)),
                out,
            ),
            "clear" => {
                self.set.clear();
                Ok(())
            }
            _ => set_queries::answer::<Q>(&self.set, call, arguments, out),
        }
    }
}

// Inserts each element, or removes it.
fn add_changes<'a, Q: Readable<'a>>(
    set: &mut Set<Q::Owned>,
    is_insert: bool,
    elements: &'a [Vec<u8>],
    out: &mut String,
) -> Result<(), AllocError> {
    for element in elements {
        if let Some(element) = Q::read(element) {
            add_change(set, is_insert, element, out)?;
        }
    }
    Ok(())
}

fn add_change<Q: BorrowedBytes>(
    set: &mut Set<Q::Owned>,
    is_insert: bool,
    element: Q,
    out: &mut String,
) -> Result<(), AllocError> {
    let changed = if is_insert {
        set.insert(element)
    } else {
        set.remove(element)
    };
    match changed {
        Ok(is_changed) => out.add_bool(is_changed),
        Err(error) => Err(error),
    }
}

// Keeps the elements that have at least so many bytes. Adds how often the closure was called, too.
fn add_retained<K: Bytes>(
    asked: &mut SetCalls<K>,
    least: usize,
    out: &mut String,
) -> Result<(), AllocError> {
    let mut count: u64 = 0;
    let retained = asked.set.retain(|element| {
        count = count.saturating_add(1);
        element.len() >= least
    });
    out.add_number(count)?;
    match retained {
        Ok(()) => add_entries(asked, out),
        Err(error) => Err(error),
    }
}

// Takes the first element, or the last one.
fn add_popped<K: Bytes>(
    set: &mut Set<K>,
    is_first: bool,
    out: &mut String,
) -> Result<(), AllocError> {
    let popped = if is_first {
        set.pop_first()
    } else {
        set.pop_last()
    };
    match popped {
        Ok(element) => set_queries::add_found(element, out),
        Err(error) => Err(error),
    }
}

// Removes what begins with a prefix.
fn add_cut<'a, Q: Readable<'a>>(
    set: &mut Set<Q::Owned>,
    arguments: &'a [Vec<u8>],
    out: &mut String,
) -> Result<(), AllocError> {
    if let [prefix] = arguments
        && let Some(prefix) = Q::read(prefix)
    {
        return out.add_number(set.remove_prefix(prefix)? as u64);
    }
    out.add("unknown")
}

// So many times `()`, which does not allocate.
fn nothings(alloc: Global, count: usize) -> Result<Vec<()>, AllocError> {
    let mut nothings = Vec::new(alloc);
    for _ in 0..count {
        nothings.push(())?;
    }
    Ok(nothings)
}

// A set that is read from tree bytes, or from wide ones.
fn read<K: Bytes>(
    alloc: Global,
    is_wide: bool,
    tree: &[u8],
    values: Vec<()>,
) -> Result<Set<K>, DecodeError> {
    if is_wide {
        GenericPatriciaSet::from_wide_wire(alloc, tree, values)
    } else {
        GenericPatriciaSet::from_wire(alloc, tree, values)
    }
}

// The elements of a set that is read, or the fault. The second argument says how many values there
// are, each of which is `()` and does not allocate.
fn add_read<'a, K: Bytes>(
    alloc: Global,
    asked: &mut SetCalls<K>,
    is_wide: bool,
    arguments: &'a [Vec<u8>],
    out: &mut String,
) -> Result<(), AllocError> {
    let [tree, count] = arguments else {
        return Ok(());
    };
    let values = nothings(alloc, calls::number(count))?;
    match read(alloc, is_wide, tree, values) {
        Ok(set) => {
            asked.set = set;
            add_entries(asked, out)
        }
        Err(fault) => out.add_fault(fault),
    }
}

// A refused step drops the elements that are left.
fn add_taken<K: Bytes>(set: Set<K>, out: &mut String) -> Result<(), AllocError> {
    let len = set.len();
    add_walk(set.into_iter(), len, out)
}
