//! The calls of a map.

use crate::answering::{Answering, Listed, add_entries, add_refusal};
use crate::answers::Answers;
use crate::kinds::{Readable, Shown};
use crate::walks::add_walk;
use crate::wholes::{self, Whole};
use crate::{calls, map_bulk, map_queries, map_values};
use patricia_tree::wire::WireError;
use patricia_tree::{BorrowedBytes, Bytes, DecodeError, GenericPatriciaMap};
use std::alloc::{AllocError, Global};
use std::iter::IntoIterator;
use std::mem;

type Map<K> = GenericPatriciaMap<K, u64>;

/// A map that answers calls.
#[derive(Drop)]
pub(super) struct MapCalls<K: Bytes> {
    pub(super) map: Map<K>,
}

impl<K: Bytes> Listed for MapCalls<K> {
    fn empty(alloc: Global) -> Self {
        MapCalls {
            map: GenericPatriciaMap::new(alloc),
        }
    }

    fn add_walked(&self, out: &mut String) -> Result<(), AllocError> {
        add_walk((&self.map).into_iter(), self.map.len(), out)
    }
}

impl<'a, Q: Readable<'a>> Answering<'a, Q> for MapCalls<Q::Owned>
where
    Q::Owned: Shown,
{
    fn answer(
        &mut self,
        alloc: Global,
        call: &str,
        arguments: &'a [Vec<u8>],
        out: &mut String,
    ) -> Result<(), AllocError> {
        wholes::answer::<Q, Self>(self, alloc, call, arguments, out)
    }
}

impl<'a, Q: Readable<'a>> Whole<'a, Q> for MapCalls<Q::Owned>
where
    Q::Owned: Shown,
{
    fn copied(&self) -> Result<Self, AllocError> {
        let map = self.map.clone()?;
        Ok(MapCalls { map })
    }

    fn split(&mut self, prefix: Q) -> Result<Self, AllocError> {
        let map = self.map.split_by_prefix(prefix)?;
        Ok(MapCalls { map })
    }

    fn put(&mut self, key: Q, value: u64) -> Result<(), AllocError> {
        match self.map.insert(key, value) {
            Ok(_) => Ok(()),
            Err(_) => Err(AllocError),
        }
    }

    fn tree(&self, is_wide: bool) -> Result<Vec<u8>, WireError> {
        if is_wide {
            self.map.wide_tree_bytes()
        } else {
            self.map.tree_bytes()
        }
    }

    fn count(&self) -> usize {
        self.map.len()
    }

    fn open(
        &mut self,
        alloc: Global,
        is_wide: bool,
        tree: &[u8],
        count: usize,
    ) -> Result<(), DecodeError> {
        let values = match numbers(alloc, count) {
            Ok(values) => values,
            Err(_) => return Err(DecodeError::Memory),
        };
        self.map = read(alloc, is_wide, tree, values)?;
        Ok(())
    }

    fn read_again(&mut self, alloc: Global, is_wide: bool, tree: &[u8]) -> Result<(), DecodeError> {
        let values = match copied_values(alloc, &self.map) {
            Ok(values) => values,
            Err(_) => return Err(DecodeError::Memory),
        };
        self.map = read(alloc, is_wide, tree, values)?;
        Ok(())
    }

    fn add_values(&self, alloc: Global, values: &mut String) -> Result<(), AllocError> {
        for value in self.map.values() {
            add_json_value(alloc, values, value)?;
        }
        Ok(())
    }

    fn answer_other(
        &mut self,
        alloc: Global,
        call: &str,
        arguments: &'a [Vec<u8>],
        out: &mut String,
    ) -> Result<(), AllocError> {
        match call {
            "insert" => add_inserts::<Q>(self, arguments, out),
            "remove" => add_removals::<Q>(&mut self.map, arguments, out),
            "extend" | "from_iter" | "merge" | "load" | "same" => {
                map_bulk::answer::<Q>(alloc, self, call, arguments, out)
            }
            "retain" => add_retained(self, calls::first_number(arguments) as u64, out),
            "pop_first" | "pop_last" => add_popped(&mut self.map, call == "pop_first", out),
            "cut" => add_cut::<Q>(&mut self.map, arguments, out),
            "read" | "read_wide" => add_read(alloc, self, call == "read_wide", arguments, out),
            "take" => add_taken(
                mem::replace(&mut self.map, GenericPatriciaMap::new(alloc)),
                out,
            ),
            "clear" => {
                self.map.clear();
                Ok(())
            }
            "kept" => add_kept::<Q>(
                mem::replace(&mut self.map, GenericPatriciaMap::new(alloc)),
                arguments,
                out,
            ),
            "fill" | "update" | "get_or_insert" | "raise" | "lend" | "lend_with" => {
                map_values::answer::<Q>(&mut self.map, call, arguments, out)
            }
            _ => map_queries::answer::<Q>(alloc, &self.map, call, arguments, out),
        }
    }
}

// Adds a value that a walk gives to some with commas between.
fn add_json_value(
    alloc: Global,
    values: &mut String,
    value: Result<&u64, AllocError>,
) -> Result<(), AllocError> {
    let digits = value?.to_string(alloc)?;
    if !values.is_empty() {
        values.push(',')?;
    }
    values.push_str(&digits)
}

// Keeps the entries whose value is at least a number. Adds how often the closure was called, too.
fn add_retained<K: Bytes>(
    asked: &mut MapCalls<K>,
    least: u64,
    out: &mut String,
) -> Result<(), AllocError> {
    let mut count: u64 = 0;
    let retained = asked.map.retain(|_, value| {
        count = count.saturating_add(1);
        *value >= least
    });
    out.add_number(count)?;
    match retained {
        Ok(()) => add_entries(asked, out),
        Err(error) => Err(error),
    }
}

// Takes the first entry, or the last one.
fn add_popped<K: Bytes>(
    map: &mut Map<K>,
    is_first: bool,
    out: &mut String,
) -> Result<(), AllocError> {
    let popped = if is_first {
        map.pop_first()
    } else {
        map.pop_last()
    };
    match popped {
        Ok(Some((key, value))) => out.add_pair(key.as_bytes(), value),
        Ok(None) => out.add("none"),
        Err(error) => Err(error),
    }
}

// Removes what begins with a prefix.
fn add_cut<'a, Q: Readable<'a>>(
    map: &mut Map<Q::Owned>,
    arguments: &'a [Vec<u8>],
    out: &mut String,
) -> Result<(), AllocError> {
    if let [prefix] = arguments
        && let Some(prefix) = Q::read(prefix)
    {
        return out.add_number(map.remove_prefix(prefix)? as u64);
    }
    out.add("unknown")
}

fn add_inserts<'a, Q: Readable<'a>>(
    asked: &mut MapCalls<Q::Owned>,
    arguments: &'a [Vec<u8>],
    out: &mut String,
) -> Result<(), AllocError> {
    for pair in arguments.chunks(2) {
        if let [key, value] = pair
            && let Some(key) = Q::read(key)
        {
            add_insert(asked, key, calls::number(value) as u64, out)?;
        }
    }
    Ok(())
}

// A refusal gives the value back, and the same value is then inserted.
fn add_insert<Q: BorrowedBytes>(
    asked: &mut MapCalls<Q::Owned>,
    key: Q,
    value: u64,
    out: &mut String,
) -> Result<(), AllocError> {
    match asked.map.insert(key, value) {
        Ok(old) => out.add_value(old),
        Err(refused) => {
            add_refusal(asked, out)?;
            add_last_insert(asked, key, refused.value, out)
        }
    }
}

fn add_last_insert<Q: BorrowedBytes>(
    asked: &mut MapCalls<Q::Owned>,
    key: Q,
    value: u64,
    out: &mut String,
) -> Result<(), AllocError> {
    match asked.map.insert(key, value) {
        Ok(old) => out.add_value(old),
        Err(_) => Err(AllocError),
    }
}

fn add_removals<'a, Q: Readable<'a>>(
    map: &mut Map<Q::Owned>,
    keys: &'a [Vec<u8>],
    out: &mut String,
) -> Result<(), AllocError> {
    for key in keys {
        if let Some(key) = Q::read(key) {
            add_removal(map, key, out)?;
        }
    }
    Ok(())
}

fn add_removal<Q: BorrowedBytes>(
    map: &mut Map<Q::Owned>,
    key: Q,
    out: &mut String,
) -> Result<(), AllocError> {
    match map.remove(key) {
        Ok(old) => out.add_value(old),
        Err(error) => Err(error),
    }
}

// The arguments are numbers.
fn values(alloc: Global, arguments: &[Vec<u8>]) -> Result<Vec<u64>, AllocError> {
    let mut values = Vec::new(alloc);
    for value in arguments {
        values.push(calls::number(value) as u64)?;
    }
    Ok(values)
}

// The same. What is refused here is none of the library's, and asked for once more.
fn values_again(alloc: Global, arguments: &[Vec<u8>]) -> Result<Vec<u64>, AllocError> {
    match values(alloc, arguments) {
        Ok(values) => Ok(values),
        Err(_) => values(alloc, arguments),
    }
}

// The numbers from 1 on.
fn numbers(alloc: Global, count: usize) -> Result<Vec<u64>, AllocError> {
    let mut numbers = Vec::new(alloc);
    for n in 1..=count {
        numbers.push(n as u64)?;
    }
    Ok(numbers)
}

fn copied_values<K: Bytes>(alloc: Global, map: &Map<K>) -> Result<Vec<u64>, AllocError> {
    let mut values = Vec::new(alloc);
    for value in map.values() {
        values.push(*value?)?;
    }
    Ok(values)
}

// A map that is read from tree bytes, or from wide ones.
fn read<K: Bytes>(
    alloc: Global,
    is_wide: bool,
    tree: &[u8],
    values: Vec<u64>,
) -> Result<Map<K>, DecodeError> {
    if is_wide {
        GenericPatriciaMap::from_wide_wire(alloc, tree, values)
    } else {
        GenericPatriciaMap::from_wire(alloc, tree, values)
    }
}

// The entries of a map that is read, or the fault.
fn add_read<K: Bytes>(
    alloc: Global,
    asked: &mut MapCalls<K>,
    is_wide: bool,
    arguments: &[Vec<u8>],
    out: &mut String,
) -> Result<(), AllocError> {
    let [tree, others @ ..] = arguments else {
        return Ok(());
    };
    match read(alloc, is_wide, tree, values_again(alloc, others)?) {
        Ok(map) => {
            asked.map = map;
            add_entries(asked, out)
        }
        Err(fault) => out.add_fault(fault),
    }
}

// A refused step drops the entries that are left.
fn add_taken<K: Bytes>(map: Map<K>, out: &mut String) -> Result<(), AllocError> {
    let len = map.len();
    add_walk(map.into_iter(), len, out)
}

// The longest key that begins a key and the shortest one, which are there once the map is dropped.
fn add_kept<'a, Q: Readable<'a>>(
    map: Map<Q::Owned>,
    arguments: &'a [Vec<u8>],
    out: &mut String,
) -> Result<(), AllocError> {
    if let [key] = arguments
        && let Some(key) = Q::read(key)
    {
        let (longest, shortest) = ends_along(map, key);
        add_front(longest, out)?;
        return add_front(shortest, out);
    }
    out.add("unknown")
}

// The same, of a map that is dropped.
fn ends_along<Q: BorrowedBytes>(map: Map<Q::Owned>, key: Q) -> (Option<Q>, Option<Q>) {
    let longest = match map.get_longest_common_prefix(key) {
        Some((front, _)) => Some(front),
        None => None,
    };
    let shortest = match map.common_prefixes(key).next() {
        Some((front, _)) => Some(front),
        None => None,
    };
    drop(map);
    (longest, shortest)
}

fn add_front<Q: BorrowedBytes>(front: Option<Q>, out: &mut String) -> Result<(), AllocError> {
    match front {
        Some(front) => out.add_key(front.as_bytes()),
        None => out.add("none"),
    }
}
