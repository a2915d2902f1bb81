//! The traits by which std extends maps and sets and collects into them, of which one call may be
//! refused, and is then made once more. `tests/test_refusals.py` refuses the Nth memory request,
//! for each N.

use crate::tests::asserts::{holds, same};
use patricia_tree::{StringPatriciaMap, StringPatriciaSet};
use std::alloc::Global;
use std::cell::Cell;
use std::iter::{Extend, Iterator};

// Entries in key order, of which the second key begins the third one.
const ENTRIES: [(&str, u64); 5] = [
    ("", 1),
    ("a beginning that is longer than a node keeps", 2),
    (
        "a beginning that is longer than a node keeps, and that of another",
        3,
    ),
    ("bar", 4),
    ("baz", 5),
];

// A number that is counted as long as it is there.
struct Counted<'a> {
    number: u64,
    count: &'a Cell<usize>,
}

impl Drop for Counted<'_> {
    fn drop(self) {
        let Counted { number: _, count } = self;
        count.set(count.get().wrapping_sub(1));
    }
}

fn make_counted<'a>(number: u64, count: &'a Cell<usize>) -> Counted<'a> {
    count.set(count.get().wrapping_add(1));
    Counted { number, count }
}

type Map<'a> = StringPatriciaMap<Counted<'a>>;

// Whether a map has these entries and no other, and there are no other values.
fn has(map: &Map<'_>, entries: &[(&str, u64)], count: &Cell<usize>) -> bool {
    for (key, number) in entries {
        let found = match map.get(*key) {
            Some(value) => value.number == *number,
            None => false,
        };
        if !found {
            return false;
        }
    }
    map.len() == entries.len() && count.get() == entries.len()
}

// Extends a map by all entries, and counts those that it takes. Returns whether it is done.
fn extend<'a>(map: &mut Map<'a>, count: &'a Cell<usize>, taken: &mut usize) -> bool {
    let pairs = ENTRIES.iter().map(|(key, number)| {
        *taken = taken.saturating_add(1);
        (*key, make_counted(*number, count))
    });
    Extend::extend(map, pairs).is_ok()
}

// The same, once more where it is refused: the last entry taken is the refused one, and those
// before it are there.
fn extends<'a>(map: &mut Map<'a>, count: &'a Cell<usize>) -> bool {
    let mut taken = 0;
    if extend(map, count, &mut taken) {
        return taken == ENTRIES.len();
    }
    let Some(there) = ENTRIES.get(..taken.saturating_sub(1)) else {
        return false;
    };
    has(map, there, count) && extend(map, count, &mut taken)
}

#[test]
fn map_extends_refused_in_turn(rt: HostRuntime) {
    let count = Cell::new(0);
    let mut map = Map::new(rt.alloc());
    holds!(rt; extends(&mut map, &count));
    holds!(rt; has(&map, &ENTRIES, &count));
    drop(map);
    same!(rt; count.get(), 0);
}

// A map that the entries are collected into, or none where that is refused.
fn collected<'a>(alloc: Global, count: &'a Cell<usize>) -> Option<Map<'a>> {
    ENTRIES
        .iter()
        .map(|(key, number)| (*key, make_counted(*number, count)))
        .collect(alloc)
        .ok()
}

#[test]
fn map_collects_refused_in_turn(rt: HostRuntime) {
    let count = Cell::new(0);
    let mut map = collected(rt.alloc(), &count);
    if map.is_none() {
        same!(rt; count.get(), 0);
        map = collected(rt.alloc(), &count);
    }
    holds!(rt; map.is_some_and(|map| has(&map, &ENTRIES, &count)));
    same!(rt; count.get(), 0);
}

// Elements in order, of which the first begins the second.
const ELEMENTS: [&str; 4] = [
    "a beginning that is longer than a node keeps",
    "a beginning that is longer than a node keeps, and that of another",
    "bar",
    "baz",
];

fn has_elements(set: &StringPatriciaSet, elements: &[&str]) -> bool {
    for element in elements {
        if !set.contains(*element) {
            return false;
        }
    }
    set.len() == elements.len()
}

// Extends a set by all elements, and counts those that it takes. Returns whether it is done.
fn extend_set(set: &mut StringPatriciaSet, taken: &mut usize) -> bool {
    let elements = ELEMENTS.iter().map(|element| {
        *taken = taken.saturating_add(1);
        *element
    });
    Extend::extend(set, elements).is_ok()
}

// The same, once more where it is refused.
fn extends_set(set: &mut StringPatriciaSet) -> bool {
    let mut taken = 0;
    if extend_set(set, &mut taken) {
        return taken == ELEMENTS.len();
    }
    let Some(there) = ELEMENTS.get(..taken.saturating_sub(1)) else {
        return false;
    };
    has_elements(set, there) && extend_set(set, &mut taken)
}

#[test]
fn set_extends_refused_in_turn(rt: HostRuntime) {
    let mut set = StringPatriciaSet::new(rt.alloc());
    holds!(rt; extends_set(&mut set));
    holds!(rt; has_elements(&set, &ELEMENTS));
}

// A set that the elements are collected into, or none where that is refused.
fn collected_set(alloc: Global) -> Option<StringPatriciaSet> {
    ELEMENTS.iter().copied().collect(alloc).ok()
}

#[test]
fn set_collects_refused_in_turn(rt: HostRuntime) {
    let mut set = collected_set(rt.alloc());
    if set.is_none() {
        set = collected_set(rt.alloc());
    }
    holds!(rt; set.is_some_and(|set| has_elements(&set, &ELEMENTS)));
}
