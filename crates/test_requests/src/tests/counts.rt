// Entries and elements counted under prefixes behind which no key has more than 64 bytes.
use crate::tests::asserts::{done, holds};
use patricia_tree::{
    BorrowedBytes, GenericPatriciaMap, GenericPatriciaSet, PatriciaMap, PatriciaSet,
};
use std::alloc::{AllocError, Global};

// Whether so many entries of a map and so many elements of a set are counted under each prefix.
fn counts_each<Q: BorrowedBytes>(
    map: &GenericPatriciaMap<Q::Owned, u64>,
    set: &GenericPatriciaSet<Q::Owned>,
    prefixes: &[(Q, usize)],
) -> bool {
    for (prefix, wanted) in prefixes {
        let entries = map.count_prefix(*prefix).ok();
        let elements = set.count_prefix(*prefix).ok();
        if entries != Some(*wanted) || elements != Some(*wanted) {
            return false;
        }
    }
    true
}

// Puts a key into a map and a set.
fn put<Q: BorrowedBytes>(
    map: &mut GenericPatriciaMap<Q::Owned, u64>,
    set: &mut GenericPatriciaSet<Q::Owned>,
    key: Q,
) -> Result<(), AllocError> {
    if map.insert(key, 1).is_err() {
        return Err(AllocError);
    }
    set.insert(key)?;
    Ok(())
}

// Whether a map and a set of some keys are counted so.
fn counts<Q: BorrowedBytes>(
    alloc: Global,
    keys: &[Q],
    prefixes: &[(Q, usize)],
) -> Result<bool, AllocError> {
    let mut map: GenericPatriciaMap<Q::Owned, u64> = GenericPatriciaMap::new(alloc);
    let mut set: GenericPatriciaSet<Q::Owned> = GenericPatriciaSet::new(alloc);
    for key in keys {
        put(&mut map, &mut set, *key)?;
    }
    Ok(counts_each(&map, &set, prefixes))
}

// The last one has 64 bytes behind `f`.
const TEXTS: [&str; 7] = [
    "",
    "bar",
    "bar bar bar bar bar bar bar bar bar",
    "bar bar bar bar bar bar bar bar bar foo",
    "baz",
    "foo",
    "f23456789 123456789 123456789 123456789 123456789 123456789 12345",
];

const PREFIXES: [(&str, usize); 10] = [
    ("b", 4),
    ("ba", 4),
    ("bar", 3),
    ("bar bar", 2),
    ("bar bar bar bar bar bar bar bar bar foo", 1),
    ("bar bar bar bar bar bar bar bar bar foo foo", 0),
    ("f", 2),
    ("f2", 1),
    ("x", 0),
    ("", 7),
];

#[test]
fn texts_made(rt: HostRuntime) {
    holds!(rt; done(&rt, counts(rt.alloc(), &TEXTS, &[])));
}

#[test]
fn texts_called(rt: HostRuntime) {
    holds!(rt; done(&rt, counts(rt.alloc(), &TEXTS, &PREFIXES)));
}

const LETTERS: [u8; 66] = [b'a'; 66];

// Whether the fronts of the letters are counted so, each of which is a key that the next one begins
// with.
fn counts_nested(alloc: Global, prefixes: &[(&[u8], usize)]) -> Result<bool, AllocError> {
    let mut map: PatriciaMap<u64> = PatriciaMap::new(alloc);
    let mut set: PatriciaSet = PatriciaSet::new(alloc);
    for len in 1..=LETTERS.len() {
        if let Some(key) = LETTERS.get(..len) {
            put(&mut map, &mut set, key)?;
        }
    }
    Ok(counts_each(&map, &set, prefixes))
}

#[test]
fn nested_made(rt: HostRuntime) {
    holds!(rt; done(&rt, counts_nested(rt.alloc(), &[])));
}

#[test]
fn nested_called(rt: HostRuntime) {
    let prefixes: [(&[u8], usize); 3] = [(b"aa", 65), (b"aaaa", 63), (b"", 66)];
    holds!(rt; done(&rt, counts_nested(rt.alloc(), &prefixes)));
}
