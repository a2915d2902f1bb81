ghost use Rattle.std.specs.Prelude.{◌≡◌, ◌<◌};

use super::helpers::map_of;
use crate::tests::asserts::{done, holds};
use patricia_tree::{BorrowedBytes, Bytes, GenericPatriciaMap, Steps};
use std::alloc::{AllocError, Global};
use std::iter;
use std::marker::Brand;
use std::process::Abort;
use std::sync::ledger::{Blank, Ledger};

fn is_counted<Q: BorrowedBytes, L: Ledger>(
    map: &GenericPatriciaMap<Q::Owned, u64>,
    key: Q,
    steps: &mut Steps<L>,
) -> bool {
    map.get_counted(key, steps).is_some()
}

// Whether a key is found, by each of two calls, or not.
fn is_found<Q: BorrowedBytes>(
    map: &GenericPatriciaMap<Q::Owned, u64>,
    key: Q,
    is_stored: bool,
) -> bool {
    map.contains_key(key) == is_stored && map.get(key).is_some() == is_stored
}

// Whether each call on each key finds it or not.
fn are_found<Q: BorrowedBytes, L: Ledger>(
    map: &GenericPatriciaMap<Q::Owned, u64>,
    keys: &[Q],
    is_stored: bool,
    blank: Blank,
) -> bool
    requires name { blank.name ≡ L.name }
    requires parts { blank.parts ≡ L.parts }
    requires some { 0 < L.parts }
{
    let mut steps: Steps<L> = Steps::new(blank);
    for key in keys {
        if !is_found(map, *key, is_stored) || is_counted(map, *key, &mut steps) != is_stored {
            return false;
        }
    }
    true
}

// Whether an insert is done, where the key was there or was not.
fn is_put<Q: BorrowedBytes>(
    map: &mut GenericPatriciaMap<Q::Owned, u64>,
    key: Q,
    is_stored: bool,
) -> bool {
    match map.insert(key, key.as_bytes().len() as u64) {
        Ok(old) => old.is_some() == is_stored,
        Err(_) => false,
    }
}

fn are_put<Q: BorrowedBytes>(
    map: &mut GenericPatriciaMap<Q::Owned, u64>,
    keys: &[Q],
    is_stored: bool,
) -> bool {
    for key in keys {
        if !is_put(map, *key, is_stored) {
            return false;
        }
    }
    true
}

// Whether a removal is done, where the key was there or was not.
fn is_removed<Q: BorrowedBytes>(
    map: &mut GenericPatriciaMap<Q::Owned, u64>,
    key: Q,
    is_stored: bool,
) -> bool {
    match map.remove(key) {
        Ok(old) => old.is_some() == is_stored,
        Err(_) => false,
    }
}

fn are_removed<Q: BorrowedBytes>(
    map: &mut GenericPatriciaMap<Q::Owned, u64>,
    keys: &[Q],
    is_stored: bool,
) -> bool {
    for key in keys {
        if !is_removed(map, *key, is_stored) {
            return false;
        }
    }
    true
}

fn has_entry<K: Bytes>(map: &GenericPatriciaMap<K, u64>) -> bool {
    map.iter().next().is_some()
}

fn has_key<K: Bytes>(map: &GenericPatriciaMap<K, u64>) -> bool {
    map.keys().next().is_some()
}

fn has_value<K: Bytes>(map: &GenericPatriciaMap<K, u64>) -> bool {
    map.values().next().is_some()
}

fn has_owned<K: Bytes>(map: GenericPatriciaMap<K, u64>) -> bool {
    map.into_iter().next().is_some()
}

// Whether a search among the keys of a map finds some.
fn has_near<Q: BorrowedBytes>(map: &GenericPatriciaMap<Q::Owned, u64>, sought: Q) -> bool {
    !matches!(map.within(sought, u32::MAX).advance(), Ok(false))
}

// Whether no walk over a map gives an entry, nor one over what is left once it is cleared.
fn is_empty_each_way<K: Bytes>(mut map: GenericPatriciaMap<K, u64>) -> bool {
    if has_entry(&map) || has_key(&map) || has_value(&map) {
        return false;
    }
    map.clear();
    !has_owned(map)
}

// Makes walks.
fn make_walks<K: Bytes>(map: GenericPatriciaMap<K, u64>) {
    drop(map.iter());
    drop(map.keys());
    drop(map.values());
    drop(map.into_iter());
}

// Clears a map, and returns whether it is empty then.
fn is_cleared<K: Bytes>(mut map: GenericPatriciaMap<K, u64>) -> bool {
    map.clear();
    map.is_empty()
}

// The keys of a test. No removal of `removed`, in its order, joins labels.
struct Keys<'a, Q> {
    stored: &'a [Q],
    absent: &'a [Q],
    removed: &'a [Q],
    empty: &'a [Q],
}

fn look_up_each<Q: BorrowedBytes>(
    rt: &impl Abort,
    map: &GenericPatriciaMap<Q::Owned, u64>,
    keys: &Keys<'_, Q>,
) {
    assert!(rt; are_found::<Q, Brand>(map, keys.stored, true, Blank::new(1)));
    assert!(rt; are_found::<Q, Brand>(map, keys.absent, false, Blank::new(1)));
}

// Looks all keys up at once.
fn look_up_all<Q: BorrowedBytes>(
    rt: &impl Abort,
    map: &GenericPatriciaMap<Q::Owned, u64>,
    keys: &[Q],
) {
    holds!(rt; map.get_many_into(keys, &mut [None; 9]) == keys.len());
    holds!(rt; map.contains_many_into(keys, &mut [false; 9]) == keys.len());
}

// Whether a map that is not empty has as many keys as are left, and the empty one.
fn has_left<Q: BorrowedBytes>(map: &GenericPatriciaMap<Q::Owned, u64>, keys: &Keys<'_, Q>) -> bool {
    let left = keys.stored.len().saturating_sub(keys.removed.len());
    map.len() == left.saturating_add(1) && !map.is_empty()
}

fn remove_each<Q: BorrowedBytes>(
    rt: &impl Abort,
    map: &mut GenericPatriciaMap<Q::Owned, u64>,
    keys: &Keys<'_, Q>,
) {
    holds!(rt; are_removed(map, keys.absent, false));
    holds!(rt; are_removed(map, keys.removed, true));
    holds!(rt; are_removed(map, keys.removed, false));
}

fn change_each<Q: BorrowedBytes>(
    rt: &impl Abort,
    map: &mut GenericPatriciaMap<Q::Owned, u64>,
    keys: &Keys<'_, Q>,
) {
    holds!(rt; are_put(map, keys.stored, true));
    remove_each(rt, map, keys);
    holds!(rt; are_put(map, keys.empty, false));
    holds!(rt; has_left(map, keys));
}

// Whether a split by a prefix under which there is nothing is made. One that begins a key is left
// out.
fn is_split<Q: BorrowedBytes>(map: &mut GenericPatriciaMap<Q::Owned, u64>, prefix: Q) -> bool {
    map.longest_common_prefix_len(prefix) >= prefix.as_bytes().len()
        || map.split_by_prefix(prefix).is_ok()
}

fn are_split<Q: BorrowedBytes>(
    map: &mut GenericPatriciaMap<Q::Owned, u64>,
    prefixes: &[Q],
) -> bool {
    for prefix in prefixes {
        if !is_split(map, *prefix) {
            return false;
        }
    }
    true
}

// Puts each key in by a call that takes pairs.
fn extend_all<Q: BorrowedBytes>(
    map: &mut GenericPatriciaMap<Q::Owned, u64>,
    keys: &[Q],
) -> Result<(), AllocError> {
    for key in keys {
        map.extend(iter::once((*key, key.as_bytes().len() as u64)))?;
    }
    Ok(())
}

// Hands the map over by the empty prefix, and takes it back. Returns whether nothing was left.
fn is_handed_over<Q: BorrowedBytes>(
    map: &mut GenericPatriciaMap<Q::Owned, u64>,
    empty: Q,
) -> Result<bool, AllocError> {
    let taken = map.split_by_prefix(empty)?;
    let left = map.clone()?.is_empty();
    *map = taken;
    Ok(left)
}

// Makes a map of the empty key alone by a call that takes pairs, and returns whether it is there.
fn is_made_of_pairs<Q: BorrowedBytes>(alloc: Global, empty: Q) -> Result<bool, AllocError> {
    let map = GenericPatriciaMap::from_iter(alloc, iter::once((empty, 1)))?;
    Ok(map.get(empty).copied() == Some(1))
}

// The calls with the empty key.
fn take_whole<Q: BorrowedBytes>(
    rt: &impl Abort,
    alloc: Global,
    map: &mut GenericPatriciaMap<Q::Owned, u64>,
    empty: &[Q],
) -> Result<(), AllocError> {
    for key in empty {
        holds!(rt; is_handed_over(map, *key)?);
        holds!(rt; is_made_of_pairs(alloc, *key)?);
    }
    Ok(())
}

// The calls on whole maps. The map ends as it was.
fn take_each<Q: BorrowedBytes>(
    rt: &impl Abort,
    alloc: Global,
    map: &mut GenericPatriciaMap<Q::Owned, u64>,
    keys: &Keys<'_, Q>,
) -> Result<(), AllocError> {
    holds!(rt; are_split(map, keys.absent));
    extend_all(map, keys.stored)?;
    take_whole(rt, alloc, map, keys.empty)?;
    holds!(rt; map.len() == keys.stored.len());
    Ok(())
}

// Makes each call on a map that stays.
fn call_each<Q: BorrowedBytes>(
    rt: &impl Abort,
    alloc: Global,
    map: &mut GenericPatriciaMap<Q::Owned, u64>,
    keys: &Keys<'_, Q>,
) -> Result<(), AllocError> {
    look_up_each(rt, map, keys);
    look_up_all(rt, map, keys.stored);
    take_each(rt, alloc, map, keys)?;
    change_each(rt, map, keys);
    Ok(())
}

// Makes a map, and then each call.
fn call_one<Q: BorrowedBytes>(
    rt: &impl Abort,
    alloc: Global,
    keys: &Keys<'_, Q>,
) -> Result<(), AllocError> {
    let mut map = map_of(alloc, keys.stored)?;
    call_each(rt, alloc, &mut map, keys)?;
    make_walks(map);
    Ok(())
}

// Makes two maps, and then each call.
fn call_all<Q: BorrowedBytes>(
    rt: &impl Abort,
    alloc: Global,
    keys: &Keys<'_, Q>,
) -> Result<(), AllocError> {
    call_one(rt, alloc, keys)?;
    holds!(rt; is_cleared(map_of(alloc, keys.stored)?));
    let empty = GenericPatriciaMap::<Q::Owned, u64>::new(alloc);
    for key in keys.empty {
        holds!(rt; !has_near(&empty, *key));
    }
    holds!(rt; is_empty_each_way(empty));
    Ok(())
}

// Makes a map, and returns how many keys it has.
fn made_len<Q: BorrowedBytes>(alloc: Global, keys: &[Q]) -> Result<usize, AllocError> {
    Ok(map_of(alloc, keys)?.len())
}

// Makes two maps.
fn make<Q: BorrowedBytes>(
    rt: &impl Abort,
    alloc: Global,
    keys: &Keys<'_, Q>,
) -> Result<(), AllocError> {
    let len = made_len(alloc, keys.stored)?;
    holds!(rt; made_len(alloc, keys.stored)? == len);
    Ok(())
}

// A leaf of three siblings, the node above the other two, a leaf whose sibling keeps the node
// above, which has a value, then the sibling, the node above, a leaf of the top siblings, and the
// empty key. Any two labels of the long keys, joined, would have more than 30 bytes, and those of
// `foo` have more each.
const BYTES: Keys<'static, &'static [u8]> = Keys {
    stored: &[
        b"",
        b"foo bar baz foo bar baz foo bar baz",
        b"foo bar baz foo bar baz foo bar bazaaaaaaaaaaaaaaaaaaaaaaaaaaaaaaaaa",
        b"foo bar baz foo bar baz foo bar bazbbbbbbbbbbbbbbbbbbbbbbbbbbbbbbbbb",
        b"foo bar baz foo bar baz foo bar bazccccccccccccccccccccccccccccccccc",
        b"bar bar bar bar bar ",
        b"bar bar bar bar bar nnnnnnnnnnnnnnnnnnnn",
        b"bar bar bar bar bar ssssssssssssssssssss",
        b"x",
    ],
    absent: &[
        b"fo",
        b"foo bar baz foo bar baz foo bar bazd",
        b"foo bar baz foo bar baz foo bar bazaaaaaaaaaaaaaaaaaaaaaaaaaaaaaaaaaa",
        b"a",
        b"zebra",
        b"bar bar bar bar bar nnnnnnnnnnnnnnnnnnn",
    ],
    removed: &[
        b"foo bar baz foo bar baz foo bar bazbbbbbbbbbbbbbbbbbbbbbbbbbbbbbbbbb",
        b"foo bar baz foo bar baz foo bar baz",
        b"bar bar bar bar bar nnnnnnnnnnnnnnnnnnnn",
        b"bar bar bar bar bar ssssssssssssssssssss",
        b"bar bar bar bar bar ",
        b"x",
        b"",
    ],
    empty: &[b""],
};

const TEXTS: Keys<'static, &'static str> = Keys {
    stored: &[
        "",
        "あいうえおかきくけこさ",
        "あいうえおかきくけこさいいいいいいいいいいい",
        "あいうえおかきくけこさううううううううううう",
        "あいうえおかきくけこさえええええええええええ",
        "いいいいいい",
        "いいいいいいろろろろろろ",
        "いいいいいいはははははは",
        "x",
    ],
    absent: &[
        "う",
        "あいうえおかきくけこさお",
        "あいうえおかきくけこさいいいいいいいいいいいう",
        "a",
        "んん",
        "いいいいいいろろろろろ",
    ],
    removed: &[
        "あいうえおかきくけこさううううううううううう",
        "あいうえおかきくけこさ",
        "いいいいいいろろろろろろ",
        "いいいいいいはははははは",
        "いいいいいい",
        "x",
        "",
    ],
    empty: &[""],
};

#[test]
fn bytes_made(rt: HostRuntime) {
    done(&rt, make(&rt, rt.alloc(), &BYTES));
}

#[test]
fn bytes_called(rt: HostRuntime) {
    done(&rt, call_all(&rt, rt.alloc(), &BYTES));
}

#[test]
fn texts_made(rt: HostRuntime) {
    done(&rt, make(&rt, rt.alloc(), &TEXTS));
}

#[test]
fn texts_called(rt: HostRuntime) {
    done(&rt, call_all(&rt, rt.alloc(), &TEXTS));
}
