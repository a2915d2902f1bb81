//! The calls of a map that are timed.
use patricia_tree::map::ValuesMut;
use patricia_tree::{BorrowedBytes, Bytes, GenericPatriciaMap};
use std::alloc::{AllocError, Global};
use std::mem;

/// A call for each of some keys.
#[derive(Clone, Copy)]
pub(super) enum Each {
    Put,
    Get,
    // of many keys by each call
    GetMany,
    From,
    Under,
    Longest,
    // of many keys by each call
    LongestMany,
    After,
    Before,
    Take,
}

// Whether the key is new, as a number.
fn put<Q: BorrowedBytes>(
    map: &mut GenericPatriciaMap<Q::Owned, u64>,
    key: Q,
    value: u64,
) -> Result<u64, AllocError> {
    match map.insert(key, value) {
        Ok(old) => Ok(u64::from(old.is_none())),
        Err(_) => Err(AllocError),
    }
}

// 1 for what a walk gives.
fn one<T: Drop>(item: Result<T, AllocError>) -> Result<u64, AllocError> {
    item?;
    Ok(1)
}

// The lengths of the keys of ten entries from a key on, which a cursor lends.
fn from_ten<Q: BorrowedBytes>(
    map: &GenericPatriciaMap<Q::Owned, u64>,
    key: Q,
) -> Result<u64, AllocError> {
    let mut bytes: u64 = 0;
    let mut cursor = map.cursor_from(key);
    for _ in 0..10 {
        if !cursor.advance()? {
            break;
        }
        if let Some(key) = cursor.key() {
            bytes = bytes.wrapping_add(key.len() as u64);
        }
    }
    Ok(bytes)
}

// How many entries are counted under one prefix at the most.
const MOST_UNDER: u64 = 1000;

// How many entries there are under a prefix, `MOST_UNDER` at the most.
fn under<Q: BorrowedBytes>(
    map: &GenericPatriciaMap<Q::Owned, u64>,
    prefix: Q,
) -> Result<u64, AllocError> {
    let mut entries: u64 = 0;
    for entry in map.iter_prefix(prefix) {
        entries = entries.wrapping_add(one(entry)?);
        if entries == MOST_UNDER {
            break;
        }
    }
    Ok(entries)
}

// The length of the key of an entry, where there is one.
fn prefix_len<Q: BorrowedBytes>(entry: &Option<(Q, &u64)>) -> u64 {
    match entry {
        Some((prefix, _)) => prefix.as_bytes().len() as u64,
        None => 0,
    }
}

// Whether there is an entry after a key, as a number.
fn after<Q: BorrowedBytes>(
    map: &GenericPatriciaMap<Q::Owned, u64>,
    key: Q,
) -> Result<u64, AllocError> {
    let entry = map.first_after(key)?;
    Ok(u64::from(entry.is_some()))
}

// Whether there is an entry before a key, as a number.
fn before<Q: BorrowedBytes>(
    map: &GenericPatriciaMap<Q::Owned, u64>,
    key: Q,
) -> Result<u64, AllocError> {
    let entry = map.last_before(key)?;
    Ok(u64::from(entry.is_some()))
}

// Whether a key that is removed was there, as a number.
fn taken<Q: BorrowedBytes>(
    map: &mut GenericPatriciaMap<Q::Owned, u64>,
    key: Q,
) -> Result<u64, AllocError> {
    let old = map.remove(key)?;
    Ok(u64::from(old.is_some()))
}

// How many keys a call for many of them looks up at the most.
const AT_ONCE: usize = 256;

// How many of the keys are there, of `AT_ONCE` at the most.
fn there<Q: BorrowedBytes>(map: &GenericPatriciaMap<Q::Owned, u64>, keys: &[Q]) -> u64 {
    let mut sum: u64 = 0;
    let mut found = [None; AT_ONCE];
    let n = map.get_many_into(keys, &mut found);
    for value in &found[..n] {
        sum = sum.wrapping_add(u64::from(value.is_some()));
    }
    sum
}

// The sum of the lengths of the longest prefixes of the keys.
fn longest<Q: BorrowedBytes>(
    map: &GenericPatriciaMap<Q::Owned, u64>,
    keys: &[Q],
) -> Result<u64, AllocError> {
    let mut sum: u64 = 0;
    let entries = map.longest_many(keys)?;
    for entry in &entries {
        sum = sum.wrapping_add(prefix_len(entry));
    }
    Ok(sum)
}

// The sum of what a call for many keys answers, of which each has `AT_ONCE` at the most.
fn call_many<Q: BorrowedBytes>(
    map: &GenericPatriciaMap<Q::Owned, u64>,
    call: Each,
    keys: &[Q],
) -> Result<u64, AllocError> {
    let mut sum: u64 = 0;
    for at in (0..keys.len()).step_by(AT_ONCE) {
        let some = &keys[at..at.saturating_add(AT_ONCE).min(keys.len())];
        sum = sum.wrapping_add(match call {
            Each::LongestMany => longest(map, some)?,
            _ => there(map, some),
        });
    }
    Ok(sum)
}

// Makes a call for one key, which inserts the value if it inserts one.
fn call_one<Q: BorrowedBytes>(
    map: &mut GenericPatriciaMap<Q::Owned, u64>,
    call: Each,
    key: Q,
    value: u64,
) -> Result<u64, AllocError> {
    match call {
        Each::Put => put(map, key, value),
        Each::Get | Each::GetMany => Ok(u64::from(map.get(key).is_some())),
        Each::From => from_ten(map, key),
        Each::Under => under(map, key),
        Each::Longest | Each::LongestMany => { Ok(prefix_len(&map.get_longest_common_prefix(key))) }
        Each::After => after(map, key),
        Each::Before => before(map, key),
        Each::Take => taken(map, key),
    }
}

// The sum of what a call for one key answers for each.
fn call_singly<Q: BorrowedBytes>(
    map: &mut GenericPatriciaMap<Q::Owned, u64>,
    call: Each,
    keys: &[Q],
) -> Result<u64, AllocError> {
    let mut sum: u64 = 0;
    for key in keys {
        sum = sum.wrapping_add(call_one(map, call, *key, sum)?);
    }
    Ok(sum)
}

/// The sum of what the call answers for the keys. `Put` gives each key the sum so far.
pub(super) fn call_each<Q: BorrowedBytes>(
    map: &mut GenericPatriciaMap<Q::Owned, u64>,
    call: Each,
    keys: &[Q],
) -> Result<u64, AllocError> {
    match call {
        Each::GetMany | Each::LongestMany => call_many(map, call, keys),
        _ => call_singly(map, call, keys),
    }
}

/// A call on a whole map.
#[derive(Clone, Copy)]
pub(super) enum Whole {
    Walk,
    Lend,
    Scan,
    Values,
    Count,
    Raise,
    Write,
    Read,
    Copy,
    Equals,
    Split,
    Merge,
    Retain,
    Pop,
}

/// A map, and what calls make of it.
#[derive(Drop)]
pub(super) struct Maps<K: Bytes> {
    alloc: Global,
    pub(super) map: GenericPatriciaMap<K, u64>,
    pub(super) copy: GenericPatriciaMap<K, u64>,
    pub(super) part: GenericPatriciaMap<K, u64>,
    pub(super) tree: Vec<u8>,
    values: Vec<u64>,
}

/// Empty maps.
pub(super) fn no_maps<K: Bytes>(alloc: Global) -> Maps<K> {
    Maps {
        alloc,
        map: GenericPatriciaMap::new(alloc),
        copy: GenericPatriciaMap::new(alloc),
        part: GenericPatriciaMap::new(alloc),
        tree: Vec::new(alloc),
        values: Vec::new(alloc),
    }
}

fn key_len<K: Bytes>(entry: Result<(K, &u64), AllocError>) -> Result<u64, AllocError> {
    let (key, _) = entry?;
    Ok(key.as_bytes().len() as u64)
}

// Adds the lengths of all keys.
fn walked<K: Bytes>(map: &GenericPatriciaMap<K, u64>) -> Result<u64, AllocError> {
    let mut bytes: u64 = 0;
    for entry in map.iter() {
        bytes = bytes.wrapping_add(key_len(entry)?);
    }
    Ok(bytes)
}

// Adds the lengths of all keys, which a cursor lends.
fn lent<K: Bytes>(map: &GenericPatriciaMap<K, u64>) -> Result<u64, AllocError> {
    let mut bytes: u64 = 0;
    let mut cursor = map.cursor();
    for _ in 0..map.len() {
        cursor.advance()?;
        if let Some(key) = cursor.key() {
            bytes = bytes.wrapping_add(key.len() as u64);
        }
    }
    Ok(bytes)
}

// Adds the last byte of each key, which a cursor lends.
fn scanned<K: Bytes>(map: &GenericPatriciaMap<K, u64>) -> Result<u64, AllocError> {
    let mut sum: u64 = 0;
    let mut cursor = map.cursor();
    for _ in 0..map.len() {
        cursor.advance()?;
        if let Some(last) = cursor.key().and_then(|key| key.last()) {
            sum = sum.wrapping_add(u64::from(*last));
        }
    }
    Ok(sum)
}

// Adds all values.
fn summed<K: Bytes>(map: &GenericPatriciaMap<K, u64>) -> Result<u64, AllocError> {
    let mut sum: u64 = 0;
    for value in map.values() {
        sum = sum.wrapping_add(*value?);
    }
    Ok(sum)
}

// Adds 1 to so many values that a cursor lends, and counts them.
fn raise_values<K: Bytes>(
    cursor: &mut ValuesMut<'_, K, u64>,
    len: usize,
) -> Result<u64, AllocError> {
    let mut raised: u64 = 0;
    for _ in 0..len {
        let step = cursor.next_with(|value| {
            *value = value.wrapping_add(1);
        })?;
        raised = raised.wrapping_add(u64::from(step.is_some()));
    }
    Ok(raised)
}

// Adds 1 to each value, and counts them.
fn raised<K: Bytes>(map: &mut GenericPatriciaMap<K, u64>) -> Result<u64, AllocError> {
    let len = map.len();
    raise_values(&mut map.values_mut(), len)
}

// Writes the tree bytes, and counts the entries.
fn written<K: Bytes>(
    map: &GenericPatriciaMap<K, u64>,
    tree: &mut Vec<u8>,
) -> Result<u64, AllocError> {
    match map.tree_bytes() {
        Ok(bytes) => {
            *tree = bytes;
            Ok(map.len() as u64)
        }
        Err(_) => Err(AllocError),
    }
}

// Makes a map of tree bytes and values, and counts its entries.
fn read<K: Bytes>(
    alloc: Global,
    tree: &[u8],
    values: Vec<u64>,
    map: &mut GenericPatriciaMap<K, u64>,
) -> Result<u64, AllocError> {
    match GenericPatriciaMap::from_wire(alloc, tree, values) {
        Ok(made) => {
            *map = made;
            Ok(map.len() as u64)
        }
        Err(_) => Err(AllocError),
    }
}

// Copies a map, and counts the entries.
fn copied<K: Bytes>(
    map: &GenericPatriciaMap<K, u64>,
    copy: &mut GenericPatriciaMap<K, u64>,
) -> Result<u64, AllocError> {
    *copy = map.clone()?;
    Ok(copy.len() as u64)
}

// Whether a map and its copy are equal, as a number.
fn equal<K: Bytes>(
    map: &GenericPatriciaMap<K, u64>,
    copy: &GenericPatriciaMap<K, u64>,
) -> Result<u64, AllocError> {
    Ok(u64::from(map.equals(copy)?))
}

// Takes the entries out that begin with a prefix, and counts them.
fn parted<Q: BorrowedBytes>(
    map: &mut GenericPatriciaMap<Q::Owned, u64>,
    prefix: Q,
    part: &mut GenericPatriciaMap<Q::Owned, u64>,
) -> Result<u64, AllocError> {
    *part = map.split_by_prefix(prefix)?;
    Ok(part.len() as u64)
}

// Puts the entries of a part into a map, and counts what it then has.
fn merged<K: Bytes>(
    map: &mut GenericPatriciaMap<K, u64>,
    part: GenericPatriciaMap<K, u64>,
) -> Result<u64, AllocError> {
    map.merge_with(part, |value, new| *value = new)?;
    Ok(map.len() as u64)
}

// Keeps the entries with an even value, and counts them.
fn retained<K: Bytes>(map: &mut GenericPatriciaMap<K, u64>) -> Result<u64, AllocError> {
    map.retain(|_, value| *value & 1 == 0)?;
    Ok(map.len() as u64)
}

// Removes the first entry and the last one by turns, and counts them.
fn popped<K: Bytes>(map: &mut GenericPatriciaMap<K, u64>) -> Result<u64, AllocError> {
    let mut count: u64 = 0;
    for i in 0..map.len() {
        let entry = if i % 2 == 0 {
            map.pop_first()?
        } else {
            map.pop_last()?
        };
        count = count.wrapping_add(u64::from(entry.is_some()));
    }
    Ok(count)
}

/// What the call answers on the map, on its copy for `Split`, `Merge`, `Retain` and `Pop`. What it
/// makes is kept.
pub(super) fn call_whole<Q: BorrowedBytes>(
    maps: &mut Maps<Q::Owned>,
    call: Whole,
    prefix: Q,
) -> Result<u64, AllocError> {
    match call {
        Whole::Walk => walked(&maps.map),
        Whole::Lend => lent(&maps.map),
        Whole::Scan => scanned(&maps.map),
        Whole::Values => summed(&maps.map),
        Whole::Count => Ok(maps.map.count_prefix(prefix)? as u64),
        Whole::Raise => raised(&mut maps.map),
        Whole::Write => written(&maps.map, &mut maps.tree),
        Whole::Read => {
            let values = mem::replace(&mut maps.values, Vec::new(maps.alloc));
            read(maps.alloc, &maps.tree, values, &mut maps.copy)
        }
        Whole::Copy => copied(&maps.map, &mut maps.copy),
        Whole::Equals => equal(&maps.map, &maps.copy),
        Whole::Split => parted(&mut maps.copy, prefix, &mut maps.part),
        Whole::Merge => {
            let part = mem::replace(&mut maps.part, GenericPatriciaMap::new(maps.alloc));
            merged(&mut maps.copy, part)
        }
        Whole::Retain => retained(&mut maps.copy),
        Whole::Pop => popped(&mut maps.copy),
    }
}

// Adds the values of a map in key order.
fn push_values<K: Bytes>(
    values: &mut Vec<u64>,
    map: &GenericPatriciaMap<K, u64>,
) -> Result<(), AllocError> {
    for value in map.values() {
        values.push(*value?)?;
    }
    Ok(())
}

/// Makes what `Read` asks for besides the tree bytes.
pub(super) fn collect<K: Bytes>(maps: &mut Maps<K>) -> Result<(), AllocError> {
    push_values(&mut maps.values, &maps.map)
}

/// Puts the map and its copy in each other's place.
pub(super) fn exchange<K: Bytes>(maps: &mut Maps<K>) {
    mem::swap(&mut maps.map, &mut maps.copy);
}

/// Drops what calls have made.
pub(super) fn forget<K: Bytes>(maps: &mut Maps<K>) {
    maps.copy = GenericPatriciaMap::new(maps.alloc);
    maps.part = GenericPatriciaMap::new(maps.alloc);
    maps.tree = Vec::new(maps.alloc);
}

/// Makes the map anew, and inserts some keys in their order.
pub(super) fn refill<Q: BorrowedBytes>(
    maps: &mut Maps<Q::Owned>,
    keys: &[Q],
) -> Result<(), AllocError> {
    maps.map = GenericPatriciaMap::new(maps.alloc);
    call_each(&mut maps.map, Each::Put, keys)?;
    Ok(())
}
