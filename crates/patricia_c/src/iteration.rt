//! Iterators over entries. An iterator has entries of its own, so the map may change or be freed.
ghost use Rattle.std.specs.Prelude.{◌≡◌, ◌≢◌, ◌≤◌, ◌<◌, [], drop, take, length, None, IfOk};
ghost use Rattle.std.specs.Prelude.{OnErr};
ghost use Rattle.std.specs.FinMap as map;
ghost use Rattle.std.specs.Option.{option_map};
ghost use Rattle.patricia_tree.specs.Prefixes.{under};
ghost use Rattle.patricia_c.specs.EntriesLeft.{IsFirstLen, Iterates, TakesEntry, entries_of};
ghost use Rattle.patricia_c.specs.EntriesLeft.{pairs_of};
ghost use Rattle.patricia_c.specs.Internal.Behind.{map_behind};
ghost use Rattle.patricia_c.specs.Maps.{map_of};

use crate::codes::{DONE, END, ENTRY, NO_MEMORY, NO_ROOM};
use crate::entries_pointer::EntriesLeft;
use crate::iterator_place::IteratorPlace;
use crate::map_place::MapPlace;
use crate::map_pointer::StoredMap;
use crate::room::copy_to;
use std::alloc::{AllocError, Global};
use std::collections::VecDeque;

// Copies of the entries whose key begins with the prefix, in key order, or none where there are
// none.
fn entries_under(
    alloc: Global,
    stored: &StoredMap,
    prefix: &[u8],
) -> Result<Option<Box<EntriesLeft>>, AllocError>
    ensures entries { IfOk result (λ found. entries_of (option_map (λ b. b.value) found)
        ≡ under prefix.now (map.entries stored.now.map)) }
    ensures err { OnErr result (under prefix.now (map.entries stored.now.map) ≢ []) }
{
    let mut left = VecDeque::new(alloc);
    for entry in stored.map.iter_prefix(prefix) {
        let (key, value) = entry?;
        left.push_back((key, *value))?;
    }
    if left.is_empty() {
        return Ok(None);
    }
    Ok(Some(Box::new(alloc, EntriesLeft { left })?))
}

// Writes an iterator over the entries whose key begins with the prefix. Returns `DONE` or
// `NO_MEMORY`.
#[tactic(auto, using(crate::proofs::EmptyRules::no_map))]
pub(crate) fn write_iterator(
    alloc: Global,
    stored: Option<&StoredMap>,
    prefix: &[u8],
    iterator: &mut IteratorPlace,
) -> u32
    ensures { let all = map.entries (map_behind stored.entry) in
        Iterates (λ left. left ≡ under prefix.now all) (under prefix.now all) result
        (entries_of iterator.new.pointer.stored) }
{
    drop(iterator.take());
    let Some(stored) = stored else {
        return DONE;
    };
    match entries_under(alloc, stored, prefix) {
        Ok(Some(entries)) => {
            iterator.put(entries);
            DONE
        }
        Ok(None) => DONE,
        Err(_) => NO_MEMORY,
    }
}

/// Drops the entries that the iterator has left, and writes one over the entries whose key begins
/// with the prefix, in key order. Returns `DONE`; or `NO_MEMORY` where memory ran out, never where
/// there is no such entry: the iterator is at its end then.
#[unsafe(no_mangle)]
pub extern "C" fn patricia_iterate(
    alloc: Global,
    at: &mut MapPlace,
    prefix: &[u8],
    iterator: &mut IteratorPlace,
) -> u32
    ensures same { at.new ≡ at.old }
    ensures left { let all = map.entries (map_of at.old.pointer.stored) in
        Iterates (λ left. left ≡ under prefix.now all) (under prefix.now all) result
        (entries_of iterator.new.pointer.stored) }
{
    write_iterator(alloc, at.stored(), prefix, iterator)
}

/// Removes the next entry. Returns `ENTRY`, and writes its key to the room, the length of the key
/// to `len` and the value to `value`; `NO_ROOM` where the key is longer than the room, and writes
/// its length to `len`; `END` where no entry is left.
#[unsafe(no_mangle)]
pub extern "C" fn patricia_iterator_next(
    iterator: &mut IteratorPlace,
    room: &mut [u8],
    len: &mut usize,
    value: &mut u64,
) -> u32
    ensures end { result ≡ 0 → entries_of iterator.old.pointer.stored ≡ [] }
    ensures entry { result ≡ 1 → TakesEntry (entries_of iterator.old.pointer.stored)
        (take len.new room.new) value.new (entries_of iterator.new.pointer.stored) }
    ensures within { result ≡ 1 → len.new ≤ length room.new }
    ensures behind { result ≡ 1 → drop len.new room.new ≡ drop len.new room.old }
    ensures first { result ≡ 4 → IsFirstLen (entries_of iterator.old.pointer.stored) len.new }
    ensures small { result ≡ 4 → length room.old < len.new }
    ensures kept { result ≢ 1 →
        entries_of iterator.new.pointer.stored ≡ entries_of iterator.old.pointer.stored }
    ensures room_unwritten { result ≢ 1 → room.new ≡ room.old }
    ensures value_unwritten { result ≢ 1 → value.new ≡ value.old }
    ensures end_len { result ≡ 0 → len.new ≡ len.old }
    ensures codes { result ≤ 4 }
    ensures not_two { result ≢ 2 }
    ensures not_three { result ≢ 3 }
{
    let Some(mut entries) = iterator.take() else {
        return END;
    };
    let Some((key, there)) = entries.left.pop_front() else {
        iterator.put(entries);
        return END;
    };
    if !copy_to(room, len, key.as_slice()) {
        let _back = entries.left.push_front((key, there));
        iterator.put(entries);
        return NO_ROOM;
    }
    *value = there;
    iterator.put(entries);
    ENTRY
}

/// Returns the number of entries that the iterator has left.
#[tactic(auto, using(crate::proofs::EntryLemmas::lengths))]
#[unsafe(no_mangle)]
pub extern "C" fn patricia_iterator_len(iterator: &mut IteratorPlace) -> usize
    ensures len { result ≡ length (entries_of iterator.old.pointer.stored) }
    ensures kept { entries_of iterator.new.pointer.stored ≡ entries_of iterator.old.pointer.stored }
{
    let Some(entries) = iterator.take() else {
        return 0;
    };
    let len = entries.left.len();
    iterator.put(entries);
    len
}

/// Drops the entries that the iterator has left. It is at its end.
#[unsafe(no_mangle)]
pub extern "C" fn patricia_iterator_free(iterator: &mut IteratorPlace)
    ensures { entries_of iterator.new.pointer.stored ≡ [] }
{
    let left = iterator.take();
    drop(left);
}
