//! Cursors. A cursor has the last key and maybe an end, and asks the map for the next entry at each
//! step, so the map may change in between.
ghost use Rattle.std.specs.Prelude.{◌≡◌, ◌≢◌, ◌≤◌, ◌<◌, ◌⊎◌, ℕ, List, [], drop, length, take};
ghost use Rattle.std.specs.Prelude.{slice_get, Some, None, true, false, IfOk};
ghost use Rattle.std.specs.Option.{option_map, option_map_or};
ghost use Rattle.std.specs.Ordering.{is_lt};
ghost use Rattle.std.specs.FinMap as map;
ghost use Rattle.patricia_tree.specs.Cursors.{after};
ghost use Rattle.patricia_tree.specs.Keys.{key_cmp};
ghost use Rattle.patricia_tree.specs.Prefixes.{begins, under};
ghost use Rattle.patricia_tree.specs.Ranges.{from};
ghost use Rattle.patricia_c.specs.Cursors.{Passes, ahead_of, beyond, end_of, prefix_of, until};
ghost use Rattle.patricia_c.specs.Ends.{WritesEntry};
ghost use Rattle.patricia_c.specs.Internal.Behind.{map_behind};
ghost use Rattle.patricia_c.specs.Maps.{map_of};

use crate::codes::{DONE, END, ENTRY, NO_MEMORY, NO_ROOM};
use crate::cursor_place::CursorPlace;
use crate::cursor_pointer::Position;
use crate::map_place::MapPlace;
use crate::map_pointer::StoredMap;
use crate::room::copy_to;
use std::alloc::{AllocError, Global};
use std::cmp::Ordering;

impl Position {
    // The bytes that the keys of its entries begin with.
    pub(crate) fn prefix(&self) -> &[u8]
        ensures { result.now ≡ prefix_of (Some self.now) }
    {
        if self.common < self.key.len() {
            &self.key[..self.common]
        } else {
            self.key.as_slice()
        }
    }

    // Passes a key that has the prefix.
    pub(crate) fn pass(&mut self, key: Vec<u8>)
        requires { begins (prefix_of (Some self.old)) key.items ≡ true }
        ensures ahead { (entries : List (List ℕ × ℕ)) → ahead_of (Some self.new) entries
            ≡ under (prefix_of (Some self.old))
            (until (end_of (Some self.old)) (after (Some key.items) entries)) }
        ensures prefix { prefix_of (Some self.new) ≡ prefix_of (Some self.old) }
        ensures end_key { end_of (Some self.new) ≡ end_of (Some self.old) }
    {
        self.common = self.prefix().len();
        self.key = key;
        self.passed = true;
    }

    // Whether a key comes before the end, where there is one.
    fn is_before_end(&self, key: &[u8]) -> bool
        ensures { result
            ≡ option_map_or (λ end. is_lt (key_cmp key.now end)) (end_of (Some self.now)) true }
    {
        match &self.end {
            Some(end) => key.cmp(end.as_slice()) == Ordering::Less,
            None => true,
        }
    }
}

// An entry with a value of its own.
fn owned(entry: Option<(Vec<u8>, &u64)>) -> Option<(Vec<u8>, u64)>
    ensures { option_map {U = List ℕ × ℕ} (λ e. (e.0.items, e.1)) result
        ≡ option_map (λ e. (e.0.items, e.1.now)) entry.entry }
{
    match entry {
        Some((key, value)) => Some((key, *value)),
        None => None,
    }
}

// A copy of the first entry after a key that was passed, and else of the first from it on.
fn first_beyond(
    stored: &StoredMap,
    key: &[u8],
    passed: bool,
) -> Result<Option<(Vec<u8>, u64)>, AllocError>
    ensures { IfOk result (λ entry. option_map (λ e. (e.0.items, e.1)) entry
        ≡ slice_get (beyond passed key.now (map.entries stored.now.map)) 0) }
{
    if passed {
        return Ok(owned(stored.map.first_after(key)?));
    }
    let mut cursor = stored.map.cursor_from(key);
    Ok(owned(cursor.next_entry()?))
}

// A copy of the first entry from where a cursor stands on that comes before its end.
fn first_until(
    stored: &StoredMap,
    position: &Position,
) -> Result<Option<(Vec<u8>, u64)>, AllocError>
    ensures { IfOk result (λ entry. option_map (λ e. (e.0.items, e.1)) entry
        ≡ slice_get (until (end_of (Some position.now))
        (beyond position.now.passed position.now.key.items (map.entries stored.now.map))) 0) }
{
    let key = position.key.as_slice();
    let Some((next, value)) = first_beyond(stored, key, position.passed)? else {
        return Ok(None);
    };
    if position.is_before_end(next.as_slice()) {
        Ok(Some((next, value)))
    } else {
        Ok(None)
    }
}

// A copy of the first entry that a cursor has ahead.
fn first_ahead(
    stored: &StoredMap,
    position: &Position,
) -> Result<Option<(Vec<u8>, u64)>, AllocError>
    ensures { IfOk result (λ entry. option_map (λ e. (e.0.items, e.1)) entry
        ≡ slice_get (ahead_of (Some position.now) (map.entries stored.now.map)) 0) }
{
    let Some((next, value)) = first_until(stored, position)? else {
        return Ok(None);
    };
    if next.as_slice().starts_with(position.prefix()) {
        Ok(Some((next, value)))
    } else {
        Ok(None)
    }
}

/// Sets the cursor before the first entry whose key is this one or comes after it, among those
/// whose key begins with the first `common` bytes of this key; where it is shorter, with the key.
/// Returns `DONE`; or `NO_MEMORY` where memory ran out, never for the empty key: the cursor stands
/// where it stood.
#[tactic(auto, using(crate::proofs::EmptyRules::no_byte))]
#[unsafe(no_mangle)]
pub extern "C" fn patricia_cursor_seek(
    alloc: Global,
    cursor: &mut CursorPlace,
    key: &[u8],
    common: usize,
) -> u32
    ensures ahead { result ≡ 0 → (entries : List (List ℕ × ℕ)) →
        ahead_of cursor.new.pointer.stored entries
        ≡ under (take common key.now) (from key.now entries) }
    ensures all { result ≡ 0 → length key.now ≤ common → (entries : List (List ℕ × ℕ)) →
        ahead_of cursor.new.pointer.stored entries ≡ under key.now entries }
    ensures prefix { result ≡ 0 → prefix_of cursor.new.pointer.stored ≡ take common key.now }
    ensures end_key { result ≡ 0 → end_of cursor.new.pointer.stored ≡ None }
    ensures refused { result ≡ 2 → cursor.new.pointer.stored ≡ cursor.old.pointer.stored }
    ensures refused_nonempty { result ≡ 2 → key.now ≢ [] }
    ensures codes { (result ≡ 0) ⊎ (result ≡ 2) }
{
    if key.is_empty() {
        drop(cursor.take());
        return DONE;
    }
    let Ok(key) = Vec::from_slice(alloc, key) else {
        return NO_MEMORY;
    };
    let position = Position {
        key,
        common,
        passed: false,
        end: None,
    };
    match Box::new(alloc, position) {
        Ok(stored) => {
            cursor.put(stored);
            DONE
        }
        Err(_) => NO_MEMORY,
    }
}

// Writes the first entry that a cursor has ahead, where the room is as long as its key, and passes
// it.
fn step(
    stored: &StoredMap,
    position: &mut Position,
    room: &mut [u8],
    len: &mut usize,
    value: &mut u64,
) -> u32
    ensures entry { WritesEntry
        (slice_get (ahead_of (Some position.old) (map.entries stored.now.map)) 0)
        result room.old len.old value.old room.new len.new value.new }
    ensures passes { Passes (Some (take len.new room.new)) result
        (Some position.old) (Some position.new) }
{
    let Ok(first) = first_ahead(stored, position) else {
        return NO_MEMORY;
    };
    let Some((key, there)) = first else {
        return END;
    };
    if !copy_to(room, len, key.as_slice()) {
        return NO_ROOM;
    }
    *value = there;
    position.pass(key);
    ENTRY
}

// Writes the first entry of the map that the cursor has ahead, and passes it.
#[tactic(auto, using(crate::proofs::EmptyRules::no_entry))]
pub(crate) fn next_ahead(
    alloc: Global,
    cursor: &mut CursorPlace,
    stored: Option<&StoredMap>,
    room: &mut [u8],
    len: &mut usize,
    value: &mut u64,
) -> u32
    ensures entry { WritesEntry (slice_get (ahead_of cursor.old.pointer.stored
        (map.entries (map_behind stored.entry))) 0)
        result room.old len.old value.old room.new len.new value.new }
    ensures passes { Passes (Some (take len.new room.new)) result
        cursor.old.pointer.stored cursor.new.pointer.stored }
    ensures refused { result ≡ 2 → map.entries (map_behind stored.entry) ≢ [] }
{
    let Some(stored) = stored else {
        return END;
    };
    if stored.map.is_empty() {
        return END;
    }
    let Ok(mut position) = cursor.take_or_make(alloc) else {
        return NO_MEMORY;
    };
    let result = step(stored, &mut position, room, len, value);
    cursor.put(position);
    result
}

/// Asks the map for the first entry that the cursor has ahead, and passes it. Returns `ENTRY`, and
/// writes its key to the room, the length of the key to `len` and the value to `value`; `NO_ROOM`
/// where the key is longer than the room, and writes its length to `len`; `END` where no entry is
/// ahead; `NO_MEMORY` where memory ran out. But with `ENTRY` the cursor stands where it stood.
#[unsafe(no_mangle)]
pub extern "C" fn patricia_cursor_next(
    alloc: Global,
    cursor: &mut CursorPlace,
    at: &mut MapPlace,
    room: &mut [u8],
    len: &mut usize,
    value: &mut u64,
) -> u32
    ensures same { at.new ≡ at.old }
    ensures entry { WritesEntry (slice_get (ahead_of cursor.old.pointer.stored
        (map.entries (map_of at.old.pointer.stored))) 0)
        result room.old len.old value.old room.new len.new value.new }
    ensures passes { Passes (Some (take len.new room.new)) result
        cursor.old.pointer.stored cursor.new.pointer.stored }
    ensures refused { result ≡ 2 → map.entries (map_of at.old.pointer.stored) ≢ [] }
{
    next_ahead(alloc, cursor, at.stored(), room, len, value)
}

/// Frees the memory of the cursor, which is then before the first entry of all.
#[unsafe(no_mangle)]
pub extern "C" fn patricia_cursor_free(cursor: &mut CursorPlace)
    ensures ahead { (entries : List (List ℕ × ℕ)) →
        ahead_of cursor.new.pointer.stored entries ≡ entries }
    ensures prefix { prefix_of cursor.new.pointer.stored ≡ [] }
    ensures end_key { end_of cursor.new.pointer.stored ≡ None }
{
    let position = cursor.take();
    drop(position);
}
