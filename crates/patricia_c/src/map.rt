//! The calls on single entries, and those on the whole map.
ghost use Rattle.std.specs.Prelude.{◌≡◌, ◌≢◌, ◌≤◌, Some, None, IfOk};
ghost use Rattle.std.specs.FinMap as map;
ghost use Rattle.patricia_tree.specs.ByteKind.{IsByteItem};
ghost use Rattle.patricia_tree.specs.Points.{Joins};
ghost use Rattle.patricia_c.specs.Internal.Behind.{map_behind};
ghost use Rattle.patricia_c.specs.Maps.{Copies, WritesValue, map_of};

use crate::codes::{ABSENT, DONE, FOUND, NO_MEMORY};
use crate::map_place::MapPlace;
use crate::map_pointer::StoredMap;
use std::alloc::{AllocError, Global};

/// Drops the entries and frees their memory. The place holds the empty map.
#[unsafe(no_mangle)]
pub extern "C" fn patricia_free(at: &mut MapPlace)
    ensures { map_of at.new.pointer.stored ≡ map.empty }
{
    drop(at.take());
}

// The number of entries.
#[tactic(auto, using(crate::proofs::EmptyRules::no_map))]
pub(crate) fn len_of(stored: Option<&StoredMap>) -> usize
    ensures { result ≡ map.len (map_behind stored.entry) }
{
    match stored {
        Some(stored) => stored.map.len(),
        None => 0,
    }
}

/// Returns the number of entries.
#[unsafe(no_mangle)]
pub extern "C" fn patricia_len(at: &mut MapPlace) -> usize
    ensures len { result ≡ map.len (map_of at.old.pointer.stored) }
    ensures same { at.new ≡ at.old }
{
    len_of(at.stored())
}

// Returns whether the key is there, and then writes its value.
#[tactic(auto, using(crate::proofs::EmptyRules::no_map))]
pub(crate) fn get_to(stored: Option<&StoredMap>, key: &[u8], value: &mut u64) -> bool
    ensures { WritesValue (map.get (map_behind stored.entry) key.now)
        result value.old value.new }
{
    let Some(stored) = stored else {
        return false;
    };
    match stored.map.get(key) {
        Some(there) => {
            *value = *there;
            true
        }
        None => false,
    }
}

/// Returns whether the key is there, and then writes its value.
#[unsafe(no_mangle)]
pub extern "C" fn patricia_get(at: &mut MapPlace, key: &[u8], value: &mut u64) -> bool
    ensures same { at.new ≡ at.old }
    ensures value { WritesValue (map.get (map_of at.old.pointer.stored) key.now)
        result value.old value.new }
{
    get_to(at.stored(), key, value)
}

/// Inserts a value at a key. Returns `ABSENT` for a new key; `FOUND` where the key was there, and
/// writes the value that was there to `old`; `NO_MEMORY` where memory ran out.
#[tactic(auto, using(crate::proofs::EmptyRules::no_map))]
#[unsafe(no_mangle)]
pub extern "C" fn patricia_insert(
    alloc: Global,
    at: &mut MapPlace,
    key: &[u8],
    value: u64,
    old: &mut u64,
) -> u32
    ensures codes { result ≤ 2 }
    ensures inserted { result ≢ 2 → map_of at.new.pointer.stored
        ≡ map.insert (map_of at.old.pointer.stored) key.now value }
    ensures refused { result ≡ 2 → map_of at.new.pointer.stored ≡ map_of at.old.pointer.stored }
    ensures only_new { result ≢ 1 → map.get (map_of at.old.pointer.stored) key.now ≡ None }
    ensures replaced { result ≡ 1 →
        map.get (map_of at.old.pointer.stored) key.now ≡ Some old.new }
    ensures unwritten { result ≢ 1 → old.new ≡ old.old }
{
    let Ok(mut stored) = at.take_or_make(alloc) else {
        return NO_MEMORY;
    };
    let inserted = stored.map.insert(key, value);
    at.put(stored);
    match inserted {
        Ok(Some(before)) => {
            *old = before;
            FOUND
        }
        Ok(None) => ABSENT,
        Err(_) => NO_MEMORY,
    }
}

/// Removes a key. Returns `FOUND` where it was there, and writes the value that was there to `old`;
/// `ABSENT` where it was not; `NO_MEMORY` where memory ran out.
#[tactic(auto, using(crate::proofs::EmptyRules::no_map))]
#[unsafe(no_mangle)]
pub extern "C" fn patricia_remove(at: &mut MapPlace, key: &[u8], old: &mut u64) -> u32
    ensures codes { result ≤ 2 }
    ensures removed { result ≢ 2 →
        map_of at.new.pointer.stored ≡ map.remove (map_of at.old.pointer.stored) key.now }
    ensures refused { result ≡ 2 → map_of at.new.pointer.stored ≡ map_of at.old.pointer.stored }
    ensures joins { result ≡ 2 →
        Joins IsByteItem (map.keys (map_of at.old.pointer.stored)) key.now }
    ensures missing { result ≡ 0 → map.get (map_of at.old.pointer.stored) key.now ≡ None }
    ensures found { result ≡ 1 → map.get (map_of at.old.pointer.stored) key.now ≡ Some old.new }
    ensures unwritten { result ≢ 1 → old.new ≡ old.old }
{
    let Some(stored) = at.as_mut() else {
        return ABSENT;
    };
    match stored.map.remove(key) {
        Ok(Some(before)) => {
            *old = before;
            FOUND
        }
        Ok(None) => ABSENT,
        Err(_) => NO_MEMORY,
    }
}

// A copy of the map in a box of its own.
fn copied(alloc: Global, stored: &StoredMap) -> Result<Box<StoredMap>, AllocError>
    ensures ok { IfOk result (λ b. b.value ≡ stored.now) }
{
    let map = stored.map.clone()?;
    Ok(Box::new(alloc, StoredMap { map })?)
}

// Drops the entries of a place and writes a copy of the map there. Returns `DONE` or `NO_MEMORY`.
pub(crate) fn copy_to_place(alloc: Global, stored: Option<&StoredMap>, copy: &mut MapPlace) -> u32
    ensures { Copies (map_behind stored.entry) result
        (map_of copy.new.pointer.stored) }
{
    drop(copy.take());
    let Some(stored) = stored else {
        return DONE;
    };
    if stored.map.is_empty() {
        return DONE;
    }
    match copied(alloc, stored) {
        Ok(same) => {
            copy.put(same);
            DONE
        }
        Err(_) => NO_MEMORY,
    }
}

/// Drops the entries of `copy` and writes a copy of the map there. Returns `DONE`; or `NO_MEMORY`
/// where memory ran out, never for an empty map: `copy` holds the empty map then.
#[unsafe(no_mangle)]
pub extern "C" fn patricia_clone(alloc: Global, at: &mut MapPlace, copy: &mut MapPlace) -> u32
    ensures same { at.new ≡ at.old }
    ensures copy { Copies (map_of at.old.pointer.stored) result
        (map_of copy.new.pointer.stored) }
{
    copy_to_place(alloc, at.stored(), copy)
}
