//! The calls that ask which keys and a key begin alike.
ghost use Rattle.std.specs.Prelude.{◌≡◌, ◌≢◌, ◌+◌, ◌<◌, ◌⊎◌, [], length, Any, true, false};
ghost use Rattle.std.specs.FinMap as map;
ghost use Rattle.patricia_tree.specs.ByteKind.{IsByteItem};
ghost use Rattle.patricia_tree.specs.Prefixes.{IsReach, longest, under, outside};
ghost use Rattle.patricia_c.specs.Internal.Behind.{map_behind};
ghost use Rattle.patricia_c.specs.Maps.{WritesCount, WritesLength, map_of};

use crate::codes::{DONE, NO_MEMORY};
use crate::map_place::MapPlace;
use crate::map_pointer::StoredMap;
use std::alloc::Global;

// Returns whether some key is a prefix of this one, and then writes the length and the value of the
// longest.
#[tactic(auto, using(crate::proofs::EmptyRules::no_map))]
pub(crate) fn longest_to(
    stored: Option<&StoredMap>,
    key: &[u8],
    len: &mut usize,
    value: &mut u64,
) -> bool
    ensures { WritesLength (longest key.now (map.entries (map_behind stored.entry)))
        result len.old value.old len.new value.new }
{
    let Some(stored) = stored else {
        return false;
    };
    match stored.map.get_longest_common_prefix(key) {
        Some((front, there)) => {
            *len = front.len();
            *value = *there;
            true
        }
        None => false,
    }
}

/// Returns whether some key is a prefix of this one, and then writes the length and the value of
/// the longest.
#[unsafe(no_mangle)]
pub extern "C" fn patricia_longest_prefix(
    at: &mut MapPlace,
    key: &[u8],
    len: &mut usize,
    value: &mut u64,
) -> bool
    ensures same { at.new ≡ at.old }
    ensures longest { WritesLength (longest key.now (map.entries (map_of at.old.pointer.stored)))
        result len.old value.old len.new value.new }
{
    longest_to(at.stored(), key, len, value)
}

// The greatest number of bytes that the key has in common with the front of any key.
#[tactic(auto, using(crate::proofs::EmptyRules::no_map))]
pub(crate) fn reach_of(stored: Option<&StoredMap>, key: &[u8]) -> usize
    ensures { IsReach IsByteItem (map.keys (map_behind stored.entry)) key.now result }
{
    match stored {
        Some(stored) => stored.map.longest_common_prefix_len(key),
        None => 0,
    }
}

/// Returns the greatest number of bytes that the key has in common with the front of any key, and 0
/// for the empty map.
#[unsafe(no_mangle)]
pub extern "C" fn patricia_longest_common_prefix_len(at: &mut MapPlace, key: &[u8]) -> usize
    ensures same { at.new ≡ at.old }
    ensures reach { IsReach IsByteItem (map.keys (map_of at.old.pointer.stored)) key.now result }
{
    reach_of(at.stored(), key)
}

// Whether no key begins with the prefix.
fn begins_none(stored: &StoredMap, prefix: &[u8]) -> bool
    ensures none { result ≡ true → under prefix.now (map.entries stored.now.map) ≡ [] }
    ensures some { result ≡ false → under prefix.now (map.entries stored.now.map) ≢ [] }
{
    match stored.map.count_prefix(prefix) {
        Ok(count) => count == 0,
        Err(_) => false,
    }
}

/// Drops the entries of `part` and moves those whose key begins with the prefix there. Returns
/// `DONE`; or `NO_MEMORY` where memory ran out: `part` holds the empty map then, and the entries
/// stay. Never for the empty prefix, which moves the whole map, nor where no key begins with the
/// prefix.
#[tactic(auto, using(crate::proofs::EmptyRules::no_byte))]
#[unsafe(no_mangle)]
pub extern "C" fn patricia_split_by_prefix(
    alloc: Global,
    at: &mut MapPlace,
    prefix: &[u8],
    part: &mut MapPlace,
) -> u32
    ensures taken { result ≡ 0 → map.entries (map_of part.new.pointer.stored)
        ≡ under prefix.now (map.entries (map_of at.old.pointer.stored)) }
    ensures left { result ≡ 0 → map.entries (map_of at.new.pointer.stored)
        ≡ outside prefix.now (map.entries (map_of at.old.pointer.stored)) }
    ensures kept { result ≡ 2 → map_of at.new.pointer.stored ≡ map_of at.old.pointer.stored }
    ensures refused { result ≡ 2 → map_of part.new.pointer.stored ≡ map.empty }
    ensures refused_nonempty { result ≡ 2 → prefix.now ≢ [] }
    ensures refused_if_matched { result ≡ 2 →
        under prefix.now (map.entries (map_of at.old.pointer.stored)) ≢ [] }
    ensures codes { (result ≡ 0) ⊎ (result ≡ 2) }
{
    drop(part.take());
    let Some(mut stored) = at.take() else {
        return DONE;
    };
    if prefix.is_empty() {
        part.put(stored);
        return DONE;
    }
    if begins_none(&stored, prefix) {
        at.put(stored);
        return DONE;
    }
    let Ok(mut room) = part.take_or_make(alloc) else {
        at.put(stored);
        return NO_MEMORY;
    };
    match stored.map.split_by_prefix(prefix) {
        Ok(map) => {
            room.map = map;
            at.put(stored);
            part.put(room);
            DONE
        }
        Err(_) => {
            at.put(stored);
            NO_MEMORY
        }
    }
}

// Writes the number of entries whose key begins with the prefix, and returns `DONE`; or `NO_MEMORY`
// where memory ran out.
#[tactic(auto, using(crate::proofs::EmptyRules::no_map))]
pub(crate) fn count_to(stored: Option<&StoredMap>, prefix: &[u8], count: &mut usize) -> u32
    ensures count { WritesCount (under prefix.now (map.entries (map_behind stored.entry)))
        result count.old count.new }
    ensures refused_only_long { result ≡ 2 → Any (λ e. length prefix.now + 64 < length e.0)
        (under prefix.now (map.entries (map_behind stored.entry))) }
{
    let Some(stored) = stored else {
        *count = 0;
        return DONE;
    };
    let counted = stored.map.count_prefix(prefix);
    match counted {
        Ok(n) => {
            *count = n;
            DONE
        }
        Err(_) => NO_MEMORY,
    }
}

/// Writes the number of entries whose key begins with the prefix to `count`, and returns `DONE`; or
/// `NO_MEMORY` where memory ran out.
#[unsafe(no_mangle)]
pub extern "C" fn patricia_count_prefix(at: &mut MapPlace, prefix: &[u8], count: &mut usize) -> u32
    ensures same { at.new ≡ at.old }
    ensures count { WritesCount (under prefix.now (map.entries (map_of at.old.pointer.stored)))
        result count.old count.new }
    ensures refused_only_long { result ≡ 2 → Any (λ e. length prefix.now + 64 < length e.0)
        (under prefix.now (map.entries (map_of at.old.pointer.stored))) }
{
    count_to(at.stored(), prefix, count)
}

/// Removes the entries whose key begins with the prefix, writes how many they were to `count`, and
/// returns `DONE`; or `NO_MEMORY` where memory ran out: the entries stay.
#[tactic(auto, using(crate::proofs::EmptyRules::no_map))]
#[unsafe(no_mangle)]
pub extern "C" fn patricia_remove_prefix(at: &mut MapPlace, prefix: &[u8], count: &mut usize) -> u32
    ensures count { WritesCount (under prefix.now (map.entries (map_of at.old.pointer.stored)))
        result count.old count.new }
    ensures left { result ≡ 0 → map.entries (map_of at.new.pointer.stored)
        ≡ outside prefix.now (map.entries (map_of at.old.pointer.stored)) }
    ensures kept { result ≡ 2 → map_of at.new.pointer.stored ≡ map_of at.old.pointer.stored }
    ensures refused_nonempty { result ≡ 2 → prefix.now ≢ [] }
{
    let Some(stored) = at.as_mut() else {
        *count = 0;
        return DONE;
    };
    match stored.map.remove_prefix(prefix) {
        Ok(n) => {
            *count = n;
            DONE
        }
        Err(_) => NO_MEMORY,
    }
}
