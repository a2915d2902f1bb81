//! The first and the last entry, and those next to a key.
ghost use Rattle.std.specs.Prelude.{◌≡◌, ◌≢◌, [], slice_get, Some, None};
ghost use Rattle.std.specs.List.{last_or};
ghost use Rattle.std.specs.Option.{option_map};
ghost use Rattle.std.specs.FinMap as map;
ghost use Rattle.patricia_tree.specs.Cursors.{after};
ghost use Rattle.patricia_tree.specs.Ranges.{before};
ghost use Rattle.patricia_c.specs.Ends.{WritesEntry};
ghost use Rattle.patricia_c.specs.Internal.Behind.{map_behind};
ghost use Rattle.patricia_c.specs.Maps.{map_of};

use crate::codes::{ABSENT, FOUND, NO_MEMORY, NO_ROOM};
use crate::map_place::MapPlace;
use crate::map_pointer::StoredMap;
use crate::room::copy_to;

// Writes an entry, where the room is as long as its key.
fn write_entry(
    entry: Option<(Vec<u8>, &u64)>,
    room: &mut [u8],
    len: &mut usize,
    value: &mut u64,
) -> u32
    ensures entry { WritesEntry (option_map (λ e. (e.0.items, e.1.now)) entry.entry)
        result room.old len.old value.old room.new len.new value.new }
    ensures not_two { result ≢ 2 }
{
    let Some((key, there)) = entry else {
        return ABSENT;
    };
    if !copy_to(room, len, key.as_slice()) {
        return NO_ROOM;
    }
    *value = *there;
    FOUND
}

// Writes the first entry.
#[tactic(auto, using(crate::proofs::EmptyRules::no_map))]
pub(crate) fn write_first(
    stored: Option<&StoredMap>,
    room: &mut [u8],
    len: &mut usize,
    value: &mut u64,
) -> u32
    ensures entry { WritesEntry (slice_get (map.entries (map_behind stored.entry)) 0)
        result room.old len.old value.old room.new len.new value.new }
    ensures refused { result ≡ 2 → map.entries (map_behind stored.entry) ≢ [] }
{
    let Some(stored) = stored else {
        return ABSENT;
    };
    match stored.map.first_key_value() {
        Ok(entry) => write_entry(entry, room, len, value),
        Err(_) => NO_MEMORY,
    }
}

// Writes the last entry.
#[tactic(auto, using(crate::proofs::EmptyRules::no_map))]
pub(crate) fn write_last(
    stored: Option<&StoredMap>,
    room: &mut [u8],
    len: &mut usize,
    value: &mut u64,
) -> u32
    ensures entry { WritesEntry (last_or None (map.entries (map_behind stored.entry)))
        result room.old len.old value.old room.new len.new value.new }
    ensures refused { result ≡ 2 → map.entries (map_behind stored.entry) ≢ [] }
{
    let Some(stored) = stored else {
        return ABSENT;
    };
    match stored.map.last_key_value() {
        Ok(entry) => write_entry(entry, room, len, value),
        Err(_) => NO_MEMORY,
    }
}

// Writes the first entry whose key comes after this one.
#[tactic(auto, using(crate::proofs::EmptyRules::no_map))]
pub(crate) fn write_next(
    stored: Option<&StoredMap>,
    key: &[u8],
    room: &mut [u8],
    len: &mut usize,
    value: &mut u64,
) -> u32
    ensures entry { WritesEntry (slice_get (after (Some key.now)
        (map.entries (map_behind stored.entry))) 0)
        result room.old len.old value.old room.new len.new value.new }
    ensures refused { result ≡ 2 → map.entries (map_behind stored.entry) ≢ [] }
{
    let Some(stored) = stored else {
        return ABSENT;
    };
    match stored.map.first_after(key) {
        Ok(entry) => write_entry(entry, room, len, value),
        Err(_) => NO_MEMORY,
    }
}

// Writes the last entry whose key comes before this one.
#[tactic(auto, using(crate::proofs::EmptyRules::no_map))]
pub(crate) fn write_previous(
    stored: Option<&StoredMap>,
    key: &[u8],
    room: &mut [u8],
    len: &mut usize,
    value: &mut u64,
) -> u32
    ensures entry { WritesEntry (last_or None (before key.now
        (map.entries (map_behind stored.entry))))
        result room.old len.old value.old room.new len.new value.new }
    ensures refused { result ≡ 2 → before key.now (map.entries (map_behind stored.entry)) ≢ [] }
{
    let Some(stored) = stored else {
        return ABSENT;
    };
    match stored.map.last_before(key) {
        Ok(entry) => write_entry(entry, room, len, value),
        Err(_) => NO_MEMORY,
    }
}

/// Asks for the first entry in key order. Returns `FOUND`, and writes its key to the room, the
/// length of the key to `len` and the value to `value`; `NO_ROOM` where the key is longer than the
/// room, and writes its length to `len`; `ABSENT` for the empty map; `NO_MEMORY` where memory ran
/// out.
#[unsafe(no_mangle)]
pub extern "C" fn patricia_first(
    at: &mut MapPlace,
    room: &mut [u8],
    len: &mut usize,
    value: &mut u64,
) -> u32
    ensures same { at.new ≡ at.old }
    ensures entry { WritesEntry
        (slice_get (map.entries (map_of at.old.pointer.stored)) 0)
        result room.old len.old value.old room.new len.new value.new }
    ensures refused { result ≡ 2 → map.entries (map_of at.old.pointer.stored) ≢ [] }
{
    write_first(at.stored(), room, len, value)
}

/// Asks for the last entry in key order, as `patricia_first` does for the first.
#[unsafe(no_mangle)]
pub extern "C" fn patricia_last(
    at: &mut MapPlace,
    room: &mut [u8],
    len: &mut usize,
    value: &mut u64,
) -> u32
    ensures same { at.new ≡ at.old }
    ensures entry { WritesEntry
        (last_or None (map.entries (map_of at.old.pointer.stored)))
        result room.old len.old value.old room.new len.new value.new }
    ensures refused { result ≡ 2 → map.entries (map_of at.old.pointer.stored) ≢ [] }
{
    write_last(at.stored(), room, len, value)
}

/// Asks for the first entry whose key comes after this one, as `patricia_first` does for the first
/// of all. The key that is passed need not be there.
#[unsafe(no_mangle)]
pub extern "C" fn patricia_first_after(
    at: &mut MapPlace,
    key: &[u8],
    room: &mut [u8],
    len: &mut usize,
    value: &mut u64,
) -> u32
    ensures same { at.new ≡ at.old }
    ensures entry { WritesEntry
        (slice_get (after (Some key.now) (map.entries (map_of at.old.pointer.stored))) 0)
        result room.old len.old value.old room.new len.new value.new }
    ensures refused { result ≡ 2 → map.entries (map_of at.old.pointer.stored) ≢ [] }
{
    write_next(at.stored(), key, room, len, value)
}

/// Asks for the last entry whose key comes before this one, as `patricia_first` does for the first
/// of all. The key that is passed need not be there.
#[unsafe(no_mangle)]
pub extern "C" fn patricia_last_before(
    at: &mut MapPlace,
    key: &[u8],
    room: &mut [u8],
    len: &mut usize,
    value: &mut u64,
) -> u32
    ensures same { at.new ≡ at.old }
    ensures entry { WritesEntry
        (last_or None (before key.now (map.entries (map_of at.old.pointer.stored))))
        result room.old len.old value.old room.new len.new value.new }
    ensures refused { result ≡ 2 →
        before key.now (map.entries (map_of at.old.pointer.stored)) ≢ [] }
{
    write_previous(at.stored(), key, room, len, value)
}
