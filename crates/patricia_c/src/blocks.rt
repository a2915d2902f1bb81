//! Many entries of a cursor at once: one look-up, and then a walk.
ghost use Rattle.std.specs.Prelude.{◌≡◌, ◌≢◌, ◌≤◌, ◌++◌, ℕ, List, [], ◌∷◌, length, take};
ghost use Rattle.std.specs.Prelude.{Some, None, Ok, true, false, IfOk};
ghost use Rattle.std.specs.List.{last_or};
ghost use Rattle.std.specs.Option.{option_map};
ghost use Rattle.std.specs.FinMap as map;
ghost use Rattle.patricia_tree.specs.Cursors.{before_entries};
ghost use Rattle.patricia_tree.specs.Ranges.{from};
ghost use Rattle.patricia_c.specs.Blocks.{WritesMany};
ghost use Rattle.patricia_c.specs.Cursors.{Passes, ahead_of, beyond, end_of, prefix_of, until};
ghost use Rattle.patricia_c.specs.Maps.{map_of};
ghost use Rattle.patricia_c.specs.Internal.Behind.{map_behind};
ghost use Rattle.patricia_c.specs.Internal.Filling.{AreWritten, Fills, HasNoRoom};
ghost use Rattle.patricia_c.specs.Internal.Filling.{IsFullFirst, IsNoneFirst};

use crate::codes::{END, ENTRY, NO_MEMORY, NO_ROOM};
use crate::cursor_place::CursorPlace;
use crate::cursor_pointer::Position;
use crate::map_place::MapPlace;
use crate::map_pointer::StoredMap;
use patricia_tree::map::RangeReadCursor;
use std::alloc::{AllocError, Global};

// What is written of a block so far.
#[derive(Clone, Copy)]
pub(crate) struct Filled {
    // how many entries
    count: usize,
    // how many bytes of keys
    used: usize,
    // where the last key begins
    last_at: usize,
}

// Writes one more entry behind those that are written, where each of the arrays has room.
fn write_next(
    key: &[u8],
    value: u64,
    filled: &mut Filled,
    room: &mut [u8],
    lens: &mut [usize],
    values: &mut [u64],
) -> bool
    requires { filled.old.used ≤ length room.old }
    ensures written { result ≡ true → (entries : List (List ℕ × ℕ)) →
        (room' lens' values' : List ℕ) →
        AreWritten entries filled.old room.old lens.old values.old room' lens' values' →
        AreWritten (entries ++ (key.now, value) ∷ []) filled.new
        room.new lens.new values.new room' lens' values' }
    ensures full { result ≡ false → HasNoRoom (length key.now) filled.old
        (length room.old) (length lens.old) (length values.old) }
    ensures filled { result ≡ false → filled.new ≡ filled.old }
    ensures room { result ≡ false → room.new ≡ room.old }
    ensures lens { result ≡ false → lens.new ≡ lens.old }
    ensures values { result ≡ false → values.new ≡ values.old }
{
    let Filled { count, used, .. } = *filled;
    if count >= lens.len() || count >= values.len() || room.len() - used < key.len() {
        return false;
    }
    let end = used + key.len();
    room[used..end].copy_from_slice(key);
    lens[count] = key.len();
    values[count] = value;
    *filled = Filled {
        count: count + 1,
        used: end,
        last_at: used,
    };
    true
}

// Writes the entries that a walk has left, up to the first one that does not begin with the prefix,
// or that has no room: then it returns the length of its key.
fn write_entries(
    walk: &mut RangeReadCursor<'_, &[u8], u64>,
    prefix: &[u8],
    filled: &mut Filled,
    room: &mut [u8],
    lens: &mut [usize],
    values: &mut [u64],
) -> Result<Option<usize>, AllocError>
    requires { AreWritten [] filled.old room.old lens.old values.old room.old lens.old values.old }
    ensures fills { Fills prefix.now walk.old.left filled.new room.new lens.new values.new
        room.old lens.old values.old }
    ensures none { result ≡ Ok None → filled.new.count ≡ 0 →
        IsNoneFirst prefix.now walk.old.left }
    ensures full { (n : ℕ) → result ≡ Ok (Some n) → filled.new.count ≡ 0 →
        IsFullFirst prefix.now walk.old.left n
        (length room.old) (length lens.old) (length values.old) }
{
    while walk.advance()? {
        let (Some(key), Some(value)) = (walk.key(), walk.value()) else {
            return Ok(None);
        };
        if !key.starts_with(prefix) {
            return Ok(None);
        }
        if !write_next(key, *value, filled, room, lens, values) {
            return Ok(Some(key.len()));
        }
    }
    Ok(None)
}

// A key from which on the entries are that the cursor has ahead, if they begin with its prefix.
fn start(alloc: Global, position: &Position) -> Result<Vec<u8>, AllocError>
    ensures { IfOk result (λ key. (entries : List (List ℕ × ℕ)) →
        from key.items entries ≡ beyond position.now.passed position.now.key.items entries) }
{
    let mut key = Vec::from_slice(alloc, position.key.as_slice())?;
    if position.passed {
        // no key is between one and the same with a byte of 0 behind it
        key.push(0)?;
    }
    Ok(key)
}

// A walk over the entries from a key on that come before the end of a cursor.
fn walk_until<'a>(
    stored: &'a StoredMap,
    start: &'a [u8],
    position: &'a Position,
) -> RangeReadCursor<'a, &'a [u8], u64>
    ensures { result ≡ before_entries
        (until (end_of (Some position.now)) (from start.now (map.entries stored.now.map))) }
{
    match &position.end {
        Some(end) => stored.map.cursor_range(start, end.as_slice()),
        None => stored.map.cursor_from(start),
    }
}

// Writes the entries from where a cursor stands on, up to its end, to the first one that does not
// begin with its prefix, or to the first that has no room: then it returns the length of its key.
fn write_ahead(
    alloc: Global,
    stored: &StoredMap,
    position: &Position,
    filled: &mut Filled,
    room: &mut [u8],
    lens: &mut [usize],
    values: &mut [u64],
) -> Result<Option<usize>, AllocError>
    requires { AreWritten [] filled.old room.old lens.old values.old room.old lens.old values.old }
    ensures fills { Fills (prefix_of (Some position.now)) (until (end_of (Some position.now))
        (beyond position.now.passed position.now.key.items (map.entries stored.now.map)))
        filled.new room.new lens.new values.new room.old lens.old values.old }
    ensures none { result ≡ Ok None → filled.new.count ≡ 0 →
        IsNoneFirst (prefix_of (Some position.now)) (until (end_of (Some position.now))
        (beyond position.now.passed position.now.key.items (map.entries stored.now.map))) }
    ensures full { (n : ℕ) → result ≡ Ok (Some n) → filled.new.count ≡ 0 →
        IsFullFirst (prefix_of (Some position.now)) (until (end_of (Some position.now))
        (beyond position.now.passed position.now.key.items (map.entries stored.now.map))) n
        (length room.old) (length lens.old) (length values.old) }
{
    let key = start(alloc, position)?;
    let mut walk = walk_until(stored, key.as_slice(), position);
    write_entries(&mut walk, position.prefix(), filled, room, lens, values)
}

// What is returned where no entry is written.
fn none_written(ended: Result<Option<usize>, AllocError>, len: &mut usize) -> u32
    ensures end { result ≡ 0 → ended ≡ Ok None }
    ensures full { result ≡ 4 → ended ≡ Ok (Some len.new) }
    ensures len { result ≢ 4 → len.new ≡ len.old }
    ensures codes { result ≤ 4 }
    ensures not_one { result ≢ 1 }
    ensures not_three { result ≢ 3 }
{
    match ended {
        Ok(None) => END,
        Ok(Some(n)) => {
            *len = n;
            NO_ROOM
        }
        Err(_) => NO_MEMORY,
    }
}

// Writes entries that a cursor has ahead, and passes them.
fn fill(
    alloc: Global,
    stored: &StoredMap,
    position: &mut Position,
    room: &mut [u8],
    lens: &mut [usize],
    values: &mut [u64],
    count: &mut usize,
    len: &mut usize,
) -> u32
    ensures writes { WritesMany (ahead_of (Some position.old) (map.entries stored.now.map)) result
        room.old lens.old values.old count.old len.old
        room.new lens.new values.new count.new len.new }
    ensures passes { Passes (option_map (λ e. e.0) (last_or None
        (take count.new (ahead_of (Some position.old) (map.entries stored.now.map)))))
        result (Some position.old) (Some position.new) }
{
    let mut filled = Filled {
        count: 0,
        used: 0,
        last_at: 0,
    };
    let ended = write_ahead(alloc, stored, position, &mut filled, room, lens, values);
    if filled.count == 0 {
        return none_written(ended, len);
    }
    let Ok(last) = Vec::from_slice(alloc, &room[filled.last_at..filled.used]) else {
        return NO_MEMORY;
    };
    position.pass(last);
    *count = filled.count;
    *len = filled.used;
    ENTRY
}

// Writes entries of the map that the cursor has ahead, and passes them.
#[tactic(auto, using(crate::proofs::EmptyRules::no_entry))]
pub(crate) fn block_ahead(
    alloc: Global,
    cursor: &mut CursorPlace,
    stored: Option<&StoredMap>,
    room: &mut [u8],
    lens: &mut [usize],
    values: &mut [u64],
    count: &mut usize,
    len: &mut usize,
) -> u32
    ensures writes { WritesMany
        (ahead_of cursor.old.pointer.stored (map.entries (map_behind stored.entry))) result
        room.old lens.old values.old count.old len.old
        room.new lens.new values.new count.new len.new }
    ensures passes { Passes (option_map (λ e. e.0) (last_or None (take count.new
        (ahead_of cursor.old.pointer.stored (map.entries (map_behind stored.entry))))))
        result cursor.old.pointer.stored cursor.new.pointer.stored }
    ensures refused { result ≡ 2 → map.entries (map_behind stored.entry) ≢ [] }
{
    let Some(stored) = stored else {
        return END;
    };
    if stored.map.is_empty() {
        return END;
    }
    let Ok(mut position) = cursor.take_or_make(alloc) else {
        return NO_MEMORY;
    };
    let result = fill(alloc, stored, &mut position, room, lens, values, count, len);
    cursor.put(position);
    result
}

/// Writes entries that the cursor has ahead, as many as have room in each of the arrays, or fewer
/// where memory runs out behind the first, and passes them: their keys to the room, one behind the
/// other, the length of each key to `lens` and its value to `values`. Returns `ENTRY`, and writes
/// how many entries they are to `count` and how many bytes their keys have to `len`; `NO_ROOM`
/// where the first of them has no room, and writes the length of its key to `len`; `END` where no
/// entry is ahead; `NO_MEMORY` where memory ran out, and then what the arrays hold is not said. But
/// with `ENTRY` the cursor stands where it stood.
#[unsafe(no_mangle)]
pub extern "C" fn patricia_cursor_next_many(
    alloc: Global,
    cursor: &mut CursorPlace,
    at: &mut MapPlace,
    room: &mut [u8],
    lens: &mut [usize],
    values: &mut [u64],
    count: &mut usize,
    len: &mut usize,
) -> u32
    ensures same { at.new ≡ at.old }
    ensures writes { WritesMany
        (ahead_of cursor.old.pointer.stored (map.entries (map_of at.old.pointer.stored)))
        result room.old lens.old values.old count.old len.old
        room.new lens.new values.new count.new len.new }
    ensures passes { Passes (option_map (λ e. e.0) (last_or None (take count.new
        (ahead_of cursor.old.pointer.stored (map.entries (map_of at.old.pointer.stored))))))
        result cursor.old.pointer.stored cursor.new.pointer.stored }
    ensures refused { result ≡ 2 → map.entries (map_of at.old.pointer.stored) ≢ [] }
{
    block_ahead(alloc, cursor, at.stored(), room, lens, values, count, len)
}
