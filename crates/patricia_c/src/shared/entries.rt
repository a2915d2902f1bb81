//! Single entries of maps that handles share, and walks over them.
ghost use Rattle.std.specs.Prelude.{◌≡◌, ◌≢◌, [], None, Some, slice_get, take};
ghost use Rattle.std.specs.List.{last_or};
ghost use Rattle.std.specs.Option.{option_map};
ghost use Rattle.std.specs.FinMap as map;
ghost use Rattle.patricia_tree.specs.ByteKind.{IsByteItem};
ghost use Rattle.patricia_tree.specs.Edits.{IsNear};
ghost use Rattle.patricia_tree.specs.Prefixes.{under};
ghost use Rattle.patricia_tree.specs.TextKind.{IsTextItem};
ghost use Rattle.patricia_c.specs.Blocks.{WritesMany};
ghost use Rattle.patricia_c.specs.Cursors.{Passes, ahead_of};
ghost use Rattle.patricia_c.specs.Ends.{WritesEntry};
ghost use Rattle.patricia_c.specs.EntriesLeft.{Iterates, entries_of};
ghost use Rattle.patricia_c.specs.Maps.{WritesValue};
ghost use Rattle.patricia_c.specs.Near.{Picks};
ghost use Rattle.patricia_c.specs.Shared.{shared_of};

use crate::blocks::block_ahead;
use crate::cursor_place::CursorPlace;
use crate::cursors::next_ahead;
use crate::iteration::write_iterator;
use crate::iterator_place::IteratorPlace;
use crate::map::{get_to, len_of};
use crate::near::{write_near, write_near_texts};
use crate::shared_place::SharedPlace;
use std::alloc::Global;

/// Answers as `patricia_len` does.
#[unsafe(no_mangle)]
pub extern "C" fn patricia_shared_len(shared: &mut SharedPlace) -> usize
    ensures len { result ≡ map.len (shared_of shared.old.pointer.stored) }
    ensures same { shared.new ≡ shared.old }
{
    len_of(shared.stored())
}

/// Answers as `patricia_get` does.
#[unsafe(no_mangle)]
pub extern "C" fn patricia_shared_get(shared: &mut SharedPlace, key: &[u8], value: &mut u64) -> bool
    ensures same { shared.new ≡ shared.old }
    ensures value { WritesValue (map.get (shared_of shared.old.pointer.stored) key.now)
        result value.old value.new }
{
    get_to(shared.stored(), key, value)
}

/// Answers as `patricia_iterate` does.
#[unsafe(no_mangle)]
pub extern "C" fn patricia_shared_iterate(
    alloc: Global,
    shared: &mut SharedPlace,
    prefix: &[u8],
    iterator: &mut IteratorPlace,
) -> u32
    ensures same { shared.new ≡ shared.old }
    ensures left { let all = map.entries (shared_of shared.old.pointer.stored) in
        Iterates (λ left. left ≡ under prefix.now all) (under prefix.now all) result
        (entries_of iterator.new.pointer.stored) }
{
    write_iterator(alloc, shared.stored(), prefix, iterator)
}

/// Answers as `patricia_within` does.
#[unsafe(no_mangle)]
pub extern "C" fn patricia_shared_within(
    alloc: Global,
    shared: &mut SharedPlace,
    sought: &[u8],
    limit: u32,
    iterator: &mut IteratorPlace,
) -> u32
    ensures same { shared.new ≡ shared.old }
    ensures left { let all = map.entries (shared_of shared.old.pointer.stored) in
        Iterates (Picks (λ e. IsNear IsByteItem limit e.0 sought.now) all) all result
        (entries_of iterator.new.pointer.stored) }
{
    write_near(alloc, shared.stored(), sought, limit, iterator)
}

/// Answers as `patricia_text_within` does.
#[unsafe(no_mangle)]
pub extern "C" fn patricia_shared_text_within(
    alloc: Global,
    shared: &mut SharedPlace,
    sought: &[u8],
    limit: u16,
    iterator: &mut IteratorPlace,
) -> u32
    ensures same { shared.new ≡ shared.old }
    ensures left { let all = map.entries (shared_of shared.old.pointer.stored) in
        Iterates (Picks (λ e. IsNear IsTextItem limit e.0 sought.now) all) all result
        (entries_of iterator.new.pointer.stored) }
{
    write_near_texts(alloc, shared.stored(), sought, limit, iterator)
}

/// Answers as `patricia_cursor_next` does.
#[unsafe(no_mangle)]
pub extern "C" fn patricia_shared_cursor_next(
    alloc: Global,
    cursor: &mut CursorPlace,
    shared: &mut SharedPlace,
    room: &mut [u8],
    len: &mut usize,
    value: &mut u64,
) -> u32
    ensures same { shared.new ≡ shared.old }
    ensures entry { WritesEntry (slice_get (ahead_of cursor.old.pointer.stored
        (map.entries (shared_of shared.old.pointer.stored))) 0)
        result room.old len.old value.old room.new len.new value.new }
    ensures passes { Passes (Some (take len.new room.new)) result
        cursor.old.pointer.stored cursor.new.pointer.stored }
    ensures refused { result ≡ 2 → map.entries (shared_of shared.old.pointer.stored) ≢ [] }
{
    next_ahead(alloc, cursor, shared.stored(), room, len, value)
}

/// Answers as `patricia_cursor_next_many` does.
#[unsafe(no_mangle)]
pub extern "C" fn patricia_shared_cursor_next_many(
    alloc: Global,
    cursor: &mut CursorPlace,
    shared: &mut SharedPlace,
    room: &mut [u8],
    lens: &mut [usize],
    values: &mut [u64],
    count: &mut usize,
    len: &mut usize,
) -> u32
    ensures same { shared.new ≡ shared.old }
    ensures writes { WritesMany
        (ahead_of cursor.old.pointer.stored (map.entries (shared_of shared.old.pointer.stored)))
        result room.old lens.old values.old count.old len.old
        room.new lens.new values.new count.new len.new }
    ensures passes { Passes (option_map (λ e. e.0) (last_or None (take count.new
        (ahead_of cursor.old.pointer.stored (map.entries (shared_of shared.old.pointer.stored))))))
        result cursor.old.pointer.stored cursor.new.pointer.stored }
    ensures refused { result ≡ 2 → map.entries (shared_of shared.old.pointer.stored) ≢ [] }
{
    block_ahead(
        alloc,
        cursor,
        shared.stored(),
        room,
        lens,
        values,
        count,
        len,
    )
}
