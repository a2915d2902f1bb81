//! The first and the last entry of maps that handles share, and those next to a key.
ghost use Rattle.std.specs.Prelude.{◌≡◌, ◌≢◌, [], slice_get, Some, None};
ghost use Rattle.std.specs.List.{last_or};
ghost use Rattle.std.specs.FinMap as map;
ghost use Rattle.patricia_tree.specs.Cursors.{after};
ghost use Rattle.patricia_tree.specs.Ranges.{before};
ghost use Rattle.patricia_c.specs.Ends.{WritesEntry};
ghost use Rattle.patricia_c.specs.Shared.{shared_of};

use crate::ends::{write_first, write_last, write_next, write_previous};
use crate::shared_place::SharedPlace;

/// Answers as `patricia_first` does.
#[unsafe(no_mangle)]
pub extern "C" fn patricia_shared_first(
    shared: &mut SharedPlace,
    room: &mut [u8],
    len: &mut usize,
    value: &mut u64,
) -> u32
    ensures same { shared.new ≡ shared.old }
    ensures entry { WritesEntry
        (slice_get (map.entries (shared_of shared.old.pointer.stored)) 0)
        result room.old len.old value.old room.new len.new value.new }
    ensures refused { result ≡ 2 → map.entries (shared_of shared.old.pointer.stored) ≢ [] }
{
    write_first(shared.stored(), room, len, value)
}

/// Answers as `patricia_last` does.
#[unsafe(no_mangle)]
pub extern "C" fn patricia_shared_last(
    shared: &mut SharedPlace,
    room: &mut [u8],
    len: &mut usize,
    value: &mut u64,
) -> u32
    ensures same { shared.new ≡ shared.old }
    ensures entry { WritesEntry
        (last_or None (map.entries (shared_of shared.old.pointer.stored)))
        result room.old len.old value.old room.new len.new value.new }
    ensures refused { result ≡ 2 → map.entries (shared_of shared.old.pointer.stored) ≢ [] }
{
    write_last(shared.stored(), room, len, value)
}

/// Answers as `patricia_first_after` does.
#[unsafe(no_mangle)]
pub extern "C" fn patricia_shared_first_after(
    shared: &mut SharedPlace,
    key: &[u8],
    room: &mut [u8],
    len: &mut usize,
    value: &mut u64,
) -> u32
    ensures same { shared.new ≡ shared.old }
    ensures entry { WritesEntry
        (slice_get (after (Some key.now) (map.entries (shared_of shared.old.pointer.stored))) 0)
        result room.old len.old value.old room.new len.new value.new }
    ensures refused { result ≡ 2 → map.entries (shared_of shared.old.pointer.stored) ≢ [] }
{
    write_next(shared.stored(), key, room, len, value)
}

/// Answers as `patricia_last_before` does.
#[unsafe(no_mangle)]
pub extern "C" fn patricia_shared_last_before(
    shared: &mut SharedPlace,
    key: &[u8],
    room: &mut [u8],
    len: &mut usize,
    value: &mut u64,
) -> u32
    ensures same { shared.new ≡ shared.old }
    ensures entry { WritesEntry
        (last_or None (before key.now (map.entries (shared_of shared.old.pointer.stored))))
        result room.old len.old value.old room.new len.new value.new }
    ensures refused { result ≡ 2 →
        before key.now (map.entries (shared_of shared.old.pointer.stored)) ≢ [] }
{
    write_previous(shared.stored(), key, room, len, value)
}
