//! Tree bytes of maps that handles share.
ghost use Rattle.std.specs.Prelude.{◌≡◌, ◌≤◌};
ghost use Rattle.patricia_tree.specs.ByteKind.{IsByteItem};
ghost use Rattle.patricia_tree.specs.TextKind.{IsTextItem};
ghost use Rattle.patricia_c.specs.Shared.{shared_of};
ghost use Rattle.patricia_c.specs.Trees.{WritesTree};

use crate::encodings::{write_tree_bytes, write_wide_tree_bytes};
use crate::shared_place::SharedPlace;
use crate::text_encodings::{write_text_tree_bytes, write_wide_text_tree_bytes};
use std::alloc::Global;

/// Writes what `patricia_tree_bytes` does.
#[unsafe(no_mangle)]
pub extern "C" fn patricia_shared_tree_bytes(
    alloc: Global,
    shared: &mut SharedPlace,
    room: &mut [u8],
    len: &mut usize,
) -> u32
    ensures same { shared.new ≡ shared.old }
    ensures tree { WritesTree IsByteItem 2 (shared_of shared.old.pointer.stored)
        result room.old len.old room.new len.new }
    ensures codes { result ≤ 4 }
{
    write_tree_bytes(alloc, shared.stored(), room, len)
}

/// Writes what `patricia_wide_tree_bytes` does.
#[unsafe(no_mangle)]
pub extern "C" fn patricia_shared_wide_tree_bytes(
    alloc: Global,
    shared: &mut SharedPlace,
    room: &mut [u8],
    len: &mut usize,
) -> u32
    ensures same { shared.new ≡ shared.old }
    ensures tree { WritesTree IsByteItem 4 (shared_of shared.old.pointer.stored)
        result room.old len.old room.new len.new }
    ensures codes { result ≤ 4 }
{
    write_wide_tree_bytes(alloc, shared.stored(), room, len)
}

/// Writes what `patricia_text_tree_bytes` does.
#[unsafe(no_mangle)]
pub extern "C" fn patricia_shared_text_tree_bytes(
    alloc: Global,
    shared: &mut SharedPlace,
    room: &mut [u8],
    len: &mut usize,
) -> u32
    ensures same { shared.new ≡ shared.old }
    ensures tree { WritesTree IsTextItem 2 (shared_of shared.old.pointer.stored)
        result room.old len.old room.new len.new }
    ensures codes { result ≤ 5 }
{
    write_text_tree_bytes(alloc, shared.stored(), room, len)
}

/// Writes what `patricia_text_wide_tree_bytes` does.
#[unsafe(no_mangle)]
pub extern "C" fn patricia_shared_text_wide_tree_bytes(
    alloc: Global,
    shared: &mut SharedPlace,
    room: &mut [u8],
    len: &mut usize,
) -> u32
    ensures same { shared.new ≡ shared.old }
    ensures tree { WritesTree IsTextItem 4 (shared_of shared.old.pointer.stored)
        result room.old len.old room.new len.new }
    ensures codes { result ≤ 5 }
{
    write_wide_text_tree_bytes(alloc, shared.stored(), room, len)
}
