//! Tree bytes. The values are stored beside them, in key order, as an iterator gives them.
ghost use Rattle.std.specs.Prelude.{◌≡◌, ◌≢◌, ◌≤◌};
ghost use Rattle.std.specs.FinMap as map;
ghost use Rattle.patricia_tree.specs.ByteKind.{IsByteItem};
ghost use Rattle.patricia_c.specs.Codes.{IsCode};
ghost use Rattle.patricia_c.specs.Internal.Behind.{map_behind};
ghost use Rattle.patricia_c.specs.Maps.{map_of};
ghost use Rattle.patricia_c.specs.Trees.{ReadsTree, WritesTree};

use crate::codes::{DONE, NO_MEMORY, NO_ROOM, TOO_DEEP};
use crate::map_place::MapPlace;
use crate::map_pointer::StoredMap;
use crate::room::copy_to;
use patricia_tree::{DecodeError, PatriciaMap, WireError};
use std::alloc::Global;

// The code of an error, with the offset that it names.
pub(crate) fn code(error: DecodeError, offset: &mut usize) -> u32
    ensures code { IsCode error result offset.new }
    ensures some { result ≢ 0 }
{
    let (code, at) = match error {
        DecodeError::Memory => (NO_MEMORY, 0),
        DecodeError::Truncated(at) => (12, at),
        DecodeError::Level(at) => (13, at),
        DecodeError::RootLabel(at) => (14, at),
        DecodeError::RootSibling(at) => (15, at),
        DecodeError::EmptyLabel(at) => (16, at),
        DecodeError::InvalidLabel(at) => (17, at),
        DecodeError::SiblingOrder(at) => (18, at),
        DecodeError::NoValueNoChild(at) => (19, at),
        DecodeError::TooFewValues(at) => (20, at),
        DecodeError::TrailingBytes(at) => (21, at),
        DecodeError::TooManyValues => (22, 0),
    };
    *offset = at;
    code
}

// The map, or an empty one where there is none.
pub(crate) fn map_or<'a>(
    stored: Option<&'a StoredMap>,
    empty: &'a PatriciaMap<u64>,
) -> &'a PatriciaMap<u64>
    requires { empty.now ≡ map.empty }
    ensures { result.now ≡ map_behind stored.entry }
{
    match stored {
        Some(stored) => &stored.map,
        None => empty,
    }
}

// Writes the tree bytes of a map to the room, where it is as long, and their number to `len`.
pub(crate) fn write_tree_bytes(
    alloc: Global,
    stored: Option<&StoredMap>,
    room: &mut [u8],
    len: &mut usize,
) -> u32
    ensures tree { WritesTree IsByteItem 2 (map_behind stored.entry)
        result room.old len.old room.new len.new }
    ensures codes { result ≤ 4 }
{
    match map_or(stored, &PatriciaMap::new(alloc)).tree_bytes() {
        Ok(bytes) => {
            if copy_to(room, len, bytes.as_slice()) {
                DONE
            } else {
                NO_ROOM
            }
        }
        Err(WireError::Memory) => NO_MEMORY,
        Err(_) => TOO_DEEP,
    }
}

// Writes the wide tree bytes of a map to the room, where it is as long, and their number to `len`.
pub(crate) fn write_wide_tree_bytes(
    alloc: Global,
    stored: Option<&StoredMap>,
    room: &mut [u8],
    len: &mut usize,
) -> u32
    ensures tree { WritesTree IsByteItem 4 (map_behind stored.entry)
        result room.old len.old room.new len.new }
    ensures codes { result ≤ 4 }
{
    match map_or(stored, &PatriciaMap::new(alloc)).wide_tree_bytes() {
        Ok(bytes) => {
            if copy_to(room, len, bytes.as_slice()) {
                DONE
            } else {
                NO_ROOM
            }
        }
        Err(WireError::Memory) => NO_MEMORY,
        Err(_) => TOO_DEEP,
    }
}

/// Writes the tree bytes to the room and their number to `len`, and returns `DONE`. Where they are
/// more than the room, it returns `NO_ROOM`, and `len` is their number. It returns `TOO_DEEP` where
/// a record would lie deeper than level 65,535, and `NO_MEMORY` where memory ran out.
#[unsafe(no_mangle)]
pub extern "C" fn patricia_tree_bytes(
    alloc: Global,
    at: &mut MapPlace,
    room: &mut [u8],
    len: &mut usize,
) -> u32
    ensures same { at.new ≡ at.old }
    ensures tree { WritesTree IsByteItem 2 (map_of at.old.pointer.stored)
        result room.old len.old room.new len.new }
    ensures codes { result ≤ 4 }
{
    write_tree_bytes(alloc, at.stored(), room, len)
}

/// Writes the wide tree bytes, as `patricia_tree_bytes` does the tree bytes. A record would lie too
/// deep below level 4,294,967,295.
#[unsafe(no_mangle)]
pub extern "C" fn patricia_wide_tree_bytes(
    alloc: Global,
    at: &mut MapPlace,
    room: &mut [u8],
    len: &mut usize,
) -> u32
    ensures same { at.new ≡ at.old }
    ensures tree { WritesTree IsByteItem 4 (map_of at.old.pointer.stored)
        result room.old len.old room.new len.new }
    ensures codes { result ≤ 4 }
{
    write_wide_tree_bytes(alloc, at.stored(), room, len)
}

/// Drops the entries of the map and makes it of tree bytes and values, in key order. Returns
/// `DONE`, `NO_MEMORY`, or the code of the first fault, whose offset it writes to `offset`. Where
/// it does not return `DONE` the place holds the empty map.
#[tactic(auto, using(crate::proofs::CodeLemmas::memory_refuses))]
#[unsafe(no_mangle)]
pub extern "C" fn patricia_from_tree_bytes(
    alloc: Global,
    at: &mut MapPlace,
    bytes: &[u8],
    values: &[u64],
    offset: &mut usize,
) -> u32
    ensures { ReadsTree IsByteItem 2 bytes.now values.now result offset.old
        (map_of at.new.pointer.stored) offset.new }
{
    drop(at.take());
    let Ok(mut stored) = at.take_or_make(alloc) else {
        return code(DecodeError::Memory, offset);
    };
    let Ok(values) = Vec::from_slice(alloc, values) else {
        return code(DecodeError::Memory, offset);
    };
    match PatriciaMap::from_wire(alloc, bytes, values) {
        Ok(map) => {
            stored.map = map;
            at.put(stored);
            DONE
        }
        Err(error) => code(error, offset),
    }
}

/// Makes the map of wide tree bytes and values, as `patricia_from_tree_bytes` does of tree bytes.
#[tactic(auto, using(crate::proofs::CodeLemmas::memory_refuses))]
#[unsafe(no_mangle)]
pub extern "C" fn patricia_from_wide_tree_bytes(
    alloc: Global,
    at: &mut MapPlace,
    bytes: &[u8],
    values: &[u64],
    offset: &mut usize,
) -> u32
    ensures { ReadsTree IsByteItem 4 bytes.now values.now result offset.old
        (map_of at.new.pointer.stored) offset.new }
{
    drop(at.take());
    let Ok(mut stored) = at.take_or_make(alloc) else {
        return code(DecodeError::Memory, offset);
    };
    let Ok(values) = Vec::from_slice(alloc, values) else {
        return code(DecodeError::Memory, offset);
    };
    match PatriciaMap::from_wide_wire(alloc, bytes, values) {
        Ok(map) => {
            stored.map = map;
            at.put(stored);
            DONE
        }
        Err(error) => code(error, offset),
    }
}
