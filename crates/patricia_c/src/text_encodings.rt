//! Tree bytes of a map whose keys are texts: no label is cut inside a character.
ghost use Rattle.std.specs.Prelude.{◌≡◌, ◌≤◌, None, IfOk, IfSome};
ghost use Rattle.std.specs.FinMap as map;
ghost use Rattle.patricia_tree.specs.TextKind.{IsTextItem};
ghost use Rattle.patricia_c.specs.Codes.{HasOther};
ghost use Rattle.patricia_c.specs.Internal.Behind.{map_behind};
ghost use Rattle.patricia_c.specs.Maps.{map_of};
ghost use Rattle.patricia_c.specs.Trees.{ReadsTree, WritesTree};

use crate::codes::{DONE, NO_MEMORY, NO_ROOM, NOT_TEXT, TOO_DEEP};
use crate::encodings::code;
use crate::map_place::MapPlace;
use crate::map_pointer::StoredMap;
use crate::room::copy_to;
use patricia_keys::keys::text_of;
use patricia_tree::{Bytes, DecodeError, PatriciaMap, StringPatriciaMap, WireError};
use std::alloc::{AllocError, Global};

// The map with texts as keys, or none where some key is no text.
fn to_texts(
    alloc: Global,
    from: &PatriciaMap<u64>,
) -> Result<Option<StringPatriciaMap<u64>>, AllocError>
    ensures same { IfOk result (λ found. IfSome found (λ texts. texts ≡ from.now)) }
    ensures other { IfOk result (λ found. found ≡ None → HasOther IsTextItem (map.keys from.now)) }
{
    let mut texts = StringPatriciaMap::new(alloc);
    for entry in from.iter() {
        let (key, value) = entry?;
        let bytes = key.as_slice();
        if !String::is_valid_bytes(bytes) {
            return Ok(None);
        }
        let Ok(_) = texts.insert(text_of(bytes), *value) else {
            return Err(AllocError);
        };
    }
    Ok(Some(texts))
}

// The same of a map that may be none.
fn texts_behind(
    alloc: Global,
    stored: Option<&StoredMap>,
) -> Result<Option<StringPatriciaMap<u64>>, AllocError>
    ensures same { IfOk result (λ found. IfSome found (λ texts. texts ≡ map_behind stored.entry)) }
    ensures other { IfOk result (λ found. found ≡ None
        → HasOther IsTextItem (map.keys (map_behind stored.entry))) }
{
    match stored {
        Some(stored) => to_texts(alloc, &stored.map),
        None => Ok(Some(StringPatriciaMap::new(alloc))),
    }
}

// The map with the bytes of its texts as keys.
fn to_bytes(alloc: Global, from: &StringPatriciaMap<u64>) -> Result<PatriciaMap<u64>, AllocError>
    ensures { IfOk result (λ bytes. bytes ≡ from.now) }
{
    let mut bytes = PatriciaMap::new(alloc);
    for entry in from.iter() {
        let (key, value) = entry?;
        let Ok(_) = bytes.insert(key.as_str().as_bytes(), *value) else {
            return Err(AllocError);
        };
    }
    Ok(bytes)
}

// Writes the tree bytes of the map as one of texts.
pub(crate) fn write_text_tree_bytes(
    alloc: Global,
    stored: Option<&StoredMap>,
    room: &mut [u8],
    len: &mut usize,
) -> u32
    ensures tree { WritesTree IsTextItem 2 (map_behind stored.entry)
        result room.old len.old room.new len.new }
    ensures codes { result ≤ 5 }
{
    let texts = match texts_behind(alloc, stored) {
        Ok(Some(texts)) => texts,
        Ok(None) => return NOT_TEXT,
        Err(_) => return NO_MEMORY,
    };
    match texts.tree_bytes() {
        Ok(bytes) => {
            if copy_to(room, len, bytes.as_slice()) {
                DONE
            } else {
                NO_ROOM
            }
        }
        Err(WireError::Memory) => NO_MEMORY,
        Err(_) => TOO_DEEP,
    }
}

// Writes the wide tree bytes of the map as one of texts.
pub(crate) fn write_wide_text_tree_bytes(
    alloc: Global,
    stored: Option<&StoredMap>,
    room: &mut [u8],
    len: &mut usize,
) -> u32
    ensures tree { WritesTree IsTextItem 4 (map_behind stored.entry)
        result room.old len.old room.new len.new }
    ensures codes { result ≤ 5 }
{
    let texts = match texts_behind(alloc, stored) {
        Ok(Some(texts)) => texts,
        Ok(None) => return NOT_TEXT,
        Err(_) => return NO_MEMORY,
    };
    match texts.wide_tree_bytes() {
        Ok(bytes) => {
            if copy_to(room, len, bytes.as_slice()) {
                DONE
            } else {
                NO_ROOM
            }
        }
        Err(WireError::Memory) => NO_MEMORY,
        Err(_) => TOO_DEEP,
    }
}

/// Writes the tree bytes of the map as one of texts, as `patricia_tree_bytes` does those of byte
/// strings. Returns `NOT_TEXT` where some key is no text.
#[unsafe(no_mangle)]
pub extern "C" fn patricia_text_tree_bytes(
    alloc: Global,
    at: &mut MapPlace,
    room: &mut [u8],
    len: &mut usize,
) -> u32
    ensures same { at.new ≡ at.old }
    ensures tree { WritesTree IsTextItem 2 (map_of at.old.pointer.stored)
        result room.old len.old room.new len.new }
    ensures codes { result ≤ 5 }
{
    write_text_tree_bytes(alloc, at.stored(), room, len)
}

/// Writes the wide tree bytes of the map as one of texts, as `patricia_text_tree_bytes` does the
/// tree bytes.
#[unsafe(no_mangle)]
pub extern "C" fn patricia_text_wide_tree_bytes(
    alloc: Global,
    at: &mut MapPlace,
    room: &mut [u8],
    len: &mut usize,
) -> u32
    ensures same { at.new ≡ at.old }
    ensures tree { WritesTree IsTextItem 4 (map_of at.old.pointer.stored)
        result room.old len.old room.new len.new }
    ensures codes { result ≤ 5 }
{
    write_wide_text_tree_bytes(alloc, at.stored(), room, len)
}

/// Drops the entries of the map and makes it of tree bytes of texts and values, as
/// `patricia_from_tree_bytes` does of those of byte strings.
#[tactic(auto, using(crate::proofs::CodeLemmas::memory_refuses))]
#[unsafe(no_mangle)]
pub extern "C" fn patricia_text_from_tree_bytes(
    alloc: Global,
    at: &mut MapPlace,
    bytes: &[u8],
    values: &[u64],
    offset: &mut usize,
) -> u32
    ensures { ReadsTree IsTextItem 2 bytes.now values.now result offset.old
        (map_of at.new.pointer.stored) offset.new }
{
    drop(at.take());
    let Ok(mut stored) = at.take_or_make(alloc) else {
        return code(DecodeError::Memory, offset);
    };
    let Ok(values) = Vec::from_slice(alloc, values) else {
        return code(DecodeError::Memory, offset);
    };
    let texts = match StringPatriciaMap::from_wire(alloc, bytes, values) {
        Ok(texts) => texts,
        Err(error) => return code(error, offset),
    };
    match to_bytes(alloc, &texts) {
        Ok(map) => {
            stored.map = map;
            at.put(stored);
            DONE
        }
        Err(_) => code(DecodeError::Memory, offset),
    }
}

/// Makes the map of wide tree bytes of texts and values, as `patricia_text_from_tree_bytes` does of
/// tree bytes.
#[tactic(auto, using(crate::proofs::CodeLemmas::memory_refuses))]
#[unsafe(no_mangle)]
pub extern "C" fn patricia_text_from_wide_tree_bytes(
    alloc: Global,
    at: &mut MapPlace,
    bytes: &[u8],
    values: &[u64],
    offset: &mut usize,
) -> u32
    ensures { ReadsTree IsTextItem 4 bytes.now values.now result offset.old
        (map_of at.new.pointer.stored) offset.new }
{
    drop(at.take());
    let Ok(mut stored) = at.take_or_make(alloc) else {
        return code(DecodeError::Memory, offset);
    };
    let Ok(values) = Vec::from_slice(alloc, values) else {
        return code(DecodeError::Memory, offset);
    };
    let texts = match StringPatriciaMap::from_wide_wire(alloc, bytes, values) {
        Ok(texts) => texts,
        Err(error) => return code(error, offset),
    };
    match to_bytes(alloc, &texts) {
        Ok(map) => {
            stored.map = map;
            at.put(stored);
            DONE
        }
        Err(_) => code(DecodeError::Memory, offset),
    }
}
