//! Fuzzy search: the entries whose key is few edits from another one.
ghost use Rattle.std.specs.Prelude.{◌≡◌, ◌↔◌, ◌*◌, IfOk, IsTrue};
ghost use Rattle.std.specs.FinMap as map;
ghost use Rattle.std.specs.Option.{option_map};
ghost use Rattle.patricia_tree.specs.ByteKind.{IsByteItem};
ghost use Rattle.patricia_tree.specs.Edits.{IsNear};
ghost use Rattle.patricia_tree.specs.TextKind.{IsTextItem};
ghost use Rattle.patricia_c.specs.EntriesLeft.{Iterates, entries_of, pairs_of};
ghost use Rattle.patricia_c.specs.Internal.Behind.{map_behind};
ghost use Rattle.patricia_c.specs.Maps.{map_of};
ghost use Rattle.patricia_c.specs.Near.{Picks};

use crate::codes::{DONE, NO_MEMORY};
use crate::entries_pointer::EntriesLeft;
use crate::iterator_place::IteratorPlace;
use crate::map_place::MapPlace;
use crate::map_pointer::StoredMap;
use patricia_tree::is_within;
use patricia_tree::map::NearCursor;
use std::alloc::{AllocError, Global};
use std::collections::VecDeque;
use std::str;

// Copies the entries that a search finds.
fn copy_near(
    alloc: Global,
    search: &mut NearCursor<'_, &[u8], u64>,
) -> Result<VecDeque<(Vec<u8>, u64)>, AllocError>
    ensures { IfOk result (λ found. Picks
        (λ e. IsNear IsByteItem search.old.limit e.0 search.old.sought)
        search.old.left (pairs_of found.items)) }
{
    let mut found = VecDeque::new(alloc);
    while search.advance()? {
        let (Some(key), Some(value)) = (search.key(), search.value()) else {
            break;
        };
        found.push_back((Vec::from_slice(alloc, key)?, *value))?;
    }
    Ok(found)
}

// Copies of the entries whose key is at most so many edits from a key, in key order, or none where
// there are none.
fn entries_near(
    alloc: Global,
    stored: &StoredMap,
    sought: &[u8],
    limit: u32,
) -> Result<Option<Box<EntriesLeft>>, AllocError>
    ensures { IfOk result (λ found. Picks (λ e. IsNear IsByteItem limit e.0 sought.now)
        (map.entries stored.now.map) (entries_of (option_map (λ b. b.value) found))) }
{
    let left = copy_near(alloc, &mut stored.map.within(sought, limit))?;
    if left.is_empty() {
        return Ok(None);
    }
    Ok(Some(Box::new(alloc, EntriesLeft { left })?))
}

// Whether a key is a text that at most so many edits of characters make another one.
fn is_near_text(alloc: Global, key: &[u8], sought: &str, limit: u32) -> Result<bool, AllocError>
    ensures { IfOk result (λ near. IsTrue near ↔ IsNear IsTextItem limit key.now sought.now) }
{
    match str::from_utf8(key) {
        Ok(text) => is_within(alloc, text, sought, limit),
        Err(_) => Ok(false),
    }
}

// Copies the entries that a search finds and whose keys are texts that are near by characters.
fn copy_near_texts(
    alloc: Global,
    search: &mut NearCursor<'_, &[u8], u64>,
    sought: &str,
    limit: u16,
) -> Result<VecDeque<(Vec<u8>, u64)>, AllocError>
    requires sought { search.old.sought ≡ sought.now }
    requires limit { search.old.limit ≡ 4 * limit }
    ensures { IfOk result (λ found. Picks (λ e. IsNear IsTextItem limit e.0 sought.now)
        search.old.left (pairs_of found.items)) }
{
    let mut found = VecDeque::new(alloc);
    while search.advance()? {
        let (Some(key), Some(value)) = (search.key(), search.value()) else {
            break;
        };
        if is_near_text(alloc, key, sought, limit as u32)? {
            found.push_back((Vec::from_slice(alloc, key)?, *value))?;
        }
    }
    Ok(found)
}

// Copies of the entries whose key is a text at most so many edits from a text, in key order, or
// none where there are none.
fn texts_near(
    alloc: Global,
    stored: &StoredMap,
    sought: &[u8],
    limit: u16,
) -> Result<Option<Box<EntriesLeft>>, AllocError>
    ensures { IfOk result (λ found. Picks (λ e. IsNear IsTextItem limit e.0 sought.now)
        (map.entries stored.now.map) (entries_of (option_map (λ b. b.value) found))) }
{
    let Ok(text) = str::from_utf8(sought) else {
        return Ok(None);
    };
    // an edit of a character changes at most four bytes
    let mut search = stored.map.within(sought, 4 * limit as u32);
    let left = copy_near_texts(alloc, &mut search, text, limit)?;
    if left.is_empty() {
        return Ok(None);
    }
    Ok(Some(Box::new(alloc, EntriesLeft { left })?))
}

// Writes an iterator over the entries whose key is at most so many edits from a key. Returns `DONE`
// or `NO_MEMORY`.
#[tactic(auto, using(crate::proofs::EmptyRules::no_entry))]
pub(crate) fn write_near(
    alloc: Global,
    stored: Option<&StoredMap>,
    sought: &[u8],
    limit: u32,
    iterator: &mut IteratorPlace,
) -> u32
    ensures { let all = map.entries (map_behind stored.entry) in
        Iterates (Picks (λ e. IsNear IsByteItem limit e.0 sought.now) all) all result
        (entries_of iterator.new.pointer.stored) }
{
    drop(iterator.take());
    let Some(stored) = stored else {
        return DONE;
    };
    if stored.map.is_empty() {
        return DONE;
    }
    match entries_near(alloc, stored, sought, limit) {
        Ok(Some(entries)) => {
            iterator.put(entries);
            DONE
        }
        Ok(None) => DONE,
        Err(_) => NO_MEMORY,
    }
}

// Writes an iterator over the entries whose key is a text at most so many edits from a text.
// Returns `DONE` or `NO_MEMORY`.
#[tactic(auto, using(crate::proofs::EmptyRules::no_entry))]
pub(crate) fn write_near_texts(
    alloc: Global,
    stored: Option<&StoredMap>,
    sought: &[u8],
    limit: u16,
    iterator: &mut IteratorPlace,
) -> u32
    ensures { let all = map.entries (map_behind stored.entry) in
        Iterates (Picks (λ e. IsNear IsTextItem limit e.0 sought.now) all) all result
        (entries_of iterator.new.pointer.stored) }
{
    drop(iterator.take());
    let Some(stored) = stored else {
        return DONE;
    };
    if stored.map.is_empty() {
        return DONE;
    }
    match texts_near(alloc, stored, sought, limit) {
        Ok(Some(entries)) => {
            iterator.put(entries);
            DONE
        }
        Ok(None) => DONE,
        Err(_) => NO_MEMORY,
    }
}

/// Drops the entries that the iterator has left, and writes one over the entries whose key is at
/// most `limit` edits from this key, in key order: an edit inserts, deletes or replaces a byte.
/// Returns `DONE`; or `NO_MEMORY` where memory ran out, never for an empty map: the iterator is at
/// its end then.
#[unsafe(no_mangle)]
pub extern "C" fn patricia_within(
    alloc: Global,
    at: &mut MapPlace,
    sought: &[u8],
    limit: u32,
    iterator: &mut IteratorPlace,
) -> u32
    ensures same { at.new ≡ at.old }
    ensures left { let all = map.entries (map_of at.old.pointer.stored) in
        Iterates (Picks (λ e. IsNear IsByteItem limit e.0 sought.now) all) all result
        (entries_of iterator.new.pointer.stored) }
{
    write_near(alloc, at.stored(), sought, limit, iterator)
}

/// Does as `patricia_within`, where an edit inserts, deletes or replaces a character: over the
/// entries whose key is UTF-8 and at most `limit` edits from this text.
#[unsafe(no_mangle)]
pub extern "C" fn patricia_text_within(
    alloc: Global,
    at: &mut MapPlace,
    sought: &[u8],
    limit: u16,
    iterator: &mut IteratorPlace,
) -> u32
    ensures same { at.new ≡ at.old }
    ensures left { let all = map.entries (map_of at.old.pointer.stored) in
        Iterates (Picks (λ e. IsNear IsTextItem limit e.0 sought.now) all) all result
        (entries_of iterator.new.pointer.stored) }
{
    write_near_texts(alloc, at.stored(), sought, limit, iterator)
}
