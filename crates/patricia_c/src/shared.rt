//! Handles of a map that several of them share. A shared map can be read and not be changed.
ghost use Rattle.std.specs.Prelude.{◌≡◌, ◌≢◌, ◌⊎◌, Some, None, IfOk, MatchResult};
ghost use Rattle.std.specs.FinMap as map;
ghost use Rattle.patricia_c.specs.Maps.{Copies, map_of};
ghost use Rattle.patricia_c.specs.Shared.{shared_of};

use crate::codes::{DONE, NO_MEMORY, SHARED};
use crate::map::copy_to_place;
use crate::map_place::MapPlace;
use crate::map_pointer::StoredMap;
use crate::shared_place::SharedPlace;
use crate::shared_pointer::SharedMap;
use std::alloc::{AllocError, Global};
use std::sync::Arc;

mod encodings;
mod ends;
mod entries;
mod many;
mod prefixes;

// A first handle of the map.
fn first_handle(alloc: Global, stored: Box<StoredMap>) -> Result<Box<SharedMap>, Box<StoredMap>>
    ensures { MatchResult result
        (λ b. shared_of (Some b.value) ≡ map_of (Some stored.value)) (λ b. b ≡ stored) }
{
    let Ok(mut handle) = Box::new(alloc, SharedMap { map: None }) else {
        return Err(stored);
    };
    match Arc::new(alloc, stored) {
        Ok(arc) => {
            handle.map = Some(arc);
            Ok(handle)
        }
        Err(failed) => Err(failed.value),
    }
}

/// Drops the handle that `shared` holds, and moves the map to a first handle there. Returns `DONE`;
/// or `NO_MEMORY` where memory ran out, never for an empty place: the map stays where it was, and
/// `shared` is a handle of the empty map.
#[unsafe(no_mangle)]
pub extern "C" fn patricia_freeze(alloc: Global, at: &mut MapPlace, shared: &mut SharedPlace) -> u32
    ensures frozen { result ≡ 0 →
        shared_of shared.new.pointer.stored ≡ map_of at.old.pointer.stored }
    ensures left { result ≡ 0 → map_of at.new.pointer.stored ≡ map.empty }
    ensures kept { result ≡ 2 → map_of at.new.pointer.stored ≡ map_of at.old.pointer.stored }
    ensures none { result ≡ 2 → shared_of shared.new.pointer.stored ≡ map.empty }
    ensures refused { result ≡ 2 → at.old.pointer.stored ≢ None }
    ensures codes { (result ≡ 0) ⊎ (result ≡ 2) }
{
    drop(shared.take());
    let Some(stored) = at.take() else {
        return DONE;
    };
    match first_handle(alloc, stored) {
        Ok(first) => {
            shared.put(first);
            DONE
        }
        Err(stored) => {
            at.put(stored);
            NO_MEMORY
        }
    }
}

// Another handle of the same map.
fn another_handle(alloc: Global, shared: &SharedMap) -> Result<Box<SharedMap>, AllocError>
    ensures { IfOk result (λ b. shared_of (Some b.value) ≡ shared_of (Some shared.now)) }
{
    let map = match &shared.map {
        Some(arc) => Some(Arc::try_clone(arc)?),
        None => None,
    };
    Ok(Box::new(alloc, SharedMap { map })?)
}

/// Drops the handle that `copy` holds, and writes another handle of the map there. Returns `DONE`;
/// or `NO_MEMORY` where memory ran out, never for an empty place: `copy` is a handle of the empty
/// map.
#[unsafe(no_mangle)]
pub extern "C" fn patricia_shared_clone(
    alloc: Global,
    shared: &mut SharedPlace,
    copy: &mut SharedPlace,
) -> u32
    ensures same_place { shared.new ≡ shared.old }
    ensures same { result ≡ 0 →
        shared_of copy.new.pointer.stored ≡ shared_of shared.old.pointer.stored }
    ensures none { result ≡ 2 → shared_of copy.new.pointer.stored ≡ map.empty }
    ensures refused { result ≡ 2 → shared.old.pointer.stored ≢ None }
    ensures codes { (result ≡ 0) ⊎ (result ≡ 2) }
{
    drop(copy.take());
    let Some(there) = shared.as_mut() else {
        return DONE;
    };
    match another_handle(alloc, there) {
        Ok(handle) => {
            copy.put(handle);
            DONE
        }
        Err(_) => NO_MEMORY,
    }
}

/// Drops the entries of `copy` and writes a copy of the shared map there, which can be changed.
/// Returns `DONE`; or `NO_MEMORY` where memory ran out, never for an empty map: `copy` holds the
/// empty map then.
#[unsafe(no_mangle)]
pub extern "C" fn patricia_shared_to_map(
    alloc: Global,
    shared: &mut SharedPlace,
    copy: &mut MapPlace,
) -> u32
    ensures same { shared.new ≡ shared.old }
    ensures copy { Copies (shared_of shared.old.pointer.stored) result
        (map_of copy.new.pointer.stored) }
{
    copy_to_place(alloc, shared.stored(), copy)
}

/// Drops the map that `at` holds, and moves the shared map there, where it can be changed, if no
/// other handle of it is left: returns `DONE` then. Returns `SHARED` where one is: nothing has
/// changed then. Handles of a map that was all zero bytes are not counted: each of them succeeds,
/// with the empty map.
#[unsafe(no_mangle)]
pub extern "C" fn patricia_thaw(shared: &mut SharedPlace, at: &mut MapPlace) -> u32
    ensures thawed { result ≡ 0 →
        map_of at.new.pointer.stored ≡ shared_of shared.old.pointer.stored }
    ensures left { result ≡ 0 → shared_of shared.new.pointer.stored ≡ map.empty }
    ensures kept { result ≡ 7 →
        shared_of shared.new.pointer.stored ≡ shared_of shared.old.pointer.stored }
    ensures unwritten { result ≡ 7 →
        map_of at.new.pointer.stored ≡ map_of at.old.pointer.stored }
    ensures refused { result ≡ 7 → shared.old.pointer.stored ≢ None }
    ensures codes { (result ≡ 0) ⊎ (result ≡ 7) }
{
    let Some(mut handle) = shared.take() else {
        drop(at.take());
        return DONE;
    };
    let Some(arc) = handle.map.take() else {
        drop(at.take());
        return DONE;
    };
    match Arc::try_unwrap(arc) {
        Ok(last) => {
            at.put(last);
            DONE
        }
        Err(counted) => {
            handle.map = Some(counted);
            shared.put(handle);
            SHARED
        }
    }
}

/// Drops the handle, and the map with it where it was the last one. The place is a handle of the
/// empty map.
#[unsafe(no_mangle)]
pub extern "C" fn patricia_shared_free(shared: &mut SharedPlace)
    ensures { shared_of shared.new.pointer.stored ≡ map.empty }
{
    let handle = shared.take();
    drop(handle);
}
