//! Entries that lie in arrays, put behind those of a map.
ghost use Rattle.std.specs.Prelude.{◌≡◌, ◌≢◌, ◌≤◌, ◌<◌, ◌⊎◌, ◌++◌, ℕ, List, IfSome, length, take};
ghost use Rattle.std.specs.Prelude.{slice_get, OnOk, IfErr};
ghost use Rattle.std.specs.List.{sum};
ghost use Rattle.std.specs.FinMap as map;
ghost use Rattle.std.specs.Iterator.{YieldsFirstBy, item_count};
ghost use Rattle.patricia_tree.specs.Loads.{EndsBefore, EndsNotBefore};
ghost use Rattle.patricia_tree.specs.declared.map.sorted.LoadError.TheVariants.{Memory, NotInOrder};
ghost use Rattle.patricia_c.specs.Many.{keys_in, pairs_in};
ghost use Rattle.patricia_c.specs.Maps.{map_of};

use crate::codes::{DONE, NO_MEMORY, NO_ROOM, NOT_IN_ORDER};
use crate::many::lie_in;
use crate::map_place::MapPlace;
use crate::map_pointer::StoredMap;
use patricia_tree::map::LoadError;
use std::alloc::Global;
use std::iter::Iterator;
use std::marker::Model;

// Entries that lie in arrays: keys one behind the other, the length of each, and the values.
#[derive(Drop)]
pub(crate) struct Pairs<'a> {
    keys: &'a [u8],
    lens: &'a [usize],
    values: &'a [u64],
}

impl<'a> Model for Pairs<'a> {
    ghost Value = { List (List ℕ × ℕ) };

    ghost view = { λ pairs. pairs_in pairs.keys.now pairs.lens.now pairs.values.now };
}

impl<'a> Iterator for Pairs<'a> {
    type Item = (&'a [u8], u64);

    ghost next_gives = { YieldsFirstBy (λ pair. (pair.0.now, pair.1)) (λ pairs. pairs) };

    ghost remaining = { item_count (λ pairs. pairs) };

    fn next(&mut self) -> Option<(&'a [u8], u64)> {
        let Some((len, lens)) = self.lens.split_first() else {
            return None;
        };
        let Some((value, values)) = self.values.split_first() else {
            return None;
        };
        let (key, keys) = self.keys.split_at((*len).min(self.keys.len()));
        *self = Pairs { keys, lens, values };
        Some((key, *value))
    }
}

// Puts entries of arrays behind those of the map, and writes how many they are.
fn load(
    stored: &mut StoredMap,
    keys: &[u8],
    lens: &[usize],
    values: &[u64],
    loaded: &mut usize,
) -> Result<(), LoadError>
    requires fit { length lens.now ≤ length values.now }
    ensures loaded { map.entries stored.new.map ≡ map.entries stored.old.map
        ++ take loaded.new (pairs_in keys.now lens.now values.now) }
    ensures all { OnOk result (loaded.new ≡ length lens.now) }
    ensures some_left { IfErr result (λ _. loaded.new < length lens.now) }
    ensures late { IfErr result (λ e. e ≡ NotInOrder
        → IfSome (slice_get (keys_in keys.now lens.now) loaded.new)
        (λ key. EndsNotBefore key (map.entries stored.new.map))) }
    ensures in_order { IfErr result (λ e. e ≡ Memory → loaded.new ≢ 0
        → IfSome (slice_get (keys_in keys.now lens.now) loaded.new)
        (λ key. EndsBefore key (map.entries stored.new.map))) }
{
    let before = stored.map.len();
    let result = stored.map.sorted_load(Pairs { keys, lens, values });
    *loaded = stored.map.len() - before;
    result
}

/// Puts entries in key order behind those of the map: the keys lie one behind the other in `keys`,
/// and each must come after the one before it, and after those of the map. Returns `DONE`;
/// `NOT_IN_ORDER` at a key that does not; `NO_MEMORY` where memory ran out: the entries before it
/// are put in then. Writes how many were put in to `loaded`. Returns `NO_ROOM`, and changes
/// nothing, where there are fewer values than lengths, or the lengths reach behind `keys`.
#[unsafe(no_mangle)]
pub extern "C" fn patricia_sorted_load(
    alloc: Global,
    at: &mut MapPlace,
    keys: &[u8],
    lens: &[usize],
    values: &[u64],
    loaded: &mut usize,
) -> u32
    ensures loaded { result ≢ 4 → map.entries (map_of at.new.pointer.stored)
        ≡ map.entries (map_of at.old.pointer.stored)
        ++ take loaded.new (pairs_in keys.now lens.now values.now) }
    ensures all { result ≡ 0 → loaded.new ≡ length lens.now }
    ensures some_left { (result ≡ 2) ⊎ (result ≡ 6) → loaded.new < length lens.now }
    ensures late { result ≡ 6 → IfSome (slice_get (keys_in keys.now lens.now) loaded.new)
        (λ key. EndsNotBefore key (map.entries (map_of at.new.pointer.stored))) }
    ensures in_order { result ≡ 2 → loaded.new ≢ 0
        → IfSome (slice_get (keys_in keys.now lens.now) loaded.new)
        (λ key. EndsBefore key (map.entries (map_of at.new.pointer.stored))) }
    ensures keys_fit { result ≢ 4 → sum lens.now ≤ length keys.now }
    ensures values_fit { result ≢ 4 → length lens.now ≤ length values.now }
    ensures small { result ≡ 4 →
        (length keys.now < sum lens.now) ⊎ (length values.now < length lens.now) }
    ensures kept { result ≡ 4 → map_of at.new.pointer.stored ≡ map_of at.old.pointer.stored }
    ensures unwritten { result ≡ 4 → loaded.new ≡ loaded.old }
    ensures codes { (result ≡ 0) ⊎ (result ≡ 2) ⊎ (result ≡ 4) ⊎ (result ≡ 6) }
{
    if values.len() < lens.len() || !lie_in(lens, keys.len()) {
        return NO_ROOM;
    }
    *loaded = 0;
    if lens.is_empty() {
        return DONE;
    }
    let Ok(mut stored) = at.take_or_make(alloc) else {
        return NO_MEMORY;
    };
    let result = load(&mut stored, keys, lens, values, loaded);
    at.put(stored);
    match result {
        Ok(()) => DONE,
        Err(LoadError::Memory) => NO_MEMORY,
        Err(LoadError::NotInOrder) => NOT_IN_ORDER,
    }
}
