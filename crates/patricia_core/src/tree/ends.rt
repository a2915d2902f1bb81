//! Taking the first or the last entry of a tree out.
ghost use Rattle.std.specs.Prelude.{◌≡◌, ◌≢◌, ℕ, List, [], None, IfOk, OnOk, OnErr};
ghost use Rattle.std.specs.FinMap as map;
ghost use Rattle.std.specs.Map.Iter.{TakesFirst, TakesLast};
ghost use Rattle.std.specs.Option.{option_map};

use super::Tree;
use patricia_edits::{remove_first, remove_last};
use patricia_keys::Bytes;
use std::alloc::{AllocError, Global};

// Takes the empty key's value out, and returns it with that key, or `None` where there is none.
fn take_empty<K: Bytes, V>(
    value: &mut Option<V>,
    alloc: Global,
) -> Result<Option<(K, V)>, AllocError>
    ensures entry { IfOk result (λ entry. option_map (λ e. (K.key e.0, e.1)) entry
        ≡ option_map {U = List ℕ × V} (λ v. ([], v)) value.old) }
    ensures left { OnOk result (value.new ≡ None) }
    ensures unchanged { OnErr result (value.new ≡ value.old) }
    ensures err_only_there { OnErr result (value.old ≢ None) }
{
    if value.is_none() {
        return Ok(None);
    }
    let key = K::from_bytes(alloc, &[])?;
    match value.take() {
        Some(value) => Ok(Some((key, value))),
        None => Ok(None),
    }
}

impl<K: Bytes, V: Drop> Tree<K, V> {
    /// Removes the first entry and returns it, or `None` where there is none. The error is out of
    /// memory for its key, or for a joined label.
    pub fn pop_first(&mut self) -> Result<Option<(K, V)>, AllocError>
        ensures taken { IfOk result (λ entry. TakesFirst (λ e. (K.key e.0, e.1))
            (map.entries self.old) entry (map.entries self.new)) }
        ensures unchanged { OnErr result (self.new ≡ self.old) }
        ensures err_only_nonempty { OnErr result (map.entries self.old ≢ []) }
    {
        if self.parts.value.is_some() {
            return take_empty(&mut self.parts.value, self.parts.alloc);
        }
        match remove_first(&mut self.parts.arena, self.parts.alloc) {
            Ok(Some(entry)) => {
                self.parts.count -= 1;
                Ok(Some(entry))
            }
            Ok(None) => Ok(None),
            Err(error) => Err(error),
        }
    }

    /// Removes the last entry and returns it, or `None` where there is none. The error is out of
    /// memory for its key, or for a joined label.
    pub fn pop_last(&mut self) -> Result<Option<(K, V)>, AllocError>
        ensures taken { IfOk result (λ entry. TakesLast (λ e. (K.key e.0, e.1))
            (map.entries self.old) entry (map.entries self.new)) }
        ensures unchanged { OnErr result (self.new ≡ self.old) }
        ensures err_only_nonempty { OnErr result (map.entries self.old ≢ []) }
    {
        match remove_last(&mut self.parts.arena, self.parts.alloc) {
            Ok(Some(entry)) => {
                self.parts.count -= 1;
                Ok(Some(entry))
            }
            Ok(None) => take_empty(&mut self.parts.value, self.parts.alloc),
            Err(error) => Err(error),
        }
    }
}
