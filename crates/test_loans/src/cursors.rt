//! What a map is after loans through a cursor, known from the contracts alone.
ghost use Rattle.std.specs.Prelude.{◌≡◌, ℕ, List, [], None, Some, false, IfOk, OnErr, IsTrue};
ghost use Rattle.std.specs.Prelude.{MatchOption};
ghost use Rattle.std.specs.FinMap as map;
ghost use Rattle.patricia_tree.specs.Cursors.{next_entry};

use patricia_tree::{BorrowedBytes, Bytes, GenericPatriciaMap};
use std::alloc::AllocError;
use std::mem;

/// Puts a value at the first key, and answers the old one.
pub fn replace_first<V: Drop, K: Bytes>(
    m: &mut GenericPatriciaMap<K, V>,
    value: V,
) -> Result<Option<V>, AllocError>
    ensures ok { IfOk result (λ r. MatchOption r
        ((next_entry (record { map = m.old; prefix = []; last = None }) ≡ None) × (m.new ≡ m.old))
        (λ old. (key : List ℕ)
        × (next_entry (record { map = m.old; prefix = []; last = None }) ≡ Some (key, old))
        × (m.new ≡ map.insert m.old key value))) }
    ensures unchanged { OnErr result (m.new ≡ m.old) }
{
    let mut cursor = m.iter_mut();
    match cursor.next_with(move |_key, place| mem::replace(place, value))? {
        Some(old) => Ok(Some(old)),
        None => Ok(None),
    }
}

/// Puts a value at the first key under a prefix, and answers the old one.
pub fn replace_first_under<V: Drop, Q: BorrowedBytes>(
    m: &mut GenericPatriciaMap<Q::Owned, V>,
    prefix: Q,
    value: V,
) -> Result<Option<V>, AllocError>
    ensures ok { IfOk result (λ r. MatchOption r
        ((next_entry (record { map = m.old; prefix = Q.key prefix; last = None }) ≡ None)
        × (m.new ≡ m.old))
        (λ old. (key : List ℕ)
        × (next_entry (record { map = m.old; prefix = Q.key prefix; last = None })
        ≡ Some (key, old))
        × (m.new ≡ map.insert m.old key value))) }
    ensures unchanged { OnErr result (m.new ≡ m.old) }
{
    let mut cursor = m.iter_prefix_mut(prefix);
    match cursor.next_with(move |_key, place| mem::replace(place, value))? {
        Some(old) => Ok(Some(old)),
        None => Ok(None),
    }
}

/// Puts a value in place of the first value, and answers the old one.
pub fn replace_first_value<V: Drop, K: Bytes>(
    m: &mut GenericPatriciaMap<K, V>,
    value: V,
) -> Result<Option<V>, AllocError>
    ensures ok { IfOk result (λ r. MatchOption r
        ((next_entry (record { map = m.old; prefix = []; last = None }) ≡ None) × (m.new ≡ m.old))
        (λ old. (key : List ℕ)
        × (next_entry (record { map = m.old; prefix = []; last = None }) ≡ Some (key, old))
        × (m.new ≡ map.insert m.old key value))) }
    ensures unchanged { OnErr result (m.new ≡ m.old) }
{
    let mut cursor = m.values_mut();
    match cursor.next_with(move |place| mem::replace(place, value))? {
        Some(old) => Ok(Some(old)),
        None => Ok(None),
    }
}

/// Writes a value at the first key by two calls. Returns whether there is a key.
pub fn set_first<V: Drop, K: Bytes>(
    m: &mut GenericPatriciaMap<K, V>,
    value: V,
) -> Result<bool, AllocError>
    ensures put { IfOk result (λ found. IsTrue found → (key : List ℕ) × (old : V)
        × (next_entry (record { map = m.old; prefix = []; last = None }) ≡ Some (key, old))
        × (m.new ≡ map.insert m.old key value)) }
    ensures none { IfOk result (λ found. found ≡ false →
        (next_entry (record { map = m.old; prefix = []; last = None }) ≡ None) × (m.new ≡ m.old)) }
    ensures unchanged { OnErr result (m.new ≡ m.old) }
{
    let mut first = m.iter_mut();
    first.advance()?;
    match first.value() {
        Some(place) => {
            *place = value;
            Ok(true)
        }
        None => Ok(false),
    }
}
