//! What a map is after a loan, known from the map's contracts alone.
ghost use Rattle.std.specs.Prelude.{◌≡◌, ◌<◌, ◌+◌, ℕ, List, None, Some, IfSome, MatchOption};
ghost use Rattle.std.specs.Prelude.{if◌then◌else◌};
ghost use Rattle.std.specs.FinMap as map;
ghost use Rattle.patricia_tree.specs.Prefixes.{longest};

use patricia_tree::{BorrowedBytes, GenericPatriciaMap};
use std::mem;

/// Replaces the value of a key, if there is one. Returns whether there is.
pub fn replace<V: Drop, Q: BorrowedBytes>(
    m: &mut GenericPatriciaMap<Q::Owned, V>,
    key: Q,
    value: V,
) -> bool
    ensures there { result ≡ map.contains_key m.old (Q.key key) }
    ensures put { m.new ≡ (if result then map.insert m.old (Q.key key) value else m.old) }
{
    match m.get_mut(key) {
        Some(place) => {
            *place = value;
            true
        }
        None => false,
    }
}

/// The same at the longest key that begins a key. It answers the old value.
pub fn replace_longest<V: Drop, Q: BorrowedBytes>(
    m: &mut GenericPatriciaMap<Q::Owned, V>,
    key: Q,
    value: V,
) -> Option<V>
    ensures { MatchOption result
        ((longest (Q.key key) (map.entries m.old) ≡ None) × (m.new ≡ m.old))
        (λ old. (part : List ℕ) × (longest (Q.key key) (map.entries m.old) ≡ Some (part, old))
        × (m.new ≡ map.insert m.old part value)) }
{
    m.with_longest_common_prefix_mut(key, move |_part, place| mem::replace(place, value))
}

/// Adds one to the value of the longest key that begins a key, where that value is small.
pub fn count_up<Q: BorrowedBytes>(m: &mut GenericPatriciaMap<Q::Owned, u64>, key: Q) -> Option<()>
    requires { IfSome (longest (Q.key key) (map.entries m.old)) (λ e. e.1 < 1000) }
    ensures { MatchOption result
        ((longest (Q.key key) (map.entries m.old) ≡ None) × (m.new ≡ m.old))
        (λ _. (part : List ℕ) × (n : ℕ)
        × (longest (Q.key key) (map.entries m.old) ≡ Some (part, n))
        × (m.new ≡ map.insert m.old part (n + 1))) }
{
    m.with_longest_common_prefix_mut(key, |_part, place| {
        *place += 1;
    })
}

/// The value of the longest key that begins a key.
pub fn read_longest<Q: BorrowedBytes>(
    m: &mut GenericPatriciaMap<Q::Owned, u64>,
    key: Q,
) -> Option<u64>
    ensures { MatchOption result (longest (Q.key key) (map.entries m.old) ≡ None)
        (λ n. (part : List ℕ) × (longest (Q.key key) (map.entries m.old) ≡ Some (part, n))) }
{
    match m.get_longest_common_prefix_mut(key) {
        Some((_part, place)) => Some(*place),
        None => None,
    }
}
