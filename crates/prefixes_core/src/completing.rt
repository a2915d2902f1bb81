//! Autocomplete: the first entries that begin with a prefix.

ghost use Rattle.std.specs.Prelude.{◌≡◌, ◌≢◌, [], take, IfOk, OnErr};
ghost use Rattle.std.specs.Prelude.{map as list_map};
ghost use Rattle.std.specs.FinMap as map;
ghost use Rattle.patricia_tree.specs.Prefixes.{under};
ghost use Rattle.prefixes_core.specs.Completions.{Completes};

use patricia_tree::{BorrowedBytes, Bytes, GenericPatriciaMap};
use std::alloc::{AllocError, Global};

/// The first entries that begin with a prefix, and how many there are in all.
#[derive(Drop)]
pub struct Completions<'a, K: Bytes, V> {
    pub first: Vec<(K, &'a V)>,
    pub count: usize,
}

/// Returns the first `most` entries whose key begins with the prefix, in key order, for an
/// autocomplete that shows no number.
///
/// Takes a look-up, and time in proportion to the entries that it returns.
///
/// # Errors
///
/// Out of memory, never if no key begins with the prefix.
///
/// # Examples
///
/// ```
/// let map = StringPatriciaMap::from_iter(rt.alloc(), [("foo", 1), ("bar", 2), ("baz", 3)])?;
/// let first = first_completions(rt.alloc(), &map, "ba", 1)?;
/// assert_eq!(rt; first.len(), 1);
/// assert_eq!(rt; first[0].0.as_str(), "bar");
/// ```
pub fn first_completions<'a, Q: BorrowedBytes, V: Drop>(
    alloc: Global,
    entries: &'a GenericPatriciaMap<Q::Owned, V>,
    prefix: Q,
    most: usize,
) -> Result<Vec<(Q::Owned, &'a V)>, AllocError>
    ensures ok { IfOk result (λ first.
        list_map (λ found. (Q.Owned.key found.0, found.1.now)) first.items
        ≡ take most (under (Q.key prefix) (map.entries entries.now))) }
    ensures err { OnErr result (under (Q.key prefix) (map.entries entries.now) ≢ []) }
{
    let mut left = entries.iter_prefix(prefix);
    let mut first = Vec::new(alloc);
    for _ in 0..most {
        let Some(entry) = left.next() else {
            return Ok(first);
        };
        first.push(entry?)?;
    }
    Ok(first)
}

/// Returns the first `most` entries whose key begins with the prefix, in key order, and the number
/// of all such entries, for an autocomplete.
///
/// Takes a look-up or two, and time in proportion to all such entries, to count them. It copies
/// the keys that it returns alone.
///
/// # Errors
///
/// Out of memory, never where no key begins with the prefix.
///
/// # Examples
///
/// ```
/// let map = StringPatriciaMap::from_iter(rt.alloc(), [("foo", 1), ("bar", 2), ("baz", 3)])?;
/// let completions = complete(rt.alloc(), &map, "ba", 1)?;
/// assert_eq!(rt; completions.first.len(), 1);
/// assert_eq!(rt; completions.first[0].0.as_str(), "bar");
/// assert_eq!(rt; completions.count, 2);
/// ```
pub fn complete<'a, Q: BorrowedBytes, V: Drop>(
    alloc: Global,
    entries: &'a GenericPatriciaMap<Q::Owned, V>,
    prefix: Q,
    most: usize,
) -> Result<Completions<'a, Q::Owned, V>, AllocError>
    ensures ok { IfOk result (λ c. Completes (map.entries entries.now) (Q.key prefix) most
        (list_map (λ found. (Q.Owned.key found.0, found.1.now)) c.first.items) c.count) }
    ensures err { OnErr result (under (Q.key prefix) (map.entries entries.now) ≢ []) }
{
    let first = first_completions(alloc, entries, prefix, most)?;
    let count = if first.len() < most {
        first.len()
    } else {
        entries.count_prefix(prefix)?
    };
    Ok(Completions { first, count })
}
