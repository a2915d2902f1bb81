//! Two maps compared, and one merged into the other.
ghost use Rattle.std.specs.Prelude.{◌≡◌, ◌≢◌, [], IfOk, OnOk, OnErr};
ghost use Rattle.std.specs.FinMap as map;
ghost use Rattle.patricia_tree.specs.Merges.{IsMergeStopped, MergesAll};
ghost use Rattle.patricia_walks.specs.Equality.{are_same_entries};

use super::GenericPatriciaMap;
use patricia_core::keys::{Bytes, KeyBytes};
use patricia_core::tree::Merger;
use std::alloc::AllocError;
use std::cmp::PartialEq;
use std::iter::{IntoIterator, Iterator};

// Puts the entries of a map in, in key order. It stops at the first that is refused.
fn merge_all<K: Bytes, V: Drop, F: FnMut(&mut V, V)>(
    merger: &mut Merger<K, V>,
    other: GenericPatriciaMap<K, V>,
    mut f: F,
) -> Result<(), AllocError>
    requires { F.IsAlwaysCallable f }
    ensures merged { OnOk result
        (MergesAll F.FnMut f merger.old (map.entries other) merger.new) }
    ensures stopped { OnErr result
        (IsMergeStopped F.FnMut f merger.old (map.entries other) merger.new) }
{
    let mut rest = other.into_iter();
    while let Some(entry) = rest.next() {
        let (key, value) = entry?;
        merger.merge(KeyBytes::of(&key), value, &mut f)?;
    }
    Ok(())
}

impl<K: Bytes, V: Drop> GenericPatriciaMap<K, V> {
    /// Returns whether the two maps have the same keys, with equal values. It is a call that may
    /// run out of memory, which `==` could not say.
    ///
    /// Takes constant time where the maps differ in length, and else a walk over both, up to the
    /// first node that differs. It makes no key: labels are compared with labels.
    ///
    /// # Errors
    ///
    /// Out of memory for the siblings that wait, never for empty maps, nor where the maps differ in
    /// length.
    ///
    /// # Examples
    ///
    /// ```
    /// let map = StringPatriciaMap::from_iter(rt.alloc(), [("foo", 1), ("bar", 2)])?;
    /// let same = StringPatriciaMap::from_iter(rt.alloc(), [("bar", 2), ("foo", 1)])?;
    /// let other = StringPatriciaMap::from_iter(rt.alloc(), [("bar", 2), ("foo", 3)])?;
    /// assert!(rt; map.equals(&same)?);
    /// assert!(rt; !map.equals(&other)?);
    /// ```
    pub fn equals(&self, other: &Self) -> Result<bool, AllocError>
    where
        V: PartialEq,
        ensures same { IfOk result (λ b.
            b ≡ are_same_entries V.eq (map.entries self.now) (map.entries other.now)) }
        ensures err_only_nonempty { OnErr result (map.entries self.now ≢ []) }
        ensures err_only_same_len { OnErr result (map.len self.now ≡ map.len other.now) }
    {
        if self.len() != other.len() {
            return Ok(false);
        }
        self.tree.equals(&other.tree)
    }

    /// Inserts the entries of another map. Where both have a key, the closure is called at the
    /// value here and the one from there, and what it leaves here stays. It is called in key
    /// order.
    ///
    /// Takes a walk over the other map. The look-up of each of its keys goes on at the last place
    /// that the key before it has passed, too. Nodes are relocated at the end alone, where the map
    /// has more than doubled, if memory is there for it.
    ///
    /// # Errors
    ///
    /// Out of memory, never for an empty other map: the entries before the refused one, in key
    /// order, are inserted; it and the rest are dropped.
    ///
    /// # Examples
    ///
    /// ```
    /// let mut map = StringPatriciaMap::from_iter(rt.alloc(), [("foo", 1), ("bar", 2)])?;
    /// let other = StringPatriciaMap::from_iter(rt.alloc(), [("foo", 5), ("baz", 7)])?;
    /// map.merge_with(other, |value, new| *value = (*value).max(new))?;
    /// assert_eq!(rt; map.get("foo"), Some(&5));
    /// assert_eq!(rt; map.len(), 3);
    /// ```
    pub fn merge_with<F: FnMut(&mut V, V)>(&mut self, other: Self, f: F) -> Result<(), AllocError>
        requires { F.IsAlwaysCallable f }
        ensures merged { OnOk result
            (MergesAll F.FnMut f self.old (map.entries other) self.new) }
        ensures stopped { OnErr result
            (IsMergeStopped F.FnMut f self.old (map.entries other) self.new) }
    {
        let before = self.len();
        let mut merger = Merger::new(self.tree.take());
        let result = merge_all(&mut merger, other, f);
        self.tree = merger.into_tree();
        self.settle_since(before);
        result
    }

    /// An empty map with the same allocator.
    pub(crate) fn empty_alike(&self) -> Self
        ensures { result ≡ map.empty }
    {
        GenericPatriciaMap {
            tree: self.tree.empty_alike(),
        }
    }

    /// The map as one whose keys are looked up near one another. Does not allocate.
    pub(crate) fn into_merger(self) -> Merger<K, V>
        ensures { result ≡ self }
    {
        Merger::new(self.tree)
    }

    /// The map that was changed so.
    pub(crate) fn from_merger(merger: Merger<K, V>) -> Self
        ensures { result ≡ merger }
    {
        GenericPatriciaMap {
            tree: merger.into_tree(),
        }
    }
}
