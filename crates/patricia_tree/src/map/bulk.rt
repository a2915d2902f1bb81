//! Many pairs inserted by one call.
ghost use Rattle.std.specs.Prelude.{◌≡◌, IfOk, OnOk, OnErr};
ghost use Rattle.std.specs.Iterator.{IsFiniteIterable};
ghost use Rattle.std.specs.FinMap as map;
ghost use Rattle.patricia_core.specs.Keys.{key_cmp};
ghost use Rattle.patricia_tree.specs.Bulk.{Extends, IsStoppedAt};

pub(crate) mod filling;

use super::GenericPatriciaMap;
use filling::Filling;
use patricia_core::keys::{BorrowedBytes, Bytes};
use std::alloc::{AllocError, Global};
use std::iter::{IntoIterator, Iterator};

impl<K: Bytes, V: Drop> GenericPatriciaMap<K, V> {
    /// Inserts pairs, one after the other: of two values for one key the later stays. The iterator
    /// must end.
    ///
    /// Takes the time of an `insert` for each pair. Where the map has more than doubled, its nodes
    /// are relocated at the end, if memory is there for it.
    ///
    /// # Errors
    ///
    /// Out of memory, at a new nonempty key: the pairs before it are inserted; it and the rest are
    /// dropped.
    ///
    /// # Examples
    ///
    /// ```
    /// let mut map = StringPatriciaMap::new(rt.alloc());
    /// map.extend([("foo", 1), ("bar", 2), ("foo", 3)])?;
    /// assert_eq!(rt; map.len(), 2);
    /// assert_eq!(rt; map.get("foo"), Some(&3));
    /// ```
    pub fn extend<Q: BorrowedBytes<Owned = K>, I: IntoIterator<Item = (Q, V)>>(
        &mut self,
        pairs: I,
    ) -> Result<(), AllocError>
        requires { IsFiniteIterable I.into_iter_gives I.IntoIter.can_next I.IntoIter.remaining
            pairs }
        ensures ok { OnOk result
            (Extends I.into_iter_gives I.IntoIter.next_gives Q.key pairs self.old self.new) }
        ensures err { OnErr result
            (IsStoppedAt I.into_iter_gives I.IntoIter.next_gives Q.key pairs self.old self.new) }
    {
        let before = self.len();
        let mut rest = pairs.into_iter();
        while let Some((key, value)) = rest.next() {
            match self.insert(key, value) {
                Ok(old) => drop(old),
                Err(_) => return Err(AllocError),
            }
        }
        self.settle_since(before);
        Ok(())
    }

    // Relocates the nodes at the end of a load, where the map has more than doubled.
    pub(crate) fn settle_since(&mut self, before: usize)
        ensures { self.new ≡ self.old }
    {
        if self.len() / 2 > before {
            self.tree.settle();
        }
    }

    // The same where keys came in order: their labels lie in it, and stay.
    pub(crate) fn settle_nodes_since(&mut self, before: usize)
        ensures { self.new ≡ self.old }
    {
        if self.len() / 2 > before {
            self.tree.settle_nodes();
        }
    }

    /// Makes a map of pairs, inserted one after the other: of two values for one key the later
    /// stays. The iterator must end.
    ///
    /// Takes the time of an `insert` for each pair, and while keys come in order that of
    /// `sorted_load`.
    ///
    /// # Errors
    ///
    /// Out of memory, at a new nonempty key. All pairs are dropped then.
    ///
    /// # Examples
    ///
    /// ```
    /// let map = StringPatriciaMap::from_iter(rt.alloc(), [("foo", 1), ("bar", 2)])?;
    /// assert_eq!(rt; map.get("bar"), Some(&2));
    /// ```
    pub fn from_iter<Q: BorrowedBytes<Owned = K>, I: IntoIterator<Item = (Q, V)>>(
        alloc: Global,
        pairs: I,
    ) -> Result<Self, AllocError>
        requires { IsFiniteIterable I.into_iter_gives I.IntoIter.can_next I.IntoIter.remaining
            pairs }
        ensures ok { IfOk result
            (λ made. Extends I.into_iter_gives I.IntoIter.next_gives Q.key pairs map.empty made) }
        ensures err { OnErr result ((left : map.FinMap key_cmp V)
            × IsStoppedAt I.into_iter_gives I.IntoIter.next_gives Q.key pairs map.empty left) }
    {
        let mut rest = pairs.into_iter();
        let mut filling = Filling::new(alloc);
        while let Some((key, value)) = rest.next() {
            match filling.put(key, value) {
                Ok(filled) => filling = filled,
                Err(error) => return Err(error),
            }
        }
        Ok(filling.into_map())
    }
}
