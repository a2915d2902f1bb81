//! Many elements inserted by one call.
ghost use Rattle.std.specs.Prelude.{◌≡◌, IfOk, OnOk, OnErr};
ghost use Rattle.std.specs.Iterator.{IsFiniteIterable};
ghost use Rattle.std.specs.FinMap as map;
ghost use Rattle.patricia_tree.specs.Sets.{Extends, IsStoppedAt, KeySet};

use super::GenericPatriciaSet;
use crate::map::bulk::filling::Filling;
use patricia_core::keys::{BorrowedBytes, Bytes};
use std::alloc::{AllocError, Global};
use std::iter::{IntoIterator, Iterator};

impl<T: Bytes> GenericPatriciaSet<T> {
    /// Inserts elements, one after the other. The iterator must end.
    ///
    /// Takes the time of an `insert` for each element. Where the set has more than doubled, its
    /// nodes are relocated at the end, if memory is there for it.
    ///
    /// # Errors
    ///
    /// Out of memory, at a new nonempty element: those before it are inserted; it and the rest are
    /// dropped.
    ///
    /// # Examples
    ///
    /// ```
    /// let mut set = StringPatriciaSet::new(rt.alloc());
    /// set.extend(["foo", "bar", "foo"])?;
    /// assert_eq!(rt; set.len(), 2);
    /// ```
    pub fn extend<Q: BorrowedBytes<Owned = T>, I: IntoIterator<Item = Q>>(
        &mut self,
        elements: I,
    ) -> Result<(), AllocError>
        requires { IsFiniteIterable I.into_iter_gives I.IntoIter.can_next I.IntoIter.remaining
            elements }
        ensures ok { OnOk result
            (Extends I.into_iter_gives I.IntoIter.next_gives Q.key elements self.old self.new) }
        ensures err { OnErr result
            (IsStoppedAt I.into_iter_gives I.IntoIter.next_gives Q.key elements self.old self.new) }
    {
        let before = self.len();
        let mut rest = elements.into_iter();
        while let Some(element) = rest.next() {
            self.insert(element)?;
        }
        self.settle_since(before);
        Ok(())
    }

    // Relocates the nodes at the end of a load, where the set has more than doubled.
    pub(super) fn settle_since(&mut self, before: usize)
        ensures { self.new ≡ self.old }
    {
        self.map.settle_since(before);
    }

    // The same where elements came in order.
    pub(super) fn settle_nodes_since(&mut self, before: usize)
        ensures { self.new ≡ self.old }
    {
        self.map.settle_nodes_since(before);
    }

    /// Makes a set of elements, inserted one after the other. The iterator must end.
    ///
    /// Takes the time of an `insert` for each element, and while they come in order that of
    /// `sorted_load`.
    ///
    /// # Errors
    ///
    /// Out of memory, at a new nonempty element. All are dropped then.
    ///
    /// # Examples
    ///
    /// ```
    /// let set = StringPatriciaSet::from_iter(rt.alloc(), ["foo", "bar"])?;
    /// assert!(rt; set.contains("bar"));
    /// ```
    pub fn from_iter<Q: BorrowedBytes<Owned = T>, I: IntoIterator<Item = Q>>(
        alloc: Global,
        elements: I,
    ) -> Result<Self, AllocError>
        requires { IsFiniteIterable I.into_iter_gives I.IntoIter.can_next I.IntoIter.remaining
            elements }
        ensures ok { IfOk result
            (λ made.
            Extends I.into_iter_gives I.IntoIter.next_gives Q.key elements map.empty made) }
        ensures err { OnErr result ((left : KeySet)
            × IsStoppedAt I.into_iter_gives I.IntoIter.next_gives Q.key elements map.empty left) }
    {
        let mut rest = elements.into_iter();
        let mut filling: Filling<Q, ()> = Filling::new(alloc);
        while let Some(element) = rest.next() {
            match filling.put(element, ()) {
                Ok(filled) => filling = filled,
                Err(error) => return Err(error),
            }
        }
        Ok(GenericPatriciaSet {
            map: filling.into_map(),
        })
    }
}
