//! Elements in order, put behind those of a set.
ghost use Rattle.std.specs.Prelude.{IfErr, OnOk};
ghost use Rattle.std.specs.Iterator.{IsFiniteIterable};
ghost use Rattle.patricia_tree.specs.Sets.{IsLoadStopped, Loads};

use super::GenericPatriciaSet;
use crate::map::{LoadError, SortedLoad};
use patricia_core::keys::{BorrowedBytes, Bytes};
use std::iter::{IntoIterator, Iterator};

impl<T: Bytes> GenericPatriciaSet<T> {
    /// Puts elements in order behind those of the set: each must come after those before it, and
    /// after those of the set. The iterator must end.
    ///
    /// The look-up of each element goes on at the last place that the one before it has passed,
    /// too. The last element of the set is looked up once, as by `last`. Nodes are relocated at
    /// the end alone, where the set has more than doubled, if memory is there for it.
    ///
    /// # Errors
    ///
    /// `NotInOrder` at an element that does not come after the last one. `Memory` where memory ran
    /// out for a new nonempty element that does; at the first one also for a copy of the last of
    /// the set, before the two are compared. Those before it are inserted; it and the rest are
    /// dropped.
    ///
    /// # Examples
    ///
    /// ```
    /// let mut set = StringPatriciaSet::new(rt.alloc());
    /// assert_eq!(rt; set.sorted_load(["bar", "foo"]), Ok(()));
    /// assert_eq!(rt;
    ///     set.sorted_load(["quux", "baz"]),
    ///     Err(LoadError::NotInOrder)
    /// );
    /// assert_eq!(rt; set.len(), 3);
    /// ```
    pub fn sorted_load<Q: BorrowedBytes<Owned = T>, I: IntoIterator<Item = Q>>(
        &mut self,
        elements: I,
    ) -> Result<(), LoadError>
        requires { IsFiniteIterable I.into_iter_gives I.IntoIter.can_next I.IntoIter.remaining
            elements }
        ensures ok { OnOk result
            (Loads I.into_iter_gives I.IntoIter.next_gives Q.key elements self.old self.new) }
        ensures err { IfErr result (λ e. IsLoadStopped I.into_iter_gives I.IntoIter.next_gives Q.key
            e elements self.old self.new) }
    {
        let before = self.len();
        let mut rest = elements.into_iter();
        let mut load = SortedLoad::take(&mut self.map);
        while let Some(element) = rest.next() {
            if let Err(error) = load.put(element, ()) {
                load.give_back(&mut self.map);
                return Err(error);
            }
        }
        load.give_back(&mut self.map);
        self.settle_nodes_since(before);
        Ok(())
    }
}
