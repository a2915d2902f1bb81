//! Pairs in key order, put behind the entries of a map.
ghost use Rattle.std.specs.Prelude.{◌≡◌, ◌≢◌, ◌++◌, ◌∷◌, ◌↔◌, [], None, Some, IfErr, IfOk};
ghost use Rattle.std.specs.Prelude.{IfSome, IsTrue, OnErr, OnOk, ℕ, List, true};
ghost use Rattle.std.specs.Iterator.{IsFiniteIterable};
ghost use Rattle.std.specs.List.{last_or};
ghost use Rattle.std.specs.Option.{option_map};
ghost use Rattle.std.specs.FinMap as map;
ghost use Rattle.std.specs.declared.cmp.Ordering.TheVariants.{Less};
ghost use Rattle.patricia_core.specs.Keys.{key_cmp};
ghost use Rattle.patricia_tree.specs.Loads.{EndsBefore, EndsNotBefore, IsLoadRefusal};
ghost use Rattle.patricia_tree.specs.Loads.{IsLoadStopped, Loads};

use super::GenericPatriciaMap;
use patricia_core::keys::{BorrowedBytes, Bytes};
use patricia_core::tree::Loader;
use std::alloc::AllocError;
use std::cmp::{Ord, Ordering};
use std::iter::{IntoIterator, Iterator};
use thiserror::Error;

/// Why a pair was not put behind the entries of a map.
#[derive(Clone, Copy, Debug, PartialEq, Eq, Error)]
pub enum LoadError {
    /// Memory ran out.
    #[error("out of memory")]
    Memory,
    /// The key does not come after the last one of the map.
    #[error("key out of order")]
    NotInOrder,
}

impl From<AllocError> for LoadError {
    ghost use Rattle.std.specs.Prelude.{◌≡◌};
    ghost use Rattle.patricia_tree.specs.declared.map.sorted.LoadError.TheVariants.{Memory};

    ghost from_gives = { λ _ e. e ≡ Memory };

    fn from(_: AllocError) -> LoadError {
        LoadError::Memory
    }
}

// Whether a key comes before another one.
pub(crate) fn comes_before(first: &[u8], second: &[u8]) -> bool
    ensures { IsTrue result ↔ (key_cmp first.now second.now ≡ Less) }
{
    first.cmp(second) == Ordering::Less
}

// The entries of a map while pairs are put behind them. It is not `Drop`, so that they are given
// back at every return.
pub(crate) struct SortedLoad<Q: BorrowedBytes, V: Drop> {
    loader: Loader<Q, V>,
    // the key of the pair that was put last
    last: Option<Q>,
}

impl<Q: BorrowedBytes, V: Drop> SortedLoad<Q, V> {
    // Takes the entries of a map, which is left empty.
    pub(crate) fn take(owner: &mut GenericPatriciaMap<Q::Owned, V>) -> Self
        ensures entries { result.loader ≡ owner.old }
        ensures last { result.last ≡ None }
    {
        SortedLoad {
            loader: Loader::new(owner.tree.take()),
            last: None,
        }
    }

    // Gives the entries back to the map.
    pub(crate) fn give_back(self, owner: &mut GenericPatriciaMap<Q::Owned, V>)
        ensures { owner.new ≡ self.loader }
    {
        let SortedLoad {
            loader,
            last: _last,
        } = self;
        owner.tree = loader.into_tree();
    }

    // Whether a key comes after the last one.
    fn ends_before(&self, key: Q) -> Result<bool, AllocError>
        requires { IfSome self.now.last (λ last. option_map (λ e. e.0)
            (last_or None (map.entries self.now.loader)) ≡ Some (Q.key last)) }
        ensures before { IfOk result (λ b. IsTrue b
            → EndsBefore (Q.key key) (map.entries self.now.loader)) }
        ensures not_before { IfOk result (λ b. b ≢ true
            → EndsNotBefore (Q.key key) (map.entries self.now.loader)) }
        ensures err_only_nonempty { OnErr result (map.entries self.now.loader ≢ []) }
        ensures only_unknown { OnErr result (self.now.last ≡ None) }
    {
        if let Some(last) = self.last {
            return Ok(comes_before(last.as_bytes(), key.as_bytes()));
        }
        match self.loader.last()? {
            Some((last, _)) => Ok(comes_before(last.as_bytes(), key.as_bytes())),
            None => Ok(true),
        }
    }

    // Puts a pair behind the entries.
    pub(crate) fn put(&mut self, key: Q, value: V) -> Result<(), LoadError>
        requires { IfSome self.old.last (λ last. option_map (λ e. e.0)
            (last_or None (map.entries self.old.loader)) ≡ Some (Q.key last)) }
        ensures behind { OnOk result (map.entries self.new.loader
            ≡ map.entries self.old.loader ++ (Q.key key, value) ∷ []) }
        ensures last { OnOk result (self.new.last ≡ Some key) }
        ensures unchanged { OnErr result (self.new.loader ≡ self.old.loader) }
        ensures refusal { IfErr result (λ e.
            IsLoadRefusal e (self.old.last ≢ None) (Q.key key) (map.entries self.old.loader)) }
    {
        if !self.ends_before(key)? {
            return Err(LoadError::NotInOrder);
        }
        match self.loader.insert(key, value) {
            Ok(_) => {
                self.last = Some(key);
                Ok(())
            }
            Err(_) => Err(LoadError::Memory),
        }
    }
}

impl<K: Bytes, V: Drop> GenericPatriciaMap<K, V> {
    /// Puts pairs in key order behind the entries: each key must come after those before it, and
    /// after those of the map. The iterator must end.
    ///
    /// The look-up of each key goes on at the last place that the key before it has passed, too.
    /// The last key of the map is looked up once, as by `last_key_value`. Nodes are relocated at
    /// the end alone, where the map has more than doubled, if memory is there for it.
    ///
    /// # Errors
    ///
    /// `NotInOrder` at a key that does not come after the last one. `Memory` where memory ran out
    /// for a new nonempty key that does; at the first pair also for a copy of the last key of the
    /// map, before the two are compared. The pairs before it are inserted; it and the rest are
    /// dropped.
    ///
    /// # Examples
    ///
    /// ```
    /// let mut map = StringPatriciaMap::new(rt.alloc());
    /// map.sorted_load([("bar", 1), ("foo", 2)])?;
    /// assert_eq!(rt;
    ///     map.sorted_load([("quux", 3), ("baz", 4)]),
    ///     Err(LoadError::NotInOrder)
    /// );
    /// assert_eq!(rt; map.len(), 3);
    /// ```
    pub fn sorted_load<Q: BorrowedBytes<Owned = K>, I: IntoIterator<Item = (Q, V)>>(
        &mut self,
        pairs: I,
    ) -> Result<(), LoadError>
        requires { IsFiniteIterable I.into_iter_gives I.IntoIter.can_next I.IntoIter.remaining
            pairs }
        ensures ok { OnOk result
            (Loads I.into_iter_gives I.IntoIter.next_gives Q.key pairs self.old self.new) }
        ensures err { IfErr result (λ e. IsLoadStopped I.into_iter_gives I.IntoIter.next_gives Q.key
            e pairs self.old self.new) }
    {
        let before = self.len();
        let mut rest = pairs.into_iter();
        let mut load = SortedLoad::take(self);
        while let Some((key, value)) = rest.next() {
            if let Err(error) = load.put(key, value) {
                load.give_back(self);
                return Err(error);
            }
        }
        load.give_back(self);
        self.settle_nodes_since(before);
        Ok(())
    }
}
