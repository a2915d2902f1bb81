//! Maps that iterators are collected into.
ghost use Rattle.std.specs.Prelude.{◌≡◌};
ghost use Rattle.std.specs.FinMap as map;
ghost use Rattle.patricia_tree.specs.Bulk.{by_bytes, insert_all};

use super::GenericPatriciaMap;
use patricia_core::keys::{BorrowedBytes, Bytes};
use std::alloc::{AllocError, Global};
use std::default::MadeWith;
use std::iter::{Extend, FromIterator, IntoIterator};

/// The empty map.
impl<K: Bytes, V: Drop> MadeWith<Global> for GenericPatriciaMap<K, V> {
    ghost is_made_with = { λ m. m ≡ map.empty };

    fn made_with(alloc: Global) -> GenericPatriciaMap<K, V> {
        GenericPatriciaMap::new(alloc)
    }
}

/// The map with the pairs inserted, one after the other: of two values for one key the later stays.
/// Where memory runs out, those before are inserted.
impl<K: Bytes, V: Drop, Q: BorrowedBytes<Owned = K>> Extend<(Q, V)> for GenericPatriciaMap<K, V> {
    ghost extend_gives = { λ old pairs new. new ≡ insert_all old (by_bytes Q.key pairs) };

    fn extend<I: IntoIterator<Item = (Q, V)>>(&mut self, pairs: I) -> Result<(), AllocError> {
        self.extend(pairs)
    }
}

/// The map of the pairs, inserted one after the other: of two values for one key the later stays.
impl<K: Bytes, V: Drop, Q: BorrowedBytes<Owned = K>> FromIterator<(Q, V)>
    for GenericPatriciaMap<K, V> {
    type Alloc = Global;

    ghost from_iter_gives = { λ pairs m. m ≡ insert_all map.empty (by_bytes Q.key pairs) };

    fn from_iter<I: IntoIterator<Item = (Q, V)>>(
        alloc: Global,
        pairs: I,
    ) -> Result<GenericPatriciaMap<K, V>, AllocError> {
        GenericPatriciaMap::from_iter(alloc, pairs)
    }
}
