//! Sets that iterators are collected into.
ghost use Rattle.std.specs.Prelude.{◌≡◌};
ghost use Rattle.std.specs.FinMap as map;
ghost use Rattle.patricia_tree.specs.Sets.{insert_all_keys};

use super::GenericPatriciaSet;
use patricia_core::keys::{BorrowedBytes, Bytes};
use std::alloc::{AllocError, Global};
use std::default::MadeWith;
use std::iter::{Extend, FromIterator, IntoIterator};

/// The empty set.
impl<T: Bytes> MadeWith<Global> for GenericPatriciaSet<T> {
    ghost is_made_with = { λ s. s ≡ map.empty };

    fn made_with(alloc: Global) -> GenericPatriciaSet<T> {
        GenericPatriciaSet::new(alloc)
    }
}

/// The set with the elements inserted. Where memory runs out, those before are inserted.
impl<T: Bytes, Q: BorrowedBytes<Owned = T>> Extend<Q> for GenericPatriciaSet<T> {
    ghost extend_gives = { λ old elements new. new ≡ insert_all_keys Q.key old elements };

    fn extend<I: IntoIterator<Item = Q>>(&mut self, elements: I) -> Result<(), AllocError> {
        self.extend(elements)
    }
}

/// The set of the elements.
impl<T: Bytes, Q: BorrowedBytes<Owned = T>> FromIterator<Q> for GenericPatriciaSet<T> {
    type Alloc = Global;

    ghost from_iter_gives = { λ elements s. s ≡ insert_all_keys Q.key map.empty elements };

    fn from_iter<I: IntoIterator<Item = Q>>(
        alloc: Global,
        elements: I,
    ) -> Result<GenericPatriciaSet<T>, AllocError> {
        GenericPatriciaSet::from_iter(alloc, elements)
    }
}
