//! Walks over a set, in the order of its elements.
ghost use Rattle.std.specs.Prelude.{◌≡◌, length};
ghost use Rattle.std.specs.Iterator.{at_most};
ghost use Rattle.patricia_model.specs.Siblings.{keys_of};
ghost use Rattle.patricia_model.specs.Walks.{YieldsOrErr};

use crate::{entries, prefixes};
use patricia_keys::keys::{BorrowedBytes, Bytes};
use std::alloc::AllocError;
use std::iter::FusedIterator;
use std::marker::Model;

/// The elements of a set, copied. An error is out of memory, and ends the iterator.
#[derive(Drop)]
pub struct Iter<'a, T: Bytes> {
    keys: entries::Keys<'a, T, ()>,
}

impl<'a, T: Bytes> Model for Iter<'a, T> {
    ghost use Rattle.std.specs.Prelude.{List, ℕ};

    ghost Value = { List (List ℕ) };

    ghost view = { λ i. i.keys };
}

impl<'a, T: Bytes> Iter<'a, T> {
    /// Returns the keys of a map, which are the elements.
    pub fn new(keys: entries::Keys<'a, T, ()>) -> Self
        ensures { result ≡ keys.entry }
    {
        Iter { keys }
    }
}

impl<'a, T: Bytes> Iterator for Iter<'a, T> {
    type Item = Result<T, AllocError>;

    ghost next_gives = { YieldsOrErr T.key };

    ghost remaining = { λ elements. at_most (length elements) };

    fn next(&mut self) -> Option<Result<T, AllocError>> {
        self.keys.next()
    }
}

impl<'a, T: Bytes> FusedIterator for Iter<'a, T> {}

/// The elements that begin with a prefix, copied. An error is out of memory, and ends the iterator.
#[derive(Drop)]
pub struct IterPrefix<'a, Q: BorrowedBytes> {
    entries: prefixes::IterPrefix<'a, Q, ()>,
}

impl<'a, Q: BorrowedBytes> Model for IterPrefix<'a, Q> {
    ghost use Rattle.std.specs.Prelude.{List, ℕ};
    ghost use Rattle.patricia_model.specs.Siblings.{keys_of};

    ghost Value = { List (List ℕ) };

    ghost view = { λ i. keys_of i.entries };
}

impl<'a, Q: BorrowedBytes> IterPrefix<'a, Q> {
    /// Returns the keys of entries, which are the elements.
    pub fn new(entries: prefixes::IterPrefix<'a, Q, ()>) -> Self
        ensures { result ≡ keys_of entries.entry }
    {
        IterPrefix { entries }
    }
}

impl<'a, Q: BorrowedBytes> Iterator for IterPrefix<'a, Q> {
    type Item = Result<Q::Owned, AllocError>;

    ghost next_gives = { YieldsOrErr Q.Owned.key };

    ghost remaining = { λ elements. at_most (length elements) };

    fn next(&mut self) -> Option<Result<Q::Owned, AllocError>> {
        match self.entries.next()? {
            Ok((element, _)) => Some(Ok(element)),
            Err(refused) => Some(Err(refused)),
        }
    }
}

impl<'a, Q: BorrowedBytes> FusedIterator for IterPrefix<'a, Q> {}

/// The elements of a set, moved out of it. An error is out of memory: it ends the iterator, and the
/// elements that are left are dropped.
#[derive(Drop)]
pub struct IntoIter<T: Bytes> {
    entries: entries::IntoIter<T, ()>,
}

impl<T: Bytes> Model for IntoIter<T> {
    ghost use Rattle.std.specs.Prelude.{List, ℕ};
    ghost use Rattle.patricia_model.specs.Siblings.{keys_of};

    ghost Value = { List (List ℕ) };

    ghost view = { λ i. keys_of i.entries };
}

impl<T: Bytes> IntoIter<T> {
    /// Returns the keys of entries, which are the elements.
    pub fn new(entries: entries::IntoIter<T, ()>) -> Self
        ensures { result ≡ keys_of entries }
    {
        IntoIter { entries }
    }
}

impl<T: Bytes> Iterator for IntoIter<T> {
    type Item = Result<T, AllocError>;

    ghost next_gives = { YieldsOrErr T.key };

    ghost remaining = { λ elements. at_most (length elements) };

    fn next(&mut self) -> Option<Result<T, AllocError>> {
        match self.entries.next()? {
            Ok((taken, _)) => Some(Ok(taken)),
            Err(refused) => Some(Err(refused)),
        }
    }
}

impl<T: Bytes> FusedIterator for IntoIter<T> {}
