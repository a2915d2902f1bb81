//! Walks over a map, in key order.
ghost use Rattle.std.specs.Prelude.{◌≡◌, length};
ghost use Rattle.std.specs.Iterator.{at_most};
ghost use Rattle.patricia_model.specs.Siblings.{keys_of};
ghost use Rattle.patricia_model.specs.Walks.{YieldsOrErr};

use patricia_keys::keys::Bytes;
pub use patricia_walks::into_walk::IntoWalk as IntoIter;
use patricia_walks::value_walk::ValueWalk;
use patricia_walks::walk::Walk;
pub use patricia_walks::walk::Walk as Iter;
use std::alloc::AllocError;
use std::iter::FusedIterator;
use std::marker::{Model, PhantomData};

/// The keys of a map. An error is out of memory, and ends the iterator.
#[derive(Drop)]
pub struct Keys<'a, K: Bytes, V> {
    walk: Walk<'a, K, V>,
}

impl<'a, K: Bytes, V> Model for Keys<'a, K, V> {
    ghost use Rattle.std.specs.Prelude.{List, ℕ};

    ghost Value = { List (List ℕ) };

    ghost use Rattle.patricia_model.specs.Siblings.{keys_of};

    ghost view = { λ i. keys_of i.walk };
}

impl<'a, K: Bytes, V> Keys<'a, K, V> {
    /// Returns the keys of the entries that a walk comes to.
    pub fn new(walk: Walk<'a, K, V>) -> Self
        ensures { result ≡ keys_of walk.entry }
    {
        Keys { walk }
    }
}

impl<'a, K: Bytes, V> Iterator for Keys<'a, K, V> {
    type Item = Result<K, AllocError>;

    ghost next_gives = { YieldsOrErr K.key };

    ghost remaining = { λ keys. at_most (length keys) };

    fn next(&mut self) -> Option<Result<K, AllocError>> {
        self.walk.next_key()
    }
}

impl<'a, K: Bytes, V> FusedIterator for Keys<'a, K, V> {}

/// The values of a map, in the order of their keys. An error is out of memory, and ends the
/// iterator.
#[derive(Drop)]
pub struct Values<'a, K: Bytes, V> {
    walk: ValueWalk<'a, V>,
    kind: PhantomData<K>,
}

impl<'a, K: Bytes, V> Model for Values<'a, K, V> {
    ghost use Rattle.std.specs.Prelude.{List};

    ghost Value = { List V };

    ghost view = { λ i. i.walk };
}

impl<'a, K: Bytes, V> Values<'a, K, V> {
    /// Returns the values that a walk comes to.
    pub fn new(walk: ValueWalk<'a, V>) -> Self
        ensures { result ≡ walk.entry }
    {
        Values {
            walk,
            kind: PhantomData,
        }
    }
}

impl<'a, K: Bytes, V> Iterator for Values<'a, K, V> {
    type Item = Result<&'a V, AllocError>;

    ghost next_gives = { YieldsOrErr (λ v. v.now) };

    ghost remaining = { λ values. at_most (length values) };

    fn next(&mut self) -> Option<Result<&'a V, AllocError>> {
        self.walk.next_value()
    }
}

impl<'a, K: Bytes, V> FusedIterator for Values<'a, K, V> {}
