//! Iterators over the common prefixes of a key, which do not allocate, and under a prefix.
ghost use Rattle.std.specs.Prelude.{◌≡◌, length};
ghost use Rattle.std.specs.Iterator.{at_most};
ghost use Rattle.std.specs.Map.Iter.{TakesFirst};
ghost use Rattle.patricia_model.specs.Walks.{values_of};

use patricia_keys::keys::BorrowedBytes;
use patricia_walks::along::Along;
pub use patricia_walks::along::{
    Along as CommonPrefixesIter, AlongOwned as CommonPrefixValuesOwned,
};
pub use patricia_walks::under::Under as IterPrefix;
use std::iter::FusedIterator;
use std::marker::Model;

/// The values of the entries whose key is a prefix of a key, the shortest first.
#[derive(Drop)]
pub struct CommonPrefixValues<'a, Q: BorrowedBytes, V> {
    along: Along<'a, Q, V>,
}

impl<'a, Q: BorrowedBytes, V> Model for CommonPrefixValues<'a, Q, V> {
    ghost use Rattle.std.specs.Prelude.{List};

    ghost Value = { List V };

    ghost use Rattle.patricia_model.specs.Walks.{values_of};

    ghost view = { λ i. values_of i.along };
}

impl<'a, Q: BorrowedBytes, V> CommonPrefixValues<'a, Q, V> {
    /// Returns the values of the entries of a walk over the common prefixes of a key.
    pub fn new(along: Along<'a, Q, V>) -> Self
        ensures { result ≡ values_of along.entry }
    {
        CommonPrefixValues { along }
    }
}

impl<'a, Q: BorrowedBytes, V> Iterator for CommonPrefixValues<'a, Q, V> {
    type Item = &'a V;

    ghost next_gives = { TakesFirst (λ v. v.now) };

    ghost remaining = { λ values. at_most (length values) };

    fn next(&mut self) -> Option<&'a V> {
        self.along.next_value()
    }
}

impl<'a, Q: BorrowedBytes, V> FusedIterator for CommonPrefixValues<'a, Q, V> {}
