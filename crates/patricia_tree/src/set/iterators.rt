//! Iterators over a set and cursors that read it, in order.
ghost use Rattle.std.specs.Prelude.{◌≡◌};
ghost use Rattle.std.specs.FinMap as map;
ghost use Rattle.patricia_tree.specs.Cursors.{before_entries};
ghost use Rattle.patricia_tree.specs.Prefixes.{under};
ghost use Rattle.patricia_tree.specs.Siblings.{keys_of};

use super::GenericPatriciaSet;
use crate::map::{PrefixReadCursor, ReadCursor};
use patricia_core::elements::{IntoIter, Iter, IterPrefix};
use patricia_core::keys::{BorrowedBytes, Bytes};
use std::alloc::AllocError;
use std::iter::IntoIterator;

impl<T: Bytes> GenericPatriciaSet<T> {
    /// Returns the elements in order, each owned. Making the iterator does not allocate; an item
    /// that is an error is out of memory where an element was left, and ends it.
    ///
    /// # Examples
    ///
    /// ```
    /// let set = StringPatriciaSet::from_iter(rt.alloc(), ["foo", "bar"])?;
    /// let mut elements = set.iter();
    /// assert_eq!(rt; elements.next().transpose()?.as_deref(), Some("bar"));
    /// assert_eq!(rt; elements.next().transpose()?.as_deref(), Some("foo"));
    /// assert!(rt; elements.next().is_none());
    /// ```
    pub fn iter(&self) -> Iter<'_, T>
        ensures { result ≡ map.keys self.now }
    {
        Iter::new(self.map.keys())
    }

    /// Returns the elements that begin with the prefix, in order, each owned, as an autocomplete
    /// lists them. Making the iterator does not allocate; an item that is an error is out of memory
    /// where an element was left, and ends it.
    ///
    /// # Examples
    ///
    /// ```
    /// let set = StringPatriciaSet::from_iter(rt.alloc(), ["foo", "bar", "baz"])?;
    /// let mut elements = set.iter_prefix("ba");
    /// assert_eq!(rt; elements.next().transpose()?.as_deref(), Some("bar"));
    /// assert_eq!(rt; elements.next().transpose()?.as_deref(), Some("baz"));
    /// assert!(rt; elements.next().is_none());
    /// ```
    pub fn iter_prefix<Q: BorrowedBytes<Owned = T>>(&self, prefix: Q) -> IterPrefix<'_, Q>
        ensures { result ≡ keys_of (under (Q.key prefix) (map.entries self.now)) }
    {
        IterPrefix::new(self.map.iter_prefix(prefix))
    }

    /// Returns a cursor before the first element, which lends each element in turn as a key and
    /// copies none. Does not allocate; `advance` may, for the path that it is on.
    ///
    /// # Examples
    ///
    /// ```
    /// let set = StringPatriciaSet::from_iter(rt.alloc(), ["foo", "bar"])?;
    /// let mut cursor = set.cursor();
    /// assert!(rt; cursor.advance()?);
    /// assert_eq!(rt; cursor.text(), Some("bar"));
    /// ```
    pub fn cursor(&self) -> ReadCursor<'_, T, ()>
        ensures { result ≡ before_entries (map.entries self.now) }
    {
        self.map.cursor()
    }

    /// Returns a cursor before the first element that begins with the prefix, which lends these
    /// elements as keys and copies none. Does not allocate; `advance` may, for the path that it is
    /// on.
    ///
    /// # Examples
    ///
    /// ```
    /// let set = StringPatriciaSet::from_iter(rt.alloc(), ["foo", "bar", "baz"])?;
    /// let mut cursor = set.cursor_prefix("f");
    /// assert!(rt; cursor.advance()?);
    /// assert_eq!(rt; cursor.text(), Some("foo"));
    /// assert!(rt; !cursor.advance()?);
    /// ```
    pub fn cursor_prefix<Q: BorrowedBytes<Owned = T>>(
        &self,
        prefix: Q,
    ) -> PrefixReadCursor<'_, Q, ()>
        ensures { result ≡ before_entries (under (Q.key prefix) (map.entries self.now)) }
    {
        self.map.cursor_prefix(prefix)
    }
}

impl<T: Bytes> IntoIterator for GenericPatriciaSet<T> {
    type Item = Result<T, AllocError>;

    type IntoIter = IntoIter<T>;

    ghost into_iter_gives = { λ s elements. elements ≡ map.keys s };

    fn into_iter(self) -> IntoIter<T> {
        IntoIter::new(self.map.into_iter())
    }
}

impl<'a, T: Bytes> IntoIterator for &'a GenericPatriciaSet<T> {
    type Item = Result<T, AllocError>;

    type IntoIter = Iter<'a, T>;

    ghost into_iter_gives = { λ s elements. elements ≡ map.keys s.now };

    fn into_iter(self) -> Iter<'a, T> {
        self.iter()
    }
}
