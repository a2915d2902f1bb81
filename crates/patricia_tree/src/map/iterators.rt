//! Iterators over a map, in key order.
ghost use Rattle.std.specs.Prelude.{◌≡◌};
ghost use Rattle.std.specs.FinMap as map;
ghost use Rattle.patricia_core.specs.Cursors.{before_entries};
ghost use Rattle.patricia_core.specs.Prefixes.{under};

use super::GenericPatriciaMap;
use patricia_core::entries::{IntoIter, Iter, Keys, Values};
use patricia_core::keys::{BorrowedBytes, Bytes};
use patricia_core::prefixes::IterPrefix;
use patricia_core::under::PrefixReadCursor;
use patricia_core::walk::ReadCursor;
use std::alloc::AllocError;
use std::iter::IntoIterator;

impl<K: Bytes, V: Drop> GenericPatriciaMap<K, V> {
    /// Returns the entries in key order, each with an owned key. Making the iterator does not
    /// allocate; an item that is an error is out of memory where an entry was left, and ends it.
    ///
    /// # Examples
    ///
    /// ```
    /// let map = StringPatriciaMap::from_iter(rt.alloc(), [("foo", 1), ("bar", 2)])?;
    /// let mut entries = map.iter();
    /// if let Some(first) = entries.next() {
    ///     let (key, value) = first?;
    ///     assert_eq!(rt; (key.as_str(), value), ("bar", &2));
    /// }
    /// ```
    pub fn iter(&self) -> Iter<'_, K, V>
        ensures { result ≡ map.entries self.now }
    {
        self.tree.walk()
    }

    /// Returns the entries whose key begins with the prefix, in key order, each with an owned key,
    /// as an autocomplete lists them. Making the iterator does not allocate; an item that is an
    /// error is out of memory where an entry was left, and ends it.
    ///
    /// # Examples
    ///
    /// ```
    /// let map = StringPatriciaMap::from_iter(rt.alloc(), [("foo", 1), ("bar", 2), ("baz", 3)])?;
    /// for entry in map.iter_prefix("ba") {
    ///     let (key, _) = entry?;
    ///     assert!(rt; key.starts_with("ba"));
    /// }
    /// ```
    pub fn iter_prefix<Q: BorrowedBytes<Owned = K>>(&self, prefix: Q) -> IterPrefix<'_, Q, V>
        ensures { result ≡ under (Q.key prefix) (map.entries self.now) }
    {
        self.tree.under(prefix)
    }

    /// Returns the keys in order, each an owned key. Making the iterator does not allocate; an item
    /// that is an error is out of memory where an entry was left, and ends it.
    ///
    /// # Examples
    ///
    /// ```
    /// let map = StringPatriciaMap::from_iter(rt.alloc(), [("foo", 1), ("bar", 2)])?;
    /// let mut keys = map.keys();
    /// assert_eq!(rt; keys.next().transpose()?.as_deref(), Some("bar"));
    /// assert_eq!(rt; keys.next().transpose()?.as_deref(), Some("foo"));
    /// assert!(rt; keys.next().is_none());
    /// ```
    pub fn keys(&self) -> Keys<'_, K, V>
        ensures { result ≡ map.keys self.now }
    {
        Keys::new(self.tree.walk())
    }

    /// Returns the values in the order of their keys. Making the iterator does not allocate; an
    /// item that is an error is out of memory where an entry was left, and ends it.
    ///
    /// # Examples
    ///
    /// ```
    /// let map = StringPatriciaMap::from_iter(rt.alloc(), [("foo", 1), ("bar", 2)])?;
    /// let mut values = map.values();
    /// assert_eq!(rt; values.next().transpose()?, Some(&2));
    /// assert_eq!(rt; values.next().transpose()?, Some(&1));
    /// assert!(rt; values.next().is_none());
    /// ```
    pub fn values(&self) -> Values<'_, K, V>
        ensures { result ≡ map.values self.now }
    {
        Values::new(self.tree.value_walk())
    }

    /// Returns a cursor before the first entry, which lends each key and value in turn and copies
    /// none. Does not allocate; `advance` may, for the path that it is on.
    ///
    /// # Examples
    ///
    /// ```
    /// let map = StringPatriciaMap::from_iter(rt.alloc(), [("foo", 1), ("bar", 2)])?;
    /// let mut cursor = map.cursor();
    /// assert!(rt; cursor.advance()?);
    /// assert_eq!(rt; (cursor.text(), cursor.value()), (Some("bar"), Some(&2)));
    /// ```
    pub fn cursor(&self) -> ReadCursor<'_, K, V>
        ensures { result ≡ before_entries (map.entries self.now) }
    {
        self.tree.cursor()
    }

    /// Returns a cursor before the first entry whose key begins with the prefix, which lends these
    /// entries and copies no key. Does not allocate; `advance` may, for the path that it is on.
    ///
    /// # Examples
    ///
    /// ```
    /// let map = StringPatriciaMap::from_iter(rt.alloc(), [("foo", 1), ("bar", 2), ("baz", 3)])?;
    /// let mut cursor = map.cursor_prefix("ba");
    /// assert!(rt; cursor.advance()?);
    /// assert_eq!(rt; cursor.text(), Some("bar"));
    /// assert!(rt; cursor.advance()?);
    /// assert_eq!(rt; cursor.text(), Some("baz"));
    /// assert!(rt; !cursor.advance()?);
    /// ```
    pub fn cursor_prefix<Q: BorrowedBytes<Owned = K>>(
        &self,
        prefix: Q,
    ) -> PrefixReadCursor<'_, Q, V>
        ensures { result ≡ before_entries (under (Q.key prefix) (map.entries self.now)) }
    {
        self.tree.cursor_prefix(prefix)
    }
}

impl<K: Bytes, V: Drop> IntoIterator for GenericPatriciaMap<K, V> {
    type Item = Result<(K, V), AllocError>;

    type IntoIter = IntoIter<K, V>;

    ghost into_iter_gives = { λ m listed. listed ≡ map.entries m };

    fn into_iter(self) -> IntoIter<K, V> {
        self.tree.into_walk()
    }
}

impl<'a, K: Bytes, V: Drop> IntoIterator for &'a GenericPatriciaMap<K, V> {
    type Item = Result<(K, &'a V), AllocError>;

    type IntoIter = Iter<'a, K, V>;

    ghost into_iter_gives = { λ m listed. listed ≡ map.entries m.now };

    fn into_iter(self) -> Iter<'a, K, V> {
        self.iter()
    }
}
