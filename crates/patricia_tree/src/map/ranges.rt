//! The entries from a key on, up to another one.
ghost use Rattle.std.specs.Prelude.{◌≡◌, ◌≢◌, [], Some, None};
ghost use Rattle.std.specs.FinMap as map;
ghost use Rattle.patricia_core.specs.Cursors.{before_entries};
ghost use Rattle.patricia_core.specs.Ranges.{before, from};

use super::GenericPatriciaMap;
use patricia_core::keys::{BorrowedBytes, Bytes};
use patricia_core::range::RangeReadCursor;
use patricia_core::ranges::Range;

impl<K: Bytes, V: Drop> GenericPatriciaMap<K, V> {
    // The entries that a cursor over this map has left. Over an empty map it is at its end.
    fn given_by<'a, Q: BorrowedBytes<Owned = K>>(
        &'a self,
        cursor: RangeReadCursor<'a, Q, V>,
    ) -> Range<'a, Q, V>
        ensures entries { map.entries self.now ≢ [] → result ≡ Some cursor.entry.left }
        ensures ended { map.entries self.now ≡ [] → result ≡ None }
    {
        if self.is_empty() {
            return Range::ended();
        }
        Range::new(cursor)
    }

    /// Returns the entries from a key on, in key order, each with an owned key; the key itself need
    /// not be there. Making the iterator does not allocate; an item that is an error is out of
    /// memory, and ends it. An error may come where no entry is left, too, never over an empty map.
    ///
    /// The first item takes the time of a look-up, however many entries come before the key.
    ///
    /// # Examples
    ///
    /// ```
    /// let map = StringPatriciaMap::from_iter(rt.alloc(), [("bar", 1), ("baz", 2), ("foo", 3)])?;
    /// let mut rest = map.range_from("bas");
    /// if let Some(first) = rest.next() {
    ///     let (key, value) = first?;
    ///     assert_eq!(rt; (key.as_str(), value), ("baz", &2));
    /// }
    /// ```
    pub fn range_from<Q: BorrowedBytes<Owned = K>>(&self, key: Q) -> Range<'_, Q, V>
        ensures entries { map.entries self.now ≢ []
            → result ≡ Some (from (Q.key key) (map.entries self.now)) }
        ensures ended { map.entries self.now ≡ [] → result ≡ None }
    {
        self.given_by(self.tree.range(key, None))
    }

    /// Returns the entries from a key on and before another one, in key order, as `range_from`
    /// does. Where the first key does not come before the other, there are none.
    ///
    /// # Examples
    ///
    /// ```
    /// let map = StringPatriciaMap::from_iter(rt.alloc(), [("bar", 1), ("baz", 2), ("foo", 3)])?;
    /// for entry in map.range("bar", "foo") {
    ///     let (key, _) = entry?;
    ///     assert!(rt; key.starts_with("ba"));
    /// }
    /// ```
    pub fn range<Q: BorrowedBytes<Owned = K>>(&self, start: Q, end: Q) -> Range<'_, Q, V>
        ensures entries { map.entries self.now ≢ []
            → result ≡ Some (before (Q.key end) (from (Q.key start) (map.entries self.now))) }
        ensures ended { map.entries self.now ≡ [] → result ≡ None }
    {
        self.given_by(self.tree.range(start, Some(end)))
    }

    /// Returns a cursor before the first entry from a key on, which lends each key and value in
    /// turn and copies none. Does not allocate; `advance` may, for the path that it is on.
    ///
    /// So a page of entries is taken up again at its key: the first `advance` takes the time of a
    /// look-up, however many entries come before the key.
    ///
    /// # Examples
    ///
    /// ```
    /// let map = StringPatriciaMap::from_iter(rt.alloc(), [("bar", 1), ("baz", 2), ("foo", 3)])?;
    /// let mut cursor = map.cursor_from("baz");
    /// assert!(rt; cursor.advance()?);
    /// assert_eq!(rt; (cursor.text(), cursor.value()), (Some("baz"), Some(&2)));
    /// assert!(rt; cursor.advance()?);
    /// assert_eq!(rt; cursor.text(), Some("foo"));
    /// assert!(rt; !cursor.advance()?);
    /// ```
    pub fn cursor_from<Q: BorrowedBytes<Owned = K>>(&self, key: Q) -> RangeReadCursor<'_, Q, V>
        ensures { result ≡ before_entries (from (Q.key key) (map.entries self.now)) }
    {
        self.tree.range(key, None)
    }

    /// Returns a cursor before the first entry from a key on, which ends before another key, and
    /// lends these entries as that of `cursor_from` does. Does not allocate; `advance` may, for the
    /// path that it is on.
    ///
    /// # Examples
    ///
    /// ```
    /// let map = StringPatriciaMap::from_iter(rt.alloc(), [("bar", 1), ("baz", 2), ("foo", 3)])?;
    /// let mut cursor = map.cursor_range("bar", "baz");
    /// assert!(rt; cursor.advance()?);
    /// assert_eq!(rt; cursor.text(), Some("bar"));
    /// assert!(rt; !cursor.advance()?);
    /// ```
    pub fn cursor_range<Q: BorrowedBytes<Owned = K>>(
        &self,
        start: Q,
        end: Q,
    ) -> RangeReadCursor<'_, Q, V>
        ensures { result
            ≡ before_entries (before (Q.key end) (from (Q.key start) (map.entries self.now))) }
    {
        self.tree.range(start, Some(end))
    }
}
