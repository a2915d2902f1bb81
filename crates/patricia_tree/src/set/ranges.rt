//! The elements from a key on, up to another one.
ghost use Rattle.std.specs.Prelude.{◌≡◌, ◌≢◌, [], Some, None};
ghost use Rattle.std.specs.FinMap as map;
ghost use Rattle.patricia_tree.specs.Cursors.{before_entries};
ghost use Rattle.patricia_tree.specs.Ranges.{before, from};
ghost use Rattle.patricia_tree.specs.Siblings.{keys_of};

use super::GenericPatriciaSet;
use crate::map::RangeReadCursor;
use patricia_core::keys::{BorrowedBytes, Bytes};
use patricia_core::ranges::ElementRange;

impl<T: Bytes> GenericPatriciaSet<T> {
    // The elements that a cursor over this set has left. Over an empty set it is at its end.
    fn given_by<'a, Q: BorrowedBytes<Owned = T>>(
        &'a self,
        cursor: RangeReadCursor<'a, Q, ()>,
    ) -> ElementRange<'a, Q>
        ensures elements { map.entries self.now ≢ [] → result ≡ Some (keys_of cursor.entry.left) }
        ensures ended { map.entries self.now ≡ [] → result ≡ None }
    {
        if self.is_empty() {
            return ElementRange::ended();
        }
        ElementRange::new(cursor)
    }

    /// Returns the elements from a key on, in order, each owned; the key itself need not be there.
    /// Making the iterator does not allocate; an item that is an error is out of memory, and ends
    /// it. An error may come where no element is left, too, never over an empty set.
    ///
    /// The first item takes the time of a look-up, however many elements come before the key.
    ///
    /// # Examples
    ///
    /// ```
    /// let set = StringPatriciaSet::from_iter(rt.alloc(), ["bar", "baz", "foo"])?;
    /// let mut rest = set.range_from("bas");
    /// assert_eq!(rt; rest.next().transpose()?.as_deref(), Some("baz"));
    /// assert_eq!(rt; rest.next().transpose()?.as_deref(), Some("foo"));
    /// assert!(rt; rest.next().is_none());
    /// ```
    pub fn range_from<Q: BorrowedBytes<Owned = T>>(&self, key: Q) -> ElementRange<'_, Q>
        ensures elements { map.entries self.now ≢ []
            → result ≡ Some (keys_of (from (Q.key key) (map.entries self.now))) }
        ensures ended { map.entries self.now ≡ [] → result ≡ None }
    {
        self.given_by(self.map.cursor_from(key))
    }

    /// Returns the elements from a key on and before another one, in order, as `range_from` does.
    /// Where the first key does not come before the other, there are none.
    ///
    /// # Examples
    ///
    /// ```
    /// let set = StringPatriciaSet::from_iter(rt.alloc(), ["bar", "baz", "foo"])?;
    /// let mut some = set.range("bar", "baz");
    /// assert_eq!(rt; some.next().transpose()?.as_deref(), Some("bar"));
    /// assert!(rt; some.next().is_none());
    /// ```
    pub fn range<Q: BorrowedBytes<Owned = T>>(&self, start: Q, end: Q) -> ElementRange<'_, Q>
        ensures elements { map.entries self.now ≢ [] → result
            ≡ Some (keys_of (before (Q.key end) (from (Q.key start) (map.entries self.now)))) }
        ensures ended { map.entries self.now ≡ [] → result ≡ None }
    {
        self.given_by(self.map.cursor_range(start, end))
    }

    /// Returns a cursor before the first element from a key on, which lends each element in turn as
    /// a key and copies none. Does not allocate; `advance` may, for the path that it is on.
    ///
    /// # Examples
    ///
    /// ```
    /// let set = StringPatriciaSet::from_iter(rt.alloc(), ["bar", "baz", "foo"])?;
    /// let mut cursor = set.cursor_from("c");
    /// assert!(rt; cursor.advance()?);
    /// assert_eq!(rt; cursor.text(), Some("foo"));
    /// assert!(rt; !cursor.advance()?);
    /// ```
    pub fn cursor_from<Q: BorrowedBytes<Owned = T>>(&self, key: Q) -> RangeReadCursor<'_, Q, ()>
        ensures { result ≡ before_entries (from (Q.key key) (map.entries self.now)) }
    {
        self.map.cursor_from(key)
    }

    /// Returns a cursor before the first element from a key on, which ends before another key, and
    /// lends these elements as that of `cursor_from` does. Does not allocate; `advance` may, for
    /// the path that it is on.
    ///
    /// # Examples
    ///
    /// ```
    /// let set = StringPatriciaSet::from_iter(rt.alloc(), ["bar", "baz", "foo"])?;
    /// let mut cursor = set.cursor_range("baz", "c");
    /// assert!(rt; cursor.advance()?);
    /// assert_eq!(rt; cursor.text(), Some("baz"));
    /// assert!(rt; !cursor.advance()?);
    /// ```
    pub fn cursor_range<Q: BorrowedBytes<Owned = T>>(
        &self,
        start: Q,
        end: Q,
    ) -> RangeReadCursor<'_, Q, ()>
        ensures { result
            ≡ before_entries (before (Q.key end) (from (Q.key start) (map.entries self.now))) }
    {
        self.map.cursor_range(start, end)
    }
}
