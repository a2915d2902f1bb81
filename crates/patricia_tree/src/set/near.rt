//! Fuzzy search by Levenshtein distance: the elements that are few edits from a key.
ghost use Rattle.std.specs.Prelude.{◌≡◌};
ghost use Rattle.std.specs.FinMap as map;
ghost use Rattle.patricia_core.specs.Searches.{search_of};

use super::GenericPatriciaSet;
use crate::map::NearCursor;
use patricia_core::keys::{BorrowedBytes, Bytes};

impl<T: Bytes> GenericPatriciaSet<T> {
    /// Returns a cursor before the first element that is at most `limit` edits from the key: an
    /// edit inserts, deletes or replaces one byte of a byte string, or one character of a text. It
    /// lends these elements as keys, in key order, and copies none. This is a fuzzy search by
    /// Levenshtein distance.
    ///
    /// Making it does not allocate. `advance` does where an element is left: the first one copies
    /// the key that is sought. It passes all elements at once that begin with bytes that no such
    /// element begins with. For each item that it looks at it takes time in proportion to the items
    /// of the key that is sought.
    ///
    /// # Examples
    ///
    /// ```
    /// let set = StringPatriciaSet::from_iter(rt.alloc(), ["sitting", "kitten", "kitchen"])?;
    /// let mut cursor = set.within("kitten", 2);
    /// assert!(rt; cursor.advance()?);
    /// assert_eq!(rt; cursor.text(), Some("kitchen"));
    /// assert!(rt; cursor.advance()?);
    /// assert_eq!(rt; cursor.text(), Some("kitten"));
    /// assert!(rt; !cursor.advance()?);
    /// ```
    pub fn within<Q: BorrowedBytes<Owned = T>>(&self, key: Q, limit: u32) -> NearCursor<'_, Q, ()>
        ensures { result ≡ search_of (map.entries self.now) (Q.key key) limit }
    {
        self.map.within(key, limit)
    }
}
