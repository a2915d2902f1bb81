//! Fuzzy search by Levenshtein distance: the entries whose key is few edits from another one.
ghost use Rattle.std.specs.Prelude.{◌≡◌};
ghost use Rattle.std.specs.FinMap as map;
ghost use Rattle.patricia_core.specs.Searches.{search_of};

use super::GenericPatriciaMap;
use patricia_core::keys::{BorrowedBytes, Bytes};
use patricia_core::near::NearCursor;

impl<K: Bytes, V: Drop> GenericPatriciaMap<K, V> {
    /// Returns a cursor before the first entry whose key is at most `limit` edits from the key: an
    /// edit inserts, deletes or replaces one byte of a byte string, or one character of a text. It
    /// lends these entries in key order and copies none. This is a fuzzy search by Levenshtein
    /// distance.
    ///
    /// Making it does not allocate. `advance` does where an entry is left: the first one copies the
    /// key that is sought. It passes all entries at once whose key begins with bytes that no such
    /// key begins with. For each item that it looks at it takes time in proportion to the items of
    /// the key that is sought.
    ///
    /// # Examples
    ///
    /// ```
    /// let map = StringPatriciaMap::from_iter(rt.alloc(), [("bar", 1), ("baz", 2), ("foo", 3)])?;
    /// let mut cursor = map.within("bat", 1);
    /// assert!(rt; cursor.advance()?);
    /// assert_eq!(rt; (cursor.text(), cursor.value()), (Some("bar"), Some(&1)));
    /// assert!(rt; cursor.advance()?);
    /// assert_eq!(rt; cursor.text(), Some("baz"));
    /// assert!(rt; !cursor.advance()?);
    /// ```
    pub fn within<Q: BorrowedBytes<Owned = K>>(&self, key: Q, limit: u32) -> NearCursor<'_, Q, V>
        ensures { result ≡ search_of (map.entries self.now) (Q.key key) limit }
    {
        self.tree.near(key, limit)
    }
}
