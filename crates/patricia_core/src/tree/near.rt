//! The entries of a tree whose key is few edits from another one.
ghost use Rattle.std.specs.Prelude.{◌≡◌};
ghost use Rattle.std.specs.FinMap as map;
ghost use Rattle.patricia_walks.specs.Searches.{search_of};

use super::Tree;
use patricia_keys::{BorrowedBytes, Bytes};
use patricia_walks::near::NearCursor;

impl<K: Bytes, V: Drop> Tree<K, V> {
    /// A cursor that reads the entries of which at most so many edits make the sought key.
    pub fn near<Q: BorrowedBytes<Owned = K>>(&self, sought: Q, limit: u32) -> NearCursor<'_, Q, V>
        ensures { result ≡ search_of (map.entries self.now) (Q.key sought) limit }
    {
        NearCursor::new(self.parts.alloc, self.cursor(), sought, limit)
    }
}
