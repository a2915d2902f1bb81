//! The entries of a tree from a key on.
ghost use Rattle.std.specs.Prelude.{◌≡◌, ◌≢◌, [], None, Option, IfOk, OnErr};
ghost use Rattle.std.specs.Prelude.{slice_get};
ghost use Rattle.std.specs.List.{last_or};
ghost use Rattle.std.specs.Option.{option_map};
ghost use Rattle.std.specs.FinMap as map;
ghost use Rattle.patricia_model.specs.Cursors.{before_entries};
ghost use Rattle.patricia_model.specs.Ranges.{before, from};
ghost use Rattle.patricia_walks.specs.Internal.Bounds.{within};

use super::Tree;
use patricia_keys::{BorrowedBytes, Bytes};
use patricia_walks::first::first;
use patricia_walks::last::{last, last_before};
use patricia_walks::range::RangeReadCursor;
use std::alloc::AllocError;

impl<K: Bytes, V: Drop> Tree<K, V> {
    /// A cursor that reads the entries from a key on, up to a bound where there is one. Making it
    /// does not allocate.
    pub fn range<Q: BorrowedBytes<Owned = K>>(
        &self,
        key: Q,
        bound: Option<Q>,
    ) -> RangeReadCursor<'_, Q, V>
        ensures { result ≡ before_entries
            (within (option_map Q.key bound) (from (Q.key key) (map.entries self.now))) }
    {
        let parts = &self.parts;
        RangeReadCursor::new(parts.alloc, parts.value.as_ref(), &parts.arena, key, bound)
    }

    /// The first entry. The error is out of memory, and never comes where there is none.
    pub fn first(&self) -> Result<Option<(K, &V)>, AllocError>
        ensures entry { IfOk result (λ entry. option_map (λ e. (K.key e.0, e.1.now)) entry
            ≡ slice_get (map.entries self.now) 0) }
        ensures err_only_nonempty { OnErr result (map.entries self.now ≢ []) }
    {
        let parts = &self.parts;
        first(parts.alloc, parts.value.as_ref(), &parts.arena)
    }

    /// The last entry. The error is out of memory, and never comes where there is none.
    pub fn last(&self) -> Result<Option<(K, &V)>, AllocError>
        ensures entry { IfOk result (λ entry. option_map (λ e. (K.key e.0, e.1.now)) entry
            ≡ last_or None (map.entries self.now)) }
        ensures err_only_nonempty { OnErr result (map.entries self.now ≢ []) }
    {
        let parts = &self.parts;
        last(parts.alloc, parts.value.as_ref(), &parts.arena)
    }

    /// The last entry before a key. The error is out of memory, and never comes where there is
    /// none.
    pub fn last_before<Q: BorrowedBytes<Owned = K>>(
        &self,
        key: Q,
    ) -> Result<Option<(K, &V)>, AllocError>
        ensures entry { IfOk result (λ entry. option_map (λ e. (K.key e.0, e.1.now)) entry
            ≡ last_or None (before (Q.key key) (map.entries self.now))) }
        ensures err_only_before { OnErr result (before (Q.key key) (map.entries self.now) ≢ []) }
    {
        let parts = &self.parts;
        last_before(parts.alloc, parts.value.as_ref(), &parts.arena, key)
    }
}
