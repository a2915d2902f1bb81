//! The first and the last entry, and those next to a key.
ghost use Rattle.std.specs.Prelude.{◌≡◌, ◌≢◌, [], Some, None, true, false, IfOk, OnErr};
ghost use Rattle.std.specs.Prelude.{slice_get};
ghost use Rattle.std.specs.List.{last_or};
ghost use Rattle.std.specs.Map.Iter.{TakesFirst, TakesLast};
ghost use Rattle.std.specs.Option.{option_map};
ghost use Rattle.std.specs.FinMap as map;
ghost use Rattle.patricia_core.specs.Cursors.{after};
ghost use Rattle.patricia_core.specs.Ranges.{before};

use super::GenericPatriciaMap;
use patricia_core::keys::{BorrowedBytes, Bytes};
use std::alloc::AllocError;

// Whether there is an entry and it is that of the key.
fn stands_at<K: Bytes, V, Q: BorrowedBytes<Owned = K>>(entry: &Option<(K, &V)>, key: Q) -> bool
    ensures there { result ≡ true → option_map (λ e. K.key e.0) entry.now ≡ Some (Q.key key) }
    ensures elsewhere { result ≡ false → option_map (λ e. K.key e.0) entry.now ≢ Some (Q.key key) }
{
    match entry {
        Some((first, _)) => first.as_bytes() == key.as_bytes(),
        None => false,
    }
}

impl<K: Bytes, V: Drop> GenericPatriciaMap<K, V> {
    /// Returns the first entry in key order, with an owned key, or `None` where there is none.
    ///
    /// Takes time in proportion to the nodes on the way, and to the bytes of the key.
    ///
    /// # Errors
    ///
    /// Out of memory for the key, never for an empty map.
    ///
    /// # Examples
    ///
    /// ```
    /// let map = StringPatriciaMap::from_iter(rt.alloc(), [("foo", 1), ("bar", 2)])?;
    /// if let Some((key, value)) = map.first_key_value()? {
    ///     assert_eq!(rt; (key.as_str(), value), ("bar", &2));
    /// }
    /// ```
    pub fn first_key_value(&self) -> Result<Option<(K, &V)>, AllocError>
        ensures first { IfOk result (λ entry. option_map (λ e. (K.key e.0, e.1.now)) entry
            ≡ slice_get (map.entries self.now) 0) }
        ensures err_only_nonempty { OnErr result (map.entries self.now ≢ []) }
    {
        self.tree.first()
    }

    /// Returns the first entry whose key comes after a key, with an owned key, or `None` where
    /// there is none. The key that is passed need not be there.
    ///
    /// Takes the time of a look-up, and time in proportion to the nodes from there to the entry.
    ///
    /// # Errors
    ///
    /// Out of memory for the way to it and for its key, never for an empty map. The way goes along
    /// the key, so an error may come where no entry is behind it, too.
    ///
    /// # Examples
    ///
    /// ```
    /// let map = StringPatriciaMap::from_iter(rt.alloc(), [("bar", 1), ("foo", 2)])?;
    /// if let Some((key, value)) = map.first_after("bar")? {
    ///     assert_eq!(rt; (key.as_str(), value), ("foo", &2));
    /// }
    /// assert!(rt; map.first_after("foo")?.is_none());
    /// ```
    pub fn first_after<Q: BorrowedBytes<Owned = K>>(
        &self,
        key: Q,
    ) -> Result<Option<(K, &V)>, AllocError>
        ensures first { IfOk result (λ entry. option_map (λ e. (K.key e.0, e.1.now)) entry
            ≡ slice_get (after (Some (Q.key key)) (map.entries self.now)) 0) }
        ensures err_only_nonempty { OnErr result (map.entries self.now ≢ []) }
    {
        if self.is_empty() {
            return Ok(None);
        }
        self.find_after(key)
    }

    // The first entry after a key.
    fn find_after<Q: BorrowedBytes<Owned = K>>(&self, key: Q) -> Result<Option<(K, &V)>, AllocError>
        ensures { IfOk result (λ entry. option_map (λ e. (K.key e.0, e.1.now)) entry
            ≡ slice_get (after (Some (Q.key key)) (map.entries self.now)) 0) }
    {
        let mut cursor = self.cursor_from(key);
        let next = cursor.next_entry()?;
        if stands_at(&next, key) {
            return cursor.next_entry();
        }
        Ok(next)
    }

    /// Returns the last entry in key order, with an owned key, or `None` where there is none.
    ///
    /// Takes time in proportion to the nodes on the way, siblings among them, and to the bytes of
    /// the key.
    ///
    /// # Errors
    ///
    /// Out of memory for the key, never for an empty map.
    ///
    /// # Examples
    ///
    /// ```
    /// let map = StringPatriciaMap::from_iter(rt.alloc(), [("foo", 1), ("bar", 2)])?;
    /// if let Some((key, value)) = map.last_key_value()? {
    ///     assert_eq!(rt; (key.as_str(), value), ("foo", &1));
    /// }
    /// ```
    pub fn last_key_value(&self) -> Result<Option<(K, &V)>, AllocError>
        ensures last { IfOk result (λ entry. option_map (λ e. (K.key e.0, e.1.now)) entry
            ≡ last_or None (map.entries self.now)) }
        ensures err_only_nonempty { OnErr result (map.entries self.now ≢ []) }
    {
        self.tree.last()
    }

    /// Returns the last entry whose key comes before a key, with an owned key, or `None` where
    /// there is none. The key that is passed need not be there.
    ///
    /// Takes the time of a look-up, and of one descent from there to the entry.
    ///
    /// # Errors
    ///
    /// Out of memory for the key of the entry, never where there is none.
    ///
    /// # Examples
    ///
    /// ```
    /// let map = StringPatriciaMap::from_iter(rt.alloc(), [("bar", 1), ("foo", 2)])?;
    /// if let Some((key, value)) = map.last_before("foo")? {
    ///     assert_eq!(rt; (key.as_str(), value), ("bar", &1));
    /// }
    /// assert!(rt; map.last_before("bar")?.is_none());
    /// ```
    pub fn last_before<Q: BorrowedBytes<Owned = K>>(
        &self,
        key: Q,
    ) -> Result<Option<(K, &V)>, AllocError>
        ensures last { IfOk result (λ entry. option_map (λ e. (K.key e.0, e.1.now)) entry
            ≡ last_or None (before (Q.key key) (map.entries self.now))) }
        ensures err_only_before { OnErr result (before (Q.key key) (map.entries self.now) ≢ []) }
    {
        self.tree.last_before(key)
    }

    /// Removes the first entry in key order, and returns it, or `None` where there is none.
    ///
    /// Takes one descent, with time in proportion to the nodes on the way and to the bytes of the
    /// key. `into_iter` takes all entries out in less.
    ///
    /// # Errors
    ///
    /// Out of memory for the key, or for a joined label: the map is unchanged. Never for an empty
    /// map.
    ///
    /// # Examples
    ///
    /// ```
    /// let mut map = StringPatriciaMap::from_iter(rt.alloc(), [("foo", 1), ("bar", 2)])?;
    /// if let Some((key, value)) = map.pop_first()? {
    ///     assert_eq!(rt; (key.as_str(), value), ("bar", 2));
    /// }
    /// assert_eq!(rt; map.len(), 1);
    /// ```
    pub fn pop_first(&mut self) -> Result<Option<(K, V)>, AllocError>
        ensures taken { IfOk result (λ entry. TakesFirst (λ e. (K.key e.0, e.1))
            (map.entries self.old) entry (map.entries self.new)) }
        ensures unchanged { OnErr result (self.new ≡ self.old) }
        ensures err_only_nonempty { OnErr result (map.entries self.old ≢ []) }
    {
        self.tree.pop_first()
    }

    /// Removes the last entry in key order, and returns it, or `None` where there is none.
    ///
    /// Takes one descent, with time in proportion to the nodes on the way, siblings among them, and
    /// to the bytes of the key. `into_iter` takes all entries out in less.
    ///
    /// # Errors
    ///
    /// Out of memory for the key, or for a joined label: the map is unchanged. Never for an empty
    /// map.
    ///
    /// # Examples
    ///
    /// ```
    /// let mut map = StringPatriciaMap::from_iter(rt.alloc(), [("foo", 1), ("bar", 2)])?;
    /// if let Some((key, value)) = map.pop_last()? {
    ///     assert_eq!(rt; (key.as_str(), value), ("foo", 1));
    /// }
    /// assert_eq!(rt; map.len(), 1);
    /// ```
    pub fn pop_last(&mut self) -> Result<Option<(K, V)>, AllocError>
        ensures taken { IfOk result (λ entry. TakesLast (λ e. (K.key e.0, e.1))
            (map.entries self.old) entry (map.entries self.new)) }
        ensures unchanged { OnErr result (self.new ≡ self.old) }
        ensures err_only_nonempty { OnErr result (map.entries self.old ≢ []) }
    {
        self.tree.pop_last()
    }
}
