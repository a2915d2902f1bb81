//! Look-ups of many keys at once.
ghost use Rattle.std.specs.Prelude.{◌≡◌, ◌≢◌, [], drop, length, map as list_map, min, take};
ghost use Rattle.std.specs.Prelude.{IfOk, OnErr};
ghost use Rattle.std.specs.Option.{option_copied, option_map};
ghost use Rattle.std.specs.FinMap as map;
ghost use Rattle.patricia_core.specs.Prefixes.{longest};

use super::GenericPatriciaMap;
use patricia_core::keys::{BorrowedBytes, Bytes};
use std::alloc::AllocError;

impl<K: Bytes, V: Drop> GenericPatriciaMap<K, V> {
    /// Looks up many keys, and writes the value at each to its place in `found`, or `None` where
    /// there is none. Looks up as many as there are places, and returns how many. Does not
    /// allocate.
    ///
    /// Up to 32 look-ups go on side by side, so that they wait for memory together.
    ///
    /// # Examples
    ///
    /// ```
    /// let map = StringPatriciaMap::from_iter(rt.alloc(), [("foo", 1), ("bar", 2)])?;
    /// let mut found = [None; 2];
    /// assert_eq!(rt; map.get_many_into(&["bar", "baz", "foo"], &mut found), 2);
    /// assert_eq!(rt; found, [Some(&2), None]);
    /// ```
    pub fn get_many_into<'a, Q: BorrowedBytes<Owned = K>>(
        &'a self,
        keys: &[Q],
        found: &mut [Option<&'a V>],
    ) -> usize
        ensures count { result ≡ min (length keys.now) (length found.old) }
        ensures values { list_map option_copied (take result found.new)
            ≡ list_map (λ key. map.get self.now (Q.key key)) (take result keys.now) }
        ensures behind { drop result found.new ≡ drop result found.old }
        ensures as_many { length found.new ≡ length found.old }
    {
        let n = keys.len().min(found.len());
        self.tree.get_many(&keys[..n], &mut found[..n]);
        n
    }

    /// Returns the value at each key, in the order of the keys, or `None` where there is none.
    /// [`get_many_into`](GenericPatriciaMap::get_many_into) says how they are looked up.
    ///
    /// # Errors
    ///
    /// Out of memory for the list, which is reserved before the first key is looked up; never for
    /// no keys.
    ///
    /// # Examples
    ///
    /// ```
    /// let map = StringPatriciaMap::from_iter(rt.alloc(), [("foo", 1), ("bar", 2)])?;
    /// let values = map.get_many(&["bar", "baz", "foo"])?;
    /// assert_eq!(rt; values.as_slice(), [Some(&2), None, Some(&1)].as_slice());
    /// ```
    pub fn get_many<Q: BorrowedBytes<Owned = K>>(
        &self,
        keys: &[Q],
    ) -> Result<Vec<Option<&V>>, AllocError>
        ensures values { IfOk result (λ values. list_map option_copied values.items
            ≡ list_map (λ key. map.get self.now (Q.key key)) keys.now) }
        ensures err_only_nonempty { OnErr result (keys.now ≢ []) }
    {
        let mut values = Vec::new(self.tree.alloc());
        values.resize(keys.len(), None)?;
        self.get_many_into(keys, values.as_mut_slice());
        Ok(values)
    }

    /// Looks up many keys, and writes whether each is there to its place in `found`. Looks up as
    /// many as there are places, and returns how many. Does not allocate.
    ///
    /// The look-ups go on side by side, as in
    /// [`get_many_into`](GenericPatriciaMap::get_many_into).
    ///
    /// # Examples
    ///
    /// ```
    /// let map = StringPatriciaMap::from_iter(rt.alloc(), [("foo", 1), ("bar", 2)])?;
    /// let mut found = [false; 2];
    /// assert_eq!(rt; map.contains_many_into(&["bar", "baz", "foo"], &mut found), 2);
    /// assert_eq!(rt; found, [true, false]);
    /// ```
    pub fn contains_many_into<Q: BorrowedBytes<Owned = K>>(
        &self,
        keys: &[Q],
        found: &mut [bool],
    ) -> usize
        ensures count { result ≡ min (length keys.now) (length found.old) }
        ensures there { take result found.new
            ≡ list_map (λ key. map.contains_key self.now (Q.key key)) (take result keys.now) }
        ensures behind { drop result found.new ≡ drop result found.old }
        ensures as_many { length found.new ≡ length found.old }
    {
        let n = keys.len().min(found.len());
        self.tree.contains_many(&keys[..n], &mut found[..n]);
        n
    }

    /// Returns whether each key is there, in the order of the keys.
    ///
    /// # Errors
    ///
    /// Out of memory for the list, which is reserved before the first key is looked up; never for
    /// no keys.
    ///
    /// # Examples
    ///
    /// ```
    /// let map = StringPatriciaMap::from_iter(rt.alloc(), [("foo", 1), ("bar", 2)])?;
    /// let found = map.contains_many(&["bar", "baz", "foo"])?;
    /// assert_eq!(rt; found.as_slice(), [true, false, true].as_slice());
    /// ```
    pub fn contains_many<Q: BorrowedBytes<Owned = K>>(
        &self,
        keys: &[Q],
    ) -> Result<Vec<bool>, AllocError>
        ensures there { IfOk result (λ found. found.items
            ≡ list_map (λ key. map.contains_key self.now (Q.key key)) keys.now) }
        ensures err_only_nonempty { OnErr result (keys.now ≢ []) }
    {
        let mut found = Vec::new(self.tree.alloc());
        found.resize(keys.len(), false)?;
        self.contains_many_into(keys, found.as_mut_slice());
        Ok(found)
    }

    /// Looks up the longest prefix of many keys, and writes each, with the value there, to the
    /// place of its key in `found`, or `None` where there is none. Looks up as many as there are
    /// places, and returns how many. Does not allocate.
    ///
    /// The prefixes are parts of the keys that are passed. The look-ups go on side by side, as in
    /// [`get_many_into`](GenericPatriciaMap::get_many_into).
    ///
    /// # Examples
    ///
    /// ```
    /// let map = StringPatriciaMap::from_iter(rt.alloc(), [("foo", 1), ("bar", 2)])?;
    /// let mut found = [None; 2];
    /// assert_eq!(rt; map.longest_many_into(&["foot", "fo", "bar"], &mut found), 2);
    /// assert_eq!(rt; found, [Some(("foo", &1)), None]);
    /// ```
    pub fn longest_many_into<'a, Q: BorrowedBytes<Owned = K>>(
        &'a self,
        keys: &[Q],
        found: &mut [Option<(Q, &'a V)>],
    ) -> usize
        ensures count { result ≡ min (length keys.now) (length found.old) }
        ensures entries { list_map (option_map (λ e. (Q.key e.0, e.1.now))) (take result found.new)
            ≡ list_map (λ key. longest (Q.key key) (map.entries self.now)) (take result keys.now) }
        ensures behind { drop result found.new ≡ drop result found.old }
        ensures as_many { length found.new ≡ length found.old }
    {
        let n = keys.len().min(found.len());
        self.tree.longest_many(&keys[..n], &mut found[..n]);
        n
    }

    /// Returns the longest prefix of each key, with the value there, in the order of the keys, or
    /// `None` where there is none.
    ///
    /// # Errors
    ///
    /// Out of memory for the list, which is reserved before the first key is looked up; never for
    /// no keys.
    ///
    /// # Examples
    ///
    /// ```
    /// let map = StringPatriciaMap::from_iter(rt.alloc(), [("foo", 1), ("bar", 2)])?;
    /// let entries = map.longest_many(&["foot", "fo", "bar"])?;
    /// assert_eq!(rt; entries.as_slice(), [Some(("foo", &1)), None, Some(("bar", &2))].as_slice());
    /// ```
    pub fn longest_many<Q: BorrowedBytes<Owned = K>>(
        &self,
        keys: &[Q],
    ) -> Result<Vec<Option<(Q, &V)>>, AllocError>
        ensures entries { IfOk result (λ entries.
            list_map (option_map (λ e. (Q.key e.0, e.1.now))) entries.items
            ≡ list_map (λ key. longest (Q.key key) (map.entries self.now)) keys.now) }
        ensures err_only_nonempty { OnErr result (keys.now ≢ []) }
    {
        let mut entries = Vec::new(self.tree.alloc());
        entries.resize(keys.len(), None)?;
        self.longest_many_into(keys, entries.as_mut_slice());
        Ok(entries)
    }

    // Looks up the longest prefix of many keys as `longest_many_into` does, without the values.
    pub(crate) fn longest_keys_into<Q: BorrowedBytes<Owned = K>>(
        &self,
        keys: &[Q],
        found: &mut [Option<Q>],
    ) -> usize
        ensures count { result ≡ min (length keys.now) (length found.old) }
        ensures keys { list_map (option_map Q.key) (take result found.new) ≡ list_map
            (λ key. option_map (λ e. e.0) (longest (Q.key key) (map.entries self.now)))
            (take result keys.now) }
        ensures behind { drop result found.new ≡ drop result found.old }
        ensures as_many { length found.new ≡ length found.old }
    {
        let n = keys.len().min(found.len());
        self.tree.longest_keys(&keys[..n], &mut found[..n]);
        n
    }

    // Returns the longest prefix of each key, without the value there.
    pub(crate) fn longest_keys<Q: BorrowedBytes<Owned = K>>(
        &self,
        keys: &[Q],
    ) -> Result<Vec<Option<Q>>, AllocError>
        ensures keys { IfOk result (λ prefixes. list_map (option_map Q.key) prefixes.items
            ≡ list_map (λ key. option_map (λ e. e.0) (longest (Q.key key) (map.entries self.now)))
            keys.now) }
        ensures err_only_nonempty { OnErr result (keys.now ≢ []) }
    {
        let mut prefixes = Vec::new(self.tree.alloc());
        prefixes.resize(keys.len(), None)?;
        self.longest_keys_into(keys, prefixes.as_mut_slice());
        Ok(prefixes)
    }
}
