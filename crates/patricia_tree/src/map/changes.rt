//! Values changed in place, and entries counted and removed by their prefix.
ghost use Rattle.std.specs.Prelude.{◌≡◌, ◌≢◌, [], None, true, false, not, MatchOption};
ghost use Rattle.std.specs.Prelude.{◌+◌, ◌<◌, length, Any, IfOk, OnOk, OnErr};
ghost use Rattle.std.specs.FinMap as map;
ghost use Rattle.patricia_core.specs.Prefixes.{outside, under};

use super::GenericPatriciaMap;
use patricia_core::keys::{BorrowedBytes, Bytes};
use std::alloc::AllocError;

impl<K: Bytes, V: Drop> GenericPatriciaMap<K, V> {
    ghost use Rattle.patricia_tree.specs.Changes.{TakesValue, RunsAt, PutsMade};

    /// Returns the number of entries whose key begins with the prefix, in time in proportion to
    /// them and to a look-up, and for the empty prefix at once.
    ///
    /// # Errors
    ///
    /// Out of memory for the path of the walk, only where some such key has more than 64 bytes
    /// behind the prefix. Where none has, nothing is allocated.
    ///
    /// # Examples
    ///
    /// ```
    /// let map = StringPatriciaMap::from_iter(rt.alloc(), [("bar", 1), ("baz", 2), ("foo", 3)])?;
    /// assert_eq!(rt; map.count_prefix("ba")?, 2);
    /// ```
    pub fn count_prefix<Q: BorrowedBytes<Owned = K>>(&self, prefix: Q) -> Result<usize, AllocError>
        ensures count { IfOk result (λ n.
            n ≡ length (under (Q.key prefix) (map.entries self.now))) }
        ensures err_only_if_matched { OnErr result
            (under (Q.key prefix) (map.entries self.now) ≢ []) }
        ensures err_only_long { OnErr result (Any (λ e. length (Q.key prefix) + 64 < length e.0)
            (under (Q.key prefix) (map.entries self.now))) }
    {
        if let Some(counted) = self.tree.count_under(prefix) {
            return Ok(counted);
        }
        let mut cursor = self.cursor_prefix(prefix);
        let mut count = 0;
        // the bound is for the proof alone: there are no more entries than that
        for _ in 0..self.len() {
            if !cursor.advance()? {
                break;
            }
            count += 1;
        }
        Ok(count)
    }

    /// Removes the entries whose key begins with the prefix, and returns how many they were.
    ///
    /// Takes a look-up, and time in proportion to the entries that are removed.
    ///
    /// # Errors
    ///
    /// Out of memory: the map is unchanged. Never for the empty prefix, nor where no key begins
    /// with the prefix.
    ///
    /// # Examples
    ///
    /// ```
    /// let mut map = StringPatriciaMap::from_iter(rt.alloc(), [("bar", 1), ("baz", 2)])?;
    /// assert_eq!(rt; map.remove_prefix("ba")?, 2);
    /// assert!(rt; map.is_empty());
    /// ```
    pub fn remove_prefix<Q: BorrowedBytes<Owned = K>>(
        &mut self,
        prefix: Q,
    ) -> Result<usize, AllocError>
        ensures count { IfOk result (λ n.
            n ≡ length (under (Q.key prefix) (map.entries self.old))) }
        ensures left { OnOk result (
            map.entries self.new ≡ outside (Q.key prefix) (map.entries self.old)) }
        ensures unchanged { OnErr result (self.new ≡ self.old) }
        ensures err_only_nonempty { OnErr result (Q.key prefix ≢ []) }
        ensures err_only_if_matched { OnErr result
            (under (Q.key prefix) (map.entries self.old) ≢ []) }
    {
        let removed = self.split_by_prefix(prefix)?;
        Ok(removed.len())
    }

    /// Runs a closure on a loan of the value at a key, and returns what it returns. Where there is
    /// no such key, it is not run. Does not allocate.
    ///
    /// The map keeps what the closure leaves there.
    ///
    /// # Examples
    ///
    /// ```
    /// let mut map = StringPatriciaMap::from_iter(rt.alloc(), [("foo", 1)])?;
    /// assert!(rt; map.update("foo", |value| *value = 5).is_some());
    /// assert!(rt; map.update("bar", |value| *value = 5).is_none());
    /// assert_eq!(rt; map.get("foo"), Some(&5));
    /// ```
    pub fn update<Q: BorrowedBytes<Owned = K>, R, F: FnOnce(&mut V) -> R>(
        &mut self,
        key: Q,
        f: F,
    ) -> Option<R>
        requires callable { TakesValue F.FnOnce f (map.get self.old (Q.key key)) }
        ensures { MatchOption result
            ((map.get self.old (Q.key key) ≡ None) × (self.new ≡ self.old))
            (λ r. RunsAt F.FnOnce f (map.get self.old (Q.key key)) r
            (map.insert self.old (Q.key key)) self.new) }
    {
        match self.get_mut(key) {
            Some(value) => Some(f(value)),
            None => None,
        }
    }

    /// Inserts the value that a closure makes, where there is none at the key, and returns whether
    /// it did. Else the closure is not run, and the map is unchanged.
    ///
    /// Takes the time of an `insert`.
    ///
    /// # Errors
    ///
    /// Out of memory, at a new nonempty key alone: the map is unchanged, and what the closure made
    /// is dropped.
    ///
    /// # Examples
    ///
    /// ```
    /// let mut map = StringPatriciaMap::from_iter(rt.alloc(), [("foo", 1)])?;
    /// assert!(rt; !map.insert_with("foo", || 5)?);
    /// assert!(rt; map.insert_with("bar", || 5)?);
    /// assert_eq!(rt; map.get("bar"), Some(&5));
    /// ```
    pub fn insert_with<Q: BorrowedBytes<Owned = K>, F: FnOnce() -> V>(
        &mut self,
        key: Q,
        f: F,
    ) -> Result<bool, AllocError>
        requires callable { map.get self.old (Q.key key) ≡ None → F.FnOnce.pre f tt }
        ensures is_new { IfOk result (λ b. b ≡ not (map.contains_key self.old (Q.key key))) }
        ensures made { IfOk result (λ b. b ≡ true
            → PutsMade F.FnOnce.post f self.old (Q.key key) self.new) }
        ensures kept { IfOk result (λ b. b ≡ false → self.new ≡ self.old) }
        ensures unchanged { OnErr result (self.new ≡ self.old) }
        ensures err_only_nonempty { OnErr result (Q.key key ≢ []) }
        ensures only_new { OnErr result (map.get self.old (Q.key key) ≡ None) }
        ensures ran { OnErr result ((made : V) × F.FnOnce.post f tt made) }
    {
        if self.contains_key(key) {
            return Ok(false);
        }
        match self.insert(key, f()) {
            Ok(_) => Ok(true),
            Err(_) => Err(AllocError),
        }
    }
}
