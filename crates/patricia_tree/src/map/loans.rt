//! Loans of one value.
ghost use Rattle.std.specs.Prelude.{◌≡◌, ◌≢◌, [], None, Some, IfOk, IfSome, IsSome, MatchOption};
ghost use Rattle.std.specs.Prelude.{OnErr};
ghost use Rattle.std.specs.Borrow.{sem};
ghost use Rattle.std.specs.Option.{option_map};
ghost use Rattle.std.specs.FinMap as map;
ghost use Rattle.patricia_core.specs.Keys.{Begins};
ghost use Rattle.patricia_core.specs.Prefixes.{longest};

use super::GenericPatriciaMap;
use patricia_core::keys::{BorrowedBytes, Bytes};
use std::alloc::AllocError;

impl<K: Bytes, V: Drop> GenericPatriciaMap<K, V> {
    ghost use Rattle.patricia_tree.specs.Loans.{RunsOn, TakesLongest, lends_made};
    ghost use Rattle.patricia_tree.specs.Internal.Longest.{lends_longest, IsLongest};

    // The longest key that begins the key, as a part of it.
    fn longest_part<Q: BorrowedBytes<Owned = K>>(&self, key: Q) -> Option<Q>
        ensures { MatchOption result (longest (Q.key key) (map.entries self.now) ≡ None)
            (λ part. IsLongest self.now (Q.key key) (Q.key part)) }
    {
        match self.get_longest_common_prefix(key) {
            Some(entry) => Some(entry.0),
            None => None,
        }
    }

    // Lends the value at a key that is there.
    fn value_mut<Q: BorrowedBytes<Owned = K>>(&mut self, key: Q) -> &mut V
        requires { IsSome (map.get self.old (Q.key key)) }
        ensures* writes { sem 𝓛 (lends_longest K.row V.row K.Bytes self.entry (Q.key key) result) }
        ensures value { map.get self.old (Q.key key) ≡ Some result.now }
    {
        match self.get_mut(key) {
            Some(value) => value,
            None => unreachable!(),
        }
    }

    /// Lends the value at a key. Where there is none, the value that a closure makes is inserted
    /// first; else the closure is not run.
    ///
    /// Takes the time of an `insert` and of a look-up.
    ///
    /// # Errors
    ///
    /// Out of memory, at a new nonempty key alone: the map is unchanged, and what the closure made
    /// is dropped.
    ///
    /// # Examples
    ///
    /// ```
    /// let mut map = StringPatriciaMap::from_iter(rt.alloc(), [("foo", 1)])?;
    /// *map.get_or_insert_with("foo", || 5)? = 2;
    /// *map.get_or_insert_with("bar", || 5)? = 7;
    /// assert_eq!(rt; map.get("foo"), Some(&2));
    /// assert_eq!(rt; map.get("bar"), Some(&7));
    /// ```
    pub fn get_or_insert_with<Q: BorrowedBytes<Owned = K>, F: FnOnce() -> V>(
        &mut self,
        key: Q,
        f: F,
    ) -> Result<&mut V, AllocError>
        requires callable { map.get self.old (Q.key key) ≡ None → F.FnOnce.pre f tt }
        ensures* writes { sem 𝓛 (lends_made K.row V.row K.Bytes self.entry (Q.key key) result) }
        ensures value { IfOk result (λ v. MatchOption (map.get self.old (Q.key key))
            (F.FnOnce.post f tt v.now) (λ there. v.now ≡ there)) }
        ensures err_only_nonempty { OnErr result (Q.key key ≢ []) }
        ensures only_new { OnErr result (map.get self.old (Q.key key) ≡ None) }
        ensures ran { OnErr result ((made : V) × F.FnOnce.post f tt made) }
    {
        self.insert_with(key, f)?;
        Ok(self.value_mut(key))
    }

    /// Lends the value of the longest key that is a prefix of the key, and returns that key. Does
    /// not allocate.
    ///
    /// The contract says no more than what is read: what the map is where there is no such key, or
    /// after the loan, that of `with_longest_common_prefix_mut` says.
    ///
    /// # Examples
    ///
    /// ```
    /// let mut map = StringPatriciaMap::new(rt.alloc());
    /// map.insert("foo", 1)?;
    /// if let Some((key, value)) = map.get_longest_common_prefix_mut("foobar") {
    ///     assert_eq!(rt; key, "foo");
    ///     *value = 4;
    /// }
    /// assert_eq!(rt; map.get("foo"), Some(&4));
    /// ```
    pub fn get_longest_common_prefix_mut<Q: BorrowedBytes<Owned = K>>(
        &mut self,
        key: Q,
    ) -> Option<(Q, &mut V)>
        ensures entry { option_map (λ e. (Q.key e.0, e.1.now)) result
            ≡ longest (Q.key key) (map.entries self.old) }
        ensures part { IfSome result (λ e. Begins (Q.key e.0) (Q.key key)) }
    {
        match self.longest_part(key) {
            Some(part) => Some((part, self.value_mut(part))),
            None => None,
        }
    }

    /// Runs a closure on the longest key that is a prefix of the key and a loan of its value, and
    /// returns what it returns. Where there is none, it is not run. Does not allocate.
    ///
    /// The map keeps what the closure leaves there. The key that it is given is a part of the key
    /// that is passed.
    ///
    /// # Examples
    ///
    /// ```
    /// let mut map = StringPatriciaMap::new(rt.alloc());
    /// map.insert("foo", 1)?;
    /// let found = map.with_longest_common_prefix_mut("foobar", |_key, value| *value = 4);
    /// assert!(rt; found.is_some());
    /// assert_eq!(rt; map.get("foo"), Some(&4));
    /// ```
    pub fn with_longest_common_prefix_mut<
        Q: BorrowedBytes<Owned = K>,
        R,
        F: FnOnce(Q, &mut V) -> R,
    >(&mut self, key: Q, f: F) -> Option<R>
        requires callable { TakesLongest F.FnOnce Q.key f self.old (Q.key key) }
        ensures { MatchOption result
            ((longest (Q.key key) (map.entries self.old) ≡ None) × (self.new ≡ self.old))
            (λ r. RunsOn F.FnOnce Q.key f self.old (Q.key key) r self.new) }
    {
        match self.longest_part(key) {
            Some(part) => {
                let value = self.value_mut(part);
                Some(f(part, value))
            }
            None => None,
        }
    }
}
