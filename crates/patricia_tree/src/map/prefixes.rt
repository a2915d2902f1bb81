//! Queries for the keys that are prefixes of a key.
ghost use Rattle.std.specs.Prelude.{◌≡◌, IfSome};
ghost use Rattle.std.specs.Option.{option_map};
ghost use Rattle.std.specs.FinMap as map;
ghost use Rattle.patricia_core.specs.Keys.{Begins};
ghost use Rattle.patricia_core.specs.Prefixes.{along, longest, IsReach};
ghost use Rattle.patricia_core.specs.Walks.{values_of};

use super::GenericPatriciaMap;
use patricia_core::keys::{BorrowedBytes, Bytes};
use patricia_core::prefixes::{CommonPrefixValues, CommonPrefixValuesOwned, CommonPrefixesIter};

impl<K: Bytes, V: Drop> GenericPatriciaMap<K, V> {
    /// Returns the entry with the longest key that is a prefix of the key, or `None` where there is
    /// none: a longest-prefix match. Does not allocate, and takes the time of `get`.
    ///
    /// The key that is returned is a part of the key that is passed, and does not borrow the map.
    ///
    /// # Examples
    ///
    /// ```
    /// let mut map = StringPatriciaMap::new(rt.alloc());
    /// map.insert("foo", 1)?;
    /// map.insert("foobar", 2)?;
    /// assert_eq!(rt; map.get_longest_common_prefix("foobaz"), Some(("foo", &1)));
    /// assert_eq!(rt;
    ///     map.get_longest_common_prefix("foobarbaz"),
    ///     Some(("foobar", &2))
    /// );
    /// assert_eq!(rt; map.get_longest_common_prefix("fo"), None);
    /// ```
    pub fn get_longest_common_prefix<Q: BorrowedBytes<Owned = K>>(&self, key: Q) -> Option<(Q, &V)>
        ensures entry { option_map (λ e. (Q.key e.0, e.1.now)) result
            ≡ longest (Q.key key) (map.entries self.now) }
        ensures part { IfSome result (λ e. Begins (Q.key e.0) (Q.key key)) }
    {
        self.tree.longest(key)
    }

    /// Returns the common length of the key and the map: how many bytes of the key, in whole items,
    /// some key of the map begins with, whatever follows them there; 0 for an empty map. Does not
    /// allocate.
    ///
    /// For texts it never ends inside a character.
    ///
    /// # Examples
    ///
    /// ```
    /// let mut map = StringPatriciaMap::new(rt.alloc());
    /// map.insert("foobar", 1)?;
    /// assert_eq!(rt; map.longest_common_prefix_len("foobaz"), 5);
    /// assert_eq!(rt; map.longest_common_prefix_len("bar"), 0);
    /// ```
    pub fn longest_common_prefix_len<Q: BorrowedBytes<Owned = K>>(&self, key: Q) -> usize
        ensures { IsReach K.item (map.keys self.now) (Q.key key) result }
    {
        self.tree.reach(key)
    }

    /// Returns the entries whose key is a prefix of the key, the shortest first, those of the empty
    /// key and of the key itself included. Neither this nor the iterator allocates.
    ///
    /// The keys that are returned are parts of the key that is passed.
    ///
    /// # Examples
    ///
    /// ```
    /// let mut map = StringPatriciaMap::new(rt.alloc());
    /// map.insert("foo", 1)?;
    /// map.insert("foobar", 2)?;
    /// let mut entries = map.common_prefixes("foobarbaz");
    /// assert_eq!(rt; entries.next(), Some(("foo", &1)));
    /// assert_eq!(rt; entries.next(), Some(("foobar", &2)));
    /// assert_eq!(rt; entries.next(), None);
    /// ```
    pub fn common_prefixes<Q: BorrowedBytes<Owned = K>>(
        &self,
        key: Q,
    ) -> CommonPrefixesIter<'_, Q, V>
        ensures { result ≡ along (Q.key key) (map.entries self.now) }
    {
        self.tree.along(key)
    }

    /// Returns the values of the entries whose key is a prefix of the key, the shortest key first.
    /// Neither this nor the iterator allocates.
    ///
    /// # Examples
    ///
    /// ```
    /// let mut map = StringPatriciaMap::new(rt.alloc());
    /// map.insert("foo", 1)?;
    /// map.insert("foobar", 2)?;
    /// let mut values = map.common_prefix_values("foobarbaz");
    /// assert_eq!(rt; values.next(), Some(&1));
    /// assert_eq!(rt; values.next(), Some(&2));
    /// assert_eq!(rt; values.next(), None);
    /// ```
    pub fn common_prefix_values<Q: BorrowedBytes<Owned = K>>(
        &self,
        key: Q,
    ) -> CommonPrefixValues<'_, Q, V>
        ensures { result ≡ values_of (along (Q.key key) (map.entries self.now)) }
    {
        CommonPrefixValues::new(self.tree.along(key))
    }

    /// Returns the values of the entries whose key is a prefix of the key, which the iterator owns.
    /// Neither this nor the iterator allocates.
    ///
    /// # Examples
    ///
    /// ```
    /// let mut map = PatriciaMap::new(rt.alloc());
    /// map.insert(b"foo".as_slice(), 1)?;
    /// let mut values = map.common_prefix_values_owned(Vec::from_slice(rt.alloc(), b"foobar")?);
    /// assert_eq!(rt; values.next(), Some(&1));
    /// assert_eq!(rt; values.next(), None);
    /// ```
    pub fn common_prefix_values_owned(&self, key: K) -> CommonPrefixValuesOwned<'_, K, V>
        ensures { result ≡ values_of (along (K.key key) (map.entries self.now)) }
    {
        self.tree.along_owned(key)
    }
}
