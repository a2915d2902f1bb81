//! Look-ups of many elements at once.
ghost use Rattle.std.specs.Prelude.{◌≡◌, ◌≢◌, [], drop, length, map as list_map, min, take};
ghost use Rattle.std.specs.Prelude.{IfOk, OnErr};
ghost use Rattle.std.specs.Option.{option_map};
ghost use Rattle.std.specs.FinMap as map;
ghost use Rattle.patricia_tree.specs.Prefixes.{longest};

use super::GenericPatriciaSet;
use patricia_core::keys::{BorrowedBytes, Bytes};
use std::alloc::AllocError;

impl<T: Bytes> GenericPatriciaSet<T> {
    /// Looks up many elements, and writes whether each is there to its place in `found`. Looks up
    /// as many as there are places, and returns how many. Does not allocate.
    ///
    /// Up to 32 look-ups go on side by side, so that they wait for memory together.
    ///
    /// # Examples
    ///
    /// ```
    /// let set = StringPatriciaSet::from_iter(rt.alloc(), ["foo", "bar"])?;
    /// let mut found = [false; 2];
    /// assert_eq!(rt; set.contains_many_into(&["bar", "baz", "foo"], &mut found), 2);
    /// assert_eq!(rt; found.as_slice(), [true, false].as_slice());
    /// ```
    pub fn contains_many_into<Q: BorrowedBytes<Owned = T>>(
        &self,
        elements: &[Q],
        found: &mut [bool],
    ) -> usize
        ensures count { result ≡ min (length elements.now) (length found.old) }
        ensures there { take result found.new
            ≡ list_map (λ e. map.contains_key self.now (Q.key e)) (take result elements.now) }
        ensures behind { drop result found.new ≡ drop result found.old }
        ensures as_many { length found.new ≡ length found.old }
    {
        self.map.contains_many_into(elements, found)
    }

    /// Returns whether each element is there, in their order.
    ///
    /// # Errors
    ///
    /// Out of memory for the list, which is reserved before the first element is looked up; never
    /// for no elements.
    ///
    /// # Examples
    ///
    /// ```
    /// let set = StringPatriciaSet::from_iter(rt.alloc(), ["foo", "bar"])?;
    /// let found = set.contains_many(&["bar", "baz", "foo"])?;
    /// assert_eq!(rt; found.as_slice(), [true, false, true].as_slice());
    /// ```
    pub fn contains_many<Q: BorrowedBytes<Owned = T>>(
        &self,
        elements: &[Q],
    ) -> Result<Vec<bool>, AllocError>
        ensures there { IfOk result (λ found. found.items
            ≡ list_map (λ e. map.contains_key self.now (Q.key e)) elements.now) }
        ensures err_only_nonempty { OnErr result (elements.now ≢ []) }
    {
        self.map.contains_many(elements)
    }

    /// Looks up many keys, and writes the longest element that is a prefix of each to the place of
    /// its key in `found`, or `None` where there is none. Looks up as many as there are places, and
    /// returns how many; the places behind them stay as they were. Does not allocate.
    ///
    /// The elements are parts of the keys that are passed, and do not borrow the set. The look-ups
    /// go on side by side, as in
    /// [`contains_many_into`](GenericPatriciaSet::contains_many_into).
    ///
    /// # Examples
    ///
    /// ```
    /// let set = StringPatriciaSet::from_iter(rt.alloc(), ["foo", "bar"])?;
    /// let mut found = [None; 2];
    /// assert_eq!(rt; set.longest_many_into(&["foot", "fo", "bar"], &mut found), 2);
    /// assert_eq!(rt; found.as_slice(), [Some("foo"), None].as_slice());
    /// ```
    pub fn longest_many_into<Q: BorrowedBytes<Owned = T>>(
        &self,
        keys: &[Q],
        found: &mut [Option<Q>],
    ) -> usize
        ensures count { result ≡ min (length keys.now) (length found.old) }
        ensures longest { list_map (option_map Q.key) (take result found.new) ≡ list_map
            (λ key. option_map (λ e. e.0) (longest (Q.key key) (map.entries self.now)))
            (take result keys.now) }
        ensures behind { drop result found.new ≡ drop result found.old }
        ensures as_many { length found.new ≡ length found.old }
    {
        self.map.longest_keys_into(keys, found)
    }

    /// Returns the longest element that is a prefix of each key, in the order of the keys, or
    /// `None` where there is none.
    ///
    /// # Errors
    ///
    /// Out of memory for the list, which is reserved before the first key is looked up; never for
    /// no keys.
    ///
    /// # Examples
    ///
    /// ```
    /// let set = StringPatriciaSet::from_iter(rt.alloc(), ["", "foo"])?;
    /// let found = set.longest_many(&["foot", "bar"])?;
    /// assert_eq!(rt; found.as_slice(), [Some("foo"), Some("")].as_slice());
    /// ```
    pub fn longest_many<Q: BorrowedBytes<Owned = T>>(
        &self,
        keys: &[Q],
    ) -> Result<Vec<Option<Q>>, AllocError>
        ensures longest { IfOk result (λ found. list_map (option_map Q.key) found.items
            ≡ list_map (λ key. option_map (λ e. e.0) (longest (Q.key key) (map.entries self.now)))
            keys.now) }
        ensures err_only_nonempty { OnErr result (keys.now ≢ []) }
    {
        self.map.longest_keys(keys)
    }
}
