//! The first and the last element, and those next to a key.
ghost use Rattle.std.specs.Prelude.{◌≡◌, ◌≢◌, [], Some, None, IfOk, OnErr, slice_get};
ghost use Rattle.std.specs.List.{last_or};
ghost use Rattle.std.specs.Map.Iter.{TakesFirst, TakesLast};
ghost use Rattle.std.specs.Option.{option_map};
ghost use Rattle.std.specs.FinMap as map;
ghost use Rattle.patricia_tree.specs.Cursors.{after};
ghost use Rattle.patricia_tree.specs.Ranges.{before};

use super::GenericPatriciaSet;
use patricia_core::keys::{BorrowedBytes, Bytes};
use std::alloc::AllocError;

impl<T: Bytes> GenericPatriciaSet<T> {
    /// Returns the first element in order, owned, or `None` where there is none.
    ///
    /// Takes time in proportion to the nodes on the way, and to the bytes of the element.
    ///
    /// # Errors
    ///
    /// Out of memory for the element, never for an empty set.
    ///
    /// # Examples
    ///
    /// ```
    /// let set = StringPatriciaSet::from_iter(rt.alloc(), ["foo", "bar"])?;
    /// assert_eq!(rt; set.first()?.as_deref(), Some("bar"));
    /// ```
    pub fn first(&self) -> Result<Option<T>, AllocError>
        ensures first { IfOk result (λ element. option_map T.key element
            ≡ option_map (λ e. e.0) (slice_get (map.entries self.now) 0)) }
        ensures err_only_nonempty { OnErr result (map.entries self.now ≢ []) }
    {
        match self.map.first_key_value()? {
            Some((first, _)) => Ok(Some(first)),
            None => Ok(None),
        }
    }

    /// Returns the first element that comes after a key, owned, or `None` where there is none. The
    /// key that is passed need not be there.
    ///
    /// Takes the time of a look-up, and time in proportion to the nodes from there to the element.
    ///
    /// # Errors
    ///
    /// Out of memory for the way to it and for the element, never for an empty set. The way goes
    /// along the key, so an error may come where no element is behind it, too.
    ///
    /// # Examples
    ///
    /// ```
    /// let set = StringPatriciaSet::from_iter(rt.alloc(), ["foo", "bar"])?;
    /// assert_eq!(rt; set.first_after("bar")?.as_deref(), Some("foo"));
    /// assert!(rt; set.first_after("foo")?.is_none());
    /// ```
    pub fn first_after<Q: BorrowedBytes<Owned = T>>(&self, key: Q) -> Result<Option<T>, AllocError>
        ensures first { IfOk result (λ element. option_map T.key element ≡ option_map (λ e. e.0)
            (slice_get (after (Some (Q.key key)) (map.entries self.now)) 0)) }
        ensures err_only_nonempty { OnErr result (map.entries self.now ≢ []) }
    {
        match self.map.first_after(key)? {
            Some((next, _)) => Ok(Some(next)),
            None => Ok(None),
        }
    }

    /// Returns the last element in order, owned, or `None` where there is none.
    ///
    /// Takes time in proportion to the nodes on the way, siblings among them, and to the bytes of
    /// the element.
    ///
    /// # Errors
    ///
    /// Out of memory for the element, never for an empty set.
    ///
    /// # Examples
    ///
    /// ```
    /// let set = StringPatriciaSet::from_iter(rt.alloc(), ["foo", "bar"])?;
    /// assert_eq!(rt; set.last()?.as_deref(), Some("foo"));
    /// ```
    pub fn last(&self) -> Result<Option<T>, AllocError>
        ensures last { IfOk result (λ element. option_map T.key element
            ≡ option_map (λ e. e.0) (last_or None (map.entries self.now))) }
        ensures err_only_nonempty { OnErr result (map.entries self.now ≢ []) }
    {
        match self.map.last_key_value()? {
            Some((last, _)) => Ok(Some(last)),
            None => Ok(None),
        }
    }

    /// Returns the last element that comes before a key, owned, or `None` where there is none. The
    /// key that is passed need not be there.
    ///
    /// Takes the time of a look-up, and of one descent from there to the element.
    ///
    /// # Errors
    ///
    /// Out of memory for the element, never where there is none.
    ///
    /// # Examples
    ///
    /// ```
    /// let set = StringPatriciaSet::from_iter(rt.alloc(), ["foo", "bar"])?;
    /// assert_eq!(rt; set.last_before("foo")?.as_deref(), Some("bar"));
    /// assert!(rt; set.last_before("bar")?.is_none());
    /// ```
    pub fn last_before<Q: BorrowedBytes<Owned = T>>(&self, key: Q) -> Result<Option<T>, AllocError>
        ensures last { IfOk result (λ element. option_map T.key element ≡ option_map (λ e. e.0)
            (last_or None (before (Q.key key) (map.entries self.now)))) }
        ensures err_only_before { OnErr result (before (Q.key key) (map.entries self.now) ≢ []) }
    {
        match self.map.last_before(key)? {
            Some((last, _)) => Ok(Some(last)),
            None => Ok(None),
        }
    }

    /// Removes the first element in order, and returns it, or `None` where there is none.
    ///
    /// Takes the time of the map's `pop_first`.
    ///
    /// # Errors
    ///
    /// Out of memory for the element, or for a joined label: the set is unchanged. Never for an
    /// empty set.
    ///
    /// # Examples
    ///
    /// ```
    /// let mut set = StringPatriciaSet::from_iter(rt.alloc(), ["foo", "bar"])?;
    /// assert_eq!(rt; set.pop_first()?.as_deref(), Some("bar"));
    /// assert_eq!(rt; set.len(), 1);
    /// ```
    pub fn pop_first(&mut self) -> Result<Option<T>, AllocError>
        ensures taken { IfOk result (λ element.
            TakesFirst T.key (map.keys self.old) element (map.keys self.new)) }
        ensures unchanged { OnErr result (self.new ≡ self.old) }
        ensures err_only_nonempty { OnErr result (map.entries self.old ≢ []) }
    {
        match self.map.pop_first()? {
            Some((first, _)) => Ok(Some(first)),
            None => Ok(None),
        }
    }

    /// Removes the last element in order, and returns it, or `None` where there is none.
    ///
    /// Takes the time of the map's `pop_last`.
    ///
    /// # Errors
    ///
    /// Out of memory for the element, or for a joined label: the set is unchanged. Never for an
    /// empty set.
    ///
    /// # Examples
    ///
    /// ```
    /// let mut set = StringPatriciaSet::from_iter(rt.alloc(), ["foo", "bar"])?;
    /// assert_eq!(rt; set.pop_last()?.as_deref(), Some("foo"));
    /// assert_eq!(rt; set.len(), 1);
    /// ```
    pub fn pop_last(&mut self) -> Result<Option<T>, AllocError>
        ensures taken { IfOk result (λ element.
            TakesLast T.key (map.keys self.old) element (map.keys self.new)) }
        ensures unchanged { OnErr result (self.new ≡ self.old) }
        ensures err_only_nonempty { OnErr result (map.entries self.old ≢ []) }
    {
        match self.map.pop_last()? {
            Some((last, _)) => Ok(Some(last)),
            None => Ok(None),
        }
    }
}
