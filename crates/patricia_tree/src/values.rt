//! A cursor over the values of a map.
ghost use Rattle.std.specs.Prelude.{◌≡◌, ◌≢◌, ◌+◌, ◌↔◌, None, Some, false, IfOk, OnOk, OnErr};
ghost use Rattle.std.specs.Prelude.{IsSome, IsTrue, MatchOption};
ghost use Rattle.std.specs.Borrow.{sem};
ghost use Rattle.std.specs.Option.{option_copied_mut};
ghost use Rattle.patricia_model.specs.Cursors.{last_value, next_entry, next_value, stepped};
ghost use Rattle.patricia_model.specs.Cursors.{written};

use crate::guard::{CursorGuard, IntoMap};
use patricia_keys::Bytes;
use patricia_walks::value_cursor::ValueCursor;
use std::alloc::AllocError;

impl<'a, M: Drop, K: Bytes, V: Drop> CursorGuard<'a, M, ValueCursor<K, V>>
where
    ValueCursor<K, V>: IntoMap<M>,
{
    ghost use Rattle.patricia_walks.specs.contracts.value_cursor.ValueCursor.{the_row};
    ghost use Rattle.patricia_tree.specs.Left.{left};
    ghost use Rattle.patricia_tree.specs.Lends.{lends_last};
    ghost use Rattle.patricia_tree.specs.Internal.Nexts.{IsNextValue, lends_next};
    ghost use Rattle.patricia_tree.specs.Changes.{RunsAt, TakesValue};

    /// Advances to the next value and returns whether there is one. `value` lends it. No key is
    /// built.
    ///
    /// Takes time in proportion to the nodes that it passes.
    ///
    /// # Errors
    ///
    /// Out of memory: nothing is changed, and the next call tries the same value.
    ///
    /// # Examples
    ///
    /// ```
    /// let mut map = StringPatriciaMap::from_iter(rt.alloc(), [("foo", 1), ("bar", 2)])?;
    /// let mut cursor = map.values_mut();
    /// assert!(rt; cursor.advance()?);
    /// if let Some(value) = cursor.value() {
    ///     *value = 5;
    /// }
    /// drop(cursor);
    /// assert_eq!(rt; map.get("bar"), Some(&5));
    /// ```
    pub fn advance(&mut self) -> Result<bool, AllocError>
        ensures owner { self.new.owner.ghost_name ≡ self.old.owner.ghost_name }
        ensures found { IfOk result (λ found. IsTrue found ↔ (next_entry self.old.at ≢ None)) }
        ensures stepped { OnOk result (self.new.at ≡ stepped self.old.at) }
        ensures left { IfOk result (λ found.
            IsTrue found → left self.old.at ≡ left self.new.at + 1) }
        ensures none_left { IfOk result (λ found. found ≡ false → left self.old.at ≡ 0) }
        ensures unchanged { OnErr result (self.new.at ≡ self.old.at) }
        ensures err_only_if_left { OnErr result (next_entry self.old.at ≢ None) }
    {
        self.at.advance()
    }

    /// Lends the value that it advanced to last, or returns `None` before the first one.
    ///
    /// Takes constant time.
    ///
    /// # Examples
    ///
    /// ```
    /// let mut map = StringPatriciaMap::from_iter(rt.alloc(), [("foo", 1), ("bar", 2)])?;
    /// let mut cursor = map.values_mut();
    /// assert!(rt; cursor.advance()?);
    /// if let Some(value) = cursor.value() {
    ///     *value = 5;
    /// }
    /// drop(cursor);
    /// assert_eq!(rt; map.get("bar"), Some(&5));
    /// ```
    pub fn value(&mut self) -> Option<&mut V>
        ensures* writes { sem 𝓛
            (lends_last M.row (the_row K.row V.row K.Bytes) V.row written self.entry result) }
        ensures value { option_copied_mut result ≡ last_value self.old.at }
    {
        self.at.value()
    }

    // For the proof alone: `advance`, with a contract that says what value it is.
    fn go_on(&mut self) -> Result<bool, AllocError>
        ensures owner { self.new.owner.ghost_name ≡ self.old.owner.ghost_name }
        ensures some { IfOk result (λ found. IsTrue found → IsNextValue self.old.at) }
        ensures none { IfOk result (λ found. found ≡ false → next_entry self.old.at ≡ None) }
        ensures stepped { OnOk result (self.new.at ≡ stepped self.old.at) }
        ensures unchanged { OnErr result (self.new.at ≡ self.old.at) }
        ensures err_only_if_left { OnErr result (next_entry self.old.at ≢ None) }
    {
        if self.advance()? { Ok(true) } else { Ok(false) }
    }

    // Lends the value that it advanced to last.
    fn there(&mut self) -> &mut V
        requires { IsSome (last_value self.old.at) }
        ensures* writes { sem 𝓛
            (lends_next M.row (the_row K.row V.row K.Bytes) V.row written self.entry result) }
        ensures value { last_value self.old.at ≡ Some result.now }
    {
        match self.value() {
            Some(value) => value,
            None => unreachable!(),
        }
    }

    /// Advances to the next value and lends it, or returns `None` at the end.
    ///
    /// Takes time in proportion to the nodes that it passes.
    ///
    /// # Errors
    ///
    /// Out of memory: there is a next value.
    ///
    /// The contract says no more than what is read: what the map is after an error, at the end or
    /// after the loan, those of `next_with`, and of `advance` and `value`, say.
    ///
    /// # Examples
    ///
    /// ```
    /// let mut map = StringPatriciaMap::from_iter(rt.alloc(), [("foo", 1), ("bar", 2)])?;
    /// let mut cursor = map.values_mut();
    /// if let Some(value) = cursor.next()? {
    ///     *value = 5;
    /// }
    /// drop(cursor);
    /// assert_eq!(rt; map.get("bar"), Some(&5));
    /// ```
    pub fn next(&mut self) -> Result<Option<&mut V>, AllocError>
        ensures value { IfOk result (λ v. option_copied_mut v ≡ next_value self.old.at) }
        ensures err_only_if_left { OnErr result (next_entry self.old.at ≢ None) }
    {
        if self.go_on()? {
            Ok(Some(self.there()))
        } else {
            Ok(None)
        }
    }

    /// Advances to the next value and runs a closure on a loan of it. At the end it is not run.
    ///
    /// Takes time in proportion to the nodes that it passes.
    ///
    /// # Errors
    ///
    /// Out of memory: the closure is not run, nothing is changed, and the next call tries the same
    /// value.
    ///
    /// # Examples
    ///
    /// ```
    /// let mut map = StringPatriciaMap::from_iter(rt.alloc(), [("foo", 1), ("bar", 2)])?;
    /// let mut cursor = map.values_mut();
    /// assert_eq!(rt; cursor.next_with(|value| *value)?, Some(2));
    /// assert_eq!(rt; cursor.next_with(|value| *value)?, Some(1));
    /// assert_eq!(rt; cursor.next_with(|value| *value)?, None);
    /// ```
    pub fn next_with<R, F: FnOnce(&mut V) -> R>(&mut self, f: F) -> Result<Option<R>, AllocError>
        requires callable { TakesValue F.FnOnce f (next_value self.old.at) }
        ensures owner { self.new.owner.ghost_name ≡ self.old.owner.ghost_name }
        ensures ok { IfOk result (λ r. MatchOption r
            ((next_entry self.old.at ≡ None) × (self.new.at ≡ self.old.at))
            (λ r. RunsAt F.FnOnce f (next_value self.old.at) r (written (stepped self.old.at))
            self.new.at)) }
        ensures left { IfOk result (λ r. MatchOption r (left self.old.at ≡ 0)
            (λ _. left self.old.at ≡ left self.new.at + 1)) }
        ensures unchanged { OnErr result (self.new.at ≡ self.old.at) }
        ensures err_only_if_left { OnErr result (next_entry self.old.at ≢ None) }
    {
        if !self.go_on()? {
            return Ok(None);
        }
        let value = self.there();
        Ok(Some(f(value)))
    }
}
