//! A cursor over the entries under a prefix.
ghost use Rattle.std.specs.Prelude.{◌≡◌, ◌≢◌, ◌+◌, None, Some, IfOk, OnOk, OnErr, IsSome};
ghost use Rattle.std.specs.Prelude.{MatchOption};
ghost use Rattle.std.specs.Borrow.{sem};
ghost use Rattle.std.specs.Option.{option_copied_mut, option_map};
ghost use Rattle.patricia_model.specs.Cursors.{last_value, next_key, next_entry, stepped, written};

use crate::guard::{CursorGuard, IntoMap};
use patricia_keys::{BorrowedBytes, Bytes};
use patricia_walks::cursor::PrefixCursor;
use std::alloc::AllocError;

impl<'a, M: Drop, K: Bytes, Q: BorrowedBytes<Owned = K>, V: Drop> CursorGuard<
    'a,
    M,
    PrefixCursor<Q, V>,
>
where
    PrefixCursor<Q, V>: IntoMap<M>,
{
    ghost use Rattle.patricia_walks.specs.contracts.cursor.PrefixCursor.{the_row};
    ghost use Rattle.patricia_tree.specs.Left.{left};
    ghost use Rattle.patricia_tree.specs.Lends.{lends_last};
    ghost use Rattle.patricia_tree.specs.Internal.Nexts.{IsNext, lends_next};
    ghost use Rattle.patricia_tree.specs.Steps.{StepsWith, TakesNext};

    /// Advances to the next entry and returns its key, or `None` at the end. `value` lends its
    /// value.
    ///
    /// Takes time in proportion to the nodes that it passes, and to the key that it copies.
    ///
    /// # Errors
    ///
    /// Out of memory: nothing is changed, and the next call tries the same entry.
    ///
    /// # Examples
    ///
    /// ```
    /// // Sets the first value under a prefix.
    /// fn set_first<Q: BorrowedBytes>(
    ///     map: &mut GenericPatriciaMap<Q::Owned, u32>,
    ///     prefix: Q,
    ///     new: u32,
    /// ) -> Result<(), AllocError> {
    ///     let mut cursor = map.iter_prefix_mut(prefix);
    ///     cursor.advance()?;
    ///     if let Some(value) = cursor.value() {
    ///         *value = new;
    ///     }
    ///     Ok(())
    /// }
    /// ```
    pub fn advance(&mut self) -> Result<Option<K>, AllocError>
        ensures owner { self.new.owner.ghost_name ≡ self.old.owner.ghost_name }
        ensures key { IfOk result (λ key. option_map K.key key ≡ next_key self.old.at) }
        ensures stepped { OnOk result (self.new.at ≡ stepped self.old.at) }
        ensures left { IfOk result (λ key. MatchOption key (left self.old.at ≡ 0)
            (λ _. left self.old.at ≡ left self.new.at + 1)) }
        ensures unchanged { OnErr result (self.new.at ≡ self.old.at) }
        ensures err_only_if_left { OnErr result (next_entry self.old.at ≢ None) }
    {
        self.at.advance()
    }

    /// Lends the value of the entry that it advanced to last, or returns `None` before the first
    /// one.
    ///
    /// Takes constant time.
    ///
    /// # Examples
    ///
    /// ```
    /// // Sets the first value under a prefix.
    /// fn set_first<Q: BorrowedBytes>(
    ///     map: &mut GenericPatriciaMap<Q::Owned, u32>,
    ///     prefix: Q,
    ///     new: u32,
    /// ) -> Result<(), AllocError> {
    ///     let mut cursor = map.iter_prefix_mut(prefix);
    ///     cursor.advance()?;
    ///     if let Some(value) = cursor.value() {
    ///         *value = new;
    ///     }
    ///     Ok(())
    /// }
    /// ```
    pub fn value(&mut self) -> Option<&mut V>
        ensures* writes { sem 𝓛
            (lends_last M.row (the_row Q.row V.row K.row Q.BorrowedBytes K.Bytes)
            V.row written self.entry result) }
        ensures value { option_copied_mut result ≡ last_value self.old.at }
    {
        self.at.value()
    }

    // For the proof alone: `advance`, with a contract that says what entry it is.
    fn go_on(&mut self) -> Result<Option<K>, AllocError>
        ensures owner { self.new.owner.ghost_name ≡ self.old.owner.ghost_name }
        ensures ok { IfOk result (λ key. MatchOption key
            ((next_entry self.old.at ≡ None) × (self.new.at ≡ self.old.at))
            (λ key. IsNext self.old.at (K.key key) × (self.new.at ≡ stepped self.old.at))) }
        ensures unchanged { OnErr result (self.new.at ≡ self.old.at) }
        ensures err_only_if_left { OnErr result (next_entry self.old.at ≢ None) }
    {
        match self.advance()? {
            Some(key) => Ok(Some(key)),
            None => Ok(None),
        }
    }

    // Lends the value of the entry that it advanced to last.
    fn there(&mut self) -> &mut V
        requires { IsSome (last_value self.old.at) }
        ensures* writes { sem 𝓛
            (lends_next M.row (the_row Q.row V.row K.row Q.BorrowedBytes K.Bytes)
            V.row written self.entry result) }
        ensures value { last_value self.old.at ≡ Some result.now }
    {
        match self.value() {
            Some(value) => value,
            None => unreachable!(),
        }
    }

    /// Advances to the next entry and returns its key, owned, beside a loan of its value, or `None`
    /// at the end.
    ///
    /// Takes time in proportion to the nodes that it passes, and to the key that it copies.
    ///
    /// # Errors
    ///
    /// Out of memory: there is a next entry.
    ///
    /// The contract says no more than what is read: what the map is after an error, at the end or
    /// after the loan, those of `next_with`, and of `advance` and `value`, say.
    ///
    /// # Examples
    ///
    /// ```
    /// // Adds up the first two values under a prefix, the second where it is read by a closure.
    /// fn sum_of_two<Q: BorrowedBytes>(
    ///     map: &mut GenericPatriciaMap<Q::Owned, u32>,
    ///     prefix: Q,
    /// ) -> Result<u32, AllocError> {
    ///     let mut cursor = map.iter_prefix_mut(prefix);
    ///     let first = match cursor.next()? {
    ///         Some((_key, value)) => *value,
    ///         None => 0,
    ///     };
    ///     let second = cursor.next_with(|_key, value| *value)?;
    ///     Ok(first.wrapping_add(second.unwrap_or(0)))
    /// }
    /// ```
    pub fn next(&mut self) -> Result<Option<(K, &mut V)>, AllocError>
        ensures entry { IfOk result (λ e.
            option_map (λ e. (K.key e.0, e.1.now)) e ≡ next_entry self.old.at) }
        ensures err_only_if_left { OnErr result (next_entry self.old.at ≢ None) }
    {
        match self.go_on()? {
            Some(key) => Ok(Some((key, self.there()))),
            None => Ok(None),
        }
    }

    /// Advances to the next entry and runs a closure on its key, owned, and a loan of its value. At
    /// the end it is not run.
    ///
    /// Takes time in proportion to the nodes that it passes, and to the key that it copies.
    ///
    /// # Errors
    ///
    /// Out of memory: the closure is not run, nothing is changed, and the next call tries the same
    /// entry.
    ///
    /// # Examples
    ///
    /// ```
    /// // Adds up the first two values under a prefix, the second where it is read by a closure.
    /// fn sum_of_two<Q: BorrowedBytes>(
    ///     map: &mut GenericPatriciaMap<Q::Owned, u32>,
    ///     prefix: Q,
    /// ) -> Result<u32, AllocError> {
    ///     let mut cursor = map.iter_prefix_mut(prefix);
    ///     let first = match cursor.next()? {
    ///         Some((_key, value)) => *value,
    ///         None => 0,
    ///     };
    ///     let second = cursor.next_with(|_key, value| *value)?;
    ///     Ok(first.wrapping_add(second.unwrap_or(0)))
    /// }
    /// ```
    pub fn next_with<R, F: FnOnce(K, &mut V) -> R>(&mut self, f: F) -> Result<Option<R>, AllocError>
        requires callable { TakesNext F.FnOnce K.key f self.old.at }
        ensures owner { self.new.owner.ghost_name ≡ self.old.owner.ghost_name }
        ensures ok { IfOk result (λ r. MatchOption r
            ((next_entry self.old.at ≡ None) × (self.new.at ≡ self.old.at))
            (λ r. StepsWith F.FnOnce K.key f self.old.at r self.new.at)) }
        ensures left { IfOk result (λ r. MatchOption r (left self.old.at ≡ 0)
            (λ _. left self.old.at ≡ left self.new.at + 1)) }
        ensures unchanged { OnErr result (self.new.at ≡ self.old.at) }
        ensures err_only_if_left { OnErr result (next_entry self.old.at ≢ None) }
    {
        let Some(key) = self.go_on()? else {
            return Ok(None);
        };
        let value = self.there();
        Ok(Some(f(key, value)))
    }
}
