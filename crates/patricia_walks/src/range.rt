//! The entries from a key on, up to another one.
ghost use Rattle.std.specs.Prelude.{◌≡◌, ◌≢◌, ◌↔◌, ◌+◌, ◌++◌, Option, [], T, length, slice_get};
ghost use Rattle.std.specs.Prelude.{drop};
ghost use Rattle.std.specs.FinMap.{is_sorted};
ghost use Rattle.std.specs.Prelude.{IsTrue, IfOk, IfSome, OnOk, OnErr};
ghost use Rattle.std.specs.Map.Iter.{TakesFirst};
ghost use Rattle.std.specs.Option.{option_copied, option_map};
ghost use Rattle.patricia_keys.specs.Keys.{IsValid, key_cmp};
ghost use Rattle.patricia_model.specs.Cursors.{advanced, before_entries};
ghost use Rattle.patricia_model.specs.Ranges.{from};
ghost use Rattle.patricia_model.specs.Siblings.{own, IsCanonical};
ghost use Rattle.patricia_nodes.specs.Internal.Plans.{IsWellFormed, siblings_of, entries_of};
ghost use Rattle.patricia_walks.specs.Internal.Bounds.{IsRangeWalk, is_past, range_left, within};

use crate::walk::{ReadCursor, Walk};
use patricia_keys::{BorrowedBytes, Bytes};
use patricia_nodes::arena::NodeArena;
use std::alloc::{AllocError, Global};
use std::cmp::Ordering;
use std::marker::Model;

// Where a walk begins: at the first entry that does not come before the key.
#[derive(Clone, Copy)]
struct RangeStart<'a, Q, V> {
    arena: &'a NodeArena<V>,
    pending: Option<&'a V>,
    key: Q,
}

// Begins the walk, where it has not begun.
fn begin<'a, Q: BorrowedBytes, V>(
    alloc: Global,
    start: Option<RangeStart<'a, Q, V>>,
    cursor: &mut ReadCursor<'a, Q::Owned, V>,
) -> Result<(), AllocError>
    requires { IsRangeWalk Q.Owned.item start cursor.old }
    ensures left { OnOk result (cursor.new.left ≡ range_left Q.key start.entry cursor.old.left) }
    ensures sorted { OnOk result (T (is_sorted key_cmp cursor.new.left)) }
    ensures ended { OnErr result (cursor.new ≡ before_entries []) }
{
    if let Some(start) = start {
        let key = start.key.as_bytes();
        let walk = Walk::starting_at(alloc, start.pending, start.arena, key)?;
        *cursor = ReadCursor::new(walk);
    }
    Ok(())
}

// Whether the cursor stands at a key that does not come before the bound.
fn has_passed<Q: BorrowedBytes, V>(cursor: &ReadCursor<'_, Q::Owned, V>, bound: Option<Q>) -> bool
    ensures { result ≡ is_past (option_map Q.key bound) cursor.now.at }
{
    match (bound, cursor.key()) {
        (Some(bound), Some(key)) => key.cmp(bound.as_bytes()) != Ordering::Less,
        _ => false,
    }
}

// Advances to the next entry before the bound.
fn step<Q: BorrowedBytes, V>(
    cursor: &mut ReadCursor<'_, Q::Owned, V>,
    bound: Option<Q>,
) -> Result<bool, AllocError>
    requires { T (is_sorted key_cmp cursor.old.left) }
    ensures sorted { T (is_sorted key_cmp cursor.new.left) }
    ensures found { IfOk result (λ found.
        IsTrue found ↔ (within (option_map Q.key bound) cursor.old.left ≢ [])) }
    ensures at { OnOk result
        (cursor.new.at ≡ slice_get (within (option_map Q.key bound) cursor.old.left) 0) }
    ensures left { OnOk result (within (option_map Q.key bound) cursor.new.left
        ≡ drop 1 (within (option_map Q.key bound) cursor.old.left)) }
    ensures ended { OnErr result (cursor.new ≡ before_entries []) }
{
    let found = cursor.advance()?;
    if has_passed::<Q, V>(cursor, bound) {
        cursor.end();
        return Ok(false);
    }
    Ok(found)
}

/// A cursor that reads the entries from a key on in key order, up to another key where one is
/// given, and lends each key and value.
#[derive(Drop)]
pub struct RangeReadCursor<'a, Q: BorrowedBytes, V> {
    alloc: Global,
    // where the walk begins, until it has begun
    start: Option<RangeStart<'a, Q, V>>,
    // the key before which it ends
    bound: Option<Q>,
    cursor: ReadCursor<'a, Q::Owned, V>,
}

impl<'a, Q: BorrowedBytes, V> Model for RangeReadCursor<'a, Q, V> {
    ghost use Rattle.std.specs.Option.{option_map};
    ghost use Rattle.patricia_model.specs.Cursors.{ReadCursorView};
    ghost use Rattle.patricia_model.specs.Internal.Codes.{read_cursor_view_code};
    ghost use Rattle.patricia_walks.specs.Internal.Bounds.{IsRangeWalk, range_left, within};

    ghost Value = { ReadCursorView V };

    ghost coded = { read_cursor_view_code V.code };

    ghost view = { λ c. record {
      at = c.cursor.at;
      left = within (option_map Q.key c.bound) (range_left Q.key c.start c.cursor.left);
    } };

    ghost invariant = { λ c. IsRangeWalk Q.Owned.item c.start c.cursor };
}

impl<'a, Q: BorrowedBytes, V> RangeReadCursor<'a, Q, V> {
    /// Makes a cursor before the first entry from a key on, up to a bound where there is one. Does
    /// not allocate.
    pub fn new(
        alloc: Global,
        pending: Option<&'a V>,
        arena: &'a NodeArena<V>,
        key: Q,
        bound: Option<Q>,
    ) -> Self
        requires whole { IsWellFormed arena.now }
        requires siblings { IsCanonical Q.Owned.item (siblings_of arena.now) }
        ensures { result ≡ before_entries (within (option_map Q.key bound)
            (from (Q.key key) (own (option_copied pending.entry) ++ entries_of arena.now))) }
    {
        RangeReadCursor {
            alloc,
            start: Some(RangeStart {
                arena,
                pending,
                key,
            }),
            bound,
            cursor: ReadCursor::new(Walk::ended(alloc, arena)),
        }
    }

    /// Advances to the next entry, and returns whether there is one. `key` and `value` lend it.
    ///
    /// The first call takes the time of a look-up besides; each call takes time in proportion to
    /// the nodes that it passes, and to the bytes of their labels.
    ///
    /// # Errors
    ///
    /// Out of memory, also where no entry is left: the cursor is at its end then.
    ///
    /// # Examples
    ///
    /// ```
    /// let map = StringPatriciaMap::from_iter(rt.alloc(), [("bar", 1), ("baz", 2), ("foo", 3)])?;
    /// let mut cursor = map.cursor_range("bas", "foo");
    /// assert!(rt; cursor.advance()?);
    /// assert_eq!(rt; (cursor.text(), cursor.value()), (Some("baz"), Some(&2)));
    /// assert_eq!(rt; cursor.key(), Some(b"baz".as_slice()));
    /// assert!(rt; !cursor.advance()?);
    /// ```
    pub fn advance(&mut self) -> Result<bool, AllocError>
        ensures found { IfOk result (λ found. IsTrue found ↔ (self.old.left ≢ [])) }
        ensures advanced { OnOk result (self.new ≡ advanced self.old) }
        ensures fewer { IfOk result (λ found.
            IsTrue found → length self.old.left ≡ length self.new.left + 1) }
        ensures ended { OnErr result (self.new ≡ before_entries []) }
    {
        if self.start.is_some() {
            begin(self.alloc, self.start.take(), &mut self.cursor)?;
        }
        step(&mut self.cursor, self.bound)
    }

    /// Returns the bytes of the key at which the cursor stands, or `None` before the first entry
    /// and behind the last one. They are those of a key of its kind.
    ///
    /// Takes constant time.
    ///
    /// # Examples
    ///
    /// ```
    /// let map = StringPatriciaMap::from_iter(rt.alloc(), [("bar", 1), ("baz", 2), ("foo", 3)])?;
    /// let mut cursor = map.cursor_range("bas", "foo");
    /// assert!(rt; cursor.advance()?);
    /// assert_eq!(rt; (cursor.text(), cursor.value()), (Some("baz"), Some(&2)));
    /// assert_eq!(rt; cursor.key(), Some(b"baz".as_slice()));
    /// assert!(rt; !cursor.advance()?);
    /// ```
    pub fn key(&self) -> Option<&[u8]>
        ensures key { option_map (λ k. k.now) result ≡ option_map (λ e. e.0) self.now.at }
        ensures valid { IfSome result (λ k. IsValid Q.Owned.item k.now) }
    {
        self.cursor.key()
    }

    /// Returns the value at which the cursor stands, or `None` before the first entry and behind
    /// the last one.
    ///
    /// Takes constant time.
    ///
    /// # Examples
    ///
    /// ```
    /// let map = StringPatriciaMap::from_iter(rt.alloc(), [("bar", 1), ("baz", 2), ("foo", 3)])?;
    /// let mut cursor = map.cursor_range("bas", "foo");
    /// assert!(rt; cursor.advance()?);
    /// assert_eq!(rt; (cursor.text(), cursor.value()), (Some("baz"), Some(&2)));
    /// assert_eq!(rt; cursor.key(), Some(b"baz".as_slice()));
    /// assert!(rt; !cursor.advance()?);
    /// ```
    pub fn value(&self) -> Option<&'a V>
        ensures { option_copied result ≡ option_map (λ e. e.1) self.now.at }
    {
        self.cursor.value()
    }
}

impl<'a, Q: BorrowedBytes, V> RangeReadCursor<'a, Q, V> {
    // Ends the cursor.
    fn end(&mut self)
        ensures { self.new ≡ before_entries [] }
    {
        self.start = None;
        self.cursor.end();
    }

    // A copy of the key at which the cursor stands, and its value.
    fn entry(&self) -> Result<Option<(Q::Owned, &'a V)>, AllocError>
        ensures { IfOk result (λ entry.
            option_map (λ e. (Q.Owned.key e.0, e.1.now)) entry ≡ self.now.at) }
    {
        match (self.key(), self.value()) {
            (Some(bytes), Some(value)) => {
                Ok(Some((Q::Owned::from_bytes(self.alloc, bytes)?, value)))
            }
            _ => Ok(None),
        }
    }

    /// The next entry, with an owned key.
    ///
    /// # Errors
    ///
    /// Out of memory, also where no entry is left: the cursor is at its end then.
    ///
    /// # Examples
    ///
    /// ```
    /// let map = StringPatriciaMap::from_iter(rt.alloc(), [("bar", 1), ("foo", 2)])?;
    /// let mut cursor = map.cursor_from("baz");
    /// if let Some((key, value)) = cursor.next_entry()? {
    ///     assert_eq!(rt; (key.as_str(), value), ("foo", &2));
    /// }
    /// assert!(rt; cursor.next_entry()?.is_none());
    /// ```
    pub fn next_entry(&mut self) -> Result<Option<(Q::Owned, &'a V)>, AllocError>
        ensures entry { IfOk result (λ entry. TakesFirst (λ e. (Q.Owned.key e.0, e.1.now))
            self.old.left entry self.new.left) }
        ensures ended { OnErr result (self.new ≡ before_entries []) }
    {
        if !self.advance()? {
            return Ok(None);
        }
        let entry = self.entry();
        if entry.is_err() {
            self.end();
        }
        entry
    }
}

impl<'a, 'q, V> RangeReadCursor<'a, &'q str, V> {
    /// Returns the text of the key at which the cursor stands, or `None` before the first entry and
    /// behind the last one.
    ///
    /// Takes time in proportion to the key, whose bytes are checked.
    ///
    /// # Examples
    ///
    /// ```
    /// let map = StringPatriciaMap::from_iter(rt.alloc(), [("bar", 1), ("baz", 2), ("foo", 3)])?;
    /// let mut cursor = map.cursor_range("bas", "foo");
    /// assert!(rt; cursor.advance()?);
    /// assert_eq!(rt; (cursor.text(), cursor.value()), (Some("baz"), Some(&2)));
    /// assert_eq!(rt; cursor.key(), Some(b"baz".as_slice()));
    /// assert!(rt; !cursor.advance()?);
    /// ```
    pub fn text(&self) -> Option<&str>
        ensures { option_map (λ k. k.now) result ≡ option_map (λ e. e.0) self.now.at }
    {
        self.cursor.text()
    }
}
