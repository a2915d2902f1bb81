//! A cursor that lends the entries under a prefix, and copies no key.
ghost use Rattle.std.specs.Prelude.{◌≡◌, ◌≢◌, ◌↔◌, ◌+◌, [], length, IfOk, IfSome, OnOk, OnErr};
ghost use Rattle.std.specs.Prelude.{IsTrue};
ghost use Rattle.std.specs.Option.{option_copied, option_map};
ghost use Rattle.patricia_keys.specs.Keys.{IsValid};
ghost use Rattle.patricia_model.specs.Cursors.{advanced, before_entries};

use super::{Under, UnderStart};
use crate::walk::{ReadCursor, Walk};
use patricia_keys::BorrowedBytes;
use std::alloc::{AllocError, Global};
use std::marker::Model;

/// A cursor that reads the entries whose key begins with a prefix in key order, and lends each key
/// and value.
#[derive(Drop)]
pub struct PrefixReadCursor<'a, Q: BorrowedBytes, V> {
    alloc: Global,
    // where the walk begins, until it has begun
    start: Option<UnderStart<'a, Q, V>>,
    cursor: ReadCursor<'a, Q::Owned, V>,
}

impl<'a, Q: BorrowedBytes, V> Model for PrefixReadCursor<'a, Q, V> {
    ghost use Rattle.patricia_model.specs.Cursors.{ReadCursorView};
    ghost use Rattle.patricia_model.specs.Internal.Codes.{read_cursor_view_code};
    ghost use Rattle.patricia_walks.specs.Internal.Starts.{IsUnderWalk, entries_to_lend};

    ghost Value = { ReadCursorView V };

    ghost coded = { read_cursor_view_code V.code };

    ghost view = { λ c. record {
      at = c.cursor.at;
      left = entries_to_lend Q.key c.start c.cursor.left;
    } };

    ghost invariant = { λ c. IsUnderWalk Q.Owned.item Q.key c.start c.cursor.left };
}

impl<'a, Q: BorrowedBytes, V> PrefixReadCursor<'a, Q, V> {
    /// Makes a cursor before the first entry of a walk. Does not allocate.
    pub fn new(under: Under<'a, Q, V>) -> Self
        ensures { result ≡ before_entries under.entry }
    {
        let Under { alloc, start, walk } = under;
        PrefixReadCursor {
            alloc,
            start,
            cursor: ReadCursor::new(walk),
        }
    }

    /// Advances to the next entry, and returns whether there is one. `key` and `value` lend it.
    ///
    /// Takes time in proportion to the nodes that it passes, and to the bytes of their labels.
    ///
    /// # Errors
    ///
    /// Out of memory, only where an entry is left: the cursor is at its end then.
    ///
    /// # Examples
    ///
    /// ```
    /// let map = StringPatriciaMap::from_iter(rt.alloc(), [("foo", 1), ("bar", 2), ("baz", 3)])?;
    /// let mut cursor = map.cursor_prefix("ba");
    /// assert!(rt; cursor.advance()?);
    /// assert_eq!(rt; (cursor.text(), cursor.value()), (Some("bar"), Some(&2)));
    /// assert!(rt; cursor.advance()?);
    /// assert_eq!(rt; cursor.key(), Some(b"baz".as_slice()));
    /// assert!(rt; !cursor.advance()?);
    /// ```
    pub fn advance(&mut self) -> Result<bool, AllocError>
        ensures found { IfOk result (λ found. IsTrue found ↔ (self.old.left ≢ [])) }
        ensures advanced { OnOk result (self.new ≡ advanced self.old) }
        ensures fewer { IfOk result (λ found.
            IsTrue found → length self.old.left ≡ length self.new.left + 1) }
        ensures ended { OnErr result (self.new ≡ before_entries []) }
        ensures err_only_if_left { OnErr result (self.old.left ≢ []) }
    {
        if let Some(start) = self.start.take() {
            let front = &start.prefix.as_bytes()[..start.front];
            match Walk::below(self.alloc, start.arena, front, start.top) {
                Ok(walk) => self.cursor = ReadCursor::new(walk),
                Err(error) => {
                    self.cursor = ReadCursor::new(Walk::ended(self.alloc, start.arena));
                    return Err(error);
                }
            }
        }
        self.cursor.advance()
    }

    /// Returns the bytes of the key at which the cursor stands, or `None` before the first entry
    /// and behind the last one. They are those of a key of its kind.
    ///
    /// Takes constant time.
    ///
    /// # Examples
    ///
    /// ```
    /// let map = StringPatriciaMap::from_iter(rt.alloc(), [("foo", 1), ("bar", 2), ("baz", 3)])?;
    /// let mut cursor = map.cursor_prefix("ba");
    /// assert!(rt; cursor.advance()?);
    /// assert_eq!(rt; (cursor.text(), cursor.value()), (Some("bar"), Some(&2)));
    /// assert!(rt; cursor.advance()?);
    /// assert_eq!(rt; cursor.key(), Some(b"baz".as_slice()));
    /// assert!(rt; !cursor.advance()?);
    /// ```
    pub fn key(&self) -> Option<&[u8]>
        ensures key { option_map (λ k. k.now) result ≡ option_map (λ e. e.0) self.now.at }
        ensures valid { IfSome result (λ k. IsValid Q.Owned.item k.now) }
    {
        self.cursor.key()
    }

    /// Returns the value at which the cursor stands, or `None` before the first entry and behind
    /// the last one.
    ///
    /// Takes constant time.
    ///
    /// # Examples
    ///
    /// ```
    /// let map = StringPatriciaMap::from_iter(rt.alloc(), [("foo", 1), ("bar", 2), ("baz", 3)])?;
    /// let mut cursor = map.cursor_prefix("ba");
    /// assert!(rt; cursor.advance()?);
    /// assert_eq!(rt; (cursor.text(), cursor.value()), (Some("bar"), Some(&2)));
    /// assert!(rt; cursor.advance()?);
    /// assert_eq!(rt; cursor.key(), Some(b"baz".as_slice()));
    /// assert!(rt; !cursor.advance()?);
    /// ```
    pub fn value(&self) -> Option<&'a V>
        ensures { option_copied result ≡ option_map (λ e. e.1) self.now.at }
    {
        self.cursor.value()
    }
}

impl<'a, 'q, V> PrefixReadCursor<'a, &'q str, V> {
    /// Returns the text of the key at which the cursor stands, or `None` before the first entry and
    /// behind the last one.
    ///
    /// Takes time in proportion to the key, whose bytes are checked.
    ///
    /// # Examples
    ///
    /// ```
    /// let map = StringPatriciaMap::from_iter(rt.alloc(), [("foo", 1), ("bar", 2), ("baz", 3)])?;
    /// let mut cursor = map.cursor_prefix("ba");
    /// assert!(rt; cursor.advance()?);
    /// assert_eq!(rt; (cursor.text(), cursor.value()), (Some("bar"), Some(&2)));
    /// assert!(rt; cursor.advance()?);
    /// assert_eq!(rt; cursor.key(), Some(b"baz".as_slice()));
    /// assert!(rt; !cursor.advance()?);
    /// ```
    pub fn text(&self) -> Option<&str>
        ensures { option_map (λ k. k.now) result ≡ option_map (λ e. e.0) self.now.at }
    {
        self.cursor.text()
    }
}
