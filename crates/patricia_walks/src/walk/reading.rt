//! A cursor that lends the entries of a walk, and copies no key.
ghost use Rattle.std.specs.Prelude.{◌≡◌, ◌≢◌, ◌↔◌, ℕ, ◌+◌, List, [], ◌++◌, length, take, IsTrue};
ghost use Rattle.std.specs.Prelude.{IfOk, IfSome, OnOk, OnErr};
ghost use Rattle.std.specs.Option.{option_copied, option_map};
ghost use Rattle.patricia_keys.specs.Keys.{IsFloor, IsValid};
ghost use Rattle.patricia_model.specs.Cursors.{advanced, before_entries};
ghost use Rattle.patricia_model.specs.Prefixes.{outside, under};

use super::{Traversal, Walk};
use patricia_keys::Bytes;
use patricia_keys::keys::text_of;
use std::alloc::AllocError;
use std::marker::{Model, PhantomData};

/// A cursor that reads the entries of a map in key order, and lends each key and value.
#[derive(Drop)]
pub struct ReadCursor<'a, K: Bytes, V> {
    place: Traversal<'a, V>,
    // the value at the path, where the cursor stands at an entry
    value: Option<&'a V>,
    kind: PhantomData<K>,
}

impl<'a, K: Bytes, V> Model for ReadCursor<'a, K, V> {
    ghost use Rattle.std.specs.Option.{option_map};
    ghost use Rattle.patricia_model.specs.Cursors.{ReadCursorView};
    ghost use Rattle.patricia_model.specs.Internal.Codes.{read_cursor_view_code};
    ghost use Rattle.patricia_model.specs.Internal.WalkStates.{entries_left};
    ghost use Rattle.patricia_walks.specs.Internal.Fronts.{lent, state_at, IsFrontPosition};

    ghost Value = { ReadCursorView V };

    ghost coded = { read_cursor_view_code V.code };

    ghost view = { λ c. record {
      at = option_map (λ v. (c.place.progress.path.items, v.now)) c.value;
      left = entries_left (state_at (lent c.place));
    } };

    ghost invariant = { λ c. IsFrontPosition K.item (lent c.place) };
}

impl<'a, K: Bytes, V> ReadCursor<'a, K, V> {
    /// Makes a cursor before the first entry of a walk. Does not allocate.
    pub fn new(walk: Walk<'a, K, V>) -> Self
        ensures { result ≡ before_entries walk.entry }
    {
        let Walk { place, .. } = walk;
        ReadCursor {
            place,
            value: None,
            kind: PhantomData,
        }
    }

    /// Advances to the next entry, and returns whether there is one. `key` and `value` lend it.
    ///
    /// Takes time in proportion to the nodes that it passes, and to the bytes of their labels.
    ///
    /// # Errors
    ///
    /// Out of memory, only where an entry is left: the cursor is at its end then.
    ///
    /// # Examples
    ///
    /// ```
    /// let map = StringPatriciaMap::from_iter(rt.alloc(), [("foo", 1), ("bar", 2)])?;
    /// let mut cursor = map.cursor();
    /// assert_eq!(rt; cursor.text(), None);
    /// assert!(rt; cursor.advance()?);
    /// assert_eq!(rt; (cursor.text(), cursor.value()), (Some("bar"), Some(&2)));
    /// assert!(rt; cursor.advance()?);
    /// assert_eq!(rt; cursor.key(), Some(b"foo".as_slice()));
    /// assert!(rt; !cursor.advance()?);
    /// ```
    pub fn advance(&mut self) -> Result<bool, AllocError>
        ensures found { IfOk result (λ found. IsTrue found ↔ (self.old.left ≢ [])) }
        ensures advanced { OnOk result (self.new ≡ advanced self.old) }
        ensures fewer { IfOk result (λ found.
            IsTrue found → length self.old.left ≡ length self.new.left + 1) }
        ensures ended { OnErr result (self.new ≡ before_entries []) }
        ensures err_only_if_left { OnErr result (self.old.left ≢ []) }
    {
        match self.place.seek::<K>() {
            Ok(value) => {
                self.value = value;
                Ok(value.is_some())
            }
            Err(error) => {
                self.value = None;
                self.place.finish::<K>();
                Err(error)
            }
        }
    }

    /// Passes the entries that are left and whose key begins with the first `len` bytes of the key
    /// at which the cursor stands, or with as many of these as are whole items. The cursor still
    /// stands at that key; where it stands at none, nothing is passed. Does not allocate.
    ///
    /// Takes time in proportion to the key and to the nodes on its path, however many entries are
    /// passed.
    ///
    /// # Examples
    ///
    /// ```
    /// let map = StringPatriciaMap::from_iter(rt.alloc(), [("a/b", 1), ("a/c", 2), ("d", 3)])?;
    /// let mut cursor = map.cursor();
    /// assert!(rt; cursor.advance()?);
    /// cursor.skip(2);
    /// assert!(rt; cursor.advance()?);
    /// assert_eq!(rt; cursor.text(), Some("d"));
    /// ```
    pub fn skip(&mut self, len: usize)
        ensures at { self.new.at ≡ self.old.at }
        ensures nowhere { self.old.at ≡ None → self.new.left ≡ self.old.left }
        ensures left { (key : List ℕ) (value : V) (n : ℕ) → self.old.at ≡ Some (key, value)
            → IsFloor K.item (take len key) n
            → self.new.left ≡ outside (take n key) self.old.left }
        ensures first { (key : List ℕ) (value : V) (n : ℕ) → self.old.at ≡ Some (key, value)
            → IsFloor K.item (take len key) n
            → self.old.left ≡ under (take n key) self.old.left ++ self.new.left }
    {
        if self.value.is_none() {
            return;
        }
        let path = self.place.progress.path.as_slice();
        let whole = K::floor_boundary(&path[..len.min(path.len())]);
        self.place.skip::<K>(whole);
    }

    /// Moves the cursor to its end. Does not allocate.
    ///
    /// # Examples
    ///
    /// ```
    /// let map = StringPatriciaMap::from_iter(rt.alloc(), [("foo", 1), ("bar", 2)])?;
    /// let mut cursor = map.cursor();
    /// cursor.end();
    /// assert!(rt; !cursor.advance()?);
    /// ```
    pub fn end(&mut self)
        ensures { self.new ≡ before_entries [] }
    {
        self.value.take();
        let place = &mut self.place;
        place.finish::<K>();
    }

    /// Returns the bytes of the key at which the cursor stands, or `None` before the first entry
    /// and behind the last one. They are those of a key of its kind.
    ///
    /// Takes constant time.
    ///
    /// # Examples
    ///
    /// ```
    /// let map = StringPatriciaMap::from_iter(rt.alloc(), [("foo", 1), ("bar", 2)])?;
    /// let mut cursor = map.cursor();
    /// assert_eq!(rt; cursor.text(), None);
    /// assert!(rt; cursor.advance()?);
    /// assert_eq!(rt; (cursor.text(), cursor.value()), (Some("bar"), Some(&2)));
    /// assert!(rt; cursor.advance()?);
    /// assert_eq!(rt; cursor.key(), Some(b"foo".as_slice()));
    /// assert!(rt; !cursor.advance()?);
    /// ```
    pub fn key(&self) -> Option<&[u8]>
        ensures key { option_map (λ k. k.now) result ≡ option_map (λ e. e.0) self.now.at }
        ensures valid { IfSome result (λ k. IsValid K.item k.now) }
    {
        match self.value {
            Some(_) => Some(self.place.progress.path.as_slice()),
            None => None,
        }
    }

    /// Returns the value at which the cursor stands, or `None` before the first entry and behind
    /// the last one.
    ///
    /// Takes constant time.
    ///
    /// # Examples
    ///
    /// ```
    /// let map = StringPatriciaMap::from_iter(rt.alloc(), [("foo", 1), ("bar", 2)])?;
    /// let mut cursor = map.cursor();
    /// assert_eq!(rt; cursor.text(), None);
    /// assert!(rt; cursor.advance()?);
    /// assert_eq!(rt; (cursor.text(), cursor.value()), (Some("bar"), Some(&2)));
    /// assert!(rt; cursor.advance()?);
    /// assert_eq!(rt; cursor.key(), Some(b"foo".as_slice()));
    /// assert!(rt; !cursor.advance()?);
    /// ```
    pub fn value(&self) -> Option<&'a V>
        ensures { option_copied result ≡ option_map (λ e. e.1) self.now.at }
    {
        self.value
    }
}

impl<'a, V> ReadCursor<'a, String, V> {
    /// Returns the text of the key at which the cursor stands, or `None` before the first entry and
    /// behind the last one.
    ///
    /// Takes time in proportion to the key, whose bytes are checked.
    ///
    /// # Examples
    ///
    /// ```
    /// let map = StringPatriciaMap::from_iter(rt.alloc(), [("foo", 1), ("bar", 2)])?;
    /// let mut cursor = map.cursor();
    /// assert_eq!(rt; cursor.text(), None);
    /// assert!(rt; cursor.advance()?);
    /// assert_eq!(rt; (cursor.text(), cursor.value()), (Some("bar"), Some(&2)));
    /// assert!(rt; cursor.advance()?);
    /// assert_eq!(rt; cursor.key(), Some(b"foo".as_slice()));
    /// assert!(rt; !cursor.advance()?);
    /// ```
    pub fn text(&self) -> Option<&str>
        ensures { option_map (λ k. k.now) result ≡ option_map (λ e. e.0) self.now.at }
    {
        match self.key() {
            Some(bytes) => Some(text_of(bytes)),
            None => None,
        }
    }
}
