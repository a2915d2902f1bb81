//! A tree that cursors walk over.
ghost use Rattle.std.specs.Prelude.{◌≡◌, [], None};
ghost use Rattle.std.specs.FinMap as map;

use super::Tree;
use patricia_keys::{BorrowedBytes, Bytes};
use patricia_walks::cursor::{self, Cursor, PrefixCursor};
use patricia_walks::value_cursor::{self, ValueCursor};
use std::marker::PhantomData;
use std::mem;

impl<K: Bytes, V: Drop> Tree<K, V> {
    /// Takes the tree and leaves the empty one. Does not allocate.
    pub fn take(&mut self) -> Self
        ensures taken { result ≡ self.old }
        ensures left { self.new ≡ map.empty }
    {
        let empty = Tree::new(self.parts.alloc);
        mem::replace(self, empty)
    }

    /// A cursor over the entries, which owns the tree. Making it does not allocate.
    pub fn into_cursor(self) -> Cursor<K, V>
        ensures { result ≡ record { map = self; prefix = []; last = None } }
    {
        Cursor::new(self.parts)
    }

    /// The tree that a cursor walked over.
    pub fn from_cursor(cursor: Cursor<K, V>) -> Self
        ensures { result ≡ cursor.map }
    {
        let parts = cursor::into_parts(cursor);
        Tree {
            parts,
            kind: PhantomData,
        }
    }

    /// A cursor over the values, which owns the tree. Making it does not allocate.
    pub fn into_value_cursor(self) -> ValueCursor<K, V>
        ensures { result ≡ record { map = self; prefix = []; last = None } }
    {
        ValueCursor::new(self.parts)
    }

    /// The tree that such a cursor walked over.
    pub fn from_value_cursor(cursor: ValueCursor<K, V>) -> Self
        ensures { result ≡ cursor.map }
    {
        let whole = value_cursor::into_parts(cursor);
        Tree {
            parts: whole,
            kind: PhantomData,
        }
    }

    /// A cursor over the entries whose key begins with a prefix, which owns the tree. Making it
    /// does not allocate.
    pub fn into_prefix_cursor<Q: BorrowedBytes<Owned = K>>(self, prefix: Q) -> PrefixCursor<Q, V>
        ensures { result ≡ record { map = self; prefix = Q.key prefix; last = None } }
    {
        PrefixCursor::new(self.parts, prefix)
    }

    /// The tree that such a cursor walked over.
    pub fn from_prefix_cursor<Q: BorrowedBytes<Owned = K>>(cursor: PrefixCursor<Q, V>) -> Self
        ensures { result ≡ cursor.map }
    {
        Tree {
            parts: cursor::prefix_into_parts(cursor),
            kind: PhantomData,
        }
    }
}
