//! Cursors: walks that lend the values of a map one at a time, in key order.
ghost use Rattle.std.specs.Prelude.{◌≡◌, [], None};

use super::GenericPatriciaMap;
use crate::guard::{CursorGuard, IntoMap};
use patricia_core::cursor::{Cursor, PrefixCursor};
use patricia_core::keys::{BorrowedBytes, Bytes};
use patricia_core::tree::Tree;
use patricia_core::value_cursor::ValueCursor;

/// A cursor over the entries of a map.
pub type IterMut<'a, K, V> = CursorGuard<'a, GenericPatriciaMap<K, V>, Cursor<K, V>>;

/// A cursor over the entries whose key begins with a prefix.
pub type IterPrefixMut<'a, K, Q, V> = CursorGuard<'a, GenericPatriciaMap<K, V>, PrefixCursor<Q, V>>;

/// A cursor over the values of a map, in the order of their keys.
pub type ValuesMut<'a, K, V> = CursorGuard<'a, GenericPatriciaMap<K, V>, ValueCursor<K, V>>;

impl<K: Bytes, V: Drop> IntoMap<GenericPatriciaMap<K, V>> for Cursor<K, V> {
    ghost back = { λ c. c.map };

    fn into_map(self) -> GenericPatriciaMap<K, V> {
        GenericPatriciaMap {
            tree: Tree::from_cursor(self),
        }
    }
}

impl<K: Bytes, Q: BorrowedBytes<Owned = K>, V: Drop> IntoMap<GenericPatriciaMap<K, V>>
    for PrefixCursor<Q, V> {
    ghost back = { λ c. c.map };

    fn into_map(self) -> GenericPatriciaMap<K, V> {
        GenericPatriciaMap {
            tree: Tree::from_prefix_cursor(self),
        }
    }
}

impl<K: Bytes, V: Drop> IntoMap<GenericPatriciaMap<K, V>> for ValueCursor<K, V> {
    ghost back = { λ c. c.map };

    fn into_map(self) -> GenericPatriciaMap<K, V> {
        GenericPatriciaMap {
            tree: Tree::from_value_cursor(self),
        }
    }
}

impl<K: Bytes, V: Drop> GenericPatriciaMap<K, V> {
    /// Returns a cursor over the entries, in key order. Making it does not allocate.
    ///
    /// # Examples
    ///
    /// ```
    /// let mut map = StringPatriciaMap::from_iter(rt.alloc(), [("foo", 1), ("bar", 2)])?;
    /// let mut cursor = map.iter_mut();
    /// assert_eq!(rt; cursor.advance()?.as_deref(), Some("bar"));
    /// if let Some(value) = cursor.value() {
    ///     *value = 5;
    /// }
    /// drop(cursor);
    /// assert_eq!(rt; map.get("bar"), Some(&5));
    /// ```
    pub fn iter_mut(&mut self) -> IterMut<'_, K, V>
        ensures owner { result.owner.ghost_name ≡ self.entry.ghost_name }
        ensures start { result.at ≡ record { map = self.old; prefix = []; last = None } }
    {
        let tree = self.tree.take();
        CursorGuard::new(self, tree.into_cursor())
    }

    /// Returns a cursor over the values, in the order of their keys. Making it does not allocate.
    ///
    /// # Examples
    ///
    /// ```
    /// let mut map = StringPatriciaMap::from_iter(rt.alloc(), [("foo", 1), ("bar", 2)])?;
    /// let len = map.len();
    /// let mut cursor = map.values_mut();
    /// for _ in 0..len {
    ///     cursor.next_with(|value| *value = 7)?;
    /// }
    /// drop(cursor);
    /// assert_eq!(rt; map.get("foo"), Some(&7));
    /// ```
    pub fn values_mut(&mut self) -> ValuesMut<'_, K, V>
        ensures owner { result.owner.ghost_name ≡ self.entry.ghost_name }
        ensures start { result.at ≡ record { map = self.old; prefix = []; last = None } }
    {
        let tree = self.tree.take();
        CursorGuard::new(self, tree.into_value_cursor())
    }

    /// Returns a cursor over the entries whose key begins with the prefix, in key order. Making it
    /// does not allocate.
    ///
    /// # Examples
    ///
    /// ```
    /// // Sets the values under a prefix to 0.
    /// fn clear_values<Q: BorrowedBytes>(
    ///     map: &mut GenericPatriciaMap<Q::Owned, u32>,
    ///     prefix: Q,
    /// ) -> Result<(), AllocError> {
    ///     let len = map.len();
    ///     let mut cursor = map.iter_prefix_mut(prefix);
    ///     for _ in 0..len {
    ///         cursor.next_with(|_key, value| *value = 0)?;
    ///     }
    ///     Ok(())
    /// }
    /// ```
    pub fn iter_prefix_mut<Q: BorrowedBytes<Owned = K>>(
        &mut self,
        prefix: Q,
    ) -> IterPrefixMut<'_, K, Q, V>
        ensures owner { result.owner.ghost_name ≡ self.entry.ghost_name }
        ensures start { result.at ≡ record { map = self.old; prefix = Q.key prefix; last = None } }
    {
        let tree = self.tree.take();
        CursorGuard::new(self, tree.into_prefix_cursor(prefix))
    }
}
