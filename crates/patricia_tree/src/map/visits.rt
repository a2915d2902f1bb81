//! A closure called at entries.
ghost use Rattle.std.specs.Prelude.{◌≡◌, ℕ, List, Some, OnOk, OnErr};
ghost use Rattle.std.specs.Option.{option_copied, option_map};
ghost use Rattle.std.specs.FinMap as map;
ghost use Rattle.std.specs.List.{FoldsTo};
ghost use Rattle.patricia_tree.specs.Prefixes.{under};
ghost use Rattle.patricia_tree.specs.Folds.{IsFoldStopped};
ghost use Rattle.patricia_tree.specs.Visits.{IsCalledAtEntry};

use super::GenericPatriciaMap;
use patricia_core::keys::{BorrowedBytes, Bytes};
use std::alloc::AllocError;

// Calls the closure at the entry at which a cursor stands.
fn call_at<V, F: FnMut(&[u8], &V)>(f: &mut F, key: Option<&[u8]>, value: Option<&V>)
    requires { F.IsAlwaysCallable f.old }
    ensures callable { F.IsAlwaysCallable f.new }
    ensures called { (e : List ℕ × V) → option_map (λ k. k.now) key.entry ≡ Some e.0
        → option_copied value.entry ≡ Some e.1 → IsCalledAtEntry F.FnMut f.old e f.new }
{
    if let (Some(key), Some(value)) = (key, value) {
        f(key, value);
    }
}

impl<K: Bytes, V: Drop> GenericPatriciaMap<K, V> {
    /// Calls the closure at the bytes of each key and at its value, in key order. Copies no key.
    ///
    /// Takes a walk over the map.
    ///
    /// # Errors
    ///
    /// Out of memory for the path of the walk, never for an empty map: the closure was called at
    /// the entries before the refused one.
    ///
    /// # Examples
    ///
    /// ```
    /// let map = StringPatriciaMap::from_iter(rt.alloc(), [("quux", 1), ("bar", 2)])?;
    /// let (mut longest, mut greatest) = (0, 0);
    /// map.for_each(&mut |key, value| {
    ///     longest = longest.max(key.len());
    ///     greatest = greatest.max(*value);
    /// })?;
    /// assert_eq!(rt; (longest, greatest), (4, 2));
    /// ```
    pub fn for_each<F: FnMut(&[u8], &V)>(&self, f: &mut F) -> Result<(), AllocError>
        requires { F.IsAlwaysCallable f.old }
        ensures callable { F.IsAlwaysCallable f.new }
        ensures called { OnOk result
            (FoldsTo (IsCalledAtEntry F.FnMut) f.old (map.entries self.now) f.new) }
        ensures stopped { OnErr result
            (IsFoldStopped (IsCalledAtEntry F.FnMut) f.old (map.entries self.now) f.new) }
    {
        let mut cursor = self.cursor();
        while cursor.advance()? {
            call_at(f, cursor.key(), cursor.value());
        }
        Ok(())
    }

    /// Calls the closure at the bytes of each key that begins with the prefix, and at its value, in
    /// key order. Copies no key.
    ///
    /// Takes a look-up, and a walk over these entries.
    ///
    /// # Errors
    ///
    /// Out of memory for the path of the walk, never where no key begins with the prefix: the
    /// closure was called at the entries before the refused one.
    ///
    /// # Examples
    ///
    /// ```
    /// let map = StringPatriciaMap::from_iter(rt.alloc(), [("foo", 5), ("bar", 2), ("baz", 3)])?;
    /// let mut greatest = 0;
    /// map.for_each_prefix("ba", &mut |_, value| greatest = greatest.max(*value))?;
    /// assert_eq!(rt; greatest, 3);
    /// ```
    pub fn for_each_prefix<Q: BorrowedBytes<Owned = K>, F: FnMut(&[u8], &V)>(
        &self,
        prefix: Q,
        f: &mut F,
    ) -> Result<(), AllocError>
        requires { F.IsAlwaysCallable f.old }
        ensures callable { F.IsAlwaysCallable f.new }
        ensures called { OnOk result (FoldsTo (IsCalledAtEntry F.FnMut) f.old
            (under (Q.key prefix) (map.entries self.now)) f.new) }
        ensures stopped { OnErr result (IsFoldStopped (IsCalledAtEntry F.FnMut) f.old
            (under (Q.key prefix) (map.entries self.now)) f.new) }
    {
        let mut cursor = self.cursor_prefix(prefix);
        while cursor.advance()? {
            call_at(f, cursor.key(), cursor.value());
        }
        Ok(())
    }
}
