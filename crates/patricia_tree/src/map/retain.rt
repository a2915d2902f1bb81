//! Entries that a closure chooses.
ghost use Rattle.std.specs.Prelude.{◌≡◌, ◌≢◌, ◌⊎◌, ◌≤◌, ℕ, List, [], Some, false, length};
ghost use Rattle.std.specs.Prelude.{IfOk, OnOk, OnErr};
ghost use Rattle.std.specs.FinMap as map;
ghost use Rattle.std.specs.List.{All};
ghost use Rattle.patricia_core.specs.Points.{Joins};
ghost use Rattle.patricia_tree.specs.Retains.{IsAskedAtEntry, IsRetainStopped, RetainsAll};
ghost use Rattle.patricia_tree.specs.Retains.{RetainsEntry};

use super::{GenericPatriciaMap, ReadCursor};
use patricia_core::keys::Bytes;
use patricia_core::tree::Pruner;
use std::alloc::AllocError;

// The length of the key at which a cursor stands, where that is greater.
fn longer<K: Bytes, V>(cursor: &ReadCursor<'_, K, V>, longest: usize) -> usize
    ensures least { longest ≤ result }
    ensures key { (e : List ℕ × V) → cursor.now.at ≡ Some e → length e.0 ≤ result }
{
    match cursor.key() {
        Some(key) if longest < key.len() => key.len(),
        _ => longest,
    }
}

// Calls the closure at the entry at which a walk stands, which is removed where it returns false.
fn retain_entry<K: Bytes, V: Drop, F: FnMut(&[u8], &mut V) -> bool>(
    pruner: &mut Pruner<K, V>,
    f: &mut F,
) -> Result<(), AllocError>
    requires { F.IsAlwaysCallable f.old }
    ensures callable { F.IsAlwaysCallable f.new }
    ensures left { pruner.new.left ≡ pruner.old.left }
    ensures retained { OnOk result ((key : List ℕ) (v : V) → pruner.old.at ≡ Some key
        → map.get pruner.old.map key ≡ Some v
        → RetainsEntry F.FnMut (f.old, pruner.old.map) (key, v) (f.new, pruner.new.map)) }
    ensures kept { OnErr result ((key : List ℕ) (v : V) → pruner.old.at ≡ Some key
        → map.get pruner.old.map key ≡ Some v
        → (w : V) × IsAskedAtEntry F.FnMut f.old (key, v) false f.new w
        × (pruner.new.map ≡ map.insert pruner.old.map key w)) }
    ensures joins { OnErr result ((key : List ℕ) → pruner.old.at ≡ Some key
        → Joins K.item (map.keys pruner.new.map) key) }
{
    if !pruner.ask(f) {
        pruner.remove()?;
    }
    Ok(())
}

// Calls the closure at all entries, in order, and removes those where it returns false. It stops at
// the first removal that is refused.
fn retain_all<K: Bytes, V: Drop, F: FnMut(&[u8], &mut V) -> bool>(
    pruner: &mut Pruner<K, V>,
    mut f: F,
) -> Result<(), AllocError>
    requires callable { F.IsAlwaysCallable f }
    requires starts { pruner.old.left ≡ map.entries pruner.old.map }
    ensures retained { OnOk result (RetainsAll F.FnMut f pruner.old.map pruner.new.map) }
    ensures stopped { OnErr result
        (IsRetainStopped F.FnMut K.item f pruner.old.map pruner.new.map) }
    ensures err_only_nonempty { OnErr result (map.entries pruner.old.map ≢ []) }
{
    while pruner.advance() {
        retain_entry(pruner, &mut f)?;
    }
    Ok(())
}

impl<K: Bytes, V: Drop> GenericPatriciaMap<K, V> {
    // No key has more bytes than these.
    fn longest_key(&self) -> Result<usize, AllocError>
        ensures longest { IfOk result (λ n. All (λ k. length k ≤ n) (map.keys self.now)) }
        ensures err_only_nonempty { OnErr result (map.entries self.now ≢ []) }
    {
        if let Some(bound) = self.tree.longest_key() {
            return Ok(bound);
        }
        let mut longest = 0;
        let mut cursor = self.cursor();
        while cursor.advance()? {
            longest = longer(&cursor, longest);
        }
        Ok(longest)
    }

    /// Keeps the entries at which the closure returns true, and removes the others. It is called at
    /// the bytes of each key, in order, and at a loan of its value, of which the map keeps what the
    /// closure leaves.
    ///
    /// Takes two walks: the first looks for the longest key, the second removes entries where it
    /// stands.
    ///
    /// # Errors
    ///
    /// Out of memory, never for an empty map. For the walks: the closure was not called, and the
    /// map is unchanged. For a removal that joins two labels: the entries before it are retained
    /// or removed as the closure said, it stays with the value that the closure left, and those
    /// after it are unchanged.
    ///
    /// # Examples
    ///
    /// ```
    /// let pairs = [("foo", 1), ("bar", 2), ("baz", 3)];
    /// let mut map = StringPatriciaMap::from_iter(rt.alloc(), pairs)?;
    /// map.retain(|key, value| {
    ///     *value = (*value).max(3);
    ///     key.starts_with(b"b")
    /// })?;
    /// assert_eq!(rt; map.len(), 2);
    /// assert_eq!(rt; map.get("bar"), Some(&3));
    /// ```
    pub fn retain<F: FnMut(&[u8], &mut V) -> bool>(&mut self, f: F) -> Result<(), AllocError>
        requires { F.IsAlwaysCallable f }
        ensures retained { OnOk result (RetainsAll F.FnMut f self.old self.new) }
        ensures stopped { OnErr result
            ((self.new ≡ self.old) ⊎ IsRetainStopped F.FnMut K.item f self.old self.new) }
        ensures err_only_nonempty { OnErr result (map.entries self.old ≢ []) }
    {
        if self.is_empty() {
            return Ok(());
        }
        let longest = self.longest_key()?;
        let mut pruner = match Pruner::new(self.tree.take(), longest) {
            Ok(pruner) => pruner,
            Err(tree) => {
                self.tree = tree;
                return Err(AllocError);
            }
        };
        let result = retain_all(&mut pruner, f);
        self.tree = pruner.into_tree();
        result
    }
}
