//! A closure called at elements.
ghost use Rattle.std.specs.Prelude.{◌≡◌, ℕ, List, Some, OnOk, OnErr};
ghost use Rattle.std.specs.Option.{option_map};
ghost use Rattle.std.specs.FinMap as map;
ghost use Rattle.std.specs.List.{FoldsTo};
ghost use Rattle.patricia_tree.specs.Prefixes.{under};
ghost use Rattle.patricia_tree.specs.Folds.{IsFoldStopped};
ghost use Rattle.patricia_tree.specs.Visits.{IsCalledAtElement};

use super::GenericPatriciaSet;
use patricia_core::keys::{BorrowedBytes, Bytes};
use std::alloc::AllocError;

// Calls the closure at the element at which a cursor stands.
fn call_at<F: FnMut(&[u8])>(f: &mut F, element: Option<&[u8]>)
    requires { F.IsAlwaysCallable f.old }
    ensures callable { F.IsAlwaysCallable f.new }
    ensures called { (e : List ℕ × Unit {0}) → option_map (λ k. k.now) element.entry ≡ Some e.0
        → IsCalledAtElement F.FnMut f.old e f.new }
{
    if let Some(element) = element {
        f(element);
    }
}

impl<T: Bytes> GenericPatriciaSet<T> {
    /// Calls the closure at the bytes of each element, in order. Copies none.
    ///
    /// Takes a walk over the set.
    ///
    /// # Errors
    ///
    /// Out of memory for the path of the walk, never for an empty set: the closure was called at
    /// the elements before the refused one.
    ///
    /// # Examples
    ///
    /// ```
    /// let set = StringPatriciaSet::from_iter(rt.alloc(), ["quux", "foo"])?;
    /// let mut longest = 0;
    /// set.for_each(&mut |element| longest = longest.max(element.len()))?;
    /// assert_eq!(rt; longest, 4);
    /// ```
    pub fn for_each<F: FnMut(&[u8])>(&self, f: &mut F) -> Result<(), AllocError>
        requires { F.IsAlwaysCallable f.old }
        ensures callable { F.IsAlwaysCallable f.new }
        ensures called { OnOk result
            (FoldsTo (IsCalledAtElement F.FnMut) f.old (map.entries self.now) f.new) }
        ensures stopped { OnErr result
            (IsFoldStopped (IsCalledAtElement F.FnMut) f.old (map.entries self.now) f.new) }
    {
        let mut cursor = self.cursor();
        while cursor.advance()? {
            call_at(f, cursor.key());
        }
        Ok(())
    }

    /// Calls the closure at the bytes of each element that begins with the prefix, in order. Copies
    /// none.
    ///
    /// Takes a look-up, and a walk over these elements.
    ///
    /// # Errors
    ///
    /// Out of memory for the path of the walk, never where no element begins with the prefix: the
    /// closure was called at the elements before the refused one.
    ///
    /// # Examples
    ///
    /// ```
    /// let set = StringPatriciaSet::from_iter(rt.alloc(), ["quux", "bar", "baz"])?;
    /// let mut longest = 0;
    /// set.for_each_prefix("ba", &mut |element| longest = longest.max(element.len()))?;
    /// assert_eq!(rt; longest, 3);
    /// ```
    pub fn for_each_prefix<Q: BorrowedBytes<Owned = T>, F: FnMut(&[u8])>(
        &self,
        prefix: Q,
        f: &mut F,
    ) -> Result<(), AllocError>
        requires { F.IsAlwaysCallable f.old }
        ensures callable { F.IsAlwaysCallable f.new }
        ensures called { OnOk result (FoldsTo (IsCalledAtElement F.FnMut) f.old
            (under (Q.key prefix) (map.entries self.now)) f.new) }
        ensures stopped { OnErr result (IsFoldStopped (IsCalledAtElement F.FnMut) f.old
            (under (Q.key prefix) (map.entries self.now)) f.new) }
    {
        let mut cursor = self.cursor_prefix(prefix);
        while cursor.advance()? {
            call_at(f, cursor.key());
        }
        Ok(())
    }
}
