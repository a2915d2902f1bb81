//! Elements counted and removed by their prefix.
ghost use Rattle.std.specs.Prelude.{◌≡◌, ◌≢◌, ◌+◌, ◌<◌, [], length, Any, IfOk, OnOk, OnErr};
ghost use Rattle.std.specs.FinMap as map;
ghost use Rattle.patricia_tree.specs.Prefixes.{outside, under};

use super::GenericPatriciaSet;
use patricia_core::keys::{BorrowedBytes, Bytes};
use std::alloc::AllocError;

impl<T: Bytes> GenericPatriciaSet<T> {
    /// Returns the number of elements that begin with the prefix, in time in proportion to them and
    /// to a look-up, and for the empty prefix at once.
    ///
    /// # Errors
    ///
    /// Out of memory for the path of the walk, only where some such element has more than 64 bytes
    /// behind the prefix. Where none has, nothing is allocated.
    ///
    /// # Examples
    ///
    /// ```
    /// let set = StringPatriciaSet::from_iter(rt.alloc(), ["bar", "baz", "foo"])?;
    /// assert_eq!(rt; set.count_prefix("ba")?, 2);
    /// ```
    pub fn count_prefix<Q: BorrowedBytes<Owned = T>>(&self, prefix: Q) -> Result<usize, AllocError>
        ensures count { IfOk result (λ n.
            n ≡ length (under (Q.key prefix) (map.entries self.now))) }
        ensures err_only_if_matched { OnErr result
            (under (Q.key prefix) (map.entries self.now) ≢ []) }
        ensures err_only_long { OnErr result (Any (λ e. length (Q.key prefix) + 64 < length e.0)
            (under (Q.key prefix) (map.entries self.now))) }
    {
        self.map.count_prefix(prefix)
    }

    /// Removes the elements that begin with the prefix, and returns how many they were.
    ///
    /// Takes a look-up, and time in proportion to the elements that are removed.
    ///
    /// # Errors
    ///
    /// Out of memory: the set is unchanged. Never for the empty prefix, nor where no element begins
    /// with the prefix.
    ///
    /// # Examples
    ///
    /// ```
    /// let mut set = StringPatriciaSet::from_iter(rt.alloc(), ["bar", "baz", "foo"])?;
    /// assert_eq!(rt; set.remove_prefix("ba")?, 2);
    /// assert!(rt; set.contains("foo"));
    /// ```
    pub fn remove_prefix<Q: BorrowedBytes<Owned = T>>(
        &mut self,
        prefix: Q,
    ) -> Result<usize, AllocError>
        ensures count { IfOk result (λ n.
            n ≡ length (under (Q.key prefix) (map.entries self.old))) }
        ensures left { OnOk result (
            map.entries self.new ≡ outside (Q.key prefix) (map.entries self.old)) }
        ensures unchanged { OnErr result (self.new ≡ self.old) }
        ensures err_only_nonempty { OnErr result (Q.key prefix ≢ []) }
        ensures err_only_if_matched { OnErr result
            (under (Q.key prefix) (map.entries self.old) ≢ []) }
    {
        self.map.remove_prefix(prefix)
    }
}
