//! Two trees compared.
ghost use Rattle.std.specs.Prelude.{◌≡◌, ◌≢◌, [], IfOk, OnErr};
ghost use Rattle.std.specs.FinMap as map;
ghost use Rattle.patricia_walks.specs.Equality.{are_same_entries};

use super::Tree;
use patricia_keys::Bytes;
use patricia_walks::equality::are_equal;
use std::alloc::AllocError;
use std::cmp::PartialEq;

impl<K: Bytes, V: PartialEq> Tree<K, V> {
    /// Whether another tree has the same keys, with equal values. The error is out of memory.
    pub fn equals(&self, other: &Self) -> Result<bool, AllocError>
        ensures same { IfOk result (λ b.
            b ≡ are_same_entries V.eq (map.entries self.now) (map.entries other.now)) }
        ensures err_only_nonempty { OnErr result (map.entries self.now ≢ []) }
    {
        are_equal::<K, V>(&self.parts, &other.parts)
    }
}
