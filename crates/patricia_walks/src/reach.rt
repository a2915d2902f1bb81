//! The common length of a key with the keys.
ghost use Rattle.std.specs.Prelude.{◌++◌, Option};
ghost use Rattle.patricia_model.specs.Prefixes.{IsReach};
ghost use Rattle.patricia_model.specs.Siblings.{own, keys_of, IsCanonical};
ghost use Rattle.patricia_nodes.specs.Internal.Plans.{IsWellFormed, siblings_of, entries_of};

use patricia_keys::{BorrowedBytes, Bytes};
use patricia_nodes::arena::NodeArena;
use patricia_nodes::arena::seek::Match;

/// The common length of a key with the keys of the nodes: the greatest that it has with one of
/// them. The empty key changes nothing.
pub fn reach<Q: BorrowedBytes, V>(arena: &NodeArena<V>, key: Q) -> usize
    requires whole { IsWellFormed arena.now }
    requires siblings { IsCanonical Q.Owned.item (siblings_of arena.now) }
    ensures { (v : Option V)
        → IsReach Q.Owned.item (keys_of (own v ++ entries_of arena.now)) (Q.key key) result }
{
    if key.is_empty() {
        return 0;
    }
    let place = arena.seek(key);
    let left = place.rest.as_bytes().len();
    let passed = key.as_bytes().len() - left;
    match place.matched {
        Match::Absent => passed,
        Match::InsideLabel(_, n) => passed + n,
        Match::Exact(_) => passed + left,
    }
}
