//! How many values there are under a prefix, without memory for the way.
ghost use Rattle.std.specs.Prelude.{◌≡◌, ◌≢◌, ◌+◌, ◌<◌, [], length, Any, IfSome, IfNone};
ghost use Rattle.patricia_model.specs.Prefixes.{under};
ghost use Rattle.patricia_model.specs.Siblings.{own, entries, IsCanonical};
ghost use Rattle.patricia_nodes.specs.Internal.NodeVecs.{ReadsNode};
ghost use Rattle.patricia_nodes.specs.Internal.Plans.{IsPlan, IsWellFormed, plan_at, siblings_of};
ghost use Rattle.patricia_nodes.specs.Internal.Plans.{entries_of, siblings_at};
ghost use Rattle.patricia_walks.specs.Internal.Depths.{IsDeeper};

use super::find_start;
use patricia_keys::BorrowedBytes;
use patricia_nodes::arena::NodeArena;
use patricia_nodes::arena::node_vec::NodeVec;
use patricia_nodes::link::{Link, NodeId};

// How many levels are counted by recursion.
const COUNTED_DEPTH: u32 = 64;

// How many values a node has.
fn count_value<V>(nodes: &NodeVec<V>, id: NodeId) -> usize
    requires { id < length nodes.now.items }
    ensures { ReadsNode nodes.now id (λ n. result ≡ length (own n.value)) }
{
    if nodes.value(id).is_some() { 1 } else { 0 }
}

// How many values siblings and all nodes below them have. `None` where more than `depth` nodes lie
// one below the other.
fn count_siblings<V>(arena: &NodeArena<V>, first: Link, depth: u32) -> Option<usize>
    requires { IsPlan arena.now.nodes.items first (plan_at arena.now.nodes.items first) }
    ensures some { IfSome result (λ n.
        n ≡ length (entries (siblings_at arena.now.nodes.items first))) }
    ensures none { IfNone result (IsDeeper depth (siblings_at arena.now.nodes.items first)) }
{
    // for the proof alone: there are no more nodes than links can say
    let _few = arena.nodes.len();
    let mut count = 0;
    let mut at = first;
    while let Some(id) = at.get() {
        if depth == 0 {
            return None;
        }
        let nodes = &arena.nodes;
        count += count_value(nodes, id) + count_siblings(arena, nodes.child(id), depth - 1)?;
        at = nodes.sibling(id);
    }
    Some(count)
}

/// How many values there are under a prefix that is not empty. `None` only where some key has more
/// than 64 bytes behind the prefix. Does not allocate.
pub fn count_under<Q: BorrowedBytes, V>(arena: &NodeArena<V>, prefix: Q) -> Option<usize>
    requires whole { IsWellFormed arena.now }
    requires siblings { IsCanonical Q.Owned.item (siblings_of arena.now) }
    requires nonempty { Q.key prefix ≢ [] }
    ensures some { IfSome result (λ n. n ≡ length (under (Q.key prefix) (entries_of arena.now))) }
    ensures none { IfNone result (Any (λ e. length (Q.key prefix) + 64 < length e.0)
        (under (Q.key prefix) (entries_of arena.now))) }
{
    let Some(start) = find_start(arena, prefix) else {
        return Some(0);
    };
    let nodes = &start.arena.nodes;
    // for the proof alone: there are no more nodes than links can say
    let _few = nodes.len();
    let below = count_siblings(start.arena, nodes.child(start.top), COUNTED_DEPTH)?;
    Some(count_value(nodes, start.top) + below)
}
