//! How many bytes keys have at most.
ghost use Rattle.std.specs.Prelude.{◌≤◌, length, IfSome};
ghost use Rattle.std.specs.List.{All};
ghost use Rattle.patricia_model.specs.Siblings.{entries, keys_of};
ghost use Rattle.patricia_nodes.specs.Internal.Plans.{IsPlan, IsWellFormed, plan_at};
ghost use Rattle.patricia_nodes.specs.Internal.Plans.{siblings_at, entries_of};

use patricia_nodes::arena::NodeArena;
use patricia_nodes::arena::node_vec::NodeVec;
use patricia_nodes::link::Link;

// How many levels are measured by recursion.
const MEASURED_DEPTH: u32 = 64;

// No key of siblings and of all nodes below them has more bytes than these. `None` where more than
// `depth` nodes lie one below the other.
fn measure_siblings<V>(nodes: &NodeVec<V>, first: Link, depth: u32) -> Option<usize>
    requires { IsPlan nodes.now.items first (plan_at nodes.now.items first) }
    ensures { IfSome result (λ n. All (λ k. length k ≤ n)
        (keys_of (entries (siblings_at nodes.now.items first)))) }
{
    let mut longest: usize = 0;
    let mut at = first;
    while let Some(id) = at.get() {
        if depth == 0 {
            return None;
        }
        let below = measure_siblings(nodes, nodes.child(id), depth - 1)?;
        let own = nodes.label_len(id);
        let len = own.checked_add(below)?;
        longest = longest.max(len);
        at = nodes.sibling(id);
    }
    Some(longest)
}

/// No key of the nodes has more bytes than these. `None` where more than 64 nodes lie one below the
/// other. Takes time in proportion to the nodes. Does not allocate.
pub fn longest_key<V>(arena: &NodeArena<V>) -> Option<usize>
    requires { IsWellFormed arena.now }
    ensures { IfSome result (λ n. All (λ k. length k ≤ n) (keys_of (entries_of arena.now))) }
{
    measure_siblings(&arena.nodes, arena.root, MEASURED_DEPTH)
}
