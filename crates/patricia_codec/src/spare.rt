//! Nodes that were made for siblings that did not come.
ghost use Rattle.std.specs.Prelude.{◌≡◌, ℕ, List};
ghost use Rattle.patricia_nodes.specs.Internal.Plans.{first};
ghost use Rattle.patricia_codec.specs.Internal.Placing.{LinksEmpty};

use patricia_nodes::arena::node_vec::NodeVec;
use patricia_nodes::link::{Link, NodeId};

/// Links the nodes without label to one another, each to the next, and returns the number of the
/// first.
pub fn link_empty<V>(nodes: &mut NodeVec<V>) -> Link
    ensures { (chain : List ℕ) × LinksEmpty nodes.old.items nodes.new.items chain
        × (result ≡ first chain) }
{
    let mut first = Link::none();
    let mut i = nodes.len();
    while i > 0 {
        i -= 1;
        let id = NodeId::new(i);
        if nodes.short_len(id) == 0 {
            nodes.set_sibling(id, first);
            first = Link::some(id);
        }
    }
    first
}
