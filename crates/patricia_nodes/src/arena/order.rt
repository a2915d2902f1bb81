//! The order in which nodes are to lie: siblings side by side, and what is below a node behind its
//! siblings, so that a look-up reads few pages. Beside an order stands its inverse, which says of
//! each node at which place it comes.
ghost use Rattle.std.specs.Prelude.{◌≡◌, ℕ, ◌+◌, ◌^◌, ◌<◌, ◌≤◌, ◌++◌, List, IfOk, length, drop};
ghost use Rattle.std.specs.Prelude.{vec_len, vec_capacity};
ghost use Rattle.patricia_nodes.specs.Internal.Plans.{Plan, IsWellFormed};
ghost use Rattle.patricia_nodes.specs.Internal.Order.{AreSiblings, Waits, sizes, ListsBelow};
ghost use Rattle.patricia_nodes.specs.Internal.Order.{ListsNodes};
ghost use Rattle.patricia_nodes.specs.Internal.Permutations.{IsOrder, AreInverse};

use crate::arena::{DEPTH_FIRST, NodeArena};
use crate::link::{Link, NodeId};
use std::alloc::{AllocError, Global};

/// At which place each number stands in an order.
pub fn inverse(alloc: Global, order: &[u32]) -> Result<Vec<u32>, AllocError>
    requires once { IsOrder order.now }
    requires short { length order.now ≤ 2 ^ 32 }
    ensures { IfOk result (λ places. AreInverse order.now places.items) }
{
    let mut places = Vec::from_elem(alloc, 0, order.len())?;
    let mut i = 0;
    while i < order.len() {
        places[order[i] as usize] = i as u32;
        i += 1;
    }
    Ok(places)
}

impl<V: Drop> NodeArena<V> {
    // Lists the numbers of siblings behind the last of a list.
    fn list_siblings(&self, first: Link, order: &mut Vec<u32>)
        requires few { length self.now.nodes.items < 2 ^ 32 }
        requires siblings { (ids : List ℕ) × AreSiblings self.now.nodes.items first ids
            × (vec_len order.old + length ids ≤ vec_capacity order.old) }
        ensures listed { (ids : List ℕ) → AreSiblings self.now.nodes.items first ids
            → order.new.items ≡ order.old.items ++ ids }
        ensures capacity { vec_capacity order.new ≡ vec_capacity order.old }
    {
        let mut at = first;
        while let Some(id) = at.get() {
            order.push_reserved(id.index() as u32);
            at = self.nodes.sibling(id);
        }
    }

    // Lists what is below the nodes from one of the list on, behind the last: what is below each of
    // them before what is below the next. What lies more than `depth` levels below them is listed
    // level by level.
    fn list_below(&self, order: &mut Vec<u32>, start: usize, depth: u32)
        requires few { length self.now.nodes.items < 2 ^ 32 }
        requires waits { (cs : List (Plan V))
            × Waits self.now.nodes.items (drop start order.old.items) cs
            × (vec_len order.old + sizes cs ≤ vec_capacity order.old) }
        ensures listed { (cs : List (Plan V))
            → Waits self.now.nodes.items (drop start order.old.items) cs
            → ListsBelow cs order.old.items order.new.items }
        ensures capacity { vec_capacity order.new ≡ vec_capacity order.old }
    {
        let mut end = order.len();
        let mut i = start;
        while i < end {
            let below = order.len();
            let child = self.nodes.child(NodeId::new(order[i] as usize));
            self.list_siblings(child, order);
            i += 1;
            if depth == 0 {
                end = order.len();
            } else {
                self.list_below(order, below, depth - 1);
            }
        }
    }

    /// The numbers of all nodes, and how many of them are in use: first those in use, depth first,
    /// and then the free ones. Refused where memory is, and where there are more nodes than four
    /// bytes count.
    pub fn depth_first_order(&self, alloc: Global) -> Result<(Vec<u32>, usize), AllocError>
        requires whole { IsWellFormed self.now }
        ensures lists { IfOk result (λ r. ListsNodes self.now r.0.items r.1) }
        ensures few { IfOk result (λ _. length self.now.nodes.items < 2 ^ 32) }
    {
        let len = self.nodes.len();
        if len > u32::MAX as usize {
            return Err(AllocError);
        }
        let mut order = Vec::with_capacity(alloc, len)?;
        self.list_siblings(self.root, &mut order);
        self.list_below(&mut order, 0, DEPTH_FIRST);
        let used = order.len();
        self.list_siblings(self.free, &mut order);
        Ok((order, used))
    }
}
