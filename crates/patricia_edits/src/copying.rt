//! Nodes copied to a vector of their own.
//!
//! Where none is free, each keeps its number. Else they are laid there as a relocation lays them:
//! siblings side by side, and what is below a node behind its siblings. What waits stands in the
//! new vector, which is reserved once.
ghost use Rattle.std.specs.Prelude.{◌≡◌, ◌≢◌, ◌+◌, ◌≤◌, ◌++◌, [], None, IfSome, IfOk, OnOk, OnErr};
ghost use Rattle.std.specs.Prelude.{length};
ghost use Rattle.std.specs.Option.{option_copied};
ghost use Rattle.patricia_model.specs.Siblings.{end};
ghost use Rattle.patricia_nodes.specs.Internal.Plans.{Plan, head, siblings_in, siblings_of};
ghost use Rattle.patricia_nodes.specs.Internal.Plans.{size};
ghost use Rattle.patricia_nodes.specs.Internal.Plans.{plan_at, IsSound, IsWellFormed};
ghost use Rattle.patricia_nodes.specs.Internal.Growth.{IsLaid, AreTopSiblings, tops, laid};
ghost use Rattle.patricia_nodes.specs.Internal.Growth.{numbered_siblings};
ghost use Rattle.patricia_model.specs.Clones.{CloneIsSame};
ghost use Rattle.patricia_edits.specs.Internal.Copies.{SiblingsKept, EntriesKept};
ghost use Rattle.patricia_edits.specs.Internal.Copies.{AwaitsFrom, CopiesFrom};

use patricia_nodes::arena::node_vec::NodeVec;
use patricia_nodes::arena::{DEPTH_FIRST, NodeArena};
use patricia_nodes::link::{Link, NodeId};
use std::alloc::{AllocError, Global};

// How many nodes are used: all but the free ones.
fn used<V: Drop>(arena: &NodeArena<V>) -> usize
    requires { IsWellFormed arena.now }
    ensures { result ≡ size (plan_at arena.now.nodes.items arena.now.root) }
{
    let mut used = arena.nodes.len();
    let mut at = arena.free;
    while let Some(id) = at.get() {
        used -= 1;
        at = arena.nodes.sibling(id);
    }
    used
}

/// A copy of a value that may be there. Where there is none, nothing is asked for.
pub fn copy_value<V: Clone>(value: Option<&V>) -> Result<Option<V>, AllocError>
    requires { IfSome (option_copied value) (CloneIsSame V.is_clone) }
    ensures same { IfOk result (λ v. v ≡ option_copied value.entry) }
    ensures nonempty { OnErr result (option_copied value.entry ≢ None) }
{
    match value {
        Some(value) => Ok(Some(value.clone()?)),
        None => Ok(None),
    }
}

// Copies siblings behind the last of some new nodes, each with the old number of its first child,
// and returns the new number of the first of them.
fn copy_siblings<V: Clone>(
    from: &NodeVec<V>,
    first: Link,
    to: &mut NodeVec<V>,
) -> Result<Link, AllocError>
    requires siblings { (w : Plan V) × AreTopSiblings from.now.items first w
        × SiblingsKept V.is_clone (siblings_in w)
        × (length to.old.items + length (tops w) ≤ to.old.capacity) }
    ensures laid { OnOk result ((w : Plan V) → AreTopSiblings from.now.items first w
        → to.new.items ≡ to.old.items ++ laid (length to.old.items) w) }
    ensures first { IfOk result (λ at. (w : Plan V) → AreTopSiblings from.now.items first w
        → at ≡ head (numbered_siblings (length to.old.items) w)) }
    ensures capacity { OnOk result (to.old.capacity ≤ to.new.capacity) }
{
    // for the proof alone: there are no more nodes than links can say
    let _few = to.capacity();
    let start = to.len();
    let mut at = first;
    while let Some(id) = at.get() {
        at = from.sibling(id);
        let sibling = match at.get() {
            None => Link::none(),
            Some(_) => Link::some(NodeId::new(to.len() + 1)),
        };
        let value = copy_value(from.value(id))?;
        to.push(from.label(id), value, from.child(id), sibling)?;
    }
    Ok(match first.get() {
        None => Link::none(),
        Some(_) => Link::some(NodeId::new(start)),
    })
}

// Copies what is below the nodes of a new vector from one on behind them, what is below each of
// them before what is below the next. They have the old numbers of their children. What lies more
// than `depth` levels below them is copied level by level.
fn copy_siblings_below<V: Clone>(
    from: &NodeVec<V>,
    to: &mut NodeVec<V>,
    start: usize,
    depth: u32,
) -> Result<(), AllocError>
    requires { AwaitsFrom V.is_clone from.now.items start to.old.items (to.old.capacity) }
    ensures copied { OnOk result (CopiesFrom from.now.items start to.old.items to.new.items) }
    ensures longer { OnOk result (length to.old.items ≤ length to.new.items) }
    ensures capacity { OnOk result (to.old.capacity ≤ to.new.capacity) }
{
    let mut end = to.len();
    let mut i = start;
    while i < end {
        let below = to.len();
        let id = NodeId::new(i);
        let child = to.child(id);
        let first = copy_siblings(from, child, to)?;
        to.set_child(id, first);
        i += 1;
        if depth == 0 {
            end = to.len();
        } else {
            copy_siblings_below(from, to, below, depth - 1)?;
        }
    }
    Ok(())
}

// Copies what is below the nodes of a new vector behind them, depth first. They have the old
// numbers of their children.
fn copy_below<V: Clone>(from: &NodeVec<V>, to: &mut NodeVec<V>) -> Result<(), AllocError>
    requires { (w : Plan V) × IsLaid from.now.items to.old.items w
        × SiblingsKept V.is_clone (siblings_in w)
        × (size w ≤ to.old.capacity) }
    ensures { OnOk result ((w : Plan V) → IsLaid from.now.items to.old.items w
        → (q : Plan V) × IsSound to.new.items (head (numbered_siblings 0 w)) None q []
        × (siblings_in q ≡ siblings_in w)) }
{
    copy_siblings_below(from, to, 0, DEPTH_FIRST)
}

// The same nodes, of which none is free, each at the number that it had.
fn copy_in_place<V: Clone>(arena: &NodeArena<V>, alloc: Global) -> Result<NodeArena<V>, AllocError>
    requires whole { IsWellFormed arena.now }
    requires cloned { EntriesKept V.is_clone arena.now }
    requires none_free { arena.now.free ≡ None }
    ensures whole { IfOk result (λ c. IsWellFormed c) }
    ensures siblings { IfOk result (λ c. siblings_of c ≡ siblings_of arena.now) }
    ensures none_free { IfOk result (λ c. c.free ≡ None) }
{
    Ok(NodeArena {
        nodes: arena.nodes.try_clone(alloc)?,
        root: arena.root,
        free: Link::none(),
        edits: arena.edits,
    })
}

// The same nodes laid as a relocation lays them, without the free ones.
fn copy_laid<V: Clone>(arena: &NodeArena<V>, alloc: Global) -> Result<NodeArena<V>, AllocError>
    requires whole { IsWellFormed arena.now }
    requires cloned { EntriesKept V.is_clone arena.now }
    ensures whole { IfOk result (λ c. IsWellFormed c) }
    ensures siblings { IfOk result (λ c. siblings_of c ≡ siblings_of arena.now) }
    ensures none_free { IfOk result (λ c. c.free ≡ None) }
{
    // where bytes are not counted, they are asked for when they are pushed
    let bytes = arena.nodes.label_bytes().unwrap_or(0);
    let mut nodes = NodeVec::with_capacity(alloc, used(arena), bytes)?;
    let root = copy_siblings(&arena.nodes, arena.root, &mut nodes)?;
    copy_below(&arena.nodes, &mut nodes)?;
    Ok(NodeArena {
        nodes,
        root,
        free: Link::none(),
        edits: 0,
    })
}

/// The same nodes in a vector of their own, with none free. Where none is free each has the number
/// that it had, and the vector is copied from front to end; else they are laid as a relocation lays
/// them. The vector is reserved once. Asks for nothing where there is no node.
pub fn copy<V: Clone>(arena: &NodeArena<V>, alloc: Global) -> Result<NodeArena<V>, AllocError>
    requires whole { IsWellFormed arena.now }
    requires cloned { EntriesKept V.is_clone arena.now }
    ensures whole { IfOk result (λ c. IsWellFormed c) }
    ensures siblings { IfOk result (λ c. siblings_of c ≡ siblings_of arena.now) }
    ensures none_free { IfOk result (λ c. c.free ≡ None) }
    ensures nonempty { OnErr result (siblings_of arena.now ≢ end) }
{
    if arena.root.get().is_none() {
        return Ok(NodeArena::new(alloc));
    }
    match arena.free.get() {
        None => copy_in_place(arena, alloc),
        Some(_) => copy_laid(arena, alloc),
    }
}
