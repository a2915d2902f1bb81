//! Two trees compared node by node.
//!
//! Trees with the same keys have the same nodes, whatever made them, so no key is made: labels are
//! compared with labels and values with values.
ghost use Rattle.std.specs.Prelude.{◌≡◌, ◌≢◌, ◌↔◌, ◌<◌, [], Some, None, true, false, IsTrue, IfOk};
ghost use Rattle.std.specs.Prelude.{OnOk, OnErr, length};
ghost use Rattle.std.specs.Option.{option_copied, option_eq};
ghost use Rattle.patricia_model.specs.Siblings.{IsCanonical};
ghost use Rattle.patricia_model.specs.Internal.WalkStates.{steps_in};
ghost use Rattle.patricia_nodes.specs.Internal.NodeVecs.{ReadsNode};
ghost use Rattle.patricia_nodes.specs.Internal.Plans.{IsWellFormed, siblings_of, entries_of};
ghost use Rattle.patricia_walks.specs.Equality.{are_same_entries};
ghost use Rattle.patricia_walks.specs.Internal.Comparisons.{IsComparison, ComparesOn, entries_in};
ghost use Rattle.patricia_walks.specs.Internal.Comparisons.{is_same_node, is_same_left};
ghost use Rattle.patricia_walks.specs.Internal.Comparisons.{are_same_nodes, steps_left};

use patricia_keys::Bytes;
use patricia_nodes::arena::NodeArena;
use patricia_nodes::arena::node_vec::NodeVec;
use patricia_nodes::link::{Link, NodeId};
use patricia_nodes::parts::TreeParts;
use std::alloc::{AllocError, Global};
use std::cmp::PartialEq;

// Whether two places have no value, or equal ones.
fn are_same_values<V: PartialEq>(one: Option<&V>, two: Option<&V>) -> bool
    ensures { result ≡ option_eq V.eq (option_copied one.entry) (option_copied two.entry) }
{
    match (one, two) {
        (None, None) => true,
        (Some(value), Some(other)) => *value == *other,
        _ => false,
    }
}

// Whether there are no siblings in either tree.
fn are_none(at: &(Link, Link)) -> bool
    ensures { IsTrue result ↔ (at.now ≡ (None, None)) }
{
    at.0.get().is_none() && at.1.get().is_none()
}

// Whether two nodes have the same label, and equal values or none.
fn are_same<V: PartialEq>(one: &NodeVec<V>, id: NodeId, two: &NodeVec<V>, other: NodeId) -> bool
    requires within { id < length one.now.items }
    requires other_within { other < length two.now.items }
    ensures { ReadsNode one.now id (λ n. ReadsNode two.now other (λ m.
        result ≡ is_same_node V.eq n m)) }
{
    one.label(id) == two.label(other) && are_same_values(one.value(id), two.value(other))
}

// How far a comparison has come.
#[derive(Drop)]
struct Comparison<'a, V> {
    one: &'a NodeArena<V>,
    two: &'a NodeArena<V>,
    // the siblings that are next in both
    next: (Link, Link),
    // the siblings that wait in both
    stack: Vec<(Link, Link)>,
}

impl<'a, V: PartialEq> Comparison<'a, V> {
    // A comparison of all nodes. Making it does not allocate.
    fn new(alloc: Global, one: &'a NodeArena<V>, two: &'a NodeArena<V>) -> Self
        requires whole { IsWellFormed one.now }
        requires other_whole { IsWellFormed two.now }
        ensures comparison { IsComparison result }
        ensures left { is_same_left V.eq result
            ≡ are_same_nodes V.eq (siblings_of one.now) (siblings_of two.now) }
        ensures steps { steps_left result ≡ steps_in (siblings_of one.now) }
    {
        Comparison {
            one,
            two,
            next: (one.root, two.root),
            stack: Vec::new(alloc),
        }
    }

    // Advances from two nodes that are the same to their children, or to their siblings where none
    // has children. The siblings wait only where there are both.
    fn descend(&mut self, id: NodeId, other: NodeId) -> Result<(), AllocError>
        requires comparison { IsComparison self.old }
        requires next { self.old.next.0 ≡ Some id }
        requires other_next { self.old.next.1 ≡ Some other }
        requires same { ReadsNode self.old.one.now.nodes id
            (λ n. ReadsNode self.old.two.now.nodes other (λ m.
            is_same_node V.eq n m ≡ true)) }
        ensures { OnOk result (ComparesOn V.eq self.old self.new) }
    {
        let nodes = &self.one.nodes;
        let others = &self.two.nodes;
        let children = (nodes.child(id), others.child(other));
        let siblings = (nodes.sibling(id), others.sibling(other));
        if are_none(&children) {
            self.next = siblings;
            return Ok(());
        }
        self.next = children;
        if are_none(&siblings) {
            return Ok(());
        }
        self.stack.push(siblings)?;
        Ok(())
    }

    // Goes back to the siblings that wait last, if any wait.
    fn back(&mut self) -> bool
        requires comparison { IsComparison self.old }
        requires over { self.old.next ≡ (None, None) }
        ensures step { IsTrue result → ComparesOn V.eq self.old self.new }
        ensures over { result ≡ false → is_same_left V.eq self.old ≡ true }
    {
        let Some(siblings) = self.stack.pop() else {
            return false;
        };
        self.next = siblings;
        true
    }

    // Whether what is left of both trees is the same.
    fn finish(&mut self) -> Result<bool, AllocError>
        requires { IsComparison self.old }
        ensures same { IfOk result (λ b. b ≡ is_same_left V.eq self.old) }
        ensures err { OnErr result (1 < steps_left self.old) }
    {
        loop {
            match (self.next.0.get(), self.next.1.get()) {
                (Some(id), Some(other)) => {
                    if !are_same(&self.one.nodes, id, &self.two.nodes, other) {
                        return Ok(false);
                    }
                    self.descend(id, other)?;
                }
                (None, None) => {
                    if !self.back() {
                        return Ok(true);
                    }
                }
                _ => return Ok(false),
            }
        }
    }
}

/// Whether two trees have the same keys, with equal values. The error is out of memory for the
/// siblings that wait.
pub fn are_equal<K: Bytes, V: PartialEq>(
    one: &TreeParts<V>,
    two: &TreeParts<V>,
) -> Result<bool, AllocError>
    requires whole { IsWellFormed one.now.arena }
    requires siblings { IsCanonical K.item (siblings_of one.now.arena) }
    requires other_whole { IsWellFormed two.now.arena }
    requires other_siblings { IsCanonical K.item (siblings_of two.now.arena) }
    ensures same { IfOk result (λ b.
        b ≡ are_same_entries V.eq (entries_in one.now) (entries_in two.now)) }
    ensures err_only_nonempty { OnErr result (entries_of one.now.arena ≢ []) }
{
    if !are_same_values(one.value.as_ref(), two.value.as_ref()) {
        return Ok(false);
    }
    let mut comparison = Comparison::new(one.alloc, &one.arena, &two.arena);
    comparison.finish()
}
