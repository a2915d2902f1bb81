//! How far a walk over the values of nodes has come, whatever it takes out of them.
//!
//! It reads no label and keeps no key, only the siblings that are still to come.
ghost use Rattle.std.specs.Prelude.{◌≡◌, [], ◌∷◌, ◌++◌, Some, None, false, IfOk, OnOk, OnErr};
ghost use Rattle.std.specs.Prelude.{IsTrue};
ghost use Rattle.std.specs.Option.{option_map};
ghost use Rattle.patricia_nodes.specs.Internal.NodeVecs.{ReadsNode};
ghost use Rattle.patricia_walks.specs.declared.held_tree.ValueSlot.TheVariants.{OfNode};
ghost use Rattle.patricia_walks.specs.Internal.ValuePositions.{IsValuePosition, place_of};
ghost use Rattle.patricia_walks.specs.Internal.ValuePositions.{Passes, TakesValue, IsRefused};

use patricia_nodes::arena::node_vec::NodeVec;
use patricia_nodes::link::{Link, NodeId};
use std::alloc::{AllocError, Global};

/// The siblings that are still to come.
#[derive(Drop)]
pub struct ValueProgress {
    // the siblings that are next
    pub next: Link,
    // the siblings that wait
    pub stack: Vec<Link>,
}

impl ValueProgress {
    /// These siblings are next, and none wait. Making it does not allocate.
    pub fn new(alloc: Global, next: Link) -> ValueProgress
        ensures next { result.next ≡ next }
        ensures stack { result.stack.items ≡ [] }
    {
        ValueProgress {
            next,
            stack: Vec::new(alloc),
        }
    }

    /// Ends the walk.
    pub fn finish(&mut self)
        ensures next { self.new.next ≡ None }
        ensures stack { self.new.stack.items ≡ [] }
    {
        self.next = Link::none();
        self.stack.clear();
    }

    // Advances to the node's children, or to its siblings where it has no children. Its siblings
    // wait only where it has both. An error changes nothing.
    #[inline(always)]
    fn enter<V>(&mut self, nodes: &NodeVec<V>, id: NodeId) -> Result<(), AllocError>
        requires position { IsValuePosition (place_of nodes.now.items self.old) }
        requires next { self.old.next ≡ Some id }
        ensures passes { OnOk result (ReadsNode nodes.now id (λ n.
            Passes (place_of nodes.now.items self.old) (option_map (λ _. OfNode id) n.value)
            (place_of nodes.now.items self.new))) }
        ensures same { OnErr result
            (place_of nodes.now.items self.new ≡ place_of nodes.now.items self.old) }
    {
        let child = nodes.child(id);
        let sibling = nodes.sibling(id);
        if child.get().is_none() {
            self.next = sibling;
            return Ok(());
        }
        if sibling.get().is_some() {
            self.stack.push(sibling)?;
        }
        self.next = child;
        Ok(())
    }

    // Goes back to the siblings that wait last, if any wait.
    #[inline(always)]
    fn back(&mut self) -> bool
        ensures some { IsTrue result →
            self.old.stack.items ≡ self.new.stack.items ++ self.new.next ∷ [] }
        ensures none { result ≡ false → self.old.stack.items ≡ [] }
        ensures next { result ≡ false → self.new.next ≡ self.old.next }
        ensures stack { result ≡ false → self.new.stack.items ≡ self.old.stack.items }
    {
        let Some(siblings) = self.stack.pop() else {
            return false;
        };
        self.next = siblings;
        true
    }

    /// Takes the next node that has a value. An error takes none.
    #[inline(always)]
    pub fn next_node<V>(&mut self, nodes: &NodeVec<V>) -> Result<Option<NodeId>, AllocError>
        requires { IsValuePosition (place_of nodes.now.items self.old) }
        ensures position { IsValuePosition (place_of nodes.now.items self.new) }
        ensures ok { IfOk result (λ found. TakesValue (place_of nodes.now.items self.old)
            (option_map (λ id. OfNode id) found) (place_of nodes.now.items self.new)) }
        ensures refused { OnErr result
            (IsRefused (place_of nodes.now.items self.old) (place_of nodes.now.items self.new)) }
    {
        loop {
            match self.next.get() {
                Some(id) => {
                    // read first, so that it waits for memory together with the links
                    let has_value = nodes.value(id).is_some();
                    self.enter(nodes, id)?;
                    if has_value {
                        return Ok(Some(id));
                    }
                }
                None => {
                    if !self.back() {
                        return Ok(None);
                    }
                }
            }
        }
    }
}
