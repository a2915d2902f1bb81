//! How far a walk by keys has come, whatever it takes out of the nodes.
ghost use Rattle.std.specs.Prelude.{◌≡◌, ◌<◌, ◌≤◌, ◌++◌, ◌∷◌, [], length, None, IsTrue, false};
ghost use Rattle.std.specs.Prelude.{OnOk, OnErr};
ghost use Rattle.patricia_keys.specs.Keys.{IsValid};
ghost use Rattle.patricia_nodes.specs.Internal.NodeVecs.{ReadsNode};
ghost use Rattle.patricia_walks.specs.Internal.Fronts.{Enters, IsCut};

use crate::waiting::push_siblings;
use patricia_keys::Bytes;
use patricia_nodes::arena::node_vec::NodeVec;
use patricia_nodes::link::{Link, NodeId};
use patricia_nodes::path::extend_by_label;
use std::alloc::{AllocError, Global};

/// How far a walk has come.
#[derive(Drop)]
pub struct Progress {
    // the key of the last value
    pub path: Vec<u8>,
    // how many bytes of the path stand before the keys of the siblings that are next
    pub front: usize,
    // the siblings that are next
    pub next: Link,
    // the siblings that wait, behind so many bytes of the path
    pub stack: Vec<(usize, Link)>,
}

impl Progress {
    /// That of a walk over these siblings, which has not passed any. Making it does not allocate.
    pub fn new(alloc: Global, next: Link) -> Progress
        ensures path { result.path.items ≡ [] }
        ensures front { result.front ≡ 0 }
        ensures next { result.next ≡ next }
        ensures stack { result.stack.items ≡ [] }
    {
        Progress {
            path: Vec::new(alloc),
            front: 0,
            next,
            stack: Vec::new(alloc),
        }
    }

    /// Ends the walk.
    pub fn finish(&mut self)
        ensures path { self.new.path.items ≡ [] }
        ensures front { self.new.front ≡ 0 }
        ensures next { self.new.next ≡ None }
        ensures stack { self.new.stack.items ≡ [] }
    {
        self.path.clear();
        self.front = 0;
        self.next = Link::none();
        self.stack.clear();
    }

    /// Goes to a node, whose label stands behind the first bytes of the path then. Its children are
    /// next, and its siblings wait; or its siblings are next, where it has no children. An error
    /// passes nothing.
    #[inline(always)]
    pub fn enter<K: Bytes, V>(&mut self, nodes: &NodeVec<V>, id: NodeId) -> Result<(), AllocError>
        requires within { id < length nodes.now.items }
        requires front { self.old.front ≤ length self.old.path.items }
        requires valid { ReadsNode nodes.now id (λ n. IsValid K.item n.label) }
        ensures enters { ReadsNode nodes.now id (λ n. OnOk result (Enters n self.old self.new)) }
        ensures refused { OnErr result (IsCut self.old self.new) }
    {
        let child = nodes.child(id);
        let sibling = nodes.sibling(id);
        let front = self.front;
        self.path.truncate(front);
        extend_by_label::<K, V>(&mut self.path, nodes, id)?;
        if child.get().is_none() {
            self.next = sibling;
            return Ok(());
        }
        let Ok(()) = push_siblings(&mut self.stack, front, sibling) else {
            self.path.truncate(self.front);
            return Err(AllocError);
        };
        self.front = self.path.len();
        self.next = child;
        Ok(())
    }

    /// Goes back to the siblings that wait last, if any wait. The path stays.
    #[inline(always)]
    pub fn back(&mut self) -> bool
        ensures path { self.new.path.items ≡ self.old.path.items }
        ensures step { IsTrue result → self.old.stack.items
            ≡ self.new.stack.items ++ (self.new.front, self.new.next) ∷ [] }
        ensures over { result ≡ false → self.old.stack.items ≡ [] }
        ensures stays { result ≡ false → (self.new.stack.items ≡ self.old.stack.items)
            × (self.new.front ≡ self.old.front) × (self.new.next ≡ self.old.next) }
    {
        let Some((front, siblings)) = self.stack.pop() else {
            return false;
        };
        self.front = front;
        self.next = siblings;
        true
    }
}
