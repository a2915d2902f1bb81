//! A walk over all entries that can take out the one at which it stands.
ghost use Rattle.std.specs.Prelude.{◌≡◌, ◌<◌, ◌≤◌, ℕ, List, [], Some, None, false, length};
ghost use Rattle.std.specs.Prelude.{IfOk, OnOk, OnErr, IsTrue, MatchOption};
ghost use Rattle.std.specs.List.{All};
ghost use Rattle.patricia_model.specs.Points.{Joins};
ghost use Rattle.patricia_model.specs.Siblings.{IsCanonical, keys_of};
ghost use Rattle.patricia_nodes.specs.declared.arena.seek.LinkRef.TheVariants.{Sibling};
ghost use Rattle.patricia_nodes.specs.Internal.NodeVecs.{ReadsNode};
ghost use Rattle.patricia_nodes.specs.Internal.Plans.{Plan, IsWellFormed, siblings_of, entries_of};
ghost use Rattle.patricia_nodes.specs.Internal.Plans.{head, plan_at};
ghost use Rattle.patricia_nodes.specs.Internal.Places.{Frame, fill, link_ref_of, node_above};
ghost use Rattle.patricia_nodes.specs.Internal.Writes.{LinkRefWithin, Stays};
ghost use Rattle.patricia_edits.specs.Internal.Prunings.{HasLeft, StandsAtEntry, HasPassed};
ghost use Rattle.patricia_edits.specs.Internal.Prunings.{FindsNext, IsGone, steps_left};
ghost use Rattle.patricia_edits.specs.Internal.Removes.{Removes, RestsAround};

use crate::removal::{Linked, remove_linked};
use patricia_keys::Bytes;
use patricia_nodes::arena::NodeArena;
use patricia_nodes::arena::seek::LinkRef;
use patricia_nodes::link::{Link, NodeId};
use std::alloc::{AllocError, Global};

/// A node above a place, and how many bytes of the path come before its label.
#[derive(Clone, Copy)]
pub struct Upper {
    pub at: Linked,
    pub front: usize,
}

/// How far a walk over all entries has come. It stands between the entries that it has passed and
/// those that are left.
#[derive(Drop)]
pub struct Pruning {
    // where the number of the next node stands
    pub link_ref: LinkRef,
    // the next node
    pub next: Link,
    // how many bytes of the path come before its label
    pub front: usize,
    /// The key of the last entry, with room for all keys that are left.
    pub path: Vec<u8>,
    // the nodes above the next one, the outermost first
    pub above: Vec<Upper>,
}

impl Pruning {
    /// Makes a walk before the first entry, where no key has more bytes than these. The error is
    /// out of memory, never for 0 bytes.
    pub fn new<V>(
        arena: &NodeArena<V>,
        alloc: Global,
        longest: usize,
    ) -> Result<Pruning, AllocError>
        requires whole { IsWellFormed arena.now }
        requires longest { All (λ k. length k ≤ longest) (keys_of (entries_of arena.now)) }
        ensures left { IfOk result (λ w. HasLeft arena.now w (entries_of arena.now)) }
        ensures path { IfOk result (λ w. w.path.items ≡ []) }
    {
        let path = Vec::with_capacity(alloc, longest)?;
        let above = Vec::with_capacity(alloc, longest)?;
        Ok(Pruning {
            link_ref: LinkRef::Root,
            next: arena.root,
            front: 0,
            path,
            above,
        })
    }

    // Goes to the place of a node, whatever stands there now.
    fn stand<V>(&mut self, arena: &NodeArena<V>, upper: Upper)
        requires whole { IsWellFormed arena.now }
        requires within { LinkRefWithin upper.at.link_ref (length arena.now.nodes.items) }
        ensures link_ref { self.new.link_ref ≡ upper.at.link_ref }
        ensures next { (frames : List (Frame V)) (focus : Plan V)
            → upper.at.link_ref ≡ link_ref_of frames
            → fill frames focus ≡ plan_at arena.now.nodes.items arena.now.root
            → self.new.next ≡ head focus }
        ensures front { self.new.front ≡ upper.front }
        ensures path { self.new.path ≡ self.old.path }
        ensures above { self.new.above ≡ self.old.above }
    {
        let at = upper.at;
        self.link_ref = at.link_ref;
        self.next = arena.linked_at(&at.link_ref);
        self.front = upper.front;
    }

    // Goes behind a node, to its sibling.
    fn pass<V>(&mut self, arena: &NodeArena<V>, upper: Upper)
        requires within { upper.at.id < length arena.now.nodes.items }
        ensures link_ref { self.new.link_ref
            ≡ Sibling upper.at.id (node_above upper.at.link_ref) }
        ensures next { ReadsNode arena.now.nodes upper.at.id (λ n. self.new.next ≡ n.sibling) }
        ensures front { self.new.front ≡ upper.front }
        ensures path { self.new.path ≡ self.old.path }
        ensures above { self.new.above ≡ self.old.above }
    {
        let at = upper.at;
        self.link_ref = LinkRef::Sibling(at.id, at.link_ref.above());
        self.next = arena.nodes.sibling(at.id);
        self.front = upper.front;
    }

    // Goes from the end of siblings behind the node above them, where there is one.
    fn ascend<V>(&mut self, arena: &NodeArena<V>) -> bool
        requires whole { IsWellFormed arena.now }
        requires left { (left : List (List ℕ × V)) × HasLeft arena.now self.old left }
        requires over { self.old.next ≡ None }
        ensures left { (left : List (List ℕ × V)) → HasLeft arena.now self.old left
            → HasLeft arena.now self.new left }
        ensures over { (left : List (List ℕ × V)) → HasLeft arena.now self.old left
            → result ≡ false → left ≡ [] }
        ensures fewer { IsTrue result
            → steps_left arena.now self.new < steps_left arena.now self.old }
    {
        let Some(upper) = self.above.pop() else {
            return false;
        };
        self.pass(arena, upper);
        true
    }

    // Goes from a node to its children. The path is then the key of the node's value, if it has
    // one.
    fn descend<K: Bytes, V>(&mut self, arena: &NodeArena<V>, id: NodeId)
        requires whole { IsWellFormed arena.now }
        requires siblings { IsCanonical K.item (siblings_of arena.now) }
        requires left { (left : List (List ℕ × V)) × HasLeft arena.now self.old left }
        requires next { self.old.next ≡ Some id }
        ensures left { (left : List (List ℕ × V)) → HasLeft arena.now self.old left
            → ReadsNode arena.now.nodes id (λ n. HasPassed arena.now self.new id left n.value) }
        ensures fewer { steps_left arena.now self.new < steps_left arena.now self.old }
    {
        self.path.truncate(self.front);
        let _kept = self.path.extend_from_slice(arena.nodes.label(id));
        let at = Linked {
            link_ref: self.link_ref,
            id,
        };
        self.above.push_reserved(Upper {
            at,
            front: self.front,
        });
        self.link_ref = LinkRef::Child(id);
        self.next = arena.nodes.child(id);
        self.front = self.path.len();
    }

    /// Advances to the next entry, whose key is then the path, and returns its node. Does not
    /// allocate.
    pub fn advance<K: Bytes, V>(&mut self, arena: &NodeArena<V>) -> Option<NodeId>
        requires whole { IsWellFormed arena.now }
        requires siblings { IsCanonical K.item (siblings_of arena.now) }
        requires left { (left : List (List ℕ × V)) × HasLeft arena.now self.old left }
        ensures { (left : List (List ℕ × V)) → HasLeft arena.now self.old left
            → FindsNext arena.now self.new left result }
    {
        loop {
            match self.next.get() {
                Some(id) => {
                    self.descend::<K, V>(arena, id);
                    if arena.nodes.value(id).is_some() {
                        return Some(id);
                    }
                }
                None => {
                    if !self.ascend(arena) {
                        return None;
                    }
                }
            }
        }
    }

    // Goes to where a node was taken out, to what is left there. Where the node above has taken in
    // its other child, goes to that node, or behind it where the other child was passed.
    fn settle<V>(&mut self, arena: &NodeArena<V>, gone: Upper, joined_above: bool)
        requires whole { IsWellFormed arena.now }
        requires gone { (outer : List (Frame V)) × (left : List (List ℕ × V))
            × IsGone arena.now self.old gone outer left
            × RestsAround outer arena.now joined_above }
        ensures left { (outer : List (Frame V)) (left : List (List ℕ × V))
            → IsGone arena.now self.old gone outer left
            → RestsAround outer arena.now joined_above → HasLeft arena.now self.new left }
        ensures path { self.new.path ≡ self.old.path }
    {
        if !joined_above {
            self.stand(arena, gone);
            return;
        }
        let Some(upper) = self.above.pop() else {
            return;
        };
        let at = gone.at;
        match at.link_ref {
            LinkRef::Sibling(_, _) => self.pass(arena, upper),
            _ => self.stand(arena, upper),
        }
    }

    /// Takes out the entry that it advanced to last, and returns its value. The error is out of
    /// memory for a joined label.
    pub fn remove<K: Bytes, V: Drop>(
        &mut self,
        arena: &mut NodeArena<V>,
    ) -> Result<Option<V>, AllocError>
        requires whole { IsWellFormed arena.old }
        requires siblings { IsCanonical K.item (siblings_of arena.old) }
        requires entry { (id : ℕ) × (value : V) × (left : List (List ℕ × V))
            × StandsAtEntry arena.old self.old id value left }
        ensures removed { OnOk result (Removes K.item arena.old arena.new self.old.path.items) }
        ensures left { OnOk result ((id : ℕ) (value : V) (left : List (List ℕ × V))
            → StandsAtEntry arena.old self.old id value left
            → HasLeft arena.new self.new left) }
        ensures value { IfOk result (λ taken. (id : ℕ) (value : V) (left : List (List ℕ × V))
            → StandsAtEntry arena.old self.old id value left → taken ≡ Some value) }
        ensures unchanged { OnErr result (Stays arena.old arena.new) }
        ensures stands { OnErr result ((id : ℕ) (value : V) (left : List (List ℕ × V))
            → StandsAtEntry arena.old self.old id value left
            → StandsAtEntry arena.new self.new id value left) }
        ensures joins { OnErr result
            (Joins K.item (keys_of (entries_of arena.old)) self.old.path.items) }
        ensures path { self.new.path ≡ self.old.path }
    {
        let Some(gone) = self.above.pop() else {
            unreachable!();
        };
        match remove_linked::<K, V>(arena, &gone.at) {
            Ok(removed) => {
                self.settle(arena, gone, removed.joined_above);
                Ok(removed.value)
            }
            Err(error) => {
                self.above.push_reserved(gone);
                Err(error)
            }
        }
    }
}
