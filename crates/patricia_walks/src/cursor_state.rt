//! How far a cursor has come over a tree that it owns.
ghost use Rattle.std.specs.Prelude.{◌≡◌, ◌≢◌, ◌<◌, Some, None, false, [], IfOk, IfSome, IfNone};
ghost use Rattle.std.specs.Prelude.{OnOk, OnErr, IsTrue};
ghost use Rattle.std.specs.Option.{option_map};
ghost use Rattle.patricia_model.specs.Prefixes.{under};
ghost use Rattle.patricia_model.specs.Siblings.{IsCanonical};
ghost use Rattle.patricia_nodes.specs.Internal.Plans.{IsWellFormed, siblings_of, siblings_at};
ghost use Rattle.patricia_walks.specs.Internal.Fronts.{IsFrontPosition, moves_left};
ghost use Rattle.patricia_nodes.specs.Internal.Places.{entries_below};
ghost use Rattle.patricia_walks.specs.Internal.Holders.{numbered_slots, holders};
ghost use Rattle.patricia_walks.specs.Internal.CursorStates.{position_of, left_of, Advances};
ghost use Rattle.patricia_walks.specs.Internal.CursorStates.{StepIsRefused, IsAtStart, StartsUnder};

use crate::held_tree::{HeldTree, ValueSlot, held_by};
use crate::progress::Progress;
use patricia_keys::{BorrowedBytes, Bytes};
use patricia_nodes::arena::NodeArena;
use patricia_nodes::link::{Link, NodeId};
use patricia_nodes::parts::TreeParts;
use std::alloc::AllocError;

/// Where a walk under a prefix is to begin: at a node, whose label comes behind the first bytes of
/// the prefix.
#[derive(Clone, Copy)]
pub struct Start {
    pub front: usize,
    pub top: NodeId,
}

/// A tree, and how far a cursor has come over it.
#[derive(Drop)]
pub struct CursorState<V> {
    pub tree: HeldTree<V>,
    pub progress: Progress,
    // who holds the value at the path, while it is due
    pub pending: Option<ValueSlot>,
}

/// Where a walk under a prefix that is not empty begins, if there is a key under it.
pub fn find_start<Q: BorrowedBytes, V>(arena: &NodeArena<V>, prefix: Q) -> Option<Start>
    requires whole { IsWellFormed arena.now }
    requires siblings { IsCanonical Q.Owned.item (siblings_of arena.now) }
    requires nonempty { Q.key prefix ≢ [] }
    ensures some { IfSome result (λ s. StartsUnder Q.Owned.item arena.now (Q.key prefix) s) }
    ensures none { IfNone result (under (Q.key prefix) (holders None arena.now) ≡ []) }
{
    let place = arena.seek(prefix);
    let front = prefix.as_bytes().len() - place.rest.as_bytes().len();
    let top = place.under()?;
    Some(Start { front, top })
}

impl<V> CursorState<V> {
    // The state of a cursor that has not advanced yet.
    fn from(tree: HeldTree<V>, pending: Option<ValueSlot>, next: Link) -> Self
        ensures tree { result.tree ≡ tree }
        ensures seen { position_of result ≡ record {
          nodes = numbered_slots 0 tree.parts.arena.nodes.items;
          path = [];
          front = 0;
          pending = pending;
          next = next;
          stack = [];
        } }
    {
        let alloc = tree.parts.alloc;
        CursorState {
            tree,
            progress: Progress::new(alloc, next),
            pending,
        }
    }

    /// The state of a cursor before the first of all entries.
    pub fn new<K: Bytes>(parts: TreeParts<V>) -> CursorState<V>
        requires whole { IsWellFormed parts.arena }
        requires siblings { IsCanonical K.item (siblings_of parts.arena) }
        ensures tree { result.tree.parts ≡ parts }
        ensures position { IsFrontPosition K.item (position_of result) }
        ensures left { left_of result ≡ holders parts.value parts.arena }
        ensures last { result.tree.last ≡ None }
    {
        let tree = HeldTree { parts, last: None };
        let pending = tree.root_value_slot();
        let next = tree.root();
        CursorState::from(tree, pending, next)
    }

    /// The state of a cursor at its end.
    pub fn ended<K: Bytes>(parts: TreeParts<V>) -> CursorState<V>
        ensures tree { result.tree.parts ≡ parts }
        ensures position { IsFrontPosition K.item (position_of result) }
        ensures left { left_of result ≡ [] }
        ensures stack { result.progress.stack.items ≡ [] }
        ensures last { result.tree.last ≡ None }
    {
        let tree = HeldTree { parts, last: None };
        CursorState::from(tree, None, Link::none())
    }

    // Advances to the node that is next, whose value is due then.
    fn descend<K: Bytes>(&mut self, id: NodeId) -> Result<(), AllocError>
        requires position { IsFrontPosition K.item (position_of self.old) }
        requires taken { self.old.pending ≡ None }
        requires next { self.old.progress.next ≡ Some id }
        ensures position { IsFrontPosition K.item (position_of self.new) }
        ensures left { left_of self.new ≡ left_of self.old }
        ensures less { OnOk result
            (moves_left (position_of self.new) < moves_left (position_of self.old)) }
        ensures tree { self.new.tree.parts ≡ self.old.tree.parts }
        ensures last { self.new.tree.last ≡ self.old.tree.last }
    {
        let nodes = &self.tree.parts.arena.nodes;
        // read first, so that it waits for memory together with the label
        let holder = held_by(nodes, id);
        self.progress.enter::<K, V>(nodes, id)?;
        self.pending = holder;
        Ok(())
    }

    // Advances to the next value, whose key is then the path, and who holds it is due. The answer
    // is false where there is none.
    fn seek<K: Bytes>(&mut self) -> Result<bool, AllocError>
        requires { IsFrontPosition K.item (position_of self.old) }
        ensures position { IsFrontPosition K.item (position_of self.new) }
        ensures left { left_of self.new ≡ left_of self.old }
        ensures found { IfOk result (λ found. IsTrue found → self.new.pending ≢ None) }
        ensures over { IfOk result (λ found. found ≡ false → left_of self.old ≡ []) }
        ensures refused { OnErr result (left_of self.old ≢ []) }
        ensures tree { self.new.tree.parts ≡ self.old.tree.parts }
        ensures last { self.new.tree.last ≡ self.old.tree.last }
    {
        loop {
            if self.pending.is_some() {
                return Ok(true);
            }
            match self.progress.next.get() {
                Some(id) => self.descend::<K>(id)?,
                None => {
                    if !self.progress.back() {
                        return Ok(false);
                    }
                }
            }
        }
    }

    // Takes the value that is due for lent.
    fn mark_lent<K: Bytes>(&mut self)
        requires position { IsFrontPosition K.item (position_of self.old) }
        requires pending { self.old.pending ≢ None }
        ensures position { IsFrontPosition K.item (position_of self.new) }
        ensures goes { Advances self.old (Some self.old.progress.path.items) self.new }
        ensures tree { self.new.tree.parts ≡ self.old.tree.parts }
    {
        self.tree.last = self.pending.take();
    }

    /// Advances to the next value, and returns its key.
    pub fn advance<K: Bytes>(&mut self) -> Result<Option<K>, AllocError>
        requires { IsFrontPosition K.item (position_of self.old) }
        ensures position { IsFrontPosition K.item (position_of self.new) }
        ensures goes { IfOk result (λ key. Advances self.old (option_map K.key key) self.new) }
        ensures refused { OnErr result (StepIsRefused self.old self.new) }
        ensures tree { self.new.tree.parts ≡ self.old.tree.parts }
    {
        if !self.seek::<K>()? {
            return Ok(None);
        }
        let key = K::from_bytes(self.tree.parts.alloc, &self.progress.path)?;
        self.mark_lent::<K>();
        Ok(Some(key))
    }

    /// Begins a walk at a node, whose label comes behind these bytes.
    pub fn start_at<K: Bytes>(&mut self, front: &[u8], top: NodeId) -> Result<(), AllocError>
        requires whole { IsWellFormed self.old.tree.parts.arena }
        requires start { IsAtStart K.item
            (numbered_slots 0 self.old.tree.parts.arena.nodes.items) front.now top }
        requires stack { self.old.progress.stack.items ≡ [] }
        ensures position { OnOk result (IsFrontPosition K.item (position_of self.new)) }
        ensures left { OnOk result (left_of self.new ≡ entries_below front.now
            (siblings_at (numbered_slots 0 self.old.tree.parts.arena.nodes.items) (Some top))) }
        ensures unchanged { OnErr result (self.new ≡ self.old) }
        ensures tree { self.new.tree.parts ≡ self.old.tree.parts }
        ensures last { self.new.tree.last ≡ self.old.tree.last }
    {
        let nodes = &self.tree.parts.arena.nodes;
        let label = nodes.label(top);
        let mut path = Vec::with_capacity(self.tree.parts.alloc, front.len() + label.len())?;
        path.extend_from_slice(front)?;
        path.extend_from_slice(label)?;
        self.progress.front = path.len();
        self.progress.path = path;
        self.pending = held_by(nodes, top);
        self.progress.next = nodes.child(top);
        Ok(())
    }
}
