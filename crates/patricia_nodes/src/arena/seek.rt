//! The place of a key among the nodes.
ghost use Rattle.std.specs.Prelude.{◌≡◌, ◌≢◌, ◌<◌, ◌≤◌, [], length, take, IfSome};
ghost use Rattle.std.specs.Prelude.{slice_index_or, List};
ghost use Rattle.std.specs.Option.{option_copied};
ghost use Rattle.std.specs.FinMap.{find};
ghost use Rattle.patricia_keys.specs.Keys.{key_cmp, IsValid};
ghost use Rattle.patricia_model.specs.Siblings.{IsCanonical};
ghost use Rattle.patricia_model.specs.Internal.Counts.{IsCounted};
ghost use Rattle.patricia_model.specs.Internal.LabelCmp.{ComparesLabel};
ghost use Rattle.patricia_store.specs.Internal.Heads.{byte_of};
ghost use Rattle.patricia_nodes.specs.Internal.NodeVecs.{ReadsNode};
ghost use Rattle.patricia_nodes.specs.Internal.Plans.{IsWellFormed, siblings_of, entries_of};
ghost use Rattle.patricia_nodes.specs.Internal.Plans.{Plan, head, plan_at};
ghost use Rattle.patricia_nodes.specs.Internal.Places.{IsSeekResult, node_of, node_under};
ghost use Rattle.patricia_nodes.specs.Internal.Places.{node_above, ref_behind};
ghost use Rattle.patricia_nodes.specs.Internal.Places.{Frame, fill, link_ref_of};
ghost use Rattle.patricia_nodes.specs.Internal.Writes.{LinkRefWithin};

mod trail;

use crate::arena::NodeArena;
use crate::link::{Link, NodeId};
use crate::steps::Steps;
use patricia_keys::{BorrowedBytes, Bytes};
use patricia_model::label_cmp::{LabelCmp, compare_label};
use std::marker::Brand;
use std::sync::ledger::{Blank, Ledger};

/// Where the number of a node stands: at the top, or in a node as its child or its sibling. A
/// sibling comes with the node above it.
#[derive(Clone, Copy)]
pub enum LinkRef {
    Root,
    Child(NodeId),
    Sibling(NodeId, Option<NodeId>),
}

impl LinkRef {
    // The node above, where there is one.
    pub fn above(self) -> Option<NodeId>
        ensures { result ≡ node_above self }
    {
        match self {
            LinkRef::Root => None,
            LinkRef::Child(id) => Some(id),
            LinkRef::Sibling(_, above) => above,
        }
    }

    /// The link to one of the siblings that lie behind one another, by that to the first of them.
    pub fn behind(self, first: NodeId, id: NodeId) -> LinkRef
        requires { first ≤ id }
        ensures { result ≡ ref_behind self first id }
    {
        if first.index() == id.index() {
            self
        } else {
            LinkRef::Sibling(NodeId::new(id.index() - 1), self.above())
        }
    }
}

/// How a look-up ends.
#[derive(Clone, Copy)]
pub enum Match {
    // between two nodes, or where there is none
    Absent,
    // in the label of this node, whose first bytes are common with the key
    InsideLabel(NodeId, usize),
    // at the node of the key
    Exact(NodeId),
}

/// Where a look-up ends, the number that stands there, and what is left of the key.
#[derive(Clone, Copy)]
pub struct SeekResult<Q> {
    pub link_ref: LinkRef,
    pub at: Link,
    pub rest: Q,
    pub matched: Match,
}

impl<Q> SeekResult<Q> {
    // The result of a look-up with these parts.
    fn new(link_ref: LinkRef, at: Link, rest: Q, matched: Match) -> SeekResult<Q>
        ensures link_ref { result.link_ref ≡ link_ref }
        ensures at { result.at ≡ at }
        ensures rest { result.rest ≡ rest }
        ensures matched { result.matched ≡ matched }
    {
        SeekResult {
            link_ref,
            at,
            rest,
            matched,
        }
    }

    /// The node of the key, where there is one.
    pub fn here(&self) -> Option<NodeId>
        ensures { result ≡ node_of self.now.matched }
    {
        match self.matched {
            Match::Exact(id) => Some(id),
            _ => None,
        }
    }
}

impl<Q: BorrowedBytes> SeekResult<Q> {
    /// The topmost node whose keys all begin with the key, where there is one.
    pub fn under(&self) -> Option<NodeId>
        ensures { result ≡ node_under (Q.key self.now.rest) self.now.matched }
    {
        match self.matched {
            Match::Exact(id) => Some(id),
            Match::InsideLabel(id, n) if n == self.rest.as_bytes().len() => Some(id),
            _ => None,
        }
    }
}

impl<V> NodeArena<V> {
    // The length of a node's label, where it has less than 63 bytes and begins a key that has its
    // first byte. Where it has one byte, the node is not read.
    #[inline(always)]
    fn passed_len(&self, id: NodeId, key: &[u8]) -> Option<usize>
        requires within { id < length self.now.nodes.items }
        requires nonempty { key.now ≢ [] }
        requires first { ReadsNode self.now.nodes id
            (λ n. byte_of n.label ≡ slice_index_or key.now 0 0) }
        requires bytes { ReadsNode self.now.nodes id
            (λ n. byte_of n.label ≡ slice_index_or n.label 0 0) }
        ensures { IfSome result (λ len. (len ≤ length key.now)
            × ReadsNode self.now.nodes id (λ n. n.label ≡ take len key.now)) }
    {
        let len = self.nodes.short_len(id);
        if len == 1 {
            return Some(1);
        }
        if len < 63 && len <= key.len() && key[..len] == self.nodes.label(id)[..len] {
            return Some(len);
        }
        None
    }

    /// How a key meets the label of a node. Where their first bytes differ, the node is not read.
    #[inline(always)]
    pub fn compare<Q: BorrowedBytes>(&self, id: NodeId, key: Q) -> LabelCmp<Q>
        requires within { id < length self.now.nodes.items }
        requires valid { ReadsNode self.now.nodes id (λ n. IsValid Q.Owned.item n.label) }
        requires nonempty { ReadsNode self.now.nodes id (λ n. n.label ≢ []) }
        requires key_filled { Q.key key ≢ [] }
        ensures { ReadsNode self.now.nodes id
            (λ n. ComparesLabel Q.Owned.item Q.key (Q.key key) n.label result) }
    {
        let bytes = key.as_bytes();
        let first = bytes[0];
        let other = self.nodes.first_byte(id);
        if first < other {
            return LabelCmp::Before;
        }
        if other < first {
            return LabelCmp::After;
        }
        match self.passed_len(id, bytes) {
            Some(len) => LabelCmp::Full(key.strip_n_prefix(len)),
            None => compare_label(key, self.nodes.label(id)),
        }
    }

    /// The number that stands at a link.
    pub fn linked_at(&self, link_ref: &LinkRef) -> Link
        requires whole { IsWellFormed self.now }
        requires within { LinkRefWithin link_ref.now (length self.now.nodes.items) }
        ensures { (frames : List (Frame V)) (focus : Plan V) → link_ref.now ≡ link_ref_of frames
            → fill frames focus ≡ plan_at self.now.nodes.items self.now.root
            → result ≡ head focus }
    {
        match link_ref {
            LinkRef::Root => self.root,
            LinkRef::Child(id) => self.nodes.child(*id),
            LinkRef::Sibling(id, _) => self.nodes.sibling(*id),
        }
    }

    /// The place of a nonempty key. It takes a step where a label is compared with the key.
    pub fn seek_counted<Q: BorrowedBytes, L: Ledger>(
        &self,
        key: Q,
        steps: &mut Steps<L>,
    ) -> SeekResult<Q>
        requires whole { IsWellFormed self.now }
        requires siblings { IsCanonical Q.Owned.item (siblings_of self.now) }
        requires nonempty { Q.key key ≢ [] }
        ensures place { IsSeekResult Q.Owned.item Q.key self.now (Q.key key) result }
        ensures counted { IsCounted Q.Owned.item
            (siblings_of self.now) (Q.key key) steps.old steps.new }
    {
        let mut link_ref = LinkRef::Root;
        let mut at = self.root;
        let mut rest = key;
        let matched = loop {
            let Some(first) = at.get() else {
                break Match::Absent;
            };
            let id = self.nodes.run(first, rest.as_bytes()[0]);
            link_ref = link_ref.behind(first, id);
            at = Link::some(id);
            steps.add(id.index() - first.index() + 1);
            match self.compare(id, rest) {
                LabelCmp::Before => break Match::Absent,
                LabelCmp::After => {
                    link_ref = LinkRef::Sibling(id, link_ref.above());
                    at = self.nodes.sibling(id);
                }
                LabelCmp::Partial(n) => break Match::InsideLabel(id, n),
                LabelCmp::Full(left) => {
                    if left.is_empty() {
                        break Match::Exact(id);
                    }
                    link_ref = LinkRef::Child(id);
                    at = self.nodes.child(id);
                    rest = left;
                }
            }
        };
        SeekResult::new(link_ref, at, rest, matched)
    }

    // The same, counted in a ledger that nobody reads.
    fn seek_from<Q: BorrowedBytes, L: Ledger>(&self, key: Q, blank: Blank) -> SeekResult<Q>
        requires name { blank.name ≡ L.name }
        requires parts { blank.parts ≡ L.parts }
        requires some { 0 < L.parts }
        requires whole { IsWellFormed self.now }
        requires siblings { IsCanonical Q.Owned.item (siblings_of self.now) }
        requires nonempty { Q.key key ≢ [] }
        ensures { IsSeekResult Q.Owned.item Q.key self.now (Q.key key) result }
    {
        let mut steps: Steps<L> = Steps::new(blank);
        self.seek_counted(key, &mut steps)
    }

    /// The place of a nonempty key.
    pub fn seek<Q: BorrowedBytes>(&self, key: Q) -> SeekResult<Q>
        requires whole { IsWellFormed self.now }
        requires siblings { IsCanonical Q.Owned.item (siblings_of self.now) }
        requires nonempty { Q.key key ≢ [] }
        ensures { IsSeekResult Q.Owned.item Q.key self.now (Q.key key) result }
    {
        self.seek_from::<Q, Brand>(key, Blank::new(1))
    }

    /// The value at a nonempty key. It takes a step where a label is compared with the key.
    pub fn get_counted<Q: BorrowedBytes, L: Ledger>(
        &self,
        key: Q,
        steps: &mut Steps<L>,
    ) -> Option<&V>
        requires whole { IsWellFormed self.now }
        requires siblings { IsCanonical Q.Owned.item (siblings_of self.now) }
        requires nonempty { Q.key key ≢ [] }
        ensures value { option_copied result ≡ find key_cmp (Q.key key) (entries_of self.now) }
        ensures counted { IsCounted Q.Owned.item
            (siblings_of self.now) (Q.key key) steps.old steps.new }
    {
        let place = self.seek_counted(key, steps);
        match place.here() {
            Some(id) => self.nodes.value(id),
            None => None,
        }
    }
}
