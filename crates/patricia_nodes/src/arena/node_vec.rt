//! The nodes of a tree by their numbers.
ghost use Rattle.std.specs.Prelude.{◌≡◌, ◌+◌, ◌<◌, ◌≤◌, ◌≢◌, ◌++◌, [], ◌∷◌, IfOk, IsOk, OnOk};
ghost use Rattle.std.specs.Prelude.{IfSome, Some, None, OnErr, replicate};
ghost use Rattle.patricia_model.specs.Clones.{CloneIsSame};
ghost use Rattle.std.specs.Prelude.{ℕ, take, length, slice_get};
ghost use Rattle.std.specs.Borrow.{sem};
ghost use Rattle.std.specs.Option.{option_copied, option_copied_mut};
ghost use Rattle.patricia_store.specs.Internal.Packing.{most};
ghost use Rattle.patricia_store.specs.Internal.Heads.{byte_of, short_len_of};
ghost use Rattle.patricia_store.specs.Internal.Labels.{label_room, joined_room, cut_room};
ghost use Rattle.patricia_store.specs.Internal.Nodes.{Node, IsLink, KeepsRoom, linked, blank};
ghost use Rattle.patricia_store.specs.Internal.Permutations.{AreInverse};
ghost use Rattle.patricia_store.specs.Internal.Renumbering.{moved, KeepsRearranged};
ghost use Rattle.patricia_nodes.specs.Internal.NodeVecs.{ReadsNode, Changes, Trades, value_in};
ghost use Rattle.patricia_nodes.specs.Internal.NodeVecs.{Splits, Joins, IsRun, HasJoinedRoom};
ghost use Rattle.patricia_nodes.specs.Internal.NodeVecs.{lends_value_at};

use crate::link::{Link, NodeId};
use patricia_store::Store;
use std::alloc::{AllocError, Global};
use std::marker::Model;

/// The nodes of a tree, which contracts see as a list of nodes, with how many there is room for and
/// how many more bytes of labels.
#[derive(Drop)]
pub struct NodeVec<V> {
    store: Store<V>,
}

impl<V> Model for NodeVec<V> {
    ghost use Rattle.patricia_store.specs.Internal.Nodes.{Nodes};

    ghost Value = { Nodes V };

    ghost view = { λ v. v.store };
}

// The number in a link.
fn number(link: Link) -> Option<usize>
    ensures { result ≡ link }
{
    match link.get() {
        None => None,
        Some(id) => Some(id.index()),
    }
}

// The link with a number.
fn link(number: Option<usize>) -> Link
    requires { IsLink number }
    ensures { result ≡ number }
{
    match number {
        None => Link::none(),
        Some(id) => Link::some(NodeId::new(id)),
    }
}

/// The link to the same node, where each number has the place that is listed for it.
pub fn moved_link(places: &[u32], at: Link) -> Link
    ensures { result ≡ moved places.now at }
{
    let Some(id) = at.get() else {
        return Link::none();
    };
    match places.get(id.index()) {
        Some(&place) => Link::some(NodeId::new(place as usize)),
        None => at,
    }
}

impl<V> NodeVec<V> {
    /// No node. Does not allocate.
    pub fn new(alloc: Global) -> NodeVec<V>
        ensures { result.items ≡ [] }
    {
        NodeVec {
            store: Store::new(alloc),
        }
    }

    /// How many nodes there are.
    pub fn len(&self) -> usize
        ensures value { result ≡ length self.now.items }
        ensures few { result < most }
    {
        self.store.len()
    }

    /// How many nodes there is room for.
    pub fn capacity(&self) -> usize
        ensures value { result ≡ self.now.capacity }
        ensures enough { length self.now.items ≤ result }
        ensures few { result < most }
    {
        self.store.capacity()
    }

    /// How many more bytes of labels there is room for.
    pub fn room(&self) -> usize
        ensures { result ≡ self.now.room }
    {
        self.store.room()
    }

    /// The label of a node.
    pub fn label(&self, id: NodeId) -> &[u8]
        requires { id < length self.now.items }
        ensures { ReadsNode self.now id (λ n. result.now ≡ n.label) }
    {
        self.store.label(id.index())
    }

    /// The bytes from a node's label on, and how many of them it has.
    pub fn label_onwards(&self, id: NodeId) -> (&[u8], usize)
        requires { id < length self.now.items }
        ensures node { ReadsNode self.now id (λ n. take result.1 result.0.now ≡ n.label) }
        ensures within { result.1 ≤ length result.0.now }
    {
        self.store.label_onwards(id.index())
    }

    /// The length of a node's label, in bytes. Reads its head alone where that is less than 63.
    pub fn label_len(&self, id: NodeId) -> usize
        requires { id < length self.now.items }
        ensures { ReadsNode self.now id (λ n. result ≡ length n.label) }
    {
        self.store.label_len(id.index())
    }

    /// How many bytes the label of a node takes.
    pub fn label_room(&self, id: NodeId) -> usize
        requires { id < length self.now.items }
        ensures { ReadsNode self.now id (λ n. result ≡ label_room (length n.label)) }
    {
        self.store.label_room(id.index())
    }

    /// How many bytes all labels take, or `None` if more than are used. Walks over all nodes.
    pub fn label_bytes(&self) -> Option<usize> {
        self.store.label_bytes()
    }

    /// The value of a node, where there is one.
    pub fn value(&self, id: NodeId) -> Option<&V>
        requires { id < length self.now.items }
        ensures { ReadsNode self.now id (λ n. option_copied result ≡ n.value) }
    {
        self.store.value(id.index())
    }

    /// The first byte of a node's label, 0 where there is none. Reads its head alone.
    pub fn first_byte(&self, id: NodeId) -> u8
        requires { id < length self.now.items }
        ensures { ReadsNode self.now id (λ n. result ≡ byte_of n.label) }
    {
        self.store.first_byte(id.index())
    }

    /// The length of a node's label, in bytes, or 63 where it is no less. Reads its head alone.
    pub fn short_len(&self, id: NodeId) -> usize
        requires { id < length self.now.items }
        ensures { ReadsNode self.now id (λ n. result ≡ short_len_of n.label) }
    {
        self.store.short_len(id.index())
    }

    /// The first child of a node. Reads its head alone.
    pub fn child(&self, id: NodeId) -> Link
        requires { id < length self.now.items }
        ensures node { ReadsNode self.now id (λ n. result ≡ n.child) }
        ensures link { IsLink result }
    {
        link(self.store.child(id.index()))
    }

    /// The sibling of a node. Reads its head alone.
    pub fn sibling(&self, id: NodeId) -> Link
        requires { id < length self.now.items }
        ensures node { ReadsNode self.now id (λ n. result ≡ n.sibling) }
        ensures link { IsLink result }
    {
        link(self.store.sibling(id.index()))
    }

    /// The first node from this one on, along siblings of which each is the next node of the
    /// vector, whose first byte is not less than `b`, or the last of them. Reads heads alone, with
    /// one comparison for each.
    pub fn run(&self, id: NodeId, b: u8) -> NodeId
        requires within { (to : ℕ) → IsRun self.now b id to → to < length self.now.items }
        ensures run { IsRun self.now b id result }
        ensures few { result < most }
    {
        // for the proof alone: there are no more nodes than links can say
        let _few = self.store.len();
        NodeId::new(self.store.run(id.index(), b))
    }

    /// Puts another number for the first child of a node.
    pub fn set_child(&mut self, id: NodeId, to: Link)
        requires there { id < length self.old.items }
        requires link { IfSome to (λ n. n < length self.old.items) }
        ensures node { Changes self.old self.new id (λ n. record n { child = to }) }
        ensures room { KeepsRoom self.old self.new }
    {
        // for the proof alone: there are no more nodes than links can say
        let _few = self.store.len();
        self.store.set_child(id.index(), number(to));
    }

    /// Puts another number for the sibling of a node. Touches its head alone.
    pub fn set_sibling(&mut self, id: NodeId, to: Link)
        requires there { id < length self.old.items }
        requires link { IfSome to (λ n. n < length self.old.items) }
        ensures node { Changes self.old self.new id (λ n. record n { sibling = to }) }
        ensures room { KeepsRoom self.old self.new }
    {
        // for the proof alone: there are no more nodes than links can say
        let _few = self.store.len();
        self.store.set_sibling(id.index(), number(to));
    }

    /// Puts another value to a node, or none, and returns the one that was there.
    pub fn replace_value(&mut self, id: NodeId, value: Option<V>) -> Option<V>
        requires there { id < length self.old.items }
        ensures node { Trades self.old self.new id (λ n. record n { value = value }) result }
        ensures room { KeepsRoom self.old self.new }
    {
        self.store.replace_value(id.index(), value)
    }

    /// Takes the value out of a node, and leaves it without children.
    pub fn take_contents(&mut self, id: NodeId) -> Option<V>
        requires there { id < length self.old.items }
        ensures node { Trades self.old self.new id
            (λ n. record n { child = None; value = None }) result }
        ensures room { KeepsRoom self.old self.new }
    {
        self.store.take_contents(id.index())
    }

    /// Puts another label, first child and value to a node; returns its value. Does not allocate.
    pub fn replace_contents(
        &mut self,
        id: NodeId,
        label: &[u8],
        child: Link,
        value: Option<V>,
    ) -> Option<V>
        requires there { id < length self.old.items }
        requires link { IfSome child (λ n. n < length self.old.items) }
        requires room { label_room (length label.now) ≤ self.old.room }
        ensures node { Trades self.old self.new id
            (λ n. record n { label = label.now; child = child; value = value }) result }
        ensures capacity { self.new.capacity ≡ self.old.capacity }
        ensures room { self.old.room ≤ self.new.room + label_room (length label.now) }
    {
        // for the proof alone: there are no more nodes than links can say
        let _few = self.store.len();
        self.store
            .replace_contents(id.index(), label, number(child), value)
    }

    /// Lends the value of a node.
    pub fn value_mut(&mut self, id: NodeId) -> Option<&mut V>
        requires { id < length self.old.items }
        ensures* writes { sem 𝓛 (lends_value_at V.row self.entry id result) }
        ensures value { option_copied_mut result ≡ value_in (slice_get self.old.items id) }
    {
        self.store.value_mut(id.index())
    }

    /// Adds a node behind the last. Does not allocate.
    pub fn push_reserved(&mut self, label: &[u8], value: Option<V>, child: Link, sibling: Link)
        requires nodes { length self.old.items < self.old.capacity }
        requires bytes { label_room (length label.now) ≤ self.old.room }
        requires child { IsLink child }
        requires sibling { IsLink sibling }
        ensures items { self.new.items
            ≡ self.old.items ++ linked label.now value child sibling ∷ [] }
        ensures capacity { self.new.capacity ≡ self.old.capacity }
        ensures room { self.old.room ≤ self.new.room + label_room (length label.now) }
    {
        self.store
            .push_reserved(label, value, number(child), number(sibling));
    }

    /// Adds a last node, whose label is `upper` and then `lower`. Does not allocate.
    pub fn push_joined(
        &mut self,
        upper: &[u8],
        lower: &[u8],
        value: Option<V>,
        child: Link,
        sibling: Link,
    )
        requires nodes { length self.old.items < self.old.capacity }
        requires bytes { joined_room (length upper.now) (length lower.now) ≤ self.old.room }
        requires child { IsLink child }
        requires sibling { IsLink sibling }
        ensures items { self.new.items
            ≡ self.old.items ++ linked (upper.now ++ lower.now) value child sibling ∷ [] }
        ensures capacity { self.new.capacity ≡ self.old.capacity }
        ensures room { self.old.room
            ≤ self.new.room + joined_room (length upper.now) (length lower.now) }
    {
        self.store
            .push_joined(upper, lower, value, number(child), number(sibling));
    }

    /// Keeps the first `n` bytes of a node's label, or all where there are fewer, and puts another
    /// value to it. The rest of the label, the value and the children that the node had go to the
    /// node `tail`, which becomes its first child and keeps its own sibling; returns the value that
    /// `tail` had. Does not allocate, and copies no byte of the label.
    pub fn split_label(&mut self, id: NodeId, n: usize, tail: NodeId, value: Option<V>) -> Option<V>
        requires there { id < length self.old.items }
        requires tail { tail < length self.old.items }
        requires apart { tail ≢ id }
        requires room { ReadsNode self.old id (λ a. cut_room (length a.label) ≤ self.old.room) }
        ensures nodes { Splits self.old self.new id n tail value result }
        ensures capacity { self.new.capacity ≡ self.old.capacity }
        ensures room { ReadsNode self.old id
            (λ a. self.old.room ≤ self.new.room + cut_room (length a.label)) }
    {
        self.store.split_label(id.index(), n, tail.index(), value)
    }

    /// Puts the label of another node behind that of a node, another first child and another
    /// value, and returns the value that was there. Does not allocate.
    pub fn join_labels(
        &mut self,
        upper: NodeId,
        lower: NodeId,
        child: Link,
        value: Option<V>,
    ) -> Option<V>
        requires upper { upper < length self.old.items }
        requires lower { lower < length self.old.items }
        requires link { IfSome child (λ n. n < length self.old.items) }
        requires room { HasJoinedRoom self.old self.old.room upper lower }
        ensures nodes { Joins self.old self.new upper lower child value result }
        ensures capacity { self.new.capacity ≡ self.old.capacity }
    {
        // for the proof alone: there are no more nodes than links can say
        let _few = self.store.len();
        self.store
            .join_labels(upper.index(), lower.index(), number(child), value)
    }
}

impl<V: Drop> NodeVec<V> {
    /// No node, with room for some, and for some bytes of labels.
    pub fn with_capacity(
        alloc: Global,
        nodes: usize,
        bytes: usize,
    ) -> Result<NodeVec<V>, AllocError>
        ensures items { IfOk result (λ v. v.items ≡ []) }
        ensures capacity { IfOk result (λ v. nodes ≤ v.capacity) }
        ensures room { IfOk result (λ v. bytes ≤ v.room) }
        ensures succeeds { nodes ≡ 0 → bytes ≡ 0 → IsOk result }
    {
        let store = Store::with_capacity(alloc, nodes, bytes)?;
        Ok(NodeVec { store })
    }

    /// Makes room for so many nodes more, and for so many more bytes of labels. A label takes its
    /// bytes, and 12 more where it has 255 or more; a split of a label of 255 bytes or more takes
    /// 24; a joined label takes what both parts take as one. 281,474,976,710,654 nodes are the
    /// most, and so many bytes: room for more is refused.
    #[cold]
    pub fn reserve(&mut self, nodes: usize, bytes: usize) -> Result<(), AllocError>
        ensures items { self.new.items ≡ self.old.items }
        ensures nodes { OnOk result (length self.new.items + nodes ≤ self.new.capacity) }
        ensures bytes { OnOk result (bytes ≤ self.new.room) }
        ensures capacity { self.old.capacity ≤ self.new.capacity }
        ensures room { self.old.room ≤ self.new.room }
        ensures succeeds { length self.old.items + nodes ≤ self.old.capacity
            → bytes ≤ self.old.room → IsOk result }
    {
        self.store.reserve(nodes, bytes)
    }

    /// Adds a node behind the last, and makes room where there is none: for as many nodes again as
    /// there are, and for a quarter more bytes. Where room is refused, the value is dropped.
    pub fn push(
        &mut self,
        label: &[u8],
        value: Option<V>,
        child: Link,
        sibling: Link,
    ) -> Result<(), AllocError>
        requires child { IsLink child }
        requires sibling { IsLink sibling }
        ensures items { OnOk result (self.new.items
            ≡ self.old.items ++ linked label.now value child sibling ∷ []) }
        ensures capacity { self.old.capacity ≤ self.new.capacity }
    {
        self.store
            .push(label, value, number(child), number(sibling))
    }

    /// Adds so many nodes without label, value and links behind the last. Where there is no room,
    /// makes room for as many again as there are, or for so many where that is more.
    pub fn push_blank(&mut self, count: usize) -> Result<(), AllocError>
        ensures items { OnOk result (self.new.items ≡ self.old.items ++ replicate count blank) }
        ensures kept { OnErr result (self.new.items ≡ self.old.items) }
    {
        self.store.push_blank(count)
    }

    /// Makes room for the labels of two nodes as one.
    pub fn reserve_joined(&mut self, upper: NodeId, lower: NodeId) -> Result<(), AllocError>
        requires upper { upper < length self.old.items }
        requires lower { lower < length self.old.items }
        ensures items { self.new.items ≡ self.old.items }
        ensures room { OnOk result (HasJoinedRoom self.old self.new.room upper lower) }
        ensures kept { self.old.room ≤ self.new.room }
        ensures capacity { self.old.capacity ≤ self.new.capacity }
    {
        let bytes = self.store.joined_room(upper.index(), lower.index());
        self.store.reserve(0, bytes)
    }

    /// Lays the nodes in this order, where they are, links them by their new numbers, and keeps the
    /// first `used` of them. Those with numbers below `settled` are quickest where they are in that
    /// order already. Labels stay where they are. Does not allocate.
    pub fn rearrange(&mut self, order: Vec<u32>, places: Vec<u32>, used: usize, settled: usize)
        requires inverse { AreInverse order.items places.items }
        requires long { length order.items ≡ length self.old.items }
        ensures items { KeepsRearranged used order.items places.items
            self.old.items self.new.items }
        ensures room { KeepsRoom self.old self.new }
    {
        self.store.rearrange(order, places, used, settled);
    }

    /// Lays the labels one behind another, in the order of the nodes, so that there is room again
    /// where bytes belong to no node. Takes time in proportion to nodes and bytes. Where memory is
    /// refused, labels stay and an error is returned.
    pub fn lay_labels(&mut self) -> Result<(), AllocError>
        ensures items { self.new.items ≡ self.old.items }
        ensures capacity { self.new.capacity ≡ self.old.capacity }
        ensures room { self.old.room ≤ self.new.room }
    {
        self.store.lay_labels(0)
    }

    /// Keeps the first `n` nodes, with room for half as many more, and drops the others. Room that
    /// is more than that is given back, where the allocator takes it.
    pub fn keep_first(&mut self, n: usize)
        ensures items { self.new.items ≡ take n self.old.items }
        ensures capacity { length self.new.items + 2 ≤ self.old.capacity
            → length self.new.items + 2 ≤ self.new.capacity }
        ensures room { self.new.room ≡ self.old.room }
    {
        self.store.keep_first(n);
    }

    /// Drops all nodes.
    pub fn clear(&mut self)
        ensures { self.new.items ≡ [] }
    {
        self.store.clear();
    }
}

impl<V: Clone> NodeVec<V> {
    /// The same nodes in vectors of their own, each reserved once, where there is any node.
    pub fn try_clone(&self, alloc: Global) -> Result<NodeVec<V>, AllocError>
        requires { (i : ℕ) (n : Node V) → slice_get self.now.items i ≡ Some n
            → IfSome n.value (CloneIsSame V.is_clone) }
        ensures same { IfOk result (λ v. v.items ≡ self.now.items) }
        ensures nonempty { OnErr result (self.now.items ≢ []) }
    {
        let store = self.store.try_clone(alloc)?;
        Ok(NodeVec { store })
    }
}
