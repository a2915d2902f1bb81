//! Nodes in three vectors: their heads, their bodies and the bytes of their labels.
ghost use Rattle.std.specs.Prelude.{◌≡◌, ◌+◌, ◌<◌, ◌≤◌, ℕ, Some, None, [], length};
ghost use Rattle.std.specs.Prelude.{slice_get, ◌≢◌, take};
ghost use Rattle.std.specs.Option.{option_copied, option_copied_mut};
ghost use Rattle.std.specs.Borrow.{sem};
ghost use Rattle.patricia_store.specs.Internal.Packing.{most};
ghost use Rattle.patricia_store.specs.Internal.Heads.{byte_of, short_len_of};
ghost use Rattle.patricia_store.specs.Internal.Labels.{label_room, joined_room, cut_room};
ghost use Rattle.patricia_store.specs.Internal.Nodes.{ReadsNode, IsRun, EndsRun, IsLink};
ghost use Rattle.patricia_store.specs.Internal.Nodes.{Changes, Trades, KeepsRoom};
ghost use Rattle.patricia_store.specs.Internal.Nodes.{value_at, Splits, Joins};
ghost use Rattle.patricia_store.specs.Internal.Permutations.{AreInverse};
ghost use Rattle.patricia_store.specs.Internal.Renumbering.{KeepsRearranged};
ghost use Rattle.patricia_store.specs.Internal.Loans.{lends_value_at};

mod copies;
mod growth;
mod space;

use crate::body::Body;
use crate::draft::{Draft, label_len, offset_of, span_of, write};
use crate::head::Head;
use crate::labels::Labels;
use crate::memory::renew_room;
use crate::order::{arrange, renumber};
use crate::packed::MOST_NODES;
use std::alloc::Global;
use std::marker::Model;

/// The nodes of a tree, which contracts see as a list of nodes, with how many there is room for and
/// how many more bytes of labels. Calls that return no `Result` ask for no memory, but for
/// `keep_first`.
#[derive(Drop)]
pub struct Store<V> {
    heads: Vec<Head>,
    bodies: Vec<Body<V>>,
    labels: Labels,
    // about how many bytes belonged to labels that others replaced
    dead: usize,
    alloc: Global,
}

impl<V> Model for Store<V> {
    ghost use Rattle.std.specs.Prelude.{length, min, vec_capacity};
    ghost use Rattle.patricia_store.specs.Internal.Nodes.{Nodes};
    ghost use Rattle.patricia_store.specs.Internal.Packing.{most_nodes};

    ghost Value = { Nodes V };

    ghost use Rattle.patricia_store.specs.Internal.Stores.{nodes_of, AreSound};

    ghost view = { λ s. record {
      items = nodes_of s.heads.items s.bodies.items s.labels.items;
      capacity = min (vec_capacity s.heads) (min (vec_capacity s.bodies) most_nodes);
      room = s.labels.room;
      used = length s.labels.items;
    } };

    ghost invariant = { λ s. AreSound s.heads.items s.bodies.items s.labels.items };
}

// About how many bytes belong to no label once two labels are joined. Those of the second count
// when its node gets another label, but belong to the joined label where that is no copy.
fn dead_joined(dead: usize, is_copied: bool, upper_len: usize, lower_len: usize) -> usize {
    if is_copied {
        dead.saturating_add(upper_len)
    } else {
        dead.saturating_sub(lower_len)
    }
}

impl<V> Store<V> {
    /// No node. Does not allocate.
    pub fn new(alloc: Global) -> Store<V>
        ensures { result.items ≡ [] }
    {
        Store {
            heads: Vec::new(alloc),
            bodies: Vec::new(alloc),
            labels: Labels::new(alloc),
            dead: 0,
            alloc,
        }
    }

    /// How many nodes there are.
    pub fn len(&self) -> usize
        ensures value { result ≡ length self.now.items }
        ensures few { result < most }
    {
        self.heads.len()
    }

    /// How many nodes there is room for.
    pub fn capacity(&self) -> usize
        ensures value { result ≡ self.now.capacity }
        ensures enough { length self.now.items ≤ result }
        ensures few { result < most }
    {
        self.heads
            .capacity()
            .min(self.bodies.capacity())
            .min(MOST_NODES)
    }

    /// How many more bytes of labels there is room for.
    pub fn room(&self) -> usize
        ensures { result ≡ self.now.room }
    {
        self.labels.room()
    }

    /// How many bytes of labels there are, with those of labels that no node has.
    pub fn used(&self) -> usize
        ensures { result ≡ self.now.used }
    {
        self.labels.len()
    }

    /// The label of a node. Reads no body where the node has no child and the label less than 63
    /// bytes.
    pub fn label(&self, id: usize) -> &[u8]
        requires { id < length self.now.items }
        ensures node { ReadsNode self.now id (λ n. result.now ≡ n.label) }
        ensures short { length result.now ≤ most }
    {
        let span = span_of(self.heads[id], &self.bodies[id]);
        self.labels.get(span)
    }

    /// The bytes from the label of a node on, and how many of them it has. Reads no more than
    /// `label` does.
    pub fn label_onwards(&self, id: usize) -> (&[u8], usize)
        requires { id < length self.now.items }
        ensures node { ReadsNode self.now id (λ n. take result.1 result.0.now ≡ n.label) }
        ensures within { result.1 ≤ length result.0.now }
    {
        let span = span_of(self.heads[id], &self.bodies[id]);
        self.labels.get_onwards(span)
    }

    /// The value of a node, where there is one.
    pub fn value(&self, id: usize) -> Option<&V>
        requires { id < length self.now.items }
        ensures { ReadsNode self.now id (λ n. option_copied result ≡ n.value) }
    {
        self.bodies[id].value()
    }

    /// The first byte of a node's label, 0 where there is none. Reads its head alone.
    pub fn first_byte(&self, id: usize) -> u8
        requires { id < length self.now.items }
        ensures { ReadsNode self.now id (λ n. result ≡ byte_of n.label) }
    {
        self.heads[id].first_byte()
    }

    /// The length of a node's label, in bytes, or 63 where it is no less. Reads its head alone.
    pub fn short_len(&self, id: usize) -> usize
        requires { id < length self.now.items }
        ensures { ReadsNode self.now id (λ n. result ≡ short_len_of n.label) }
    {
        self.heads[id].short_len()
    }

    /// The first child of a node. Reads its head alone.
    pub fn child(&self, id: usize) -> Option<usize>
        requires { id < length self.now.items }
        ensures node { ReadsNode self.now id (λ n. result ≡ n.child) }
        ensures link { IsLink result }
    {
        self.heads[id].child()
    }

    /// The sibling of a node. Reads its head alone.
    pub fn sibling(&self, id: usize) -> Option<usize>
        requires { id < length self.now.items }
        ensures node { ReadsNode self.now id (λ n. result ≡ n.sibling) }
        ensures link { IsLink result }
    {
        self.heads[id].sibling()
    }

    /// The first node from this one on, along siblings of which each is the next node of the
    /// vector, whose first byte is not less than `b`, or the last of them. Reads heads alone, with
    /// one comparison for each.
    #[inline(never)]
    pub fn run(&self, id: usize, b: u8) -> usize
        requires within { (to : ℕ) → IsRun self.now b id to → to < length self.now.items }
        ensures passes { IsRun self.now b id result }
        ensures ends { EndsRun self.now b result }
    {
        let mut at = id;
        while self.heads[at].is_before(b) {
            at += 1;
        }
        at
    }

    /// Puts another number for the first child of a node.
    pub fn set_child(&mut self, id: usize, to: Option<usize>)
        requires there { id < length self.old.items }
        requires link { IsLink to }
        ensures node { Changes self.old self.new id (λ n. record n { child = to }) }
        ensures room { KeepsRoom self.old self.new }
    {
        let offset = offset_of(to, &self.bodies[id]);
        self.heads[id].set_child(to, offset);
    }

    /// Puts another number for the sibling of a node. Touches its head alone.
    pub fn set_sibling(&mut self, id: usize, to: Option<usize>)
        requires there { id < length self.old.items }
        requires link { IsLink to }
        ensures node { Changes self.old self.new id (λ n. record n { sibling = to }) }
        ensures room { KeepsRoom self.old self.new }
    {
        self.heads[id].set_sibling(id + 1, to);
    }

    /// Puts another value to a node, or none, and returns the one that was there.
    pub fn replace_value(&mut self, id: usize, value: Option<V>) -> Option<V>
        requires there { id < length self.old.items }
        ensures node { Trades self.old self.new id (λ n. record n { value = value }) result }
        ensures room { KeepsRoom self.old self.new }
    {
        let body = &mut self.bodies[id];
        let span = body.span();
        body.replace(span, value)
    }

    /// Takes the value out of a node, and leaves it without children.
    pub fn take_contents(&mut self, id: usize) -> Option<V>
        requires there { id < length self.old.items }
        ensures node { Trades self.old self.new id
            (λ n. record n { child = None; value = None }) result }
        ensures room { KeepsRoom self.old self.new }
    {
        let body = &mut self.bodies[id];
        let span = body.span();
        let value = body.replace(span, None);
        self.heads[id].set_child(None, span.offset);
        value
    }

    /// Puts another label, first child and value to a node, and returns the value that was there.
    /// Does not allocate.
    pub fn replace_contents(
        &mut self,
        id: usize,
        label: &[u8],
        child: Option<usize>,
        value: Option<V>,
    ) -> Option<V>
        requires there { id < length self.old.items }
        requires link { IsLink child }
        requires room { label_room (length label.now) ≤ self.old.room }
        ensures node { Trades self.old self.new id
            (λ n. record n { label = label.now; child = child; value = value }) result }
        ensures capacity { self.new.capacity ≡ self.old.capacity }
        ensures room { self.old.room ≤ self.new.room + label_room (length label.now) }
    {
        self.dead = self.dead.saturating_add(self.label_len(id));
        let sibling = self.heads[id].sibling();
        let span = self.labels.push(label);
        self.heads[id] = Head::new(id + 1, child, sibling, label, span.offset);
        self.bodies[id].replace(span, value)
    }

    /// Lends the value of a node.
    pub fn value_mut(&mut self, id: usize) -> Option<&mut V>
        requires { id < length self.old.items }
        ensures* writes { sem 𝓛 (lends_value_at V.row self.entry id result) }
        ensures value { option_copied_mut result ≡ value_at (slice_get self.old.items id) }
    {
        self.bodies[id].value_mut()
    }

    /// Keeps the first `n` bytes of a node's label, or all where there are fewer, and puts another
    /// value to it. The rest of the label, the value and the children that the node had go to the
    /// node `tail`, which becomes its first child and keeps its own sibling; returns the value that
    /// `tail` had. Does not allocate, and copies no byte of the label.
    pub fn split_label(&mut self, id: usize, n: usize, tail: usize, value: Option<V>) -> Option<V>
        requires there { id < length self.old.items }
        requires tail { tail < length self.old.items }
        requires apart { tail ≢ id }
        requires room { ReadsNode self.old id (λ a. cut_room (length a.label) ≤ self.old.room) }
        ensures nodes { Splits self.old self.new id n tail value result }
        ensures capacity { self.new.capacity ≡ self.old.capacity }
        ensures room { ReadsNode self.old id
            (λ a. self.old.room ≤ self.new.room + cut_room (length a.label)) }
    {
        let replaced = &self.bodies[tail];
        self.dead = self.dead.saturating_add(label_len(replaced, &self.labels));
        let head = self.heads[id];
        let span = span_of(head, &self.bodies[id]);
        let (front, back) = self.labels.cut(span, n);
        let upper = Draft {
            span: front,
            child: Some(tail),
            sibling: head.sibling(),
            value,
        };
        let value = write(&mut self.heads, &mut self.bodies, &self.labels, id, upper);
        let lower = Draft {
            span: back,
            child: head.child(),
            sibling: self.heads[tail].sibling(),
            value,
        };
        write(&mut self.heads, &mut self.bodies, &self.labels, tail, lower)
    }

    /// Puts the label of another node behind that of a node, another first child and another
    /// value, and returns the value that was there. Does not allocate.
    pub fn join_labels(
        &mut self,
        upper: usize,
        lower: usize,
        child: Option<usize>,
        value: Option<V>,
    ) -> Option<V>
        requires upper { upper < length self.old.items }
        requires lower { lower < length self.old.items }
        requires link { IsLink child }
        requires room { ReadsNode self.old upper (λ a. ReadsNode self.old lower
            (λ b. joined_room (length a.label) (length b.label) ≤ self.old.room)) }
        ensures nodes { Joins self.old self.new upper lower child value result }
        ensures capacity { self.new.capacity ≡ self.old.capacity }
        ensures room { ReadsNode self.old upper (λ a. ReadsNode self.old lower
            (λ b. self.old.room
            ≤ self.new.room + joined_room (length a.label) (length b.label))) }
    {
        let head = self.heads[upper];
        let first = span_of(head, &self.bodies[upper]);
        let second = span_of(self.heads[lower], &self.bodies[lower]);
        let upper_len = label_len(&self.bodies[upper], &self.labels);
        let lower_len = label_len(&self.bodies[lower], &self.labels);
        let used = self.labels.len();
        let node = Draft {
            span: self.labels.join(first, second),
            child,
            sibling: head.sibling(),
            value,
        };
        let is_copied = self.labels.len() != used;
        self.dead = dead_joined(self.dead, is_copied, upper_len, lower_len);
        write(&mut self.heads, &mut self.bodies, &self.labels, upper, node)
    }
}

impl<V: Drop> Store<V> {
    /// Lays the nodes in this order, where they are, links them by their new numbers, and keeps the
    /// first `used` of them. Those with numbers below `settled` are quickest where they are in that
    /// order already. Labels stay where they are. Does not allocate.
    pub fn rearrange(&mut self, order: Vec<u32>, places: Vec<u32>, used: usize, settled: usize)
        requires inverse { AreInverse order.items places.items }
        requires long { length order.items ≡ length self.old.items }
        ensures items { KeepsRearranged used order.items places.items
            self.old.items self.new.items }
        ensures capacity { self.new.capacity ≡ self.old.capacity }
        ensures room { self.new.room ≡ self.old.room }
    {
        renumber(&mut self.heads, places.as_slice());
        arrange(
            &mut self.heads,
            &mut self.bodies,
            order,
            places,
            used,
            settled,
        );
    }

    /// Keeps the first `n` nodes, with room for half as many more, and drops the others. More room
    /// for nodes than that, and what was written behind them, is given back, where the allocator
    /// takes it. The bytes of all labels stay.
    pub fn keep_first(&mut self, n: usize)
        ensures items { self.new.items ≡ take n self.old.items }
        ensures capacity { length self.new.items + 2 ≤ self.old.capacity
            → length self.new.items + 2 ≤ self.new.capacity }
        ensures room { self.new.room ≡ self.old.room }
    {
        self.heads.truncate(n);
        self.bodies.truncate(n);
        renew_room(&mut self.heads);
        renew_room(&mut self.bodies);
    }

    /// Drops all nodes.
    pub fn clear(&mut self)
        ensures items { self.new.items ≡ [] }
        ensures capacity { self.new.capacity ≡ self.old.capacity }
        ensures room { self.old.room ≤ self.new.room }
    {
        self.heads.clear();
        self.bodies.clear();
        self.labels.clear();
        self.dead = 0;
    }
}
