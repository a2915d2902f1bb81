//! Nodes that are added, and room for them.
ghost use Rattle.std.specs.Prelude.{◌≡◌, ◌+◌, ◌<◌, ◌≤◌, ◌++◌, [], ◌∷◌, length};
ghost use Rattle.std.specs.Prelude.{IfOk, IsOk, OnOk, OnErr, replicate};
ghost use Rattle.patricia_store.specs.Internal.Labels.{label_room, joined_room};
ghost use Rattle.patricia_store.specs.Internal.Nodes.{IsLink, linked, blank};

use super::Store;
use crate::draft::{Draft, push, push_blank};
use crate::labels::{Labels, label_room};
use crate::packed::MOST_NODES;
use std::alloc::{AllocError, Global};

impl<V> Store<V> {
    /// Adds a node behind the last. Does not allocate.
    pub fn push_reserved(
        &mut self,
        label: &[u8],
        value: Option<V>,
        child: Option<usize>,
        sibling: Option<usize>,
    )
        requires nodes { length self.old.items < self.old.capacity }
        requires bytes { label_room (length label.now) ≤ self.old.room }
        requires child { IsLink child }
        requires sibling { IsLink sibling }
        ensures items { self.new.items
            ≡ self.old.items ++ linked label.now value child sibling ∷ [] }
        ensures capacity { self.new.capacity ≡ self.old.capacity }
        ensures room { self.old.room ≤ self.new.room + label_room (length label.now) }
    {
        let span = self.labels.push(label);
        let node = Draft {
            span,
            child,
            sibling,
            value,
        };
        push(&mut self.heads, &mut self.bodies, &self.labels, node);
    }

    /// Adds a node behind the last, whose label begins with `upper` and ends with `lower`. Does not
    /// allocate.
    pub fn push_joined(
        &mut self,
        upper: &[u8],
        lower: &[u8],
        value: Option<V>,
        child: Option<usize>,
        sibling: Option<usize>,
    )
        requires nodes { length self.old.items < self.old.capacity }
        requires bytes { joined_room (length upper.now) (length lower.now) ≤ self.old.room }
        requires child { IsLink child }
        requires sibling { IsLink sibling }
        ensures items { self.new.items
            ≡ self.old.items ++ linked (upper.now ++ lower.now) value child sibling ∷ [] }
        ensures capacity { self.new.capacity ≡ self.old.capacity }
        ensures room { self.old.room
            ≤ self.new.room + joined_room (length upper.now) (length lower.now) }
    {
        let span = self.labels.push_joined(upper, lower);
        let node = Draft {
            span,
            child,
            sibling,
            value,
        };
        push(&mut self.heads, &mut self.bodies, &self.labels, node);
    }
}

impl<V> Store<V> {
    // Adds a node without label, value and links behind the last. Does not allocate.
    fn push_blank_reserved(&mut self)
        requires { length self.old.items < self.old.capacity }
        ensures items { self.new.items ≡ self.old.items ++ blank ∷ [] }
        ensures capacity { self.new.capacity ≡ self.old.capacity }
    {
        push_blank(&mut self.heads, &mut self.bodies);
    }
}

impl<V: Drop> Store<V> {
    /// No node, with room for some, and for some bytes of labels. Room for more than
    /// 281,474,976,710,654 nodes, or for more bytes than that, is refused.
    pub fn with_capacity(alloc: Global, nodes: usize, bytes: usize) -> Result<Store<V>, AllocError>
        ensures items { IfOk result (λ s. s.items ≡ []) }
        ensures capacity { IfOk result (λ s. nodes ≤ s.capacity) }
        ensures room { IfOk result (λ s. bytes ≤ s.room) }
        ensures succeeds { nodes ≡ 0 → bytes ≡ 0 → IsOk result }
    {
        if nodes > MOST_NODES {
            return Err(AllocError);
        }
        Ok(Store {
            heads: Vec::with_capacity(alloc, nodes)?,
            bodies: Vec::with_capacity(alloc, nodes)?,
            labels: Labels::with_capacity(alloc, bytes)?,
            dead: 0,
            alloc,
        })
    }

    // Makes room for so many nodes more.
    fn reserve_nodes(&mut self, nodes: usize) -> Result<(), AllocError>
        ensures items { self.new.items ≡ self.old.items }
        ensures nodes { OnOk result (length self.new.items + nodes ≤ self.new.capacity) }
        ensures capacity { self.old.capacity ≤ self.new.capacity }
        ensures same_capacity { length self.old.items + nodes ≤ self.old.capacity
            → self.new.capacity ≡ self.old.capacity }
        ensures room { self.new.room ≡ self.old.room }
        ensures succeeds { length self.old.items + nodes ≤ self.old.capacity → IsOk result }
    {
        if nodes > MOST_NODES - self.heads.len() {
            return Err(AllocError);
        }
        self.heads.reserve_exact(nodes)?;
        self.bodies.reserve_exact(nodes)?;
        Ok(())
    }

    // Makes room for so many more bytes of labels.
    fn reserve_bytes(&mut self, bytes: usize) -> Result<(), AllocError>
        ensures items { self.new.items ≡ self.old.items }
        ensures bytes { OnOk result (bytes ≤ self.new.room) }
        ensures capacity { self.new.capacity ≡ self.old.capacity }
        ensures room { self.old.room ≤ self.new.room }
        ensures same_room { bytes ≤ self.old.room → self.new.room ≡ self.old.room }
        ensures succeeds { bytes ≤ self.old.room → IsOk result }
    {
        if bytes <= self.room() {
            return Ok(());
        }
        if self.should_lay() {
            let more = bytes.max(self.labels.len() / 4);
            // a refusal leaves the labels where they are
            let _laid = self.lay_labels(more);
        }
        self.labels.reserve(bytes)
    }

    /// Makes room for so many nodes more, and for so many more bytes of labels. A label takes its
    /// bytes, and 12 more where it has 255 or more. A split of a label of 255 bytes or more takes
    /// 24, a joined label what both parts take as one. 281,474,976,710,654 nodes are the most, and
    /// one byte more: room for more is refused. Asks for nodes only where there is no room for
    /// them, and likewise for bytes. Where there is none and more than a third of the bytes belong
    /// to no label, labels are relocated first. An error may leave more room.
    #[cold]
    pub fn reserve(&mut self, nodes: usize, bytes: usize) -> Result<(), AllocError>
        ensures items { self.new.items ≡ self.old.items }
        ensures nodes { OnOk result (length self.new.items + nodes ≤ self.new.capacity) }
        ensures bytes { OnOk result (bytes ≤ self.new.room) }
        ensures capacity { self.old.capacity ≤ self.new.capacity }
        ensures room { self.old.room ≤ self.new.room }
        ensures same_capacity { length self.old.items + nodes ≤ self.old.capacity
            → self.new.capacity ≡ self.old.capacity }
        ensures same_room { bytes ≤ self.old.room → self.new.room ≡ self.old.room }
        ensures succeeds { length self.old.items + nodes ≤ self.old.capacity
            → bytes ≤ self.old.room → IsOk result }
    {
        self.reserve_nodes(nodes)?;
        self.reserve_bytes(bytes)
    }

    /// Makes room for one node more, whose label takes so many bytes. Where there is none for the
    /// node, there is room for as many nodes again as there are, or for four, from then on.
    pub fn reserve_node(&mut self, bytes: usize) -> Result<(), AllocError>
        ensures items { self.new.items ≡ self.old.items }
        ensures nodes { OnOk result (length self.new.items < self.new.capacity) }
        ensures bytes { OnOk result (bytes ≤ self.new.room) }
        ensures capacity { self.old.capacity ≤ self.new.capacity }
        ensures room { self.old.room ≤ self.new.room }
        ensures succeeds { length self.old.items < self.old.capacity
            → bytes ≤ self.old.room → IsOk result }
    {
        let len = self.len();
        if len >= self.capacity() {
            self.reserve(len.max(4), bytes)
        } else if bytes > self.room() {
            self.reserve(0, bytes)
        } else {
            Ok(())
        }
    }

    /// Adds a node behind the last, and makes room where there is none: for as many nodes again as
    /// there are, and for a quarter more bytes. Where room is refused, the value is dropped.
    pub fn push(
        &mut self,
        label: &[u8],
        value: Option<V>,
        child: Option<usize>,
        sibling: Option<usize>,
    ) -> Result<(), AllocError>
        requires child { IsLink child }
        requires sibling { IsLink sibling }
        ensures items { OnOk result (self.new.items
            ≡ self.old.items ++ linked label.now value child sibling ∷ []) }
        ensures kept { OnErr result (self.new.items ≡ self.old.items) }
        ensures capacity { self.old.capacity ≤ self.new.capacity }
        ensures room { self.old.room ≤ self.new.room + label_room (length label.now) }
        ensures succeeds { length self.old.items < self.old.capacity
            → label_room (length label.now) ≤ self.old.room → IsOk result }
    {
        self.reserve_node(label_room(label.len()))?;
        self.push_reserved(label, value, child, sibling);
        Ok(())
    }

    /// Adds so many nodes without label, value and links behind the last. Where there is no room,
    /// makes room for as many again as there are, or for so many where that is more.
    pub fn push_blank(&mut self, count: usize) -> Result<(), AllocError>
        ensures items { OnOk result (self.new.items ≡ self.old.items ++ replicate count blank) }
        ensures kept { OnErr result (self.new.items ≡ self.old.items) }
    {
        let len = self.len();
        if count > self.capacity() - len {
            self.reserve(count.max(len), 0)?;
        }
        let mut added = 0;
        while added < count {
            self.push_blank_reserved();
            added += 1;
        }
        Ok(())
    }
}
