//! Nodes that are laid while records are read, each at its place: siblings side by side, and what
//! is below a node behind its siblings.
//!
//! The places of a node's children are made as it is laid, as many as a first pass has counted. A
//! count that is wrong takes time alone: places that are left over are free nodes at the end, and
//! where there are too few, one more is made behind the last.
ghost use Rattle.std.specs.Prelude.{◌≡◌, ◌<◌, ◌≤◌, OnOk, IfOk, IfSome, length};
ghost use Rattle.patricia_store.specs.Internal.Labels.{label_room};
ghost use Rattle.patricia_codec.specs.Internal.Placing.{IsNew, MakesRow, Puts, LaysAt, FindsPlace};
ghost use Rattle.patricia_codec.specs.Internal.Placing.{CanLinkAt, LinksAt, OpensAt, ClosesAt};
ghost use Rattle.patricia_codec.specs.Internal.Placing.{CanAddAt, PreparesAt, AddsRootAt};
ghost use Rattle.patricia_codec.specs.Internal.Placing.{AddsRecord, made_of};

use crate::record::Record;
use patricia_keys::Bytes;
use patricia_nodes::arena::node_vec::NodeVec;
use patricia_nodes::link::{Link, NodeId};
use patricia_store::label_room;
use std::alloc::{AllocError, Global};

/// Where the record that comes belongs.
#[derive(Clone, Copy)]
pub enum Next {
    // it is the root
    Root,
    // below the node that was laid last
    Below,
    // below a node without value that is not laid yet, which takes in a child that is alone
    Within,
    // beside the node that waits last
    Beside,
}

/// The nodes of the records that were read, and what is open.
#[derive(Drop)]
pub struct Builder<V> {
    // the root's value
    pub value: Option<V>,
    // the number of the first node
    pub root: Link,
    // nodes that are laid, and blank ones
    pub nodes: NodeVec<V>,
    // the label so far of the node that is laid next
    pub label: Vec<u8>,
    // about how many children it has
    pub children: u32,
    // its place, where the record that comes does not belong beside a node
    pub at: NodeId,
    // the nodes that wait for their siblings, the one that comes next last
    pub waiting: Vec<NodeId>,
    pub next: Next,
}

impl<V: Drop> Builder<V> {
    /// Nothing is read. There is room for so many nodes, and for so many bytes of their labels. The
    /// error is out of memory for them.
    pub fn new(alloc: Global, nodes: usize, bytes: usize) -> Result<Self, AllocError>
        ensures new { IfOk result IsNew }
        ensures nodes { IfOk result (λ b. nodes ≤ b.nodes.capacity) }
        ensures bytes { IfOk result (λ b. bytes ≤ b.nodes.room) }
    {
        let nodes = NodeVec::with_capacity(alloc, nodes, bytes)?;
        Ok(Builder {
            value: None,
            root: Link::none(),
            nodes,
            label: Vec::new(alloc),
            children: 0,
            at: NodeId::new(0),
            waiting: Vec::new(alloc),
            next: Next::Root,
        })
    }

    // Makes blank nodes behind the others, so many and at least one, and returns the first.
    fn make_row(&mut self, count: u32) -> Result<NodeId, AllocError>
        ensures row { OnOk result (MakesRow self.old self.new) }
        ensures first { IfOk result (λ id. id ≡ made_of self.old) }
        ensures few { IfOk result (λ id. id < 18446744073709551615) }
    {
        let first = NodeId::new(self.nodes.len());
        self.nodes.push_blank(count.max(1) as usize)?;
        Ok(first)
    }

    // Makes room for the label so far.
    fn make_room(&mut self) -> Result<(), AllocError>
        ensures items { OnOk result (self.new.nodes.items ≡ self.old.nodes.items) }
        ensures rest { self.new ≡ record self.old { nodes = self.new.nodes } }
        ensures room { OnOk result
            (label_room (length self.new.label.items) ≤ self.new.nodes.room) }
    {
        let bytes = label_room(self.label.len());
        if bytes <= self.nodes.room() {
            return Ok(());
        }
        self.nodes.reserve(0, bytes)
    }

    // Puts the next node to its place, with the label so far, a value and a first child.
    fn put(&mut self, value: Option<V>, child: Link) -> Result<(), AllocError>
        requires at { self.old.at < made_of self.old }
        requires child { IfSome child (λ id. id < made_of self.old) }
        ensures { OnOk result (Puts self.old value child self.new) }
    {
        self.make_room()?;
        let _none = self
            .nodes
            .replace_contents(self.at, &self.label, child, value);
        self.label.clear();
        Ok(())
    }

    // Lays the next node at its place, with the label so far. Where it has a child, the places of
    // its children are made, and the first of them is next.
    fn lay(&mut self, value: Option<V>, child: bool) -> Result<(), AllocError>
        requires { self.old.at < made_of self.old }
        ensures { OnOk result (LaysAt self.old value child self.new) }
    {
        if !child {
            self.put(value, Link::none())?;
            self.next = Next::Beside;
            return Ok(());
        }
        let first = self.make_row(self.children)?;
        self.put(value, Link::some(first))?;
        self.at = first;
        self.next = Next::Below;
        Ok(())
    }

    // The place beside a node: the next one where no node is laid there, or else a new one.
    fn place_beside(&mut self, id: NodeId) -> Result<NodeId, AllocError>
        requires { id < made_of self.old }
        ensures found { IfOk result (FindsPlace self.old self.new) }
        ensures few { IfOk result (λ id. id < 18446744073709551615) }
    {
        let len = self.nodes.len();
        let next = NodeId::new(id.index() + 1);
        if next.index() < len && self.nodes.short_len(next) == 0 {
            return Ok(next);
        }
        self.make_row(1)
    }

    // The node that waits last gets its sibling's place, which is next.
    fn link(&mut self) -> Result<(), AllocError>
        requires { CanLinkAt self.old }
        ensures { OnOk result (LinksAt self.old self.new) }
    {
        if let Some(id) = self.waiting.pop() {
            let to = self.place_beside(id)?;
            self.nodes.set_sibling(id, Link::some(to));
            self.at = to;
        }
        Ok(())
    }

    // Takes a record's label behind the label so far. Where it has a sibling, the next node waits.
    fn open(&mut self, record: &Record<'_>, children: u32) -> Result<(), AllocError>
        ensures { OnOk result (OpensAt self.old record.now self.new) }
    {
        self.label.extend_from_slice(record.label)?;
        self.children = children;
        if record.sibling {
            self.waiting.push(self.at)?;
        }
        Ok(())
    }

    // Makes ready for a record that is not the root.
    fn prepare(&mut self, sibling: bool) -> Result<(), AllocError>
        requires { CanAddAt self.old.next self.old }
        ensures { OnOk result (PreparesAt self.old.next self.old sibling self.new) }
    {
        match self.next {
            Next::Within => {
                if sibling {
                    self.lay(None, true)?;
                }
            }
            Next::Beside => self.link()?,
            _ => {}
        }
        Ok(())
    }

    // Lays the node that was opened, unless it can take in its child.
    fn close(&mut self, value: Option<V>, child: bool) -> Result<(), AllocError>
        requires { self.old.at < made_of self.old }
        ensures { OnOk result (ClosesAt self.old value child self.new) }
    {
        if value.is_none() && child {
            self.next = Next::Within;
            return Ok(());
        }
        self.lay(value, child)
    }

    // The root's value is that of the empty key.
    fn add_root(&mut self, value: Option<V>, child: bool, children: u32) -> Result<(), AllocError>
        ensures { OnOk result (AddsRootAt self.old value child self.new) }
    {
        self.value = value;
        if !child {
            self.next = Next::Beside;
            return Ok(());
        }
        let first = self.make_row(children)?;
        self.root = Link::some(first);
        self.at = first;
        self.next = Next::Below;
        Ok(())
    }

    /// Adds a record with its value. It has about so many children.
    pub fn add<K: Bytes>(
        &mut self,
        record: &Record<'_>,
        value: Option<V>,
        children: u32,
    ) -> Result<(), AllocError>
        requires { CanAddAt self.old.next self.old }
        ensures { OnOk result (AddsRecord K.item self.old record.now value self.new) }
    {
        if let Next::Root = self.next {
            return self.add_root(value, record.child, children);
        }
        self.prepare(record.sibling)?;
        self.open(record, children)?;
        self.close(value, record.child)
    }
}
