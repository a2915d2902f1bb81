//! The bytes that labels take.
ghost use Rattle.std.specs.Prelude.{◌≡◌, ◌+◌, ◌<◌, ◌≤◌, length, IfSome, IfNone, OnOk, OnErr};
ghost use Rattle.patricia_store.specs.Internal.Packing.{most};
ghost use Rattle.patricia_store.specs.Internal.Labels.{label_room, joined_room, cut_room};
ghost use Rattle.patricia_store.specs.Internal.Nodes.{ReadsNode, labels_room};

use super::Store;
use crate::head::LONG;
use crate::labels::{Labels, cut_room, label_room};
use crate::laying::{lay, needed_bytes};
use crate::packed::MOST;
use std::alloc::AllocError;
use std::mem;

impl<V> Store<V> {
    /// The length of a node's label, in bytes. Reads its head alone where that is less than 63.
    pub fn label_len(&self, id: usize) -> usize
        requires { id < length self.now.items }
        ensures node { ReadsNode self.now id (λ n. result ≡ length n.label) }
        ensures short { result ≤ most }
    {
        let len = self.short_len(id);
        if len < LONG {
            return len;
        }
        self.label(id).len()
    }

    /// How many bytes the label of a node takes.
    pub fn label_room(&self, id: usize) -> usize
        requires { id < length self.now.items }
        ensures { ReadsNode self.now id (λ n. result ≡ label_room (length n.label)) }
    {
        label_room(self.label_len(id))
    }

    /// How many bytes the labels of all nodes take, or `None` where that is more than are used.
    /// Takes time in proportion to the nodes.
    pub fn label_bytes(&self) -> Option<usize>
        ensures value { IfSome result (λ n. n ≡ labels_room self.now.items) }
        ensures fits { IfSome result (λ n. n ≤ self.now.used) }
        ensures more { IfNone result (self.now.used < labels_room self.now.items) }
    {
        needed_bytes(&self.bodies, &self.labels, self.labels.len())
    }

    /// How many bytes there is to be room for where a node's label is split.
    pub fn cut_room(&self, id: usize) -> usize
        requires { id < length self.now.items }
        ensures { ReadsNode self.now id (λ a. result ≡ cut_room (length a.label)) }
    {
        cut_room(self.label_len(id))
    }

    /// How many bytes there is to be room for where the labels of two nodes are joined.
    pub fn joined_room(&self, upper: usize, lower: usize) -> usize
        requires upper { upper < length self.now.items }
        requires lower { lower < length self.now.items }
        ensures { ReadsNode self.now upper (λ a. ReadsNode self.now lower
            (λ b. result ≡ joined_room (length a.label) (length b.label))) }
    {
        label_room(self.label_len(upper) + self.label_len(lower))
    }

    /// About how many bytes belonged to labels that other labels replaced. Those of nodes that are
    /// dropped, and notes, are not counted: give a node an empty label before it is dropped.
    pub fn dead(&self) -> usize {
        self.dead
    }

    /// Whether more than a third of the bytes belonged to labels that other labels replaced, as far
    /// as `dead` counts them. Then `lay_labels` is worth its time.
    pub fn should_lay(&self) -> bool {
        self.dead > self.labels.len() / 3
    }
}

impl<V: Drop> Store<V> {
    /// Lays the labels one behind another, in the order of the nodes, in a vector of their own, so
    /// that bytes that belong to no node are given back. It has room for half as many bytes more as
    /// the labels take, for as many as there was room for, and for `more`. Takes time in proportion
    /// to nodes and bytes. Where the vector is refused, or labels would take more bytes than are
    /// used, nothing changes and an error is returned.
    pub fn lay_labels(&mut self, more: usize) -> Result<(), AllocError>
        ensures laid { OnOk result (self.new.used ≡ labels_room self.new.items) }
        ensures items { self.new.items ≡ self.old.items }
        ensures capacity { self.new.capacity ≡ self.old.capacity }
        ensures room { self.old.room ≤ self.new.room }
        ensures kept { OnErr result (self.new ≡ self.old) }
    {
        let Some(needed) = self.label_bytes() else {
            return Err(AllocError);
        };
        let room = self.labels.room().max(more.min(MOST)).max(needed / 2);
        let mut laid = Labels::with_capacity(self.alloc, needed + room)?;
        lay(&mut self.heads, &mut self.bodies, &self.labels, &mut laid);
        mem::replace(&mut self.labels, laid).give_back();
        self.dead = 0;
        Ok(())
    }
}
