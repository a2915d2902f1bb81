//! The records of a tree, one after the other.
ghost use Rattle.std.specs.Prelude.{◌≡◌, ◌≢◌, ◌<◌, ◌≤◌, ◌^◌, [], length, drop, Some, None, false};
ghost use Rattle.std.specs.Prelude.{IfOk, IsTrue};
ghost use Rattle.patricia_keys.specs.Keys.{IsValid};
ghost use Rattle.patricia_codec.specs.Internal.Pieces.{IsPiece};
ghost use Rattle.patricia_codec.specs.Internal.Lefts.{SomeLeft, TakesRecord, GivesRecord, GoesBack};
ghost use Rattle.patricia_codec.specs.Internal.Lefts.{IsDeep, IsOver, IsEncoderStart};

use crate::encoder::EncodeError;
use crate::record::{LONGEST, Record};
use crate::width::Width;
use patricia_keys::Bytes;
use patricia_nodes::arena::NodeArena;
use patricia_nodes::link::{Link, NodeId};
use std::alloc::Global;

/// How far a tree is written below its root.
#[derive(Drop)]
pub struct Records<'a, V> {
    arena: &'a NodeArena<V>,
    // the level of the record that is next
    level: usize,
    // the siblings whose first node is next
    next: Link,
    // so many bytes of its label are written; where there are any, its siblings wait already
    skipped: usize,
    // the siblings that wait, with their level
    stack: Vec<(usize, Link)>,
}

// How many bytes of a label have room in a record: as many whole items as fit.
fn room<K: Bytes>(label: &[u8]) -> usize
    requires valid { IsValid K.item label.now }
    requires nonempty { label.now ≢ [] }
    ensures { IsPiece K.item label.now result }
{
    if label.len() <= LONGEST {
        label.len()
    } else {
        K::floor_boundary(&label[..LONGEST])
    }
}

// A label behind its first bytes.
fn label_behind(label: &[u8], skipped: usize) -> &[u8]
    requires { skipped ≤ length label.now }
    ensures rest { result.now ≡ drop skipped label.now }
    ensures counted { length label.now < 2 ^ 64 }
{
    &label[skipped..]
}

impl<'a, V> Records<'a, V> {
    /// The records below the root.
    pub fn new(alloc: Global, arena: &'a NodeArena<V>) -> Self
        ensures nodes { result.arena.now ≡ arena.now }
        ensures start { IsEncoderStart result }
    {
        Records {
            arena,
            level: 1,
            next: arena.root,
            skipped: 0,
            stack: Vec::new(alloc),
        }
    }

    // Takes the record of what is left of the node that is next.
    fn take<K: Bytes, W: Width>(&mut self, id: NodeId) -> Result<Record<'a>, EncodeError>
        requires left { SomeLeft K.item self.old }
        requires next { self.old.next ≡ Some id }
        ensures ok { IfOk result (λ r. TakesRecord K.item W.width self.old r self.new) }
        ensures too_deep { result ≡ Err EncodeError.TooDeep → IsDeep K.item W.width self.old }
    {
        let nodes = &self.arena.nodes;
        let Some(level) = W::level_at(self.level) else {
            return Err(EncodeError::TooDeep);
        };
        let left = label_behind(nodes.label(id), self.skipped);
        let beside = if self.skipped == 0 {
            nodes.sibling(id)
        } else {
            Link::none()
        };
        self.stack
            .push((self.level, beside))
            .map_err(|_| EncodeError::Memory)?;
        self.level += 1;
        let n = room::<K>(left);
        let (value, child) = if n == left.len() {
            self.next = nodes.child(id);
            self.skipped = 0;
            (nodes.value(id).is_some(), self.next.get().is_some())
        } else {
            self.skipped += n;
            (false, true)
        };
        Ok(Record {
            level,
            label: &left[..n],
            value,
            child,
            sibling: beside.get().is_some(),
        })
    }

    // Goes back to the siblings that wait last, if any wait.
    fn back<K: Bytes>(&mut self) -> bool
        requires over { self.old.next ≡ None }
        ensures step { IsTrue result → GoesBack K.item self.old self.new }
        ensures over { result ≡ false → IsOver K.item self.old }
    {
        let Some(waiting) = self.stack.pop() else {
            return false;
        };
        self.level = waiting.0;
        self.next = waiting.1;
        self.skipped = 0;
        true
    }

    /// The next record, or `None` behind the last.
    pub fn next<K: Bytes, W: Width>(&mut self) -> Result<Option<Record<'a>>, EncodeError>
        requires { SomeLeft K.item self.old }
        ensures ok { IfOk result (λ found. GivesRecord K.item W.width self.old found self.new) }
        ensures too_deep { result ≡ Err EncodeError.TooDeep → IsDeep K.item W.width self.old }
    {
        loop {
            if let Some(id) = self.next.get() {
                return Ok(Some(self.take::<K, W>(id)?));
            }
            if !self.back::<K>() {
                return Ok(None);
            }
        }
    }
}
