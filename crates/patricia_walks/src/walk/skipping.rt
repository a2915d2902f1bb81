//! Walks that begin at a key: a descent goes past the entries before it.
ghost use Rattle.std.specs.Prelude.{◌≡◌, ◌<◌, ◌++◌, [], length, Some, None, true, false};
ghost use Rattle.std.specs.Prelude.{IfOk, OnOk};
ghost use Rattle.std.specs.Option.{option_copied};
ghost use Rattle.patricia_model.specs.Ranges.{from};
ghost use Rattle.patricia_model.specs.Siblings.{own, IsCanonical};
ghost use Rattle.patricia_model.specs.Internal.WalkStates.{entries_left};
ghost use Rattle.patricia_nodes.specs.Internal.Plans.{IsWellFormed, siblings_of, entries_of};
ghost use Rattle.patricia_walks.specs.Internal.Fronts.{lent, seen, state_at, IsFrontPosition};
ghost use Rattle.patricia_walks.specs.Internal.Skips.{IsTowards, Passes, Approaches};
ghost use Rattle.patricia_walks.specs.Internal.Skips.{HasReached};

use super::{Traversal, Walk};
use crate::progress::Progress;
use crate::waiting::push_siblings;
use patricia_keys::Bytes;
use patricia_nodes::arena::NodeArena;
use patricia_nodes::link::{Link, NodeId};
use patricia_nodes::path::extend_by_label;
use std::alloc::{AllocError, Global};
use std::cmp::Ordering;
use std::marker::PhantomData;

impl<'a, V> Traversal<'a, V> {
    // Passes the siblings from a node on that lie behind one another and begin with a lesser byte
    // than what is left of the key, by their heads alone.
    fn pass_run<K: Bytes>(&mut self, first: NodeId, key: &[u8]) -> NodeId
        requires towards { IsTowards K.item key.now (seen (lent self.old)) }
        requires front { self.old.progress.front ≡ length self.old.progress.path.items }
        requires taken { (lent self.old).pending ≡ None }
        requires short { length self.old.progress.path.items < length key.now }
        requires next { self.old.progress.next ≡ Some first }
        ensures passes { Passes K.item key.now (seen (lent self.old)) (seen (lent self.new)) }
        ensures front { self.new.progress.front ≡ length self.new.progress.path.items }
        ensures taken { (lent self.new).pending ≡ None }
        ensures next { self.new.progress.next ≡ Some result }
    {
        let byte = key[self.progress.path.len()];
        let id = self.arena.nodes.run(first, byte);
        self.progress.next = Link::some(id);
        id
    }

    // Goes on at a node: to its children where its label begins what is left of the key, and to its
    // sibling where the label comes before that. Else no entry that is left comes before the key,
    // and the walk stays.
    fn approach<K: Bytes>(&mut self, id: NodeId, key: &[u8]) -> Result<bool, AllocError>
        requires towards { IsTowards K.item key.now (seen (lent self.old)) }
        requires front { self.old.progress.front ≡ length self.old.progress.path.items }
        requires taken { (lent self.old).pending ≡ None }
        requires next { self.old.progress.next ≡ Some id }
        ensures front { OnOk result
            (self.new.progress.front ≡ length self.new.progress.path.items) }
        ensures step { IfOk result (λ moved. moved ≡ true
            → Approaches K.item key.now (seen (lent self.old)) (seen (lent self.new))) }
        ensures over { IfOk result (λ moved. moved ≡ false
            → (lent self.new ≡ lent self.old)
            × HasReached K.item key.now (seen (lent self.old))) }
    {
        let nodes = &self.arena.nodes;
        let label = nodes.label(id);
        let front = self.progress.path.len();
        let rest = &key[front..];
        if rest.starts_with(label) {
            push_siblings(&mut self.progress.stack, front, nodes.sibling(id))?;
            extend_by_label::<K, V>(&mut self.progress.path, nodes, id)?;
            self.progress.front = self.progress.path.len();
            self.pending = nodes.value(id);
            self.progress.next = nodes.child(id);
            return Ok(true);
        }
        if rest.cmp(label) == Ordering::Less {
            return Ok(false);
        }
        self.progress.next = nodes.sibling(id);
        Ok(true)
    }

    // Goes from the start of a walk to the first entry that does not come before the key.
    fn skip_to<K: Bytes>(&mut self, key: &[u8]) -> Result<(), AllocError>
        requires place { IsFrontPosition K.item (lent self.old) }
        requires path { self.old.progress.path.items ≡ [] }
        requires stack { self.old.progress.stack.items ≡ [] }
        ensures place { OnOk result (IsFrontPosition K.item (lent self.new)) }
        ensures left { OnOk result (entries_left (state_at (lent self.new))
            ≡ from key.now (entries_left (state_at (lent self.old)))) }
    {
        loop {
            if self.progress.path.len() >= key.len() {
                return Ok(());
            }
            self.pending = None;
            let Some(first) = self.progress.next.get() else {
                return Ok(());
            };
            let id = self.pass_run::<K>(first, key);
            if !self.approach::<K>(id, key)? {
                return Ok(());
            }
        }
    }
}

impl<'a, K: Bytes, V> Walk<'a, K, V> {
    /// A walk over the entries from a key on. The error is out of memory.
    ///
    /// Takes the time of a look-up.
    pub fn starting_at(
        alloc: Global,
        pending: Option<&'a V>,
        arena: &'a NodeArena<V>,
        key: &[u8],
    ) -> Result<Self, AllocError>
        requires whole { IsWellFormed arena.now }
        requires siblings { IsCanonical K.item (siblings_of arena.now) }
        ensures { IfOk result (λ walk.
            walk ≡ from key.now (own (option_copied pending.entry) ++ entries_of arena.now)) }
    {
        let mut place = Traversal {
            arena,
            progress: Progress::new(alloc, arena.root),
            pending,
        };
        place.skip_to::<K>(key)?;
        Ok(Walk {
            alloc,
            place,
            kind: PhantomData,
        })
    }
}
