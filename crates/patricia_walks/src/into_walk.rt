//! Walks that take the values out of nodes in one vector, in key order.
//!
//! The nodes stay in the vector. They are dropped with the walk, or at an error.
ghost use Rattle.std.specs.Prelude.{◌≡◌, ◌≢◌, ◌++◌, [], length, Some, None, IfOk, OnOk, OnErr};
ghost use Rattle.std.specs.Iterator.{at_most};
ghost use Rattle.patricia_model.specs.Siblings.{own, IsCanonical};
ghost use Rattle.patricia_model.specs.Internal.WalkStates.{entries_left, TakesEntry};
ghost use Rattle.patricia_model.specs.Walks.{YieldsOrErr};
ghost use Rattle.patricia_nodes.specs.Internal.Plans.{IsWellFormed, siblings_of, entries_of};
ghost use Rattle.patricia_walks.specs.Internal.Fronts.{owned, state_at, IsFrontPosition, Moves};

use crate::progress::Progress;
use patricia_keys::Bytes;
use patricia_nodes::arena::NodeArena;
use patricia_nodes::link::NodeId;
use std::alloc::{AllocError, Global};
use std::iter::FusedIterator;
use std::marker::{Model, PhantomData};

// How far a walk has come, and what it still owns.
#[derive(Drop)]
struct OwnedTraversal<V> {
    arena: NodeArena<V>,
    progress: Progress,
    // the value at the path, while it is due
    pending: Option<V>,
}

impl<V: Drop> OwnedTraversal<V> {
    // Ends the walk, and drops what is left.
    fn finish<K: Bytes>(&mut self)
        ensures left { entries_left (state_at (owned self.new)) ≡ [] }
        ensures place { IsFrontPosition K.item (owned self.new) }
    {
        self.arena.clear();
        self.progress.finish();
        self.pending = None;
    }

    // Advances to the node that is next, and takes its value.
    fn descend<K: Bytes>(&mut self, id: NodeId) -> Result<Option<V>, AllocError>
        requires place { IsFrontPosition K.item (owned self.old) }
        requires taken { (owned self.old).pending ≡ None }
        requires next { self.old.progress.next ≡ Some id }
        ensures { IfOk result (λ value. Moves K.item (owned self.old) value (owned self.new)) }
    {
        self.progress.enter::<K, V>(&self.arena.nodes, id)?;
        Ok(self.arena.nodes.replace_value(id, None))
    }

    // Takes the next value, whose key is then the path.
    fn seek<K: Bytes>(&mut self) -> Result<Option<V>, AllocError>
        requires { IsFrontPosition K.item (owned self.old) }
        ensures place { OnOk result (IsFrontPosition K.item (owned self.new)) }
        ensures ok { IfOk result (λ found.
            TakesEntry (state_at (owned self.old)) found (state_at (owned self.new))) }
        ensures err { OnErr result (entries_left (state_at (owned self.old)) ≢ []) }
    {
        if let Some(value) = self.pending.take() {
            return Ok(Some(value));
        }
        loop {
            match self.progress.next.get() {
                Some(id) => {
                    if let Some(value) = self.descend::<K>(id)? {
                        return Ok(Some(value));
                    }
                }
                None => {
                    if !self.progress.back() {
                        return Ok(None);
                    }
                }
            }
        }
    }
}

/// The entries of a map in key order, moved out of it. An error is out of memory: it ends the
/// iterator, and the entries that are left are dropped.
#[derive(Drop)]
pub struct IntoWalk<K: Bytes, V> {
    alloc: Global,
    place: OwnedTraversal<V>,
    kind: PhantomData<K>,
}

impl<K: Bytes, V> Model for IntoWalk<K, V> {
    ghost use Rattle.std.specs.Prelude.{List, ℕ};

    ghost Value = { List (List ℕ × V) };

    ghost use Rattle.patricia_model.specs.Internal.WalkStates.{entries_left};
    ghost use Rattle.patricia_walks.specs.Internal.Fronts.{owned, state_at, IsFrontPosition};

    ghost view = { λ w. entries_left (state_at (owned w.place)) };

    ghost invariant = { λ w. IsFrontPosition K.item (owned w.place) };
}

impl<K: Bytes, V: Drop> IntoWalk<K, V> {
    /// A walk over the empty key's value and the nodes. Making it does not allocate.
    pub fn new(alloc: Global, pending: Option<V>, arena: NodeArena<V>) -> Self
        requires whole { IsWellFormed arena }
        requires siblings { IsCanonical K.item (siblings_of arena) }
        ensures { result ≡ own pending ++ entries_of arena }
    {
        let progress = Progress::new(alloc, arena.root);
        IntoWalk {
            alloc,
            place: OwnedTraversal {
                arena,
                progress,
                pending,
            },
            kind: PhantomData,
        }
    }
}

impl<K: Bytes, V: Drop> Iterator for IntoWalk<K, V> {
    type Item = Result<(K, V), AllocError>;

    ghost next_gives = { YieldsOrErr (λ e. (K.key e.0, e.1)) };

    ghost remaining = { λ entries. at_most (length entries) };

    fn next(&mut self) -> Option<Result<(K, V), AllocError>> {
        match self.place.seek::<K>() {
            Ok(Some(value)) => match K::from_bytes(self.alloc, &self.place.progress.path) {
                Ok(key) => Some(Ok((key, value))),
                Err(error) => {
                    self.place.finish::<K>();
                    Some(Err(error))
                }
            },
            Ok(None) => None,
            Err(error) => {
                self.place.finish::<K>();
                Some(Err(error))
            }
        }
    }
}

impl<K: Bytes, V: Drop> FusedIterator for IntoWalk<K, V> {}
