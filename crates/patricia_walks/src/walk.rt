//! Walks over nodes in one vector, in key order.
ghost use Rattle.std.specs.Prelude.{◌≡◌, ◌≢◌, ◌≤◌, ◌++◌, [], length, take, Some, None};
ghost use Rattle.std.specs.Prelude.{IfOk, OnOk, OnErr};
ghost use Rattle.std.specs.Iterator.{at_most};
ghost use Rattle.std.specs.Option.{option_copied};
ghost use Rattle.patricia_keys.specs.Keys.{IsValid};
ghost use Rattle.patricia_model.specs.Siblings.{own, keys_of, IsCanonical};
ghost use Rattle.patricia_model.specs.Internal.WalkStates.{entries_left, TakesEntry};
ghost use Rattle.patricia_model.specs.Walks.{YieldsOrErr};
ghost use Rattle.patricia_nodes.specs.Internal.Plans.{IsWellFormed, siblings_of, entries_of};
ghost use Rattle.patricia_nodes.specs.Internal.Plans.{siblings_at};
ghost use Rattle.patricia_nodes.specs.Internal.Places.{entries_below};
ghost use Rattle.patricia_walks.specs.Internal.Positions.{IsTop, HasPassed};
ghost use Rattle.patricia_walks.specs.Internal.Fronts.{lent, state_at, IsFrontPosition, Moves};

mod reading;
mod skipping;

use crate::progress::Progress;
use patricia_keys::Bytes;
use patricia_nodes::arena::NodeArena;
use patricia_nodes::link::{Link, NodeId};
use patricia_nodes::path::ROOM;
pub use reading::ReadCursor;
use std::alloc::{AllocError, Global};
use std::iter::FusedIterator;
use std::marker::{Model, PhantomData};

// How far a walk over nodes has come, and the nodes.
#[derive(Drop)]
struct Traversal<'a, V> {
    arena: &'a NodeArena<V>,
    progress: Progress,
    // the value at the path, while it is due
    pending: Option<&'a V>,
}

impl<'a, V> Traversal<'a, V> {
    // Ends the walk.
    fn finish<K: Bytes>(&mut self)
        ensures left { entries_left (state_at (lent self.new)) ≡ [] }
        ensures place { IsFrontPosition K.item (lent self.new) }
    {
        self.progress.finish();
        self.pending = None;
    }

    // Advances to the node that is next, and returns its value.
    fn descend<K: Bytes>(&mut self, id: NodeId) -> Result<Option<&'a V>, AllocError>
        requires place { IsFrontPosition K.item (lent self.old) }
        requires taken { (lent self.old).pending ≡ None }
        requires next { self.old.progress.next ≡ Some id }
        ensures { IfOk result (λ value.
            Moves K.item (lent self.old) (option_copied value) (lent self.new)) }
    {
        // read first, so that it waits for memory together with the label
        let value = self.arena.nodes.value(id);
        self.progress.enter::<K, V>(&self.arena.nodes, id)?;
        Ok(value)
    }

    // Passes the entries that begin with the first bytes of the path, which are whole items.
    fn skip<K: Bytes>(&mut self, len: usize)
        requires place { IsFrontPosition K.item (lent self.old) }
        requires within { len ≤ length self.old.progress.path.items }
        requires valid { IsValid K.item (take len self.old.progress.path.items) }
        ensures place { IsFrontPosition K.item (lent self.new) }
        ensures path { self.new.progress.path.items ≡ self.old.progress.path.items }
        ensures passed { HasPassed (take len self.old.progress.path.items)
            (entries_left (state_at (lent self.old))) (entries_left (state_at (lent self.new))) }
    {
        self.pending = None;
        if self.progress.front < len && self.progress.next.get().is_some() {
            return;
        }
        self.progress.next = Link::none();
        while let Some((front, _)) = self.progress.stack.last() {
            if *front < len {
                return;
            }
            self.progress.stack.pop();
        }
    }

    // Takes the next value, whose key is then the path.
    fn seek<K: Bytes>(&mut self) -> Result<Option<&'a V>, AllocError>
        requires { IsFrontPosition K.item (lent self.old) }
        ensures place { OnOk result (IsFrontPosition K.item (lent self.new)) }
        ensures ok { IfOk result (λ found. TakesEntry (state_at (lent self.old))
            (option_copied found) (state_at (lent self.new))) }
        ensures err { OnErr result (entries_left (state_at (lent self.old)) ≢ []) }
    {
        if let Some(value) = self.pending.take() {
            return Ok(Some(value));
        }
        loop {
            match self.progress.next.get() {
                Some(id) => {
                    if let Some(value) = self.descend::<K>(id)? {
                        return Ok(Some(value));
                    }
                }
                None => {
                    if !self.progress.back() {
                        return Ok(None);
                    }
                }
            }
        }
    }
}

/// The entries of a map in key order, each with an owned key. An error is out of memory, and ends
/// the iterator.
#[derive(Drop)]
pub struct Walk<'a, K: Bytes, V> {
    alloc: Global,
    place: Traversal<'a, V>,
    kind: PhantomData<K>,
}

impl<'a, K: Bytes, V> Model for Walk<'a, K, V> {
    ghost use Rattle.std.specs.Prelude.{List, ℕ};

    ghost Value = { List (List ℕ × V) };

    ghost use Rattle.patricia_model.specs.Internal.WalkStates.{entries_left};
    ghost use Rattle.patricia_walks.specs.Internal.Fronts.{lent, state_at, IsFrontPosition};

    ghost view = { λ w. entries_left (state_at (lent w.place)) };

    ghost invariant = { λ w. IsFrontPosition K.item (lent w.place) };
}

impl<'a, K: Bytes, V> Walk<'a, K, V> {
    /// A walk over the empty key's value and the nodes. Making it does not allocate.
    pub fn new(alloc: Global, pending: Option<&'a V>, arena: &'a NodeArena<V>) -> Self
        requires whole { IsWellFormed arena.now }
        requires siblings { IsCanonical K.item (siblings_of arena.now) }
        ensures { result ≡ own (option_copied pending.entry) ++ entries_of arena.now }
    {
        Walk {
            alloc,
            place: Traversal {
                arena,
                progress: Progress::new(alloc, arena.root),
                pending,
            },
            kind: PhantomData,
        }
    }

    /// A walk that is over. Making it does not allocate.
    pub fn ended(alloc: Global, arena: &'a NodeArena<V>) -> Self
        ensures { result ≡ [] }
    {
        Walk {
            alloc,
            place: Traversal {
                arena,
                progress: Progress::new(alloc, Link::none()),
                pending: None,
            },
            kind: PhantomData,
        }
    }

    /// A walk over a node and what is below it, behind these bytes. The error is out of memory.
    pub fn below(
        alloc: Global,
        arena: &'a NodeArena<V>,
        front: &[u8],
        top: NodeId,
    ) -> Result<Self, AllocError>
        requires { IsTop K.item arena.now front.now top }
        ensures { IfOk result (λ walk.
            walk ≡ entries_below front.now (siblings_at arena.now.nodes.items (Some top))) }
    {
        let label = arena.nodes.label(top);
        let mut path = Vec::with_capacity(alloc, ROOM.max(front.len() + label.len()))?;
        path.extend_from_slice(front)?;
        path.extend_from_slice(label)?;
        Ok(Walk {
            alloc,
            place: Traversal {
                arena,
                progress: Progress {
                    front: path.len(),
                    path,
                    next: arena.nodes.child(top),
                    stack: Vec::new(alloc),
                },
                pending: arena.nodes.value(top),
            },
            kind: PhantomData,
        })
    }

    /// The key of the next entry.
    pub fn next_key(&mut self) -> Option<Result<K, AllocError>>
        ensures { YieldsOrErr K.key (keys_of self.old) result (keys_of self.new) }
    {
        match self.next()? {
            Ok((key, _)) => Some(Ok(key)),
            Err(error) => Some(Err(error)),
        }
    }
}

impl<'a, K: Bytes, V> Iterator for Walk<'a, K, V> {
    type Item = Result<(K, &'a V), AllocError>;

    ghost next_gives = { YieldsOrErr (λ e. (K.key e.0, e.1.now)) };

    ghost remaining = { λ entries. at_most (length entries) };

    fn next(&mut self) -> Option<Result<(K, &'a V), AllocError>> {
        match self.place.seek::<K>() {
            Ok(Some(value)) => match K::from_bytes(self.alloc, &self.place.progress.path) {
                Ok(key) => Some(Ok((key, value))),
                Err(error) => {
                    self.place.finish::<K>();
                    Some(Err(error))
                }
            },
            Ok(None) => None,
            Err(error) => {
                self.place.finish::<K>();
                Some(Err(error))
            }
        }
    }
}

impl<'a, K: Bytes, V> FusedIterator for Walk<'a, K, V> {}
