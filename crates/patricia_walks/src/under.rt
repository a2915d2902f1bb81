//! The entries under a prefix.
ghost use Rattle.std.specs.Prelude.{◌≡◌, ◌≢◌, ◌++◌, ◌+◌, ◌≤◌, [], Some, IfOk, IfSome, IfNone};
ghost use Rattle.std.specs.Prelude.{length, take};
ghost use Rattle.std.specs.Iterator.{at_most};
ghost use Rattle.std.specs.Option.{option_copied};
ghost use Rattle.patricia_model.specs.Prefixes.{under};
ghost use Rattle.patricia_model.specs.Siblings.{own, entries, IsCanonical};
ghost use Rattle.patricia_model.specs.Walks.{YieldsOrErr};
ghost use Rattle.patricia_nodes.specs.Internal.Plans.{IsWellFormed, siblings_of, entries_of};
ghost use Rattle.patricia_nodes.specs.Internal.Plans.{siblings_at};
ghost use Rattle.patricia_walks.specs.Internal.Depths.{first_label};
ghost use Rattle.patricia_walks.specs.Internal.Starts.{IsStartUnder, entries_from};

mod counting;
mod reading;

use crate::walk::Walk;
pub use counting::count_under;
use patricia_keys::{BorrowedBytes, Bytes};
use patricia_nodes::arena::NodeArena;
use patricia_nodes::link::NodeId;
pub use reading::PrefixReadCursor;
use std::alloc::{AllocError, Global};
use std::iter::FusedIterator;
use std::marker::Model;

// Where a walk begins: at a node, whose label comes behind the first bytes of the prefix.
#[derive(Clone, Copy)]
struct UnderStart<'a, Q, V> {
    arena: &'a NodeArena<V>,
    prefix: Q,
    front: usize,
    top: NodeId,
}

// The topmost node under a prefix that is not empty, where there is one.
fn find_start<'a, Q: BorrowedBytes, V>(
    arena: &'a NodeArena<V>,
    prefix: Q,
) -> Option<UnderStart<'a, Q, V>>
    requires whole { IsWellFormed arena.now }
    requires siblings { IsCanonical Q.Owned.item (siblings_of arena.now) }
    requires nonempty { Q.key prefix ≢ [] }
    ensures some { IfSome result (λ s. IsStartUnder Q.Owned.item Q.key s
        × (entries_from Q.key s ≡ under (Q.key prefix) (entries_of arena.now))) }
    ensures label { IfSome result (λ s. length (Q.key prefix)
        ≤ s.front + length (first_label (siblings_at s.arena.now.nodes.items (Some s.top)))) }
    ensures none { IfNone result (under (Q.key prefix) (entries_of arena.now) ≡ []) }
{
    let place = arena.seek(prefix);
    let front = prefix.as_bytes().len() - place.rest.as_bytes().len();
    let top = place.under()?;
    Some(UnderStart {
        arena,
        prefix,
        front,
        top,
    })
}

/// What a walk over the entries under a prefix has left, in key order.
#[derive(Drop)]
pub struct Under<'a, Q: BorrowedBytes, V> {
    alloc: Global,
    // where the walk begins, until it has begun
    start: Option<UnderStart<'a, Q, V>>,
    walk: Walk<'a, Q::Owned, V>,
}

impl<'a, Q: BorrowedBytes, V> Model for Under<'a, Q, V> {
    ghost use Rattle.std.specs.Prelude.{List, ℕ};

    ghost Value = { List (List ℕ × V) };

    ghost use Rattle.patricia_walks.specs.Internal.Starts.{IsUnderWalk, entries_to_lend};

    ghost view = { λ u. entries_to_lend Q.key u.start u.walk };

    ghost invariant = { λ u. IsUnderWalk Q.Owned.item Q.key u.start u.walk };
}

impl<'a, Q: BorrowedBytes, V> Under<'a, Q, V> {
    /// A walk over the empty key's value and the nodes. Making it does not allocate.
    pub fn new(alloc: Global, pending: Option<&'a V>, arena: &'a NodeArena<V>, prefix: Q) -> Self
        requires whole { IsWellFormed arena.now }
        requires siblings { IsCanonical Q.Owned.item (siblings_of arena.now) }
        ensures { result
            ≡ under (Q.key prefix) (own (option_copied pending.entry) ++ entries_of arena.now) }
    {
        if prefix.is_empty() {
            return Under {
                alloc,
                start: None,
                walk: Walk::new(alloc, pending, arena),
            };
        }
        Under {
            alloc,
            start: find_start(arena, prefix),
            walk: Walk::ended(alloc, arena),
        }
    }

    // The next entry.
    fn next_entry(&mut self) -> Option<Result<(Q::Owned, &'a V), AllocError>>
        ensures { YieldsOrErr (λ e. (Q.Owned.key e.0, e.1.now)) self.old result self.new }
    {
        if let Some(start) = self.start.take() {
            let front = &start.prefix.as_bytes()[..start.front];
            match Walk::below(self.alloc, start.arena, front, start.top) {
                Ok(walk) => self.walk = walk,
                Err(error) => return Some(Err(error)),
            }
        }
        self.walk.next()
    }
}

impl<'a, Q: BorrowedBytes, V> Iterator for Under<'a, Q, V> {
    type Item = Result<(Q::Owned, &'a V), AllocError>;

    ghost next_gives = { YieldsOrErr (λ e. (Q.Owned.key e.0, e.1.now)) };

    ghost remaining = { λ entries. at_most (length entries) };

    fn next(&mut self) -> Option<Result<(Q::Owned, &'a V), AllocError>> {
        self.next_entry()
    }
}

impl<'a, Q: BorrowedBytes, V> FusedIterator for Under<'a, Q, V> {}
