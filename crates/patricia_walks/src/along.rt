//! The common prefixes of a key, the shortest first.
ghost use Rattle.std.specs.Prelude.{◌≡◌, ◌++◌, Some, None, take, length};
ghost use Rattle.std.specs.Iterator.{at_most};
ghost use Rattle.std.specs.Map.Iter.{TakesFirst};
ghost use Rattle.std.specs.Option.{option_copied};
ghost use Rattle.patricia_model.specs.Prefixes.{along};
ghost use Rattle.patricia_model.specs.Siblings.{own, IsCanonical};
ghost use Rattle.patricia_model.specs.Walks.{values_of};
ghost use Rattle.patricia_nodes.specs.Internal.Plans.{IsWellFormed, siblings_of, entries_of};
ghost use Rattle.patricia_walks.specs.Internal.Descents.{IsDescent, Moves, along_left};

use patricia_keys::{BorrowedBytes, Bytes};
use patricia_nodes::arena::NodeArena;
use patricia_nodes::link::{Link, NodeId};
use std::cmp::Ordering;
use std::iter::FusedIterator;
use std::marker::Model;

// How far a walk over the common prefixes of a key has come.
#[derive(Drop)]
struct Descent<'a, V> {
    arena: &'a NodeArena<V>,
    // how many bytes of the key are passed
    len: usize,
    // the value at these bytes, while it is due
    pending: Option<&'a V>,
    // the siblings behind them
    next: Link,
}

impl<'a, V> Descent<'a, V> {
    // At the root.
    fn new<K: Bytes>(pending: Option<&'a V>, arena: &'a NodeArena<V>, key: &[u8]) -> Self
        requires whole { IsWellFormed arena.now }
        requires siblings { IsCanonical K.item (siblings_of arena.now) }
        ensures descent { IsDescent K.item key.now result }
        ensures left { along_left key.now result
            ≡ along key.now (own (option_copied pending.entry) ++ entries_of arena.now) }
    {
        Descent {
            arena,
            len: 0,
            pending,
            next: arena.root,
        }
    }

    // Goes on at a node: to its children where its label begins what is left of the key, to the end
    // where what is left comes before it, and else to its sibling.
    fn pass<K: Bytes>(&mut self, id: NodeId, key: &[u8])
        requires descent { IsDescent K.item key.now self.old }
        requires taken { self.old.pending ≡ None }
        requires next { self.old.next ≡ Some id }
        ensures { Moves K.item key.now self.old self.new }
    {
        let rest = &key[self.len..];
        if rest.is_empty() {
            self.next = Link::none();
            return;
        }
        // past siblings that lie side by side
        let nodes = &self.arena.nodes;
        let id = nodes.run(id, rest[0]);
        let first = nodes.first_byte(id);
        if first < rest[0] {
            self.next = nodes.sibling(id);
            return;
        }
        if rest[0] < first {
            self.next = Link::none();
            return;
        }
        let label = nodes.label(id);
        if rest.starts_with(label) {
            self.len += label.len();
            self.pending = nodes.value(id);
            self.next = nodes.child(id);
        } else if rest.cmp(label) == Ordering::Less {
            self.next = Link::none();
        } else {
            self.next = nodes.sibling(id);
        }
    }

    // Takes the next value, whose key is then the bytes that are passed.
    fn seek<K: Bytes>(&mut self, key: &[u8]) -> Option<&'a V>
        requires { IsDescent K.item key.now self.old }
        ensures descent { IsDescent K.item key.now self.new }
        ensures taken { TakesFirst (λ v. (take self.new.len key.now, v.now))
            (along_left key.now self.old) result (along_left key.now self.new) }
    {
        loop {
            if let Some(value) = self.pending.take() {
                return Some(value);
            }
            match self.next.get() {
                Some(id) => self.pass::<K>(id, key),
                None => return None,
            }
        }
    }
}

/// The common prefixes of a borrowed key: the entries whose key begins it, the shortest first. Each
/// key is a part of that key.
#[derive(Drop)]
pub struct Along<'a, Q: BorrowedBytes, V> {
    key: Q,
    place: Descent<'a, V>,
}

impl<'a, Q: BorrowedBytes, V> Model for Along<'a, Q, V> {
    ghost use Rattle.std.specs.Prelude.{List, ℕ};

    ghost Value = { List (List ℕ × V) };

    ghost use Rattle.patricia_walks.specs.Internal.Descents.{IsDescent, along_left};

    ghost view = { λ a. along_left (Q.key a.key) a.place };

    ghost invariant = { λ a. IsDescent Q.Owned.item (Q.key a.key) a.place };
}

impl<'a, Q: BorrowedBytes, V> Along<'a, Q, V> {
    /// The walk over the empty key's value and the nodes. Neither it nor its steps take memory.
    pub fn new(pending: Option<&'a V>, arena: &'a NodeArena<V>, key: Q) -> Self
        requires whole { IsWellFormed arena.now }
        requires siblings { IsCanonical Q.Owned.item (siblings_of arena.now) }
        ensures { result
            ≡ along (Q.key key) (own (option_copied pending.entry) ++ entries_of arena.now) }
    {
        Along {
            key,
            place: Descent::new::<Q::Owned>(pending, arena, key.as_bytes()),
        }
    }

    /// The value of the next entry.
    pub fn next_value(&mut self) -> Option<&'a V>
        ensures { TakesFirst (λ v. v.now) (values_of self.old) result (values_of self.new) }
    {
        self.place.seek::<Q::Owned>(self.key.as_bytes())
    }
}

impl<'a, Q: BorrowedBytes, V> Iterator for Along<'a, Q, V> {
    type Item = (Q, &'a V);

    ghost next_gives = { TakesFirst (λ e. (Q.key e.0, e.1.now)) };

    ghost remaining = { λ entries. at_most (length entries) };

    fn next(&mut self) -> Option<(Q, &'a V)> {
        let value = self.place.seek::<Q::Owned>(self.key.as_bytes())?;
        Some((self.key.keep_n_prefix(self.place.len), value))
    }
}

impl<'a, Q: BorrowedBytes, V> FusedIterator for Along<'a, Q, V> {}

/// The values of the same entries, for an owned key.
#[derive(Drop)]
pub struct AlongOwned<'a, K: Bytes, V> {
    key: K,
    place: Descent<'a, V>,
}

impl<'a, K: Bytes, V> Model for AlongOwned<'a, K, V> {
    ghost use Rattle.std.specs.Prelude.{List};

    ghost Value = { List V };

    ghost use Rattle.patricia_model.specs.Walks.{values_of};
    ghost use Rattle.patricia_walks.specs.Internal.Descents.{IsDescent, along_left};

    ghost view = { λ a. values_of (along_left (K.key a.key) a.place) };

    ghost invariant = { λ a. IsDescent K.item (K.key a.key) a.place };
}

impl<'a, K: Bytes, V> AlongOwned<'a, K, V> {
    /// The walk over the empty key's value and the nodes. Neither it nor its steps take memory.
    pub fn new(pending: Option<&'a V>, arena: &'a NodeArena<V>, key: K) -> Self
        requires whole { IsWellFormed arena.now }
        requires siblings { IsCanonical K.item (siblings_of arena.now) }
        ensures { result ≡ values_of
            (along (K.key key) (own (option_copied pending.entry) ++ entries_of arena.now)) }
    {
        let place = Descent::new::<K>(pending, arena, key.as_bytes());
        AlongOwned { key, place }
    }
}

impl<'a, K: Bytes, V> Iterator for AlongOwned<'a, K, V> {
    type Item = &'a V;

    ghost next_gives = { TakesFirst (λ v. v.now) };

    ghost remaining = { λ values. at_most (length values) };

    fn next(&mut self) -> Option<&'a V> {
        self.place.seek::<K>(self.key.as_bytes())
    }
}

impl<'a, K: Bytes, V> FusedIterator for AlongOwned<'a, K, V> {}
