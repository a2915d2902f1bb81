//! A tree that is filled with keys that are near one another.
ghost use Rattle.std.specs.Prelude.{◌≡◌, ◌≢◌, [], None, Some, IfOk, OnOk, IfErr, OnErr};
ghost use Rattle.std.specs.FinMap as map;
ghost use Rattle.std.specs.List.{last_or};
ghost use Rattle.std.specs.Option.{option_map};
ghost use Rattle.patricia_model.specs.Trees.{map_of};
ghost use Rattle.patricia_nodes.specs.Internal.Plans.{siblings_of};
ghost use Rattle.patricia_core.specs.Internal.Stores.{IsFilled};

use super::{Refused, Tree};
use patricia_edits::insert_along;
use patricia_keys::BorrowedBytes;
use patricia_nodes::arena::seek::LinkRef;
use patricia_nodes::parts::TreeParts;
use patricia_walks::last::last;
use std::alloc::AllocError;
use std::marker::{Model, PhantomData};
use std::mem;

// Inserts a value at a nonempty key and returns the old one. The look-up goes on from the trail of
// the last key, and the trail is that of this key then.
pub(super) fn insert_behind<V: Drop, Q: BorrowedBytes>(
    tree: &mut TreeParts<V>,
    trail: &mut Vec<(LinkRef, usize)>,
    last: Option<Q>,
    key: Q,
    value: V,
) -> Result<Option<V>, Refused<V>>
    requires filled { IsFilled Q.Owned.item Q.key tree.old.arena tree.old.count last
        trail.old.items }
    requires nonempty { Q.key key ≢ [] }
    ensures filled { IsFilled Q.Owned.item Q.key tree.new.arena tree.new.count (Some key)
        trail.new.items }
    ensures old { IfOk result (λ old.
        old ≡ map.get (map_of tree.old.value (siblings_of tree.old.arena)) (Q.key key)) }
    ensures ok { OnOk result (map_of tree.new.value (siblings_of tree.new.arena)
        ≡ map.insert (map_of tree.old.value (siblings_of tree.old.arena)) (Q.key key) value) }
    ensures refused { IfErr result (λ r. r.value ≡ value) }
    ensures unchanged { OnErr result (map_of tree.new.value (siblings_of tree.new.arena)
        ≡ map_of tree.old.value (siblings_of tree.old.arena)) }
    ensures only_new { OnErr result
        (map.get (map_of tree.old.value (siblings_of tree.old.arena)) (Q.key key) ≡ None) }
{
    if tree.count == usize::MAX - 1 && tree.arena.find(key).is_none() {
        trail.clear();
        return Err(Refused { value });
    }
    match insert_along(&mut tree.arena, trail, last, key, value) {
        Ok(None) => {
            tree.count += 1;
            Ok(None)
        }
        Ok(Some(old)) => Ok(Some(old)),
        Err(refused) => Err(refused),
    }
}

/// A tree that is filled with keys that are near one another: the look-up of each that comes later
/// than the key before it goes on at the last place that both pass.
///
/// Its nodes stay where they are, in the order in which they were made: `settle` relocates them
/// once it is a tree again.
#[derive(Drop)]
pub struct Loader<Q: BorrowedBytes, V> {
    tree: TreeParts<V>,
    // the key that was looked up last, where there is a trail
    last: Option<Q>,
    // a finger: the places that it has passed, each with the length of the path to it
    trail: Vec<(LinkRef, usize)>,
}

impl<Q: BorrowedBytes, V> Model for Loader<Q, V> {
    ghost use Rattle.std.specs.FinMap as map;
    ghost use Rattle.std.specs.Coded.{coded_ℕ, coded_list};
    ghost use Rattle.patricia_keys.specs.Keys.{key_cmp};

    ghost Value = { map.FinMap key_cmp V };

    ghost coded = { map.code (coded_list coded_ℕ) V.code };

    ghost use Rattle.patricia_model.specs.Trees.{map_of};
    ghost use Rattle.patricia_nodes.specs.Internal.Plans.{siblings_of};
    ghost use Rattle.patricia_core.specs.Internal.Stores.{IsFilled};

    ghost view = { λ l. map_of l.tree.value (siblings_of l.tree.arena) };

    ghost invariant = { λ l.
        IsFilled Q.Owned.item Q.key l.tree.arena l.tree.count l.last l.trail.items };
}

impl<Q: BorrowedBytes, V: Drop> Loader<Q, V> {
    /// Takes a tree that is to be filled. Does not allocate.
    pub fn new(tree: Tree<Q::Owned, V>) -> Self
        ensures { result ≡ tree }
    {
        let tree = tree.parts;
        let trail = Vec::new(tree.alloc);
        Loader {
            tree,
            last: None,
            trail,
        }
    }

    /// The tree with all that was inserted.
    pub fn into_tree(self) -> Tree<Q::Owned, V>
        ensures { result ≡ self }
    {
        Tree {
            parts: self.tree,
            kind: PhantomData,
        }
    }

    /// The last entry. The error is out of memory, and never comes where there is none.
    pub fn last(&self) -> Result<Option<(Q::Owned, &V)>, AllocError>
        ensures entry { IfOk result (λ entry. option_map (λ e. (Q.Owned.key e.0, e.1.now)) entry
            ≡ last_or None (map.entries self.now)) }
        ensures err_only_nonempty { OnErr result (map.entries self.now ≢ []) }
    {
        last(self.tree.alloc, self.tree.value.as_ref(), &self.tree.arena)
    }

    /// Inserts a value and returns the old one. The error is out of memory, and has the value.
    pub fn insert(&mut self, key: Q, value: V) -> Result<Option<V>, Refused<V>>
        ensures old { IfOk result (λ old. old ≡ map.get self.old (Q.key key)) }
        ensures ok { OnOk result (self.new ≡ map.insert self.old (Q.key key) value) }
        ensures refused { IfErr result (λ r. r.value ≡ value) }
        ensures unchanged { OnErr result (self.new ≡ self.old) }
        ensures err_only_nonempty { OnErr result (Q.key key ≢ []) }
        ensures only_new { OnErr result (map.get self.old (Q.key key) ≡ None) }
    {
        if key.is_empty() {
            return Ok(self.tree.value.replace(value));
        }
        let last = mem::replace(&mut self.last, Some(key));
        insert_behind(&mut self.tree, &mut self.trail, last, key, value)
    }
}
