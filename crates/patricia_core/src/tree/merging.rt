//! A tree that entries are merged into or removed from, with keys that are near one another.
ghost use Rattle.std.specs.Prelude.{◌≡◌, ◌≢◌, ◌<◌, ◌⊎◌, [], None, Some, IfOk, OnOk, IfErr, OnErr};
ghost use Rattle.std.specs.Prelude.{IfSome, MatchOption, length};
ghost use Rattle.std.specs.FinMap as map;
ghost use Rattle.std.specs.Fn.{CalledWithState};
ghost use Rattle.patricia_keys.specs.Keys.{IsValid};
ghost use Rattle.patricia_model.specs.Points.{Joins};
ghost use Rattle.patricia_model.specs.Trees.{map_of};
ghost use Rattle.patricia_nodes.specs.Internal.Loans.{value_of, with_value};
ghost use Rattle.patricia_nodes.specs.Internal.Plans.{siblings_of};
ghost use Rattle.patricia_core.specs.Internal.Stores.{IsFilled};
ghost use Rattle.patricia_core.specs.Merges.{MergesEntry};

use super::loading::insert_behind;
use super::{Refused, Tree};
use patricia_edits::{insert_new_along, remove_along};
use patricia_keys::keys::KeyBytes;
use patricia_keys::{BorrowedBytes, Bytes};
use patricia_nodes::arena::NodeArena;
use patricia_nodes::arena::seek::LinkRef;
use patricia_nodes::link::NodeId;
use patricia_nodes::parts::TreeParts;
use std::alloc::AllocError;
use std::marker::{Model, PhantomData};

// The key that was looked up last, where its bytes are kept.
fn last_key<'a, K: Bytes>(bytes: &'a [u8]) -> Option<KeyBytes<'a, K>>
    requires { IsValid K.item bytes.now }
    ensures { IfSome result (λ key.
        (⟦<KeyBytes<'a, K> as BorrowedBytes>⟧.key key ≡ bytes.now) × (bytes.now ≢ [])) }
{
    if bytes.is_empty() {
        None
    } else {
        Some(KeyBytes::new(bytes))
    }
}

// Keeps the bytes of a key in place of those of the last one, where memory is there for them. Else
// none are kept.
fn remember(last: &mut Vec<u8>, bytes: &[u8])
    ensures { (last.new.items ≡ bytes.now) ⊎ (last.new.items ≡ []) }
{
    last.clear();
    let _kept = last.extend_from_slice(bytes);
}

// Puts a value in where none is. Else the closure is called at the one that is there and this one.
fn merge_value<V: Drop, F: FnMut(&mut V, V)>(there: &mut Option<V>, value: V, f: &mut F)
    requires callable { F.IsAlwaysCallable f.old }
    ensures callable { F.IsAlwaysCallable f.new }
    ensures merged { MatchOption there.old ((f.new ≡ f.old) × (there.new ≡ Some value))
        (λ v. (w : V) × CalledWithState F.FnMut f.old v value tt f.new w × (there.new ≡ Some w)) }
{
    match there.as_mut() {
        Some(lent) => f(lent, value),
        None => *there = Some(value),
    }
}

// Calls the closure at the value of a node and another one.
fn merge_at<V: Drop, F: FnMut(&mut V, V)>(arena: &mut NodeArena<V>, id: NodeId, value: V, f: &mut F)
    requires callable { F.IsAlwaysCallable f.old }
    requires within { id < length arena.old.nodes.items }
    ensures callable { F.IsAlwaysCallable f.new }
    ensures merged { (v : V) → value_of arena.old id ≡ Some v
        → (w : V) × CalledWithState F.FnMut f.old v value tt f.new w
        × (arena.new ≡ with_value arena.old id w) }
{
    if let Some(lent) = arena.value_mut(id) {
        f(lent, value);
    }
}

// Puts an entry of a nonempty key in. Where the key has a value, the closure is called at it and
// the new one. The look-up goes on from the trail of the last key, and the trail is that of this
// key then.
fn merge_behind<V: Drop, Q: BorrowedBytes, F: FnMut(&mut V, V)>(
    tree: &mut TreeParts<V>,
    trail: &mut Vec<(LinkRef, usize)>,
    last: Option<Q>,
    key: Q,
    value: V,
    f: &mut F,
) -> Result<(), AllocError>
    requires filled { IsFilled Q.Owned.item Q.key tree.old.arena tree.old.count last
        trail.old.items }
    requires nonempty { Q.key key ≢ [] }
    requires callable { F.IsAlwaysCallable f.old }
    ensures filled { IsFilled Q.Owned.item Q.key tree.new.arena tree.new.count (Some key)
        trail.new.items }
    ensures callable { F.IsAlwaysCallable f.new }
    ensures merged { OnOk result (MergesEntry F.FnMut
        (f.old, map_of tree.old.value (siblings_of tree.old.arena)) (Q.key key, value)
        (f.new, map_of tree.new.value (siblings_of tree.new.arena))) }
    ensures unchanged { OnErr result (map_of tree.new.value (siblings_of tree.new.arena)
        ≡ map_of tree.old.value (siblings_of tree.old.arena)) }
    ensures only_new { OnErr result
        (map.get (map_of tree.old.value (siblings_of tree.old.arena)) (Q.key key) ≡ None) }
{
    if tree.count == usize::MAX - 1 && tree.arena.find(key).is_none() {
        trail.clear();
        return Err(AllocError);
    }
    match insert_new_along(&mut tree.arena, trail, last, key, value) {
        Ok(None) => {
            tree.count += 1;
            Ok(())
        }
        Ok(Some((id, value))) => {
            merge_at(&mut tree.arena, id, value, f);
            Ok(())
        }
        Err(_) => Err(AllocError),
    }
}

// Removes a nonempty key and returns its value. The look-up goes on from the trail of the last
// key, and the trail is that of this key then.
fn remove_behind<V: Drop, Q: BorrowedBytes>(
    tree: &mut TreeParts<V>,
    trail: &mut Vec<(LinkRef, usize)>,
    last: Option<Q>,
    key: Q,
) -> Result<Option<V>, AllocError>
    requires filled { IsFilled Q.Owned.item Q.key tree.old.arena tree.old.count last
        trail.old.items }
    requires nonempty { Q.key key ≢ [] }
    ensures filled { IsFilled Q.Owned.item Q.key tree.new.arena tree.new.count (Some key)
        trail.new.items }
    ensures old { IfOk result (λ old.
        old ≡ map.get (map_of tree.old.value (siblings_of tree.old.arena)) (Q.key key)) }
    ensures ok { OnOk result (map_of tree.new.value (siblings_of tree.new.arena)
        ≡ map.remove (map_of tree.old.value (siblings_of tree.old.arena)) (Q.key key)) }
    ensures unchanged { OnErr result (map_of tree.new.value (siblings_of tree.new.arena)
        ≡ map_of tree.old.value (siblings_of tree.old.arena)) }
    ensures joins { OnErr result (Joins Q.Owned.item
        (map.keys (map_of tree.old.value (siblings_of tree.old.arena))) (Q.key key)) }
{
    match remove_along(&mut tree.arena, trail, last, key) {
        Ok(Some(old)) => {
            tree.count -= 1;
            Ok(Some(old))
        }
        Ok(None) => Ok(None),
        Err(error) => Err(error),
    }
}

/// A tree that entries are merged into or removed from, with keys that are near one another: the
/// look-up of each that comes later than the key before it goes on at the last place that both
/// pass. Keys are borrowed for one call each.
///
/// Its nodes stay where they are, in the order in which they were made: `settle` relocates them
/// once it is a tree again.
#[derive(Drop)]
pub struct Merger<K: Bytes, V> {
    tree: TreeParts<V>,
    // the key that was looked up last, or empty where there is no trail
    last: Vec<u8>,
    // a finger: the places that it has passed, each with the length of the path to it
    trail: Vec<(LinkRef, usize)>,
    kind: PhantomData<K>,
}

impl<K: Bytes, V> Model for Merger<K, V> {
    ghost use Rattle.std.specs.FinMap as map;
    ghost use Rattle.std.specs.Coded.{coded_ℕ, coded_list};
    ghost use Rattle.patricia_keys.specs.Keys.{key_cmp};

    ghost Value = { map.FinMap key_cmp V };

    ghost coded = { map.code (coded_list coded_ℕ) V.code };

    ghost use Rattle.patricia_model.specs.Trees.{map_of};
    ghost use Rattle.patricia_nodes.specs.Internal.Plans.{siblings_of};
    ghost use Rattle.patricia_core.specs.Internal.Stores.{IsMerged};

    ghost view = { λ m. map_of m.tree.value (siblings_of m.tree.arena) };

    ghost invariant = { λ m.
        IsMerged K.item m.tree.arena m.tree.count m.last.items m.trail.items };
}

impl<K: Bytes, V: Drop> Merger<K, V> {
    /// Takes a tree that is to be changed. Does not allocate.
    pub fn new(tree: Tree<K, V>) -> Self
        ensures { result ≡ tree }
    {
        let tree = tree.parts;
        let last = Vec::new(tree.alloc);
        let trail = Vec::new(tree.alloc);
        Merger {
            tree,
            last,
            trail,
            kind: PhantomData,
        }
    }

    /// The tree as it was changed.
    pub fn into_tree(self) -> Tree<K, V>
        ensures { result ≡ self }
    {
        Tree {
            parts: self.tree,
            kind: PhantomData,
        }
    }

    /// Puts an entry in. Where its key has a value, the closure is called at it and the new one,
    /// and what it leaves there stays. The error is out of memory.
    pub fn merge<Q: BorrowedBytes<Owned = K>, F: FnMut(&mut V, V)>(
        &mut self,
        key: Q,
        value: V,
        f: &mut F,
    ) -> Result<(), AllocError>
        requires { F.IsAlwaysCallable f.old }
        ensures callable { F.IsAlwaysCallable f.new }
        ensures merged { OnOk result
            (MergesEntry F.FnMut (f.old, self.old) (Q.key key, value) (f.new, self.new)) }
        ensures unchanged { OnErr result (self.new ≡ self.old) }
        ensures err_only_nonempty { OnErr result (Q.key key ≢ []) }
        ensures only_new { OnErr result (map.get self.old (Q.key key) ≡ None) }
    {
        if key.is_empty() {
            merge_value(&mut self.tree.value, value, f);
            return Ok(());
        }
        let key = KeyBytes::<K>::new(key.as_bytes());
        let last = last_key::<K>(&self.last);
        let result = merge_behind(&mut self.tree, &mut self.trail, last, key, value, f);
        remember(&mut self.last, key.as_bytes());
        result
    }

    /// Inserts a value and returns the old one. The error is out of memory, and has the value.
    pub fn insert<Q: BorrowedBytes<Owned = K>>(
        &mut self,
        key: Q,
        value: V,
    ) -> Result<Option<V>, Refused<V>>
        ensures old { IfOk result (λ old. old ≡ map.get self.old (Q.key key)) }
        ensures ok { OnOk result (self.new ≡ map.insert self.old (Q.key key) value) }
        ensures refused { IfErr result (λ r. r.value ≡ value) }
        ensures unchanged { OnErr result (self.new ≡ self.old) }
        ensures err_only_nonempty { OnErr result (Q.key key ≢ []) }
        ensures only_new { OnErr result (map.get self.old (Q.key key) ≡ None) }
    {
        if key.is_empty() {
            return Ok(self.tree.value.replace(value));
        }
        let key = KeyBytes::<K>::new(key.as_bytes());
        let last = last_key::<K>(&self.last);
        let result = insert_behind(&mut self.tree, &mut self.trail, last, key, value);
        remember(&mut self.last, key.as_bytes());
        result
    }

    /// Removes a key and returns its value, or `None` where there is none. The error is out of
    /// memory for a joined label.
    pub fn remove<Q: BorrowedBytes<Owned = K>>(&mut self, key: Q) -> Result<Option<V>, AllocError>
        ensures old { IfOk result (λ old. old ≡ map.get self.old (Q.key key)) }
        ensures ok { OnOk result (self.new ≡ map.remove self.old (Q.key key)) }
        ensures unchanged { OnErr result (self.new ≡ self.old) }
        ensures joins { OnErr result (Joins K.item (map.keys self.old) (Q.key key)) }
    {
        if key.is_empty() {
            return Ok(self.tree.value.take());
        }
        let key = KeyBytes::<K>::new(key.as_bytes());
        let last = last_key::<K>(&self.last);
        let result = remove_behind(&mut self.tree, &mut self.trail, last, key);
        remember(&mut self.last, key.as_bytes());
        result
    }
}
