//! A tree from which a walk removes entries where it stands.
ghost use Rattle.std.specs.Prelude.{◌≡◌, ◌≢◌, ◌≤◌, ◌<◌, ◌∷◌, ℕ, List, [], None, Some, false};
ghost use Rattle.std.specs.Prelude.{length, IfSome, IfOk, OnOk, IfErr, OnErr, IsTrue};
ghost use Rattle.std.specs.FinMap as map;
ghost use Rattle.std.specs.List.{All};
ghost use Rattle.patricia_model.specs.Points.{Joins};
ghost use Rattle.patricia_model.specs.Siblings.{keys_of};
ghost use Rattle.patricia_nodes.specs.Internal.Loans.{value_of, with_value};
ghost use Rattle.patricia_nodes.specs.Internal.Plans.{entries_of};
ghost use Rattle.patricia_edits.specs.Internal.Prunings.{HasLeft, StandsAtEntry};
ghost use Rattle.patricia_edits.specs.Internal.Removes.{Removes};
ghost use Rattle.patricia_core.specs.Asks.{IsAskedAtEntry};
ghost use Rattle.patricia_core.specs.Internal.Pruning.{is_at_empty, node_at};
ghost use Rattle.patricia_core.specs.Internal.Stores.{IsStored};
ghost use Rattle.patricia_core.specs.declared.tree.pruning.Spot.TheVariants.{Start};

use super::Tree;
use patricia_edits::Pruning;
use patricia_keys::Bytes;
use patricia_nodes::arena::NodeArena;
use patricia_nodes::link::NodeId;
use patricia_nodes::parts::TreeParts;
use patricia_walks::longest::longest_key;
use std::alloc::AllocError;
use std::marker::{Model, PhantomData};

// Where a walk stands.
#[derive(Clone, Copy)]
pub enum Spot {
    // before all entries
    Start,
    // at the entry of the empty key
    AtEmptyKey,
    // at the entry of a node
    AtNode(NodeId),
    // behind an entry that it has removed
    Between,
    // behind all entries
    End,
}

/// A tree, and a walk over its entries that can remove the one at which it stands.
#[derive(Drop)]
pub struct Pruner<K: Bytes, V> {
    tree: TreeParts<V>,
    // how far the walk has come over the nodes
    walk: Pruning,
    spot: Spot,
    kind: PhantomData<K>,
}

impl<K: Bytes, V> Model for Pruner<K, V> {
    ghost use Rattle.patricia_core.specs.Internal.Pruners.{PrunerView};
    ghost use Rattle.patricia_core.specs.Internal.Pruning.{pruner_view, pruner_view_code};
    ghost use Rattle.patricia_core.specs.Internal.Pruning.{IsPruned};

    ghost Value = { PrunerView V };

    ghost coded = { pruner_view_code V.code };

    ghost view = { λ p. pruner_view p.tree p.walk p.spot };

    ghost invariant = { λ p. IsPruned K.item p.tree p.walk p.spot };
}

// The node at whose entry the walk stands, where it stands at one.
fn node_of(spot: Spot) -> Option<NodeId>
    ensures { result ≡ node_at spot }
{
    match spot {
        Spot::AtNode(id) => Some(id),
        _ => None,
    }
}

// Whether it stands at the entry of the empty key.
fn is_at_empty_key(spot: Spot) -> bool
    ensures { result ≡ is_at_empty spot }
{
    match spot {
        Spot::AtEmptyKey => true,
        _ => false,
    }
}

// Whether the entry of the empty key is next.
fn is_empty_key_next<V>(spot: Spot, value: &Option<V>) -> bool
    ensures next { IsTrue result → (spot ≡ Start) × (value.now ≢ None) }
    ensures none { result ≡ false → spot ≡ Start → value.now ≡ None }
{
    match spot {
        Spot::Start => value.is_some(),
        _ => false,
    }
}

// Calls the closure at the value of a node, and returns what it returns.
fn ask_at<V, F: FnMut(&[u8], &mut V) -> bool>(
    arena: &mut NodeArena<V>,
    id: NodeId,
    key: &[u8],
    f: &mut F,
) -> bool
    requires callable { F.IsAlwaysCallable f.old }
    requires within { id < length arena.old.nodes.items }
    ensures callable { F.IsAlwaysCallable f.new }
    ensures asked { (v : V) → value_of arena.old id ≡ Some v
        → (w : V) × IsAskedAtEntry F.FnMut f.old (key.now, v) result f.new w
        × (arena.new ≡ with_value arena.old id w) }
{
    match arena.value_mut(id) {
        Some(lent) => f(key, lent),
        None => true,
    }
}

// Calls the closure at a value, and returns what it returns.
fn ask<V, F: FnMut(&[u8], &mut V) -> bool>(value: &mut Option<V>, key: &[u8], f: &mut F) -> bool
    requires callable { F.IsAlwaysCallable f.old }
    ensures callable { F.IsAlwaysCallable f.new }
    ensures asked { (v : V) → value.old ≡ Some v
        → (w : V) × IsAskedAtEntry F.FnMut f.old (key.now, v) result f.new w
        × (value.new ≡ Some w) }
{
    match value.as_mut() {
        Some(value) => f(key, value),
        None => true,
    }
}

// Takes the entry of a node out, at which a walk stands. The error is out of memory for a joined
// label.
fn remove_here<K: Bytes, V: Drop>(
    tree: &mut TreeParts<V>,
    walk: &mut Pruning,
) -> Result<(), AllocError>
    requires stored { IsStored K.item tree.old.arena tree.old.count }
    requires entry { (id : ℕ) × (value : V) × (left : List (List ℕ × V))
        × StandsAtEntry tree.old.arena walk.old id value left }
    ensures stored { IsStored K.item tree.new.arena tree.new.count }
    ensures value { tree.new.value ≡ tree.old.value }
    ensures removed { OnOk result
        (Removes K.item tree.old.arena tree.new.arena walk.old.path.items) }
    ensures left { OnOk result ((id : ℕ) (value : V) (left : List (List ℕ × V))
        → StandsAtEntry tree.old.arena walk.old id value left
        → HasLeft tree.new.arena walk.new left) }
    ensures unchanged { OnErr result (entries_of tree.new.arena ≡ entries_of tree.old.arena) }
    ensures stands { OnErr result ((id : ℕ) (value : V) (left : List (List ℕ × V))
        → StandsAtEntry tree.old.arena walk.old id value left
        → StandsAtEntry tree.new.arena walk.new id value left) }
    ensures joins { OnErr result
        (Joins K.item (keys_of (entries_of tree.old.arena)) walk.old.path.items) }
    ensures path { walk.new.path ≡ walk.old.path }
{
    walk.remove::<K, V>(&mut tree.arena)?;
    tree.count -= 1;
    Ok(())
}

impl<K: Bytes, V: Drop> Tree<K, V> {
    /// No key has more bytes than these. `None` where more than 64 nodes lie one below the other.
    /// Takes time in proportion to the nodes. Does not allocate.
    pub fn longest_key(&self) -> Option<usize>
        ensures { IfSome result (λ n. All (λ k. length k ≤ n) (map.keys self.now)) }
    {
        longest_key(&self.parts.arena)
    }
}

impl<K: Bytes, V: Drop> Pruner<K, V> {
    /// Makes a walk before all entries of a tree, whose keys have at most so many bytes. Out of
    /// memory it returns the tree. Nothing else that it does but `remove` asks for memory.
    pub fn new(tree: Tree<K, V>, longest: usize) -> Result<Self, Tree<K, V>>
        requires { All (λ k. length k ≤ longest) (map.keys tree) }
        ensures starts { IfOk result (λ p. p ≡ record {
          map = tree;
          at = None;
          left = map.entries tree;
        }) }
        ensures refused { IfErr result (λ t. t ≡ tree) }
    {
        let parts = tree.parts;
        match Pruning::new(&parts.arena, parts.alloc, longest) {
            Ok(walk) => Ok(Pruner {
                tree: parts,
                walk,
                spot: Spot::Start,
                kind: PhantomData,
            }),
            Err(_) => Err(Tree {
                parts,
                kind: PhantomData,
            }),
        }
    }

    /// The tree as it is now.
    pub fn into_tree(self) -> Tree<K, V>
        ensures { result ≡ self.map }
    {
        Tree {
            parts: self.tree,
            kind: PhantomData,
        }
    }

    /// Advances to the next entry, and returns whether there is one.
    pub fn advance(&mut self) -> bool
        ensures map { self.new.map ≡ self.old.map }
        ensures found { IsTrue result → (e : List ℕ × V) × (self.new.at ≡ Some e.0)
            × (self.old.left ≡ e ∷ self.new.left) }
        ensures ended { result ≡ false → self.old.left ≡ [] }
    {
        if is_empty_key_next(self.spot, &self.tree.value) {
            self.spot = Spot::AtEmptyKey;
            return true;
        }
        match self.walk.advance::<K, V>(&self.tree.arena) {
            Some(id) => {
                self.spot = Spot::AtNode(id);
                true
            }
            None => {
                self.spot = Spot::End;
                false
            }
        }
    }

    /// Calls the closure at the entry at which the walk stands, and returns what it returns.
    pub fn ask<F: FnMut(&[u8], &mut V) -> bool>(&mut self, f: &mut F) -> bool
        requires { F.IsAlwaysCallable f.old }
        ensures callable { F.IsAlwaysCallable f.new }
        ensures asked { (key : List ℕ) (v : V) → self.old.at ≡ Some key
            → map.get self.old.map key ≡ Some v
            → (w : V) × IsAskedAtEntry F.FnMut f.old (key, v) result f.new w
            × (self.new.map ≡ map.insert self.old.map key w) }
        ensures at { self.new.at ≡ self.old.at }
        ensures left { self.new.left ≡ self.old.left }
    {
        if let Some(id) = node_of(self.spot) {
            return ask_at(&mut self.tree.arena, id, &self.walk.path, f);
        }
        if is_at_empty_key(self.spot) {
            return ask(&mut self.tree.value, &self.walk.path, f);
        }
        true
    }

    /// Removes the entry at which the walk stands. The error is out of memory for a joined label.
    pub fn remove(&mut self) -> Result<(), AllocError>
        ensures removed { OnOk result ((key : List ℕ) → self.old.at ≡ Some key
            → self.new.map ≡ map.remove self.old.map key) }
        ensures left { self.new.left ≡ self.old.left }
        ensures unchanged { OnErr result (self.new.map ≡ self.old.map) }
        ensures joins { OnErr result ((key : List ℕ) → self.old.at ≡ Some key
            → Joins K.item (map.keys self.old.map) key) }
    {
        if node_of(self.spot).is_some() {
            remove_here::<K, V>(&mut self.tree, &mut self.walk)?;
            self.spot = Spot::Between;
            return Ok(());
        }
        if is_at_empty_key(self.spot) {
            let _old = self.tree.value.take();
            self.spot = Spot::Between;
            return Ok(());
        }
        Ok(())
    }
}
