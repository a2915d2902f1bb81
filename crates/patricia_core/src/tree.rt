//! A tree of keys, seen as a finite map.
ghost use Rattle.std.specs.Prelude.{◌≡◌, ◌≢◌, ◌↔◌, ◌+◌, ◌*◌, ◌<◌, ◌≤◌, ℕ, List, [], length, None};
ghost use Rattle.std.specs.Prelude.{Any, IsTrue, IfSome, IfNone, IfOk, OnOk, IfErr, OnErr};
ghost use Rattle.std.specs.Borrow.{sem};
ghost use Rattle.std.specs.Option.{option_copied, option_copied_mut, option_map};
ghost use Rattle.std.specs.FinMap as map;
ghost use Rattle.std.specs.List.{All};
ghost use Rattle.patricia_keys.specs.Keys.{AreSingle, Begins, IsValid};
ghost use Rattle.patricia_model.specs.Clones.{ClonesAreSame};
ghost use Rattle.patricia_model.specs.Points.{CountsVisits, IsPoint, Joins};
ghost use Rattle.patricia_model.specs.Prefixes.{along, longest, outside, under, IsReach};
ghost use Rattle.patricia_model.specs.Cursors.{before_entries};
ghost use Rattle.patricia_model.specs.Walks.{values_of};
ghost use Rattle.patricia_wire.specs.Counts.{IsCount};
ghost use Rattle.patricia_wire.specs.TreeBytes.{AreTreeBytes};
ghost use Rattle.patricia_wire.specs.Writings.{Means, TooDeep};
ghost use Rattle.patricia_wire.specs.Faults.{IsRefusal};

mod cursors;
mod ends;
mod loading;
mod many;
mod merging;
mod near;
mod pruning;
mod ranges;
mod whole;

pub use loading::Loader;
pub use merging::Merger;
pub use patricia_codec::{DecodeError, EncodeError, Narrow, Wide, Width, WireError};
use patricia_codec::{decode, encode};
use patricia_edits::{copy, copy_value, insert, remove, split};
use patricia_keys::{BorrowedBytes, Bytes};
use patricia_nodes::Steps;
use patricia_nodes::arena::NodeArena;
pub use patricia_nodes::arena::Refused;
use patricia_nodes::parts::TreeParts;
use patricia_walks::along::{Along, AlongOwned};
use patricia_walks::into_walk::IntoWalk;
use patricia_walks::reach::reach;
use patricia_walks::under::{PrefixReadCursor, Under, count_under};
use patricia_walks::value_walk::ValueWalk;
use patricia_walks::walk::{ReadCursor, Walk};
pub use pruning::Pruner;
use std::alloc::{AllocError, Global};
use std::marker::{Brand, Model, PhantomData};
use std::mem;
use std::sync::ledger::{Blank, Ledger};

/// A finite map from keys of one kind.
#[derive(Drop)]
pub struct Tree<K: Bytes, V> {
    parts: TreeParts<V>,
    kind: PhantomData<K>,
}

impl<K: Bytes, V> Model for Tree<K, V> {
    ghost use Rattle.std.specs.FinMap as map;
    ghost use Rattle.std.specs.Coded.{coded_ℕ, coded_list};
    ghost use Rattle.patricia_keys.specs.Keys.{key_cmp};

    ghost Value = { map.FinMap key_cmp V };

    ghost coded = { map.code (coded_list coded_ℕ) V.code };

    ghost use Rattle.patricia_model.specs.Trees.{map_of};
    ghost use Rattle.patricia_nodes.specs.Internal.Plans.{siblings_of};
    ghost use Rattle.patricia_core.specs.Internal.Stores.{IsStored};

    ghost view = { λ t. map_of t.parts.value (siblings_of t.parts.arena) };

    ghost invariant = { λ t. IsStored K.item t.parts.arena t.parts.count };
}

impl<K: Bytes, V: Drop> Tree<K, V> {
    ghost use Rattle.patricia_core.specs.Internal.Loans.{tree_lends_entry};

    /// Makes an empty tree. Does not allocate.
    pub fn new(alloc: Global) -> Self
        ensures { result ≡ map.empty }
    {
        Tree {
            parts: TreeParts {
                alloc,
                value: None,
                arena: NodeArena::new(alloc),
                count: 0,
            },
            kind: PhantomData,
        }
    }

    /// An empty tree with the same allocator. Does not allocate.
    pub fn empty_alike(&self) -> Self
        ensures { result ≡ map.empty }
    {
        Tree::new(self.parts.alloc)
    }

    /// The allocator that the tree was made with.
    pub fn alloc(&self) -> Global {
        self.parts.alloc
    }

    /// How many nodes the vector has, used or free. There is one for each point of the keys.
    pub fn slots(&self) -> usize
        ensures { (n : ℕ) × IsCount (IsPoint K.item (map.keys self.now)) n × (n ≤ result) }
    {
        self.parts.arena.node_count()
    }

    /// The number of entries, that of the empty key included.
    pub fn len(&self) -> usize
        ensures { result ≡ map.len self.now }
    {
        if self.parts.value.is_some() {
            self.parts.count + 1
        } else {
            self.parts.count
        }
    }

    /// Whether there is no entry.
    pub fn is_empty(&self) -> bool
        ensures { IsTrue result ↔ (map.len self.now ≡ 0) }
    {
        self.len() == 0
    }

    /// Drops all entries. The allocator is kept.
    pub fn clear(&mut self)
        ensures { self.new ≡ map.empty }
    {
        self.parts.value = None;
        self.parts.arena.clear();
        self.parts.count = 0;
    }

    /// Relocates nodes that lie out of order, as at the end of a load. Without memory for that they
    /// stay where they are.
    pub fn settle(&mut self)
        ensures { self.new ≡ self.old }
    {
        self.parts.arena.settle(self.parts.alloc);
    }

    /// Relocates nodes that were made in the order of keys, in which their labels lie and stay.
    /// Without memory for that the nodes stay, too.
    pub fn settle_nodes(&mut self)
        ensures { self.new ≡ self.old }
    {
        self.parts.arena.settle_nodes(self.parts.alloc);
    }

    /// Looks a key up. It takes a step for the root, and one for each node whose label is compared
    /// with the key.
    pub fn get_counted<Q: BorrowedBytes<Owned = K>, L: Ledger>(
        &self,
        key: Q,
        steps: &mut Steps<L>,
    ) -> Option<&V>
        ensures value { option_copied result ≡ map.get self.now (Q.key key) }
        ensures counted { CountsVisits K.item (map.keys self.now) (Q.key key) steps.old steps.new }
        ensures bounded { AreSingle K.item → steps.new ≤ steps.old + 1 + 256 * length (Q.key key) }
    {
        steps.tick();
        if key.is_empty() {
            self.parts.value.as_ref()
        } else {
            self.parts.arena.get_counted(key, steps)
        }
    }

    // The same, counted in a ledger that nobody reads.
    fn get_from<Q: BorrowedBytes<Owned = K>, L: Ledger>(&self, key: Q, blank: Blank) -> Option<&V>
        requires name { blank.name ≡ L.name }
        requires parts { blank.parts ≡ L.parts }
        requires some { 0 < L.parts }
        ensures { option_copied result ≡ map.get self.now (Q.key key) }
    {
        let mut steps: Steps<L> = Steps::new(blank);
        self.get_counted(key, &mut steps)
    }

    /// The value at a key, or `None` where there is none.
    pub fn get<Q: BorrowedBytes<Owned = K>>(&self, key: Q) -> Option<&V>
        ensures { option_copied result ≡ map.get self.now (Q.key key) }
    {
        self.get_from::<Q, Brand>(key, Blank::new(1))
    }

    /// Inserts a value and returns the old one. The error is out of memory, and has the value.
    pub fn insert<Q: BorrowedBytes<Owned = K>>(
        &mut self,
        key: Q,
        value: V,
    ) -> Result<Option<V>, Refused<V>>
        ensures old { IfOk result (λ old. old ≡ map.get self.old (Q.key key)) }
        ensures ok { OnOk result (self.new ≡ map.insert self.old (Q.key key) value) }
        ensures refused { IfErr result (λ r. r.value ≡ value) }
        ensures unchanged { OnErr result (self.new ≡ self.old) }
        ensures err_only_nonempty { OnErr result (Q.key key ≢ []) }
        ensures only_new { OnErr result (map.get self.old (Q.key key) ≡ None) }
    {
        if key.is_empty() {
            return Ok(self.parts.value.replace(value));
        }
        if self.parts.count == usize::MAX - 1 && self.get(key).is_none() {
            return Err(Refused { value });
        }
        match insert(&mut self.parts.arena, self.parts.alloc, key, value) {
            Ok(None) => {
                self.parts.count += 1;
                Ok(None)
            }
            Ok(Some(old)) => Ok(Some(old)),
            Err(refused) => Err(refused),
        }
    }

    /// Lends the value at a key, or returns `None` where there is none.
    pub fn get_mut<Q: BorrowedBytes<Owned = K>>(&mut self, key: Q) -> Option<&mut V>
        ensures* writes { sem 𝓛
            (tree_lends_entry K.row V.row K.Bytes self.entry (Q.key key) result) }
        ensures value { option_copied_mut result ≡ map.get self.old (Q.key key) }
    {
        if key.is_empty() {
            let parts = &mut self.parts;
            return parts.value.as_mut();
        }
        match self.parts.arena.find(key) {
            Some(id) => {
                let parts = &mut self.parts;
                parts.arena.value_mut(id)
            }
            None => None,
        }
    }

    /// Removes a key and returns its value, or `None` where there is none. The error is out of
    /// memory for a joined label.
    pub fn remove<Q: BorrowedBytes<Owned = K>>(&mut self, key: Q) -> Result<Option<V>, AllocError>
        ensures old { IfOk result (λ old. old ≡ map.get self.old (Q.key key)) }
        ensures ok { OnOk result (self.new ≡ map.remove self.old (Q.key key)) }
        ensures unchanged { OnErr result (self.new ≡ self.old) }
        ensures joins { OnErr result (Joins K.item (map.keys self.old) (Q.key key)) }
    {
        if key.is_empty() {
            return Ok(self.parts.value.take());
        }
        match remove(&mut self.parts.arena, key) {
            Ok(Some(old)) => {
                self.parts.count -= 1;
                Ok(Some(old))
            }
            Ok(None) => Ok(None),
            Err(error) => Err(error),
        }
    }

    /// Returns a copy of the tree. The error is out of memory.
    pub fn clone(&self) -> Result<Self, AllocError>
    where
        V: Clone,
        requires { ClonesAreSame V.is_clone (map.values self.now) }
        ensures same { IfOk result (λ t. t ≡ self.now) }
        ensures err_only_nonempty { OnErr result (map.len self.now ≢ 0) }
    {
        let value = copy_value(self.parts.value.as_ref())?;
        Ok(Tree {
            parts: TreeParts {
                alloc: self.parts.alloc,
                value,
                arena: copy(&self.parts.arena, self.parts.alloc)?,
                count: self.parts.count,
            },
            kind: PhantomData,
        })
    }

    /// Removes the entries whose key begins with a prefix, and returns them as a tree. The error is
    /// out of memory.
    pub fn split<Q: BorrowedBytes<Owned = K>>(&mut self, prefix: Q) -> Result<Self, AllocError>
        ensures taken { IfOk result (λ t.
            map.entries t ≡ under (Q.key prefix) (map.entries self.old)) }
        ensures left { OnOk result (
            map.entries self.new ≡ outside (Q.key prefix) (map.entries self.old)) }
        ensures unchanged { OnErr result (self.new ≡ self.old) }
        ensures err_only_nonempty { OnErr result (Q.key prefix ≢ []) }
        ensures err_only_if_matched { OnErr result
            (under (Q.key prefix) (map.entries self.old) ≢ []) }
    {
        if prefix.is_empty() {
            let empty = Tree::new(self.parts.alloc);
            return Ok(mem::replace(self, empty));
        }
        match split(&mut self.parts.arena, self.parts.alloc, prefix) {
            Ok(taken) => {
                self.parts.count -= taken.count;
                Ok(Tree {
                    parts: taken,
                    kind: PhantomData,
                })
            }
            Err(error) => Err(error),
        }
    }

    /// Each key is a valid key of its kind, so its bytes are bytes. This says so, and does nothing.
    pub fn keys_are_valid(&self)
        ensures valid { All (IsValid K.item) (map.keys self.now) }
        ensures bytes { All (All (λ b. b < 256)) (map.keys self.now) }
    {
        // for the proof alone: what is read of a tree brings its invariant
        let _count = self.parts.count;
    }

    /// The common prefixes of a key: the entries whose key begins it, the shortest first. Each key
    /// is a part of that key.
    pub fn along<Q: BorrowedBytes<Owned = K>>(&self, key: Q) -> Along<'_, Q, V>
        ensures { result ≡ along (Q.key key) (map.entries self.now) }
    {
        Along::new(self.parts.value.as_ref(), &self.parts.arena, key)
    }

    /// The values of the same entries, for an owned key.
    pub fn along_owned(&self, key: K) -> AlongOwned<'_, K, V>
        ensures { result ≡ values_of (along (K.key key) (map.entries self.now)) }
    {
        AlongOwned::new(self.parts.value.as_ref(), &self.parts.arena, key)
    }

    /// The longest prefix of a key: the entry of the longest key that begins it. The key that is
    /// returned is a part of it.
    pub fn longest<Q: BorrowedBytes<Owned = K>>(&self, key: Q) -> Option<(Q, &V)>
        ensures entry { option_map (λ e. (Q.key e.0, e.1.now)) result
            ≡ longest (Q.key key) (map.entries self.now) }
        ensures part { IfSome result (λ e. Begins (Q.key e.0) (Q.key key)) }
    {
        let mut rest = self.along(key);
        let mut last = None;
        while let Some(entry) = rest.next() {
            last = Some(entry);
        }
        last
    }

    /// The common length of a key with the keys, the greatest that it has with one of them, in
    /// bytes; 0 where there are none.
    pub fn reach<Q: BorrowedBytes<Owned = K>>(&self, key: Q) -> usize
        ensures { IsReach K.item (map.keys self.now) (Q.key key) result }
    {
        reach(&self.parts.arena, key)
    }

    /// How many keys begin with a prefix. `None` only where one of them has more than 64 bytes
    /// behind it. Does not allocate.
    pub fn count_under<Q: BorrowedBytes<Owned = K>>(&self, prefix: Q) -> Option<usize>
        ensures some { IfSome result (λ n.
            n ≡ length (under (Q.key prefix) (map.entries self.now))) }
        ensures none { IfNone result (Any (λ e. length (Q.key prefix) + 64 < length e.0)
            (under (Q.key prefix) (map.entries self.now))) }
    {
        if prefix.is_empty() {
            return Some(self.len());
        }
        count_under(&self.parts.arena, prefix)
    }

    /// A walk over the entries whose key begins with a prefix. Making it does not allocate.
    pub fn under<Q: BorrowedBytes<Owned = K>>(&self, prefix: Q) -> Under<'_, Q, V>
        ensures { result ≡ under (Q.key prefix) (map.entries self.now) }
    {
        let parts = &self.parts;
        Under::new(parts.alloc, parts.value.as_ref(), &parts.arena, prefix)
    }

    /// Returns the encoding of the keys, with levels of this width. The values are no part of it.
    /// The error is out of memory, or that a record would lie deeper than such a level can tell.
    pub fn tree_bytes<W: Width>(&self) -> Result<Vec<u8>, EncodeError>
        ensures ok { IfOk result (λ b. AreTreeBytes K.item W.width b.items (map.entries self.now)) }
        ensures too_deep { result ≡ Err EncodeError.TooDeep
            → TooDeep K.item W.width (map.keys self.now) }
    {
        encode::<K, W, V>(self.parts.alloc, &self.parts.value, &self.parts.arena)
    }

    /// The tree of the entries that the bytes mean with the values, which are in key order, where
    /// levels have this width. Where it is refused the values are dropped.
    pub fn from_wire<W: Width>(
        alloc: Global,
        bytes: &[u8],
        values: Vec<V>,
    ) -> Result<Self, DecodeError>
        ensures ok { IfOk result (λ t.
            Means K.item W.width bytes.now values.items (map.entries t)) }
        ensures refused { IfErr result (λ e.
            IsRefusal K.item W.width bytes.now (length values.items) e) }
    {
        let parts = decode::<K, W, V>(alloc, bytes, values)?;
        Ok(Tree {
            parts,
            kind: PhantomData,
        })
    }

    /// A walk over the entries in key order. Making it does not allocate.
    pub fn walk(&self) -> Walk<'_, K, V>
        ensures { result ≡ map.entries self.now }
    {
        let parts = &self.parts;
        Walk::new(parts.alloc, parts.value.as_ref(), &parts.arena)
    }

    /// A cursor that reads the entries in key order. Making it does not allocate.
    pub fn cursor(&self) -> ReadCursor<'_, K, V>
        ensures { result ≡ before_entries (map.entries self.now) }
    {
        ReadCursor::new(self.walk())
    }

    /// The same of the entries whose key begins with a prefix. Making it does not allocate.
    pub fn cursor_prefix<Q: BorrowedBytes<Owned = K>>(
        &self,
        prefix: Q,
    ) -> PrefixReadCursor<'_, Q, V>
        ensures { result ≡ before_entries (under (Q.key prefix) (map.entries self.now)) }
    {
        PrefixReadCursor::new(self.under(prefix))
    }

    /// A walk over the values in the order of their keys. Making it does not allocate.
    pub fn value_walk(&self) -> ValueWalk<'_, V>
        ensures { result ≡ map.values self.now }
    {
        let parts = &self.parts;
        ValueWalk::new::<K>(parts.alloc, parts.value.as_ref(), &parts.arena)
    }

    /// A walk that moves the entries out, in key order. Making it does not allocate.
    pub fn into_walk(self) -> IntoWalk<K, V>
        ensures { result ≡ map.entries self }
    {
        let TreeParts {
            alloc,
            value,
            arena,
            ..
        } = self.parts;
        IntoWalk::new(alloc, value, arena)
    }
}
