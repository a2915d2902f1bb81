//! A map whose keys, byte strings or texts, share their common prefixes.
ghost use Rattle.std.specs.Prelude.{◌≡◌, ◌≢◌, ◌↔◌, ◌+◌, ◌*◌, ◌<◌, ◌≤◌, ℕ, List, [], length, None};
ghost use Rattle.std.specs.Prelude.{IsTrue, IfOk, OnOk, IfErr, OnErr};
ghost use Rattle.std.specs.Borrow.{sem};
ghost use Rattle.std.specs.Option.{option_copied, option_copied_mut};
ghost use Rattle.std.specs.FinMap as map;
ghost use Rattle.std.specs.List.{All};
ghost use Rattle.patricia_core.specs.Clones.{ClonesAreSame};
ghost use Rattle.patricia_core.specs.Keys.{AreSingle, Begins, IsValid};
ghost use Rattle.patricia_core.specs.Points.{CountsVisits, Joins};
ghost use Rattle.patricia_core.specs.Prefixes.{outside, under};
ghost use Rattle.patricia_core.specs.TreeBytes.{AreTreeBytes};
ghost use Rattle.patricia_core.specs.Faults.{IsRefusal};
ghost use Rattle.patricia_core.specs.Writings.{Means, TooDeep};

pub(crate) mod bulk;
mod changes;
mod collects;
mod cursors;
mod debug;
mod ends;
mod iterators;
mod loans;
mod many;
mod near;
mod prefixes;
mod ranges;
mod retain;
mod sorted;
mod visits;
mod whole;

pub use crate::guard::{CursorGuard, IntoMap};
pub use cursors::{IterMut, IterPrefixMut, ValuesMut};
use patricia_core::Steps;
pub use patricia_core::entries::{IntoIter, Iter, Keys, Values};
use patricia_core::keys::{BorrowedBytes, Bytes};
pub use patricia_core::near::NearCursor;
pub use patricia_core::prefixes::{
    CommonPrefixValues, CommonPrefixValuesOwned, CommonPrefixesIter, IterPrefix,
};
pub use patricia_core::range::RangeReadCursor;
pub use patricia_core::ranges::Range;
pub use patricia_core::tree::Refused;
use patricia_core::tree::{DecodeError, EncodeError, Narrow, Tree, Wide, WireError};
pub use patricia_core::under::PrefixReadCursor;
pub use patricia_core::walk::ReadCursor;
pub use sorted::LoadError;
pub(crate) use sorted::SortedLoad;
use std::alloc::{AllocError, Global};
use std::marker::Model;
use std::sync::ledger::Ledger;

/// A map whose keys are byte strings.
pub type PatriciaMap<V> = GenericPatriciaMap<Vec<u8>, V>;

/// A map whose keys are texts.
pub type StringPatriciaMap<V> = GenericPatriciaMap<String, V>;

/// A map from keys of one kind to values, in the order of the keys' bytes.
///
/// A map keeps the allocator that it was made with. A call that takes memory asks for it before
/// it changes anything, so that a refusal leaves the map as it was.
#[derive(Drop)]
pub struct GenericPatriciaMap<K: Bytes, V> {
    tree: Tree<K, V>,
}

impl<K: Bytes, V> Model for GenericPatriciaMap<K, V> {
    ghost use Rattle.std.specs.FinMap as map;
    ghost use Rattle.std.specs.Coded.{coded_ℕ, coded_list};
    ghost use Rattle.patricia_core.specs.Keys.{key_cmp};

    ghost Value = { map.FinMap key_cmp V };

    ghost coded = { map.code (coded_list coded_ℕ) V.code };

    ghost view = { λ m. m.tree };
}

impl<K: Bytes, V: Drop> GenericPatriciaMap<K, V> {
    ghost use Rattle.patricia_tree.specs.Loans.{lends_entry};

    /// Makes an empty map, which keeps the allocator. Does not allocate.
    ///
    /// # Examples
    ///
    /// ```
    /// let map: PatriciaMap<u32> = PatriciaMap::new(rt.alloc());
    /// assert!(rt; map.is_empty());
    /// ```
    pub fn new(alloc: Global) -> Self
        ensures { result ≡ map.empty }
    {
        GenericPatriciaMap {
            tree: Tree::new(alloc),
        }
    }

    /// Returns the number of entries, that of the empty key included, in constant time.
    ///
    /// # Examples
    ///
    /// ```
    /// let mut map = StringPatriciaMap::new(rt.alloc());
    /// map.insert("", 1)?;
    /// map.insert("foo", 2)?;
    /// assert_eq!(rt; map.len(), 2);
    /// ```
    pub fn len(&self) -> usize
        ensures { result ≡ map.len self.now }
    {
        self.tree.len()
    }

    /// Returns whether there is no entry, in constant time.
    ///
    /// # Examples
    ///
    /// ```
    /// let mut map = StringPatriciaMap::new(rt.alloc());
    /// assert!(rt; map.is_empty());
    /// map.insert("foo", 1)?;
    /// assert!(rt; !map.is_empty());
    /// ```
    pub fn is_empty(&self) -> bool
        ensures { IsTrue result ↔ (map.len self.now ≡ 0) }
    {
        self.tree.is_empty()
    }

    /// Drops all entries, and keeps the allocator. Does not allocate.
    ///
    /// # Examples
    ///
    /// ```
    /// let mut map = StringPatriciaMap::new(rt.alloc());
    /// map.insert("foo", 1)?;
    /// map.clear();
    /// assert!(rt; map.is_empty());
    /// ```
    pub fn clear(&mut self)
        ensures { self.new ≡ map.empty }
    {
        self.tree.clear();
    }

    /// Returns whether the key is there. Does not allocate, and takes the time of `get`.
    ///
    /// # Examples
    ///
    /// ```
    /// let mut map = StringPatriciaMap::new(rt.alloc());
    /// map.insert("foo", 1)?;
    /// assert!(rt; map.contains_key("foo"));
    /// assert!(rt; !map.contains_key("fo"));
    /// ```
    pub fn contains_key<Q: BorrowedBytes<Owned = K>>(&self, key: Q) -> bool
        ensures { result ≡ map.contains_key self.now (Q.key key) }
    {
        self.get(key).is_some()
    }

    /// Returns the value at a key, or `None` where there is none. Does not allocate.
    ///
    /// Takes time in proportion to the nodes that it visits: for byte keys at most `1 + 256 *
    /// key.len()`, for any keys as many as `get_counted` says.
    ///
    /// # Examples
    ///
    /// ```
    /// let mut map = StringPatriciaMap::new(rt.alloc());
    /// map.insert("foo", 1)?;
    /// assert_eq!(rt; map.get("foo"), Some(&1));
    /// assert_eq!(rt; map.get("foobar"), None);
    /// ```
    pub fn get<Q: BorrowedBytes<Owned = K>>(&self, key: Q) -> Option<&V>
        ensures { option_copied result ≡ map.get self.now (Q.key key) }
    {
        self.tree.get(key)
    }

    /// Lends the value at a key, or returns `None` where there is none. Does not allocate.
    ///
    /// When the loan is over, the map has what was left there.
    ///
    /// # Examples
    ///
    /// ```
    /// let mut map = StringPatriciaMap::new(rt.alloc());
    /// map.insert("foo", 1)?;
    /// if let Some(value) = map.get_mut("foo") {
    ///     *value = 5;
    /// }
    /// assert_eq!(rt; map.get("foo"), Some(&5));
    /// ```
    pub fn get_mut<Q: BorrowedBytes<Owned = K>>(&mut self, key: Q) -> Option<&mut V>
        ensures* writes { sem 𝓛 (lends_entry K.row V.row K.Bytes self.entry (Q.key key) result) }
        ensures value { option_copied_mut result ≡ map.get self.old (Q.key key) }
    {
        self.tree.get_mut(key)
    }

    /// Returns the value at a key, and adds the number of nodes that the look-up visits to `steps`.
    ///
    /// It counts the root, and each node whose label is compared with the key. Siblings are
    /// compared in their order, up to and with the first whose first item is not less than the
    /// key's. A `Steps` takes no bytes at run time, and contracts alone see it.
    ///
    /// # Examples
    ///
    /// ```
    /// fn look_up<L: Ledger>(map: &PatriciaMap<u32>, key: &[u8], blank: Blank) -> Option<u32>
    ///     requires name { blank.name ≡ L.name }
    ///     requires parts { blank.parts ≡ L.parts }
    ///     requires some { 0 < L.parts }
    /// {
    ///     let mut steps: Steps<L> = Steps::new(blank);
    ///     map.get_counted(key, &mut steps).copied()
    /// }
    /// ```
    pub fn get_counted<Q: BorrowedBytes<Owned = K>, L: Ledger>(
        &self,
        key: Q,
        steps: &mut Steps<L>,
    ) -> Option<&V>
        ensures value { option_copied result ≡ map.get self.now (Q.key key) }
        ensures counted { CountsVisits K.item (map.keys self.now) (Q.key key) steps.old steps.new }
        ensures bounded { AreSingle K.item → steps.new ≤ steps.old + 1 + 256 * length (Q.key key) }
    {
        self.tree.get_counted(key, steps)
    }

    /// Inserts a value at a key, and returns the value that was there, or `None` for a new key.
    ///
    /// Takes the time of a look-up. Where the vector of nodes is full it is extended and the nodes
    /// are relocated, in time in proportion to the number of entries.
    ///
    /// # Errors
    ///
    /// Out of memory, at a new nonempty key alone: the map is unchanged, and `Refused` has the
    /// value. A new nonempty key where `usize::MAX - 1` of them are stored is refused in the same
    /// way, so that `len` never overflows.
    ///
    /// # Examples
    ///
    /// ```
    /// let mut map = PatriciaMap::new(rt.alloc());
    /// assert_eq!(rt; map.insert(b"foo".as_slice(), 1)?, None);
    /// assert_eq!(rt; map.insert(b"foo".as_slice(), 2)?, Some(1));
    /// assert_eq!(rt; map.get(b"foo".as_slice()), Some(&2));
    /// ```
    pub fn insert<Q: BorrowedBytes<Owned = K>>(
        &mut self,
        key: Q,
        value: V,
    ) -> Result<Option<V>, Refused<V>>
        ensures old { IfOk result (λ old. old ≡ map.get self.old (Q.key key)) }
        ensures ok { OnOk result (self.new ≡ map.insert self.old (Q.key key) value) }
        ensures refused { IfErr result (λ r. r.value ≡ value) }
        ensures unchanged { OnErr result (self.new ≡ self.old) }
        ensures err_only_nonempty { OnErr result (Q.key key ≢ []) }
        ensures only_new { OnErr result (map.get self.old (Q.key key) ≡ None) }
    {
        self.tree.insert(key, value)
    }

    /// Removes a key, and returns the value that was there, or `None` where there was none.
    ///
    /// Takes the time of a look-up.
    ///
    /// # Errors
    ///
    /// Out of memory for a joined label: the map is unchanged. Labels are joined only where a node
    /// is no longer needed by a key or by two branches, so never for an absent or the empty key.
    ///
    /// # Examples
    ///
    /// ```
    /// let mut map = StringPatriciaMap::new(rt.alloc());
    /// map.insert("foo", 1)?;
    /// assert_eq!(rt; map.remove("foo")?, Some(1));
    /// assert_eq!(rt; map.remove("foo")?, None);
    /// ```
    pub fn remove<Q: BorrowedBytes<Owned = K>>(&mut self, key: Q) -> Result<Option<V>, AllocError>
        ensures old { IfOk result (λ old. old ≡ map.get self.old (Q.key key)) }
        ensures ok { OnOk result (self.new ≡ map.remove self.old (Q.key key)) }
        ensures unchanged { OnErr result (self.new ≡ self.old) }
        ensures joins { OnErr result (Joins K.item (map.keys self.old) (Q.key key)) }
    {
        self.tree.remove(key)
    }

    /// Returns a copy of the map, in time in proportion to the number of entries. Each clone of a
    /// stored value must be that value.
    ///
    /// # Errors
    ///
    /// Out of memory, never for an empty map.
    ///
    /// # Examples
    ///
    /// ```
    /// let mut map = StringPatriciaMap::new(rt.alloc());
    /// map.insert("foo", 1)?;
    /// let copy = map.clone()?;
    /// map.clear();
    /// assert_eq!(rt; copy.get("foo"), Some(&1));
    /// ```
    pub fn clone(&self) -> Result<Self, AllocError>
    where
        V: Clone,
        requires { ClonesAreSame V.is_clone (map.values self.now) }
        ensures same { IfOk result (λ m. m ≡ self.now) }
        ensures err_only_nonempty { OnErr result (map.len self.now ≢ 0) }
    {
        Ok(GenericPatriciaMap {
            tree: self.tree.clone()?,
        })
    }

    /// Removes the entries whose key begins with the prefix, and returns them as a map.
    ///
    /// Takes a look-up, and time in proportion to the entries that are removed.
    ///
    /// # Errors
    ///
    /// Out of memory: the map is unchanged. Never for the empty prefix, which moves the whole map,
    /// nor where no key begins with the prefix.
    ///
    /// # Examples
    ///
    /// ```
    /// let mut map = StringPatriciaMap::new(rt.alloc());
    /// map.insert("rust", 1)?;
    /// map.insert("ruby", 2)?;
    /// map.insert("python", 3)?;
    /// let split = map.split_by_prefix("ru")?;
    /// assert_eq!(rt; split.len(), 2);
    /// assert!(rt; split.contains_key("ruby"));
    /// assert_eq!(rt; map.len(), 1);
    /// assert!(rt; map.contains_key("python"));
    /// ```
    pub fn split_by_prefix<Q: BorrowedBytes<Owned = K>>(
        &mut self,
        prefix: Q,
    ) -> Result<Self, AllocError>
        ensures taken { IfOk result (λ m.
            map.entries m ≡ under (Q.key prefix) (map.entries self.old)) }
        ensures left { OnOk result (
            map.entries self.new ≡ outside (Q.key prefix) (map.entries self.old)) }
        ensures unchanged { OnErr result (self.new ≡ self.old) }
        ensures err_only_nonempty { OnErr result (Q.key prefix ≢ []) }
        ensures err_only_if_matched { OnErr result
            (under (Q.key prefix) (map.entries self.old) ≢ []) }
    {
        Ok(GenericPatriciaMap {
            tree: self.tree.split(prefix)?,
        })
    }

    /// Returns the tree bytes: the encoding of the keys, which is the same for each map with these
    /// keys, whatever its history.
    ///
    /// A prefix that keys share is encoded once. The values are not encoded: store them beside the
    /// bytes, in key order. Takes time in proportion to the bytes.
    ///
    /// # Errors
    ///
    /// `TooDeep` where a record would lie deeper than level 65,535, which takes keys of more than
    /// that many bytes; or out of memory.
    ///
    /// # Examples
    ///
    /// ```
    /// let mut map = StringPatriciaMap::new(rt.alloc());
    /// map.insert("a", 1)?;
    /// // the root, which has a child; and a node at level 1 with the label "a" and a value
    /// assert_eq!(rt;
    ///     map.tree_bytes()?.as_slice(),
    ///     [12, 0, 0, 0, 3, 1, 0, 1, 97].as_slice()
    /// );
    /// ```
    pub fn tree_bytes(&self) -> Result<Vec<u8>, WireError>
        ensures ok { IfOk result (λ b. AreTreeBytes K.item 2 b.items (map.entries self.now)) }
        ensures too_deep { result ≡ Err WireError.TooDeep → TooDeep K.item 2 (map.keys self.now) }
        ensures not_wide { result ≢ Err WireError.TooDeepWide }
    {
        match self.tree.tree_bytes::<Narrow>() {
            Ok(bytes) => Ok(bytes),
            Err(EncodeError::TooDeep) => Err(WireError::TooDeep),
            Err(EncodeError::Memory) => Err(WireError::Memory),
        }
    }

    /// Returns the wide tree bytes, in which each level takes four bytes. All else is as in those
    /// of `tree_bytes`, which are read by `from_wire` and written anew by this call where they are
    /// to be made wide.
    ///
    /// Takes time in proportion to the bytes.
    ///
    /// # Errors
    ///
    /// `TooDeepWide` where a record would lie deeper than level 4,294,967,295; or out of memory.
    ///
    /// # Examples
    ///
    /// ```
    /// let mut map = StringPatriciaMap::new(rt.alloc());
    /// map.insert("a", 1)?;
    /// assert_eq!(rt;
    ///     map.wide_tree_bytes()?.as_slice(),
    ///     [12, 0, 0, 0, 0, 0, 3, 1, 0, 0, 0, 1, 97].as_slice()
    /// );
    /// ```
    pub fn wide_tree_bytes(&self) -> Result<Vec<u8>, WireError>
        ensures ok { IfOk result (λ b. AreTreeBytes K.item 4 b.items (map.entries self.now)) }
        ensures too_deep { result ≡ Err WireError.TooDeepWide
            → TooDeep K.item 4 (map.keys self.now) }
        ensures not_narrow { result ≢ Err WireError.TooDeep }
    {
        match self.tree.tree_bytes::<Wide>() {
            Ok(bytes) => Ok(bytes),
            Err(EncodeError::TooDeep) => Err(WireError::TooDeepWide),
            Err(EncodeError::Memory) => Err(WireError::Memory),
        }
    }

    /// Makes a map of tree bytes and values, in key order.
    ///
    /// Any encoding of a whole tree is read, whether of `tree_bytes` or of the Rust crate: of the
    /// flags only the three marks count, and a label may be cut where it need not be. The map has
    /// the one shape of its keys, so its `tree_bytes` may be fewer than it was read from. Takes
    /// time in proportion to the bytes.
    ///
    /// # Errors
    ///
    /// The first fault of the bytes or of the number of values, and where it stands. A whole tree
    /// with the right number of values has none, and is refused as out of memory alone. The values
    /// are dropped then.
    ///
    /// # Examples
    ///
    /// ```
    /// let bytes = [12, 0, 0, 0, 3, 1, 0, 1, 97];
    /// let values = Vec::from_slice(rt.alloc(), &[1])?;
    /// let map = StringPatriciaMap::from_wire(rt.alloc(), &bytes, values)?;
    /// assert_eq!(rt; map.get("a"), Some(&1));
    ///
    /// let cut = PatriciaMap::<u32>::from_wire(rt.alloc(), &bytes[..8], Vec::new(rt.alloc()));
    /// assert!(rt; matches!(cut, Err(DecodeError::Truncated(4))));
    /// ```
    pub fn from_wire(alloc: Global, bytes: &[u8], values: Vec<V>) -> Result<Self, DecodeError>
        ensures ok { IfOk result (λ m. Means K.item 2 bytes.now values.items (map.entries m)) }
        ensures refused { IfErr result (λ e. IsRefusal K.item 2 bytes.now (length values.items) e) }
    {
        Ok(GenericPatriciaMap {
            tree: Tree::from_wire::<Narrow>(alloc, bytes, values)?,
        })
    }

    /// Makes a map of wide tree bytes and values, in key order, as `from_wire` does of tree bytes.
    ///
    /// Takes time in proportion to the bytes.
    ///
    /// # Errors
    ///
    /// The first fault of the bytes or of the number of values, and where it stands. A whole tree
    /// with the right number of values has none, and is refused as out of memory alone. The values
    /// are dropped then.
    ///
    /// # Examples
    ///
    /// ```
    /// let bytes = [12, 0, 0, 0, 0, 0, 3, 1, 0, 0, 0, 1, 97];
    /// let values = Vec::from_slice(rt.alloc(), &[1])?;
    /// let map = StringPatriciaMap::from_wide_wire(rt.alloc(), &bytes, values)?;
    /// assert_eq!(rt; map.get("a"), Some(&1));
    ///
    /// let cut = PatriciaMap::<u32>::from_wide_wire(rt.alloc(), &bytes[..4], Vec::new(rt.alloc()));
    /// assert!(rt; matches!(cut, Err(DecodeError::Truncated(0))));
    /// ```
    pub fn from_wide_wire(alloc: Global, bytes: &[u8], values: Vec<V>) -> Result<Self, DecodeError>
        ensures ok { IfOk result (λ m. Means K.item 4 bytes.now values.items (map.entries m)) }
        ensures refused { IfErr result (λ e. IsRefusal K.item 4 bytes.now (length values.items) e) }
    {
        Ok(GenericPatriciaMap {
            tree: Tree::from_wire::<Wide>(alloc, bytes, values)?,
        })
    }

    /// Says in its contract that each key is a valid key of its kind, so that its bytes are below
    /// 256. Does nothing at run time.
    pub fn keys_are_valid(&self)
        ensures valid { All (IsValid K.item) (map.keys self.now) }
        ensures bytes { All (All (λ b. b < 256)) (map.keys self.now) }
    {
        self.tree.keys_are_valid();
    }
}
