//! A set whose elements, byte strings or texts, share their common prefixes.
ghost use Rattle.std.specs.Prelude.{◌≡◌, ◌≢◌, ◌↔◌, [], length, None, false, not, IsTrue, IfSome};
ghost use Rattle.std.specs.Prelude.{IfOk, OnOk, IfErr, OnErr};
ghost use Rattle.std.specs.Option.{option_map};
ghost use Rattle.patricia_tree.specs.Keys.{Begins};
ghost use Rattle.patricia_tree.specs.Points.{Joins};
ghost use Rattle.patricia_tree.specs.Prefixes.{IsReach, longest, under, outside};
ghost use Rattle.patricia_tree.specs.TreeBytes.{AreTreeBytes};
ghost use Rattle.patricia_tree.specs.Faults.{IsRefusal};
ghost use Rattle.patricia_tree.specs.Writings.{Means, TooDeep};
ghost use Rattle.std.specs.FinMap as map;
ghost use Rattle.patricia_tree.specs.Siblings.{keys_of};

mod bulk;
mod changes;
mod collects;
mod debug;
mod ends;
mod iterators;
mod many;
mod near;
mod ranges;
mod sorted;
mod visits;
mod whole;

use crate::map::GenericPatriciaMap;
pub use crate::map::{NearCursor, PrefixReadCursor, RangeReadCursor, ReadCursor};
pub use patricia_core::elements::{IntoIter, Iter, IterPrefix};
use patricia_core::keys::{BorrowedBytes, Bytes};
pub use patricia_core::ranges::ElementRange;
use patricia_core::tree::{DecodeError, WireError};
use std::alloc::{AllocError, Global};
use std::marker::Model;

/// A set of byte strings.
pub type PatriciaSet = GenericPatriciaSet<Vec<u8>>;

/// A set of texts.
pub type StringPatriciaSet = GenericPatriciaSet<String>;

/// A set of keys of one kind, in the order of their bytes.
///
/// A set keeps the allocator that it was made with. A call that takes memory asks for it before
/// it changes anything, so that a refusal leaves the set as it was.
#[derive(Drop)]
pub struct GenericPatriciaSet<T: Bytes> {
    map: GenericPatriciaMap<T, ()>,
}

impl<T: Bytes> Model for GenericPatriciaSet<T> {
    ghost use Rattle.std.specs.Coded.{coded_ℕ, coded_list};
    ghost use Rattle.std.specs.FinSet.{code};
    ghost use Rattle.patricia_tree.specs.Sets.{KeySet};

    ghost Value = { KeySet };

    ghost coded = { code (coded_list coded_ℕ) };

    ghost view = { λ s. s.map };
}

impl<T: Bytes> GenericPatriciaSet<T> {
    /// Makes an empty set, which keeps the allocator. Does not allocate.
    ///
    /// # Examples
    ///
    /// ```
    /// let set = PatriciaSet::new(rt.alloc());
    /// assert!(rt; set.is_empty());
    /// ```
    pub fn new(alloc: Global) -> Self
        ensures { result ≡ map.empty }
    {
        GenericPatriciaSet {
            map: GenericPatriciaMap::new(alloc),
        }
    }

    /// Returns the number of elements, the empty one included, in constant time.
    ///
    /// # Examples
    ///
    /// ```
    /// let mut set = StringPatriciaSet::new(rt.alloc());
    /// set.insert("foo")?;
    /// set.insert("foo")?;
    /// assert_eq!(rt; set.len(), 1);
    /// ```
    pub fn len(&self) -> usize
        ensures { result ≡ map.len self.now }
    {
        self.map.len()
    }

    /// Returns whether there is no element, in constant time.
    ///
    /// # Examples
    ///
    /// ```
    /// let mut set = StringPatriciaSet::new(rt.alloc());
    /// assert!(rt; set.is_empty());
    /// set.insert("")?;
    /// assert!(rt; !set.is_empty());
    /// ```
    pub fn is_empty(&self) -> bool
        ensures { IsTrue result ↔ (map.len self.now ≡ 0) }
    {
        self.map.is_empty()
    }

    /// Drops all elements, and keeps the allocator. Does not allocate.
    ///
    /// # Examples
    ///
    /// ```
    /// let mut set = StringPatriciaSet::new(rt.alloc());
    /// set.insert("foo")?;
    /// set.clear();
    /// assert!(rt; set.is_empty());
    /// ```
    pub fn clear(&mut self)
        ensures { self.new ≡ map.empty }
    {
        self.map.clear();
    }

    /// Returns whether the element is there. Does not allocate, and takes the time of the map's
    /// `get`.
    ///
    /// # Examples
    ///
    /// ```
    /// let mut set = StringPatriciaSet::new(rt.alloc());
    /// set.insert("foo")?;
    /// assert!(rt; set.contains("foo"));
    /// assert!(rt; !set.contains("bar"));
    /// ```
    pub fn contains<Q: BorrowedBytes<Owned = T>>(&self, element: Q) -> bool
        ensures { result ≡ map.contains_key self.now (Q.key element) }
    {
        self.map.contains_key(element)
    }

    /// Returns the longest element that is a prefix of the key, or `None` where there is none: a
    /// longest-prefix match. Does not allocate.
    ///
    /// What is returned is a part of the key that is passed, and does not borrow the set.
    ///
    /// # Examples
    ///
    /// ```
    /// let mut set = StringPatriciaSet::new(rt.alloc());
    /// set.insert("foo")?;
    /// set.insert("foobar")?;
    /// assert_eq!(rt; set.get_longest_common_prefix("foobaz"), Some("foo"));
    /// assert_eq!(rt; set.get_longest_common_prefix("bar"), None);
    /// ```
    pub fn get_longest_common_prefix<Q: BorrowedBytes<Owned = T>>(&self, key: Q) -> Option<Q>
        ensures longest { option_map Q.key result ≡ option_map (λ e. e.0)
            (longest (Q.key key) (map.entries self.now)) }
        ensures part { IfSome result (λ part. Begins (Q.key part) (Q.key key)) }
    {
        match self.map.get_longest_common_prefix(key) {
            Some(entry) => Some(entry.0),
            None => None,
        }
    }

    /// Returns how many bytes of the key, in whole items, some element begins with, whatever
    /// follows them there; 0 for an empty set. Does not allocate.
    ///
    /// # Examples
    ///
    /// ```
    /// let mut set = StringPatriciaSet::new(rt.alloc());
    /// set.insert("foobar")?;
    /// assert_eq!(rt; set.longest_common_prefix_len("foobaz"), 5);
    /// ```
    pub fn longest_common_prefix_len<Q: BorrowedBytes<Owned = T>>(&self, key: Q) -> usize
        ensures { IsReach T.item (map.keys self.now) (Q.key key) result }
    {
        self.map.longest_common_prefix_len(key)
    }

    /// Inserts an element, and returns whether it is a new one.
    ///
    /// Takes the time of a look-up. Where the vector of nodes is full it is extended and the nodes
    /// are relocated, in time in proportion to the number of elements.
    ///
    /// # Errors
    ///
    /// Out of memory, at a new nonempty element alone: the set is unchanged. A new nonempty element
    /// where `usize::MAX - 1` of them are stored is refused in the same way.
    ///
    /// # Examples
    ///
    /// ```
    /// let mut set = StringPatriciaSet::new(rt.alloc());
    /// assert!(rt; set.insert("foo")?);
    /// assert!(rt; !set.insert("foo")?);
    /// ```
    pub fn insert<Q: BorrowedBytes<Owned = T>>(&mut self, element: Q) -> Result<bool, AllocError>
        ensures is_new { IfOk result (λ b. b ≡ not (map.contains_key self.old (Q.key element))) }
        ensures ok { OnOk result (self.new ≡ map.insert self.old (Q.key element) tt) }
        ensures unchanged { OnErr result (self.new ≡ self.old) }
        ensures err_only_nonempty { OnErr result (Q.key element ≢ []) }
        ensures only_new { OnErr result (map.contains_key self.old (Q.key element) ≡ false) }
    {
        match self.map.insert(element, ()) {
            Ok(old) => Ok(old.is_none()),
            Err(_) => Err(AllocError),
        }
    }

    /// Removes an element, and returns whether it was there.
    ///
    /// Takes the time of a look-up.
    ///
    /// # Errors
    ///
    /// Out of memory for a joined label: the set is unchanged. Labels are joined only where a node
    /// is no longer needed by an element or by two branches, so never for an absent or the empty
    /// element.
    ///
    /// # Examples
    ///
    /// ```
    /// let mut set = StringPatriciaSet::new(rt.alloc());
    /// set.insert("foo")?;
    /// assert!(rt; set.remove("foo")?);
    /// assert!(rt; !set.remove("foo")?);
    /// ```
    pub fn remove<Q: BorrowedBytes<Owned = T>>(&mut self, element: Q) -> Result<bool, AllocError>
        ensures was_there { IfOk result (λ b. b ≡ map.contains_key self.old (Q.key element)) }
        ensures ok { OnOk result (self.new ≡ map.remove self.old (Q.key element)) }
        ensures unchanged { OnErr result (self.new ≡ self.old) }
        ensures joins { OnErr result (Joins T.item (map.keys self.old) (Q.key element)) }
    {
        Ok(self.map.remove(element)?.is_some())
    }

    /// Returns a copy of the set, in time in proportion to the number of elements.
    ///
    /// # Errors
    ///
    /// Out of memory, never for an empty set.
    ///
    /// # Examples
    ///
    /// ```
    /// let mut set = StringPatriciaSet::new(rt.alloc());
    /// set.insert("foo")?;
    /// let copy = set.clone()?;
    /// set.clear();
    /// assert!(rt; copy.contains("foo"));
    /// ```
    pub fn clone(&self) -> Result<Self, AllocError>
        ensures same { IfOk result (λ s. s ≡ self.now) }
        ensures err_only_nonempty { OnErr result (map.len self.now ≢ 0) }
    {
        Ok(GenericPatriciaSet {
            map: self.map.clone()?,
        })
    }

    /// Removes the elements that begin with the prefix, and returns them as a set.
    ///
    /// Takes a look-up, and time in proportion to the elements that are removed.
    ///
    /// # Errors
    ///
    /// Out of memory: the set is unchanged. Never for the empty prefix, which moves the whole set,
    /// nor where no element begins with the prefix.
    ///
    /// # Examples
    ///
    /// ```
    /// let mut set = StringPatriciaSet::from_iter(rt.alloc(), ["rust", "ruby", "python"])?;
    /// let split = set.split_by_prefix("ru")?;
    /// assert_eq!(rt; split.len(), 2);
    /// assert!(rt; split.contains("rust"));
    /// assert!(rt; set.contains("python"));
    /// ```
    pub fn split_by_prefix<Q: BorrowedBytes<Owned = T>>(
        &mut self,
        prefix: Q,
    ) -> Result<Self, AllocError>
        ensures taken { IfOk result (λ s.
            map.entries s ≡ under (Q.key prefix) (map.entries self.old)) }
        ensures left { OnOk result (
            map.entries self.new ≡ outside (Q.key prefix) (map.entries self.old)) }
        ensures unchanged { OnErr result (self.new ≡ self.old) }
        ensures err_only_nonempty { OnErr result (Q.key prefix ≢ []) }
        ensures err_only_if_matched { OnErr result
            (under (Q.key prefix) (map.entries self.old) ≢ []) }
    {
        Ok(GenericPatriciaSet {
            map: self.map.split_by_prefix(prefix)?,
        })
    }

    /// Returns the tree bytes: the encoding of the elements, which is the same for each set with
    /// these elements, whatever its history. They are those of a map with these keys.
    ///
    /// Takes time in proportion to the bytes.
    ///
    /// # Errors
    ///
    /// `TooDeep` where a record would lie deeper than level 65,535, which takes elements of more
    /// than that many bytes; or out of memory.
    ///
    /// # Examples
    ///
    /// ```
    /// let set = StringPatriciaSet::from_iter(rt.alloc(), ["a"])?;
    /// assert_eq!(rt;
    ///     set.tree_bytes()?.as_slice(),
    ///     [12, 0, 0, 0, 3, 1, 0, 1, 97].as_slice()
    /// );
    /// ```
    pub fn tree_bytes(&self) -> Result<Vec<u8>, WireError>
        ensures ok { IfOk result (λ b. AreTreeBytes T.item 2 b.items (map.entries self.now)) }
        ensures too_deep { result ≡ Err WireError.TooDeep → TooDeep T.item 2 (map.keys self.now) }
        ensures not_wide { result ≢ Err WireError.TooDeepWide }
    {
        self.map.tree_bytes()
    }

    /// Returns the wide tree bytes, in which each level takes four bytes. They are those of a map
    /// with these keys.
    ///
    /// Takes time in proportion to the bytes.
    ///
    /// # Errors
    ///
    /// `TooDeepWide` where a record would lie deeper than level 4,294,967,295; or out of memory.
    ///
    /// # Examples
    ///
    /// ```
    /// let set = StringPatriciaSet::from_iter(rt.alloc(), ["a"])?;
    /// assert_eq!(rt;
    ///     set.wide_tree_bytes()?.as_slice(),
    ///     [12, 0, 0, 0, 0, 0, 3, 1, 0, 0, 0, 1, 97].as_slice()
    /// );
    /// ```
    pub fn wide_tree_bytes(&self) -> Result<Vec<u8>, WireError>
        ensures ok { IfOk result (λ b. AreTreeBytes T.item 4 b.items (map.entries self.now)) }
        ensures too_deep { result ≡ Err WireError.TooDeepWide
            → TooDeep T.item 4 (map.keys self.now) }
        ensures not_narrow { result ≢ Err WireError.TooDeep }
    {
        self.map.wide_tree_bytes()
    }

    /// Makes a set of tree bytes, with a `()` for each element.
    ///
    /// Any encoding of a whole tree is read, whether of `tree_bytes` or of the Rust crate, and the
    /// set has the one shape of its elements, as with `from_wire` of a map. Takes time in
    /// proportion to the bytes.
    ///
    /// # Errors
    ///
    /// The first fault of the bytes or of the number of values, and where it stands. A whole tree
    /// with the right number has none, and is refused as out of memory alone.
    ///
    /// # Examples
    ///
    /// ```
    /// let bytes = [12, 0, 0, 0, 3, 1, 0, 1, 97];
    /// let values = Vec::from_slice(rt.alloc(), &[()])?;
    /// let set = StringPatriciaSet::from_wire(rt.alloc(), &bytes, values)?;
    /// assert!(rt; set.contains("a"));
    /// ```
    pub fn from_wire(alloc: Global, bytes: &[u8], values: Vec<()>) -> Result<Self, DecodeError>
        ensures ok { IfOk result (λ s. Means T.item 2 bytes.now values.items (map.entries s)) }
        ensures refused { IfErr result (λ e. IsRefusal T.item 2 bytes.now (length values.items) e) }
    {
        Ok(GenericPatriciaSet {
            map: GenericPatriciaMap::from_wire(alloc, bytes, values)?,
        })
    }

    /// Makes a set of wide tree bytes, with a `()` for each element, as `from_wire` does of tree
    /// bytes.
    ///
    /// Takes time in proportion to the bytes.
    ///
    /// # Errors
    ///
    /// The first fault of the bytes or of the number of values, and where it stands. A whole tree
    /// with the right number has none, and is refused as out of memory alone.
    ///
    /// # Examples
    ///
    /// ```
    /// let bytes = [12, 0, 0, 0, 0, 0, 3, 1, 0, 0, 0, 1, 97];
    /// let values = Vec::from_slice(rt.alloc(), &[()])?;
    /// let set = StringPatriciaSet::from_wide_wire(rt.alloc(), &bytes, values)?;
    /// assert!(rt; set.contains("a"));
    /// ```
    pub fn from_wide_wire(alloc: Global, bytes: &[u8], values: Vec<()>) -> Result<Self, DecodeError>
        ensures ok { IfOk result (λ s. Means T.item 4 bytes.now values.items (map.entries s)) }
        ensures refused { IfErr result (λ e. IsRefusal T.item 4 bytes.now (length values.items) e) }
    {
        Ok(GenericPatriciaSet {
            map: GenericPatriciaMap::from_wide_wire(alloc, bytes, values)?,
        })
    }
}
