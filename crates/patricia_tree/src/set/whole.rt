//! Two sets compared, and sets made of two.
ghost use Rattle.std.specs.Prelude.{◌≡◌, ◌≢◌, ◌↔◌, ◌++◌, ℕ, List, [], Some, not, cond, IsTrue};
ghost use Rattle.std.specs.Prelude.{IfOk, IsSome, OnOk, OnErr};
ghost use Rattle.std.specs.Fn.{CalledAt};
ghost use Rattle.std.specs.List.{list_all, list_any};
ghost use Rattle.std.specs.List.Retain.{IsFiltered};
ghost use Rattle.std.specs.FinMap as map;
ghost use Rattle.patricia_tree.specs.Bulk.{insert_all};

use super::GenericPatriciaSet;
use crate::map::{GenericPatriciaMap, ReadCursor};
use patricia_core::keys::{Bytes, KeyBytes};
use patricia_core::tree::Merger;
use std::alloc::AllocError;

// Whether the set has the element at which a cursor stands; or where that is not wanted, whether it
// has not.
fn has_as_wanted<T: Bytes>(
    set: &GenericPatriciaSet<T>,
    cursor: &ReadCursor<'_, T, ()>,
    wanted: bool,
) -> bool
    ensures { (e : List ℕ × Unit {0}) → cursor.now.at ≡ Some e → result
        ≡ cond wanted (map.contains_key set.now e.0) (not (map.contains_key set.now e.0)) }
{
    let there = match cursor.key() {
        Some(bytes) => set.contains(KeyBytes::<T>::new(bytes)),
        None => false,
    };
    if wanted { there } else { !there }
}

// Inserts the element at which a cursor stands.
fn insert_at<T: Bytes>(
    merger: &mut Merger<T, ()>,
    cursor: &ReadCursor<'_, T, ()>,
) -> Result<(), AllocError>
    ensures { OnOk result ((e : List ℕ × Unit {0}) → cursor.now.at ≡ Some e
        → merger.new ≡ map.insert merger.old e.0 tt) }
{
    let Some(bytes) = cursor.key() else {
        return Ok(());
    };
    match merger.insert(KeyBytes::<T>::new(bytes), ()) {
        Ok(_) => Ok(()),
        Err(_) => Err(AllocError),
    }
}

// Removes the element at which a cursor stands, where the set has it.
fn remove_at<T: Bytes>(
    merger: &mut Merger<T, ()>,
    cursor: &ReadCursor<'_, T, ()>,
) -> Result<(), AllocError>
    ensures { OnOk result ((e : List ℕ × Unit {0}) → cursor.now.at ≡ Some e
        → merger.new ≡ map.remove merger.old e.0) }
{
    if let Some(bytes) = cursor.key() {
        merger.remove(KeyBytes::<T>::new(bytes))?;
    }
    Ok(())
}

// The key of the element at which a cursor stands.
fn key_at<'a, T: Bytes>(cursor: &'a ReadCursor<'_, T, ()>) -> &'a [u8]
    requires { IsSome cursor.now.at }
    ensures { (e : List ℕ × Unit {0}) → cursor.now.at ≡ Some e → result.now ≡ e.0 }
{
    match cursor.key() {
        Some(bytes) => bytes,
        None => unreachable!(),
    }
}

impl<T: Bytes> GenericPatriciaSet<T> {
    // Whether the set has an element that the other one has, or one that it has not.
    fn finds(&self, other: &Self, wanted: bool) -> Result<bool, AllocError>
        ensures found { IfOk result (λ b. b ≡ list_any (λ k. cond wanted
            (map.contains_key other.now k) (not (map.contains_key other.now k)))
            (map.keys self.now)) }
        ensures err_only_nonempty { OnErr result (map.entries self.now ≢ []) }
    {
        let mut cursor = self.cursor();
        while cursor.advance()? {
            if has_as_wanted(other, &cursor, wanted) {
                return Ok(true);
            }
        }
        Ok(false)
    }

    // The set of the elements that were inserted into an empty one, with its nodes relocated as at
    // the end of a load.
    fn settled(merger: Merger<T, ()>) -> Self
        ensures { result ≡ merger }
    {
        let mut made = GenericPatriciaSet {
            map: GenericPatriciaMap::from_merger(merger),
        };
        made.settle_since(0);
        made
    }

    // The elements that the other set has, or those that it has not.
    fn chosen(&self, other: &Self, wanted: bool) -> Result<Self, AllocError>
        ensures chosen { IfOk result (λ s. s ≡ map.retain_keys self.now (λ k. cond wanted
            (map.contains_key other.now k) (not (map.contains_key other.now k)))) }
        ensures err_only_nonempty { OnErr result (map.entries self.now ≢ []) }
    {
        let mut merger = self.map.empty_alike().into_merger();
        let mut cursor = self.cursor();
        while cursor.advance()? {
            if has_as_wanted(other, &cursor, wanted) {
                insert_at(&mut merger, &cursor)?;
            }
        }
        Ok(Self::settled(merger))
    }

    // A copy with the elements of the other set inserted.
    fn with_all(&self, other: &Self) -> Result<Self, AllocError>
        ensures all { IfOk result (λ s. s ≡ insert_all self.now (map.entries other.now)) }
        ensures err_only_nonempty { OnErr result
            (map.entries self.now ++ map.entries other.now ≢ []) }
    {
        let made = self.clone()?;
        let mut merger = made.map.into_merger();
        let mut cursor = other.cursor();
        while cursor.advance()? {
            insert_at(&mut merger, &cursor)?;
        }
        Ok(GenericPatriciaSet {
            map: GenericPatriciaMap::from_merger(merger),
        })
    }

    // A copy with the elements of the other set removed.
    fn without_all(&self, other: &Self) -> Result<Self, AllocError>
        ensures rest { IfOk result (λ s.
            s ≡ map.retain_keys self.now (λ k. not (map.contains_key other.now k))) }
        ensures err_only_nonempty { OnErr result
            (map.entries self.now ++ map.entries other.now ≢ []) }
    {
        let copy = self.clone()?;
        let mut made = copy.map.into_merger();
        let mut cursor = other.cursor();
        while cursor.advance()? {
            remove_at(&mut made, &cursor)?;
        }
        Ok(GenericPatriciaSet {
            map: GenericPatriciaMap::from_merger(made),
        })
    }

    /// Returns whether the two sets have the same elements. It is a call that may run out of
    /// memory, which `==` could not say.
    ///
    /// Takes constant time where the sets differ in length, and else a walk over both, up to the
    /// first node that differs. It makes no key: labels are compared with labels.
    ///
    /// # Errors
    ///
    /// Out of memory for the siblings that wait, never for empty sets, nor where the sets differ in
    /// length.
    ///
    /// # Examples
    ///
    /// ```
    /// let set = StringPatriciaSet::from_iter(rt.alloc(), ["foo", "bar"])?;
    /// let same = StringPatriciaSet::from_iter(rt.alloc(), ["bar", "foo"])?;
    /// let other = StringPatriciaSet::from_iter(rt.alloc(), ["bar", "baz"])?;
    /// assert!(rt; set.equals(&same)?);
    /// assert!(rt; !set.equals(&other)?);
    /// ```
    pub fn equals(&self, other: &Self) -> Result<bool, AllocError>
        ensures same { IfOk result (λ b. IsTrue b ↔ (self.now ≡ other.now)) }
        ensures err_only_nonempty { OnErr result (map.entries self.now ≢ []) }
        ensures err_only_same_len { OnErr result (map.len self.now ≡ map.len other.now) }
    {
        self.map.equals(&other.map)
    }

    /// Returns whether the other set has each element of this one.
    ///
    /// Takes a walk over this set, with a look-up in the other one for each element, up to the
    /// first that is not there: so never more look-ups than the other set has elements, and one.
    ///
    /// # Errors
    ///
    /// Out of memory for the path of the walk, never for an empty set.
    ///
    /// # Examples
    ///
    /// ```
    /// let set = StringPatriciaSet::from_iter(rt.alloc(), ["foo", "bar"])?;
    /// let more = StringPatriciaSet::from_iter(rt.alloc(), ["bar", "baz", "foo"])?;
    /// assert!(rt; set.is_subset(&more)?);
    /// assert!(rt; !more.is_subset(&set)?);
    /// ```
    pub fn is_subset(&self, other: &Self) -> Result<bool, AllocError>
        ensures subset { IfOk result (λ b.
            b ≡ list_all (map.contains_key other.now) (map.keys self.now)) }
        ensures err_only_nonempty { OnErr result (map.entries self.now ≢ []) }
    {
        Ok(!self.finds(other, false)?)
    }

    /// Returns whether the two sets have no element in common.
    ///
    /// Takes a walk over the smaller set, with a look-up in the other one for each element, up to
    /// the first that is there.
    ///
    /// # Errors
    ///
    /// Out of memory for the path of the walk, never where a set is empty.
    ///
    /// # Examples
    ///
    /// ```
    /// let set = StringPatriciaSet::from_iter(rt.alloc(), ["foo", "bar"])?;
    /// let others = StringPatriciaSet::from_iter(rt.alloc(), ["baz", "fo"])?;
    /// assert!(rt; set.is_disjoint(&others)?);
    /// assert!(rt; !set.is_disjoint(&set)?);
    /// ```
    pub fn is_disjoint(&self, other: &Self) -> Result<bool, AllocError>
        ensures disjoint { IfOk result (λ b.
            b ≡ not (list_any (map.contains_key other.now) (map.keys self.now))) }
        ensures err_only_nonempty { OnErr result (map.entries self.now ≢ []) }
        ensures err_only_other_nonempty { OnErr result (map.entries other.now ≢ []) }
    {
        let shared = if self.len() <= other.len() {
            self.finds(other, true)?
        } else {
            other.finds(self, true)?
        };
        Ok(!shared)
    }

    /// Returns the set of the elements that are in this set, in the other one, or in both.
    ///
    /// Takes the time of a copy of the larger set, and a walk over the smaller one. The look-up of
    /// each of its elements goes on at the last place that the one before it has passed, too. Nodes
    /// are not relocated.
    ///
    /// # Errors
    ///
    /// Out of memory, never where both sets are empty.
    ///
    /// # Examples
    ///
    /// ```
    /// let set = StringPatriciaSet::from_iter(rt.alloc(), ["foo", "bar"])?;
    /// let other = StringPatriciaSet::from_iter(rt.alloc(), ["bar", "baz"])?;
    /// let all = set.union(&other)?;
    /// assert_eq!(rt; all.len(), 3);
    /// assert!(rt; all.contains("baz"));
    /// ```
    pub fn union(&self, other: &Self) -> Result<Self, AllocError>
        ensures all { IfOk result (λ s. s ≡ insert_all self.now (map.entries other.now)) }
        ensures err_only_nonempty { OnErr result
            (map.entries self.now ++ map.entries other.now ≢ []) }
    {
        if self.len() >= other.len() {
            self.with_all(other)
        } else {
            other.with_all(self)
        }
    }

    /// Returns the set of the elements that are in both sets.
    ///
    /// Takes a walk over the smaller set, with a look-up in the other one for each element. The
    /// elements of the result are inserted in order, and each look-up there goes on at the last
    /// place that the one before it has passed, too. Nodes are relocated at the end alone, if
    /// memory is there for it.
    ///
    /// # Errors
    ///
    /// Out of memory, never where a set is empty.
    ///
    /// # Examples
    ///
    /// ```
    /// let set = StringPatriciaSet::from_iter(rt.alloc(), ["foo", "bar"])?;
    /// let other = StringPatriciaSet::from_iter(rt.alloc(), ["bar", "baz"])?;
    /// let both = set.intersection(&other)?;
    /// assert_eq!(rt; both.len(), 1);
    /// assert!(rt; both.contains("bar"));
    /// ```
    pub fn intersection(&self, other: &Self) -> Result<Self, AllocError>
        ensures both { IfOk result (λ s.
            s ≡ map.retain_keys self.now (map.contains_key other.now)) }
        ensures err_only_nonempty { OnErr result (map.entries self.now ≢ []) }
        ensures err_only_other_nonempty { OnErr result (map.entries other.now ≢ []) }
    {
        if self.len() <= other.len() {
            self.chosen(other, true)
        } else {
            other.chosen(self, true)
        }
    }

    /// Returns the set of the elements that are in this set and not in the other one.
    ///
    /// Where the other set has at most half as many elements, this takes the time of a copy of this
    /// set, and of a `remove` for each element of the other one, whose look-up goes on at the last
    /// place that the one before it has passed, too. Else it takes a walk over this set, with a
    /// look-up in the other one for each element, and makes the result as `intersection` does.
    ///
    /// # Errors
    ///
    /// Out of memory, never for an empty set.
    ///
    /// # Examples
    ///
    /// ```
    /// let set = StringPatriciaSet::from_iter(rt.alloc(), ["foo", "bar"])?;
    /// let other = StringPatriciaSet::from_iter(rt.alloc(), ["bar", "baz"])?;
    /// let rest = set.difference(&other)?;
    /// assert_eq!(rt; rest.len(), 1);
    /// assert!(rt; rest.contains("foo"));
    /// ```
    pub fn difference(&self, other: &Self) -> Result<Self, AllocError>
        ensures rest { IfOk result (λ s.
            s ≡ map.retain_keys self.now (λ k. not (map.contains_key other.now k))) }
        ensures err_only_nonempty { OnErr result (map.entries self.now ≢ []) }
    {
        if other.len() <= self.len() / 2 {
            self.without_all(other)
        } else {
            self.chosen(other, false)
        }
    }

    // The elements at which a test returns true.
    fn passing<F: FnMut(&[u8]) -> bool>(&self, mut f: F) -> Result<Self, AllocError>
        requires { F.IsAlwaysCallable f }
        ensures kept { IfOk result (λ s.
            IsFiltered (CalledAt F.FnMut) f (map.keys self.now) (map.keys s)) }
        ensures err_only_nonempty { OnErr result (map.entries self.now ≢ []) }
    {
        let mut merger = self.map.empty_alike().into_merger();
        let mut cursor = self.cursor();
        while cursor.advance()? {
            if f(key_at(&cursor)) {
                insert_at(&mut merger, &cursor)?;
            }
        }
        Ok(Self::settled(merger))
    }

    /// Keeps the elements at whose bytes the closure returns true, and drops the others. It is
    /// called at each element in order.
    ///
    /// The set is made anew: this takes a walk over it. The elements that are kept are inserted in
    /// order, and each look-up there goes on at the last place that the one before it has passed,
    /// too. Nodes are relocated at the end alone, if memory is there for it.
    ///
    /// # Errors
    ///
    /// Out of memory, never for an empty set: the set is unchanged. The closure was called at the
    /// elements up to the one at which memory ran out.
    ///
    /// # Examples
    ///
    /// ```
    /// let mut set = StringPatriciaSet::from_iter(rt.alloc(), ["foo", "bar", "quux"])?;
    /// set.retain(|element| element.len() > 3)?;
    /// assert_eq!(rt; set.len(), 1);
    /// assert!(rt; set.contains("quux"));
    /// ```
    pub fn retain<F: FnMut(&[u8]) -> bool>(&mut self, f: F) -> Result<(), AllocError>
        requires { F.IsAlwaysCallable f }
        ensures kept { OnOk result
            (IsFiltered (CalledAt F.FnMut) f (map.keys self.old) (map.keys self.new)) }
        ensures unchanged { OnErr result (self.new ≡ self.old) }
        ensures err_only_nonempty { OnErr result (map.entries self.old ≢ []) }
    {
        let kept = self.passing(f)?;
        *self = kept;
        Ok(())
    }
}
