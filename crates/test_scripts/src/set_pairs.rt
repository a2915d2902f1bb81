//! The calls of a set with another one.

use crate::answers::Answers;
use patricia_tree::{Bytes, GenericPatriciaSet};
use std::alloc::AllocError;

type Set<K> = GenericPatriciaSet<K>;

/// The set that a call makes of two.
pub(super) fn made<K: Bytes>(
    set: &Set<K>,
    other: &Set<K>,
    call: &str,
) -> Result<Set<K>, AllocError> {
    match call {
        "union" => set.union(other),
        "intersection" => set.intersection(other),
        _ => set.difference(other),
    }
}

/// Adds what a call tells of two.
pub(super) fn add_told<K: Bytes>(
    set: &Set<K>,
    other: &Set<K>,
    call: &str,
    out: &mut String,
) -> Result<(), AllocError> {
    let is_so = match call {
        "subset" => set.is_subset(other)?,
        "disjoint" => set.is_disjoint(other)?,
        _ => set.equals(other)?,
    };
    out.add_bool(is_so)
}
