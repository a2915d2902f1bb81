use patricia_tree::{BorrowedBytes, GenericPatriciaMap, GenericPatriciaSet};
use std::alloc::{AllocError, Global};

// The map of some keys, each with its length in bytes.
pub(super) fn map_of<Q: BorrowedBytes>(
    alloc: Global,
    keys: &[Q],
) -> Result<GenericPatriciaMap<Q::Owned, u64>, AllocError> {
    let mut map = GenericPatriciaMap::new(alloc);
    for key in keys {
        let len = key.as_bytes().len() as u64;
        if map.insert(*key, len).is_err() {
            return Err(AllocError);
        }
    }
    Ok(map)
}

// The set of some elements.
pub(super) fn set_of<Q: BorrowedBytes>(
    alloc: Global,
    elements: &[Q],
) -> Result<GenericPatriciaSet<Q::Owned>, AllocError> {
    let mut set = GenericPatriciaSet::new(alloc);
    for element in elements {
        set.insert(*element)?;
    }
    Ok(set)
}
