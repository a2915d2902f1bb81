//! What a `for` over each walk gives, known from the walk's contract.
ghost use Rattle.std.specs.Prelude.{◌≡◌, IfOk, map as each};
ghost use Rattle.std.specs.FinMap as map;
ghost use Rattle.std.specs.Vec.Iter.{into_iter_items};
ghost use Rattle.patricia_tree.specs.Prefixes.{along, under};

use patricia_tree::{BorrowedBytes, Bytes, GenericPatriciaMap};
use std::alloc::{AllocError, Global};

/// Every entry of a map, for any kind of keys.
pub fn listed<K: Bytes, V: Copy + Drop>(
    alloc: Global,
    tree: &GenericPatriciaMap<K, V>,
) -> Result<Vec<(K, V)>, AllocError>
    ensures { IfOk result (λ list. each (λ e. (K.key e.0, e.1)) list.items ≡ map.entries tree.now) }
{
    let mut list = Vec::new(alloc);
    for item in tree {
        let (key, value) = item?;
        list.push((key, *value))?;
    }
    Ok(list)
}

/// Every key of a map.
pub fn listed_keys<K: Bytes, V: Drop>(
    alloc: Global,
    tree: &GenericPatriciaMap<K, V>,
) -> Result<Vec<K>, AllocError>
    ensures { IfOk result (λ list. each K.key list.items ≡ map.keys tree.now) }
{
    let mut list = Vec::new(alloc);
    for key in tree.keys() {
        list.push(key?)?;
    }
    Ok(list)
}

/// Every value of a map.
pub fn listed_values<K: Bytes, V: Copy + Drop>(
    alloc: Global,
    tree: &GenericPatriciaMap<K, V>,
) -> Result<Vec<V>, AllocError>
    ensures { IfOk result (λ list. list.items ≡ map.values tree.now) }
{
    let mut list = Vec::new(alloc);
    for value in tree.values() {
        list.push(*value?)?;
    }
    Ok(list)
}

/// Every entry of a map, by value.
pub fn taken<K: Bytes, V: Drop>(
    alloc: Global,
    tree: GenericPatriciaMap<K, V>,
) -> Result<Vec<(K, V)>, AllocError>
    ensures { IfOk result (λ list. each (λ e. (K.key e.0, e.1)) list.items ≡ map.entries tree) }
{
    let mut list = Vec::new(alloc);
    for item in tree {
        list.push(item?)?;
    }
    Ok(list)
}

/// Every common prefix of a key.
pub fn listed_along<Q: BorrowedBytes, V: Copy + Drop>(
    alloc: Global,
    tree: &GenericPatriciaMap<Q::Owned, V>,
    key: Q,
) -> Result<Vec<(Q, V)>, AllocError>
    ensures { IfOk result (λ list.
        each (λ e. (Q.key e.0, e.1)) list.items ≡ along (Q.key key) (map.entries tree.now)) }
{
    let mut list = Vec::new(alloc);
    for item in tree.common_prefixes(key) {
        list.push((item.0, *item.1))?;
    }
    Ok(list)
}

/// The value of every common prefix of a key, by an adapter.
pub fn mapped_along<Q: BorrowedBytes, V: Copy + Drop>(
    alloc: Global,
    tree: &GenericPatriciaMap<Q::Owned, V>,
    key: Q,
) -> Result<Vec<V>, AllocError> {
    tree.common_prefixes(key)
        .map(|entry| *entry.1)
        .collect(alloc)
}

/// Every entry under a prefix.
pub fn listed_under<Q: BorrowedBytes, V: Copy + Drop>(
    alloc: Global,
    tree: &GenericPatriciaMap<Q::Owned, V>,
    prefix: Q,
) -> Result<Vec<(Q::Owned, V)>, AllocError>
    ensures { IfOk result (λ list.
        each (λ e. (Q.Owned.key e.0, e.1)) list.items
        ≡ under (Q.key prefix) (map.entries tree.now)) }
{
    let mut list = Vec::new(alloc);
    for item in tree.iter_prefix(prefix) {
        let (key, value) = item?;
        list.push((key, *value))?;
    }
    Ok(list)
}

/// Every entry of a map, which a cursor lends.
pub fn lent<K: Bytes, V: Copy + Drop>(
    alloc: Global,
    tree: &GenericPatriciaMap<K, V>,
) -> Result<Vec<(Vec<u8>, V)>, AllocError>
    ensures { IfOk result (λ list. each (λ e. (e.0.items, e.1)) list.items ≡ map.entries tree.now) }
{
    let mut list = Vec::new(alloc);
    let mut cursor = tree.cursor();
    'entries: while cursor.advance()? {
        if let (Some(key), Some(value)) = (cursor.key(), cursor.value()) {
            let key = Vec::from_slice(alloc, key)?;
            list.push((key, *value))?;
        }
    }
    Ok(list)
}
