//! Encodings of two maps beside each other, known from the maps' contracts and the laws alone.
ghost use Rattle.std.specs.Prelude.{◌≡◌, ◌≢◌, ◌↔◌, ℕ, List, [], ◌∷◌, IfOk, IfSome, OnOk};
ghost use Rattle.std.specs.FinMap as map;
ghost use Rattle.patricia_tree.specs.Writings.{Means};

use patricia_tree::wire::laws;
use patricia_tree::{BorrowedBytes, Bytes, GenericPatriciaMap, PatriciaMap, WireError};
use std::alloc::{AllocError, Global};

/// The tree bytes of two maps, which are equal exactly where the maps have the same keys.
pub fn encode_both<K: Bytes, V: Drop, W: Drop>(
    first: &GenericPatriciaMap<K, V>,
    second: &GenericPatriciaMap<K, W>,
) -> Result<(Vec<u8>, Vec<u8>), WireError>
    ensures { IfOk result (λ both.
        (both.0.items ≡ both.1.items) ↔ (map.keys first.now ≡ map.keys second.now)) }
{
    laws::tree_bytes_are_keys::<K, V, W>();
    let bytes = first.tree_bytes()?;
    Ok((bytes, second.tree_bytes()?))
}

/// Inserts a value at a key.
pub fn put<Q: BorrowedBytes, V: Drop>(
    m: &mut GenericPatriciaMap<Q::Owned, V>,
    key: Q,
    value: V,
) -> Result<(), AllocError>
    ensures { OnOk result (m.new ≡ map.insert m.old (Q.key key) value) }
{
    match m.insert(key, value) {
        Ok(_) => Ok(()),
        Err(_) => Err(AllocError),
    }
}

/// The keys a and b, inserted one after the other.
pub fn in_order(alloc: Global) -> Result<PatriciaMap<u32>, AllocError>
    ensures { IfOk result (λ m. map.keys m ≡ (97 ∷ []) ∷ (98 ∷ []) ∷ []) }
{
    let mut m = PatriciaMap::new(alloc);
    put(&mut m, b"a".as_slice(), 1)?;
    put(&mut m, b"b".as_slice(), 2)?;
    Ok(m)
}

/// The same keys in another order, with other values, and with a further key for a while.
pub fn after_removal(alloc: Global) -> Result<PatriciaMap<bool>, AllocError>
    ensures { IfOk result (λ m. map.keys m ≡ (97 ∷ []) ∷ (98 ∷ []) ∷ []) }
{
    let mut m = PatriciaMap::new(alloc);
    put(&mut m, b"b".as_slice(), true)?;
    put(&mut m, b"a".as_slice(), false)?;
    put(&mut m, b"ab".as_slice(), true)?;
    m.remove(b"ab".as_slice())?;
    Ok(m)
}

/// The key a alone.
pub fn alone(alloc: Global) -> Result<PatriciaMap<u32>, AllocError>
    ensures { IfOk result (λ m. map.keys m ≡ (97 ∷ []) ∷ []) }
{
    let mut m = PatriciaMap::new(alloc);
    put(&mut m, b"a".as_slice(), 3)?;
    Ok(m)
}

/// Maps with the same keys have equal tree bytes, whatever their values and histories are.
pub fn with_same_keys(alloc: Global) -> Result<(Vec<u8>, Vec<u8>), WireError>
    ensures { IfOk result (λ both. both.0.items ≡ both.1.items) }
{
    let first = in_order(alloc)?;
    let second = after_removal(alloc)?;
    encode_both(&first, &second)
}

/// Maps with other keys have other tree bytes.
pub fn with_other_keys(alloc: Global) -> Result<(Vec<u8>, Vec<u8>), WireError>
    ensures { IfOk result (λ both. both.0.items ≢ both.1.items) }
{
    let first = in_order(alloc)?;
    let second = alone(alloc)?;
    encode_both(&first, &second)
}

/// Writes tree bytes again with levels in four bytes: the same values mean the same entries with
/// both. Returns `None` where the bytes and the values mean no map, or memory runs out.
pub fn widened<K: Bytes, V: Drop>(alloc: Global, bytes: &[u8], values: Vec<V>) -> Option<Vec<u8>>
    ensures { IfSome result (λ wide. (entries : List (List ℕ × V))
        × Means K.item 2 bytes.now values.items entries
        × Means K.item 4 wide.items values.items entries) }
{
    let Ok(map) = GenericPatriciaMap::<K, V>::from_wire(alloc, bytes, values) else {
        return None;
    };
    let Ok(wide) = map.wide_tree_bytes() else {
        return None;
    };
    Some(wide)
}
