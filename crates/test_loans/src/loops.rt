//! Loops over cursors. It is proved that they are safe, and that they end, since each step takes
//! one off what is left to lend. No clause says what the values are afterwards.
use patricia_tree::{BorrowedBytes, GenericPatriciaMap, PatriciaMap};
use std::alloc::AllocError;

/// Adds one to each value. The greatest number becomes 0.
///
/// The error is out of memory: some values may be changed.
pub fn add_one(map: &mut PatriciaMap<u32>) -> Result<(), AllocError> {
    let mut cursor = map.values_mut();
    'values: while cursor
        .next_with(|value| *value = value.wrapping_add(1))?
        .is_some()
    {}
    Ok(())
}

/// The same by a `for` over the number of entries, which needs no measure and so no proof file.
///
/// The error is out of memory: some values may be changed.
pub fn add_one_counted(map: &mut PatriciaMap<u32>) -> Result<(), AllocError> {
    let len = map.len();
    let mut cursor = map.values_mut();
    for _ in 0..len {
        cursor.next_with(|value| *value = value.wrapping_add(1))?;
    }
    Ok(())
}

/// Adds one to each value whose key has the prefix.
///
/// The error is out of memory: some values may be changed.
pub fn add_one_under(map: &mut PatriciaMap<u32>, prefix: &[u8]) -> Result<(), AllocError> {
    add_one_under_any(map, prefix)
}

// The same for any kind of keys: at one kind the borrow checker covers no cursor under a prefix.
fn add_one_under_any<Q: BorrowedBytes>(
    map: &mut GenericPatriciaMap<Q::Owned, u32>,
    prefix: Q,
) -> Result<(), AllocError> {
    let mut cursor = map.iter_prefix_mut(prefix);
    'values: while let Some(()) = cursor.next_with(|_key, value| *value = value.wrapping_add(1))? {}
    Ok(())
}

/// Adds one to each value whose key has the prefix, by a `for` over the number of entries.
///
/// The error is out of memory: some values may be changed.
pub fn add_one_counted_under<Q: BorrowedBytes>(
    map: &mut GenericPatriciaMap<Q::Owned, u32>,
    prefix: Q,
) -> Result<(), AllocError> {
    let len = map.len();
    let mut cursor = map.iter_prefix_mut(prefix);
    for _ in 0..len {
        cursor.next_with(|_key, value| *value = value.wrapping_add(1))?;
    }
    Ok(())
}

/// Sets each value to the length of its key, by the two calls `advance` and `value`.
///
/// The error is out of memory: some values may be changed.
pub fn set_lengths(map: &mut PatriciaMap<usize>) -> Result<(), AllocError> {
    let mut cursor = map.iter_mut();
    'keys: while let Some(key) = cursor.advance()? {
        let Some(value) = cursor.value() else {
            break;
        };
        *value = key.len();
    }
    Ok(())
}
