//! Values that count their drops, and maps of them.
use patricia_tree::{BorrowedBytes, Bytes, DecodeError, GenericPatriciaMap};
use std::alloc::{AllocError, Global};
use std::cell::Cell;

/// A value that counts its drops in a cell of its own. It has the cell's number.
pub(crate) struct Counted<'a> {
    pub(crate) number: usize,
    drops: &'a Cell<u32>,
}

impl Drop for Counted<'_> {
    fn drop(self) {
        let Counted { number: _, drops } = self;
        drops.set(drops.get().saturating_add(1));
    }
}

/// So many cells in which no drop is counted.
pub(crate) fn cells(alloc: Global, count: usize) -> Result<Vec<Cell<u32>>, AllocError> {
    let mut cells = Vec::new(alloc);
    for _ in 0..count {
        cells.push(Cell::new(0))?;
    }
    Ok(cells)
}

/// A value for each cell.
pub(crate) fn values<'a>(
    alloc: Global,
    cells: &'a [Cell<u32>],
) -> Result<Vec<Counted<'a>>, AllocError> {
    let mut values = Vec::new(alloc);
    for (number, drops) in cells.iter().enumerate() {
        values.push(Counted { number, drops })?;
    }
    Ok(values)
}

/// Whether the values from one number up to another were dropped, once each, and no others.
pub(crate) fn are_dropped(cells: &[Cell<u32>], from: usize, to: usize) -> bool {
    for (number, drops) in cells.iter().enumerate() {
        if drops.get() != u32::from(from <= number && number < to) {
            return false;
        }
    }
    true
}

/// A map that is read from tree bytes, with a value for each cell.
pub(crate) fn map_of<'a, K: Bytes>(
    alloc: Global,
    tree: &[u8],
    cells: &'a [Cell<u32>],
) -> Result<GenericPatriciaMap<K, Counted<'a>>, DecodeError> {
    GenericPatriciaMap::from_wire(alloc, tree, values(alloc, cells)?)
}

/// Whether a map has these keys and no other, each with its place as its value's number.
pub(crate) fn has_all<Q: BorrowedBytes>(
    map: &GenericPatriciaMap<Q::Owned, Counted<'_>>,
    keys: &[Q],
) -> bool {
    for (number, key) in keys.iter().enumerate() {
        let found = match map.get(*key) {
            Some(value) => value.number == number,
            None => false,
        };
        if !found {
            return false;
        }
    }
    map.len() == keys.len()
}

/// The keys of `TREE`, in order.
pub(crate) const KEYS: [&[u8]; 4] = [b"", b"bar", b"baz", b"foo"];

/// The tree bytes of `KEYS`.
pub(crate) const TREE: [u8; 27] = [
    15, 0, 0, 0, 60, 2, 0, 1, 98, 97, 51, 1, 0, 2, 114, 3, 1, 0, 2, 122, 3, 3, 0, 1, 102, 111, 111,
];

// Adds a record whose label is one `a`.
fn push_record(tree: &mut Vec<u8>, flags: u8, level: u16) -> Result<(), AllocError> {
    let [high, low] = level.to_be_bytes();
    tree.extend_from_slice(&[flags, 1, high, low, b'a'])
}

/// The tree bytes of the keys a, aa, aaa and so on, up to this length. The last record has these
/// flags.
pub(crate) fn chain(alloc: Global, len: u16, last: u8) -> Result<Vec<u8>, AllocError> {
    let mut tree = Vec::from_slice(alloc, &[12, 0, 0, 0])?;
    for level in 1..len {
        push_record(&mut tree, 15, level)?;
    }
    push_record(&mut tree, last, len)?;
    Ok(tree)
}
