//! How many entries a map had when its nodes were last relocated.
use crate::lines::{Sheet, report_share};
use crate::memory::memory;
use patricia_tree::PatriciaMap;
use std::alloc::AllocError;
use std::io;
use std::rt::Files;

// How often the process is looked at.
const LOOKS: usize = 1000;

// Inserts keys.
fn put(map: &mut PatriciaMap<u64>, keys: &[&[u8]]) -> io::Result<()> {
    for key in keys {
        if map.insert(*key, 0).is_err() {
            return Err(io::Error::from(AllocError));
        }
    }
    Ok(())
}

// Whether the vector of nodes was extended, which is by half: of what the process takes for the
// map, more than a sixth is new. Labels take less than that between two looks.
fn is_extended(empty: u64, before: u64, now: u64) -> bool {
    now.saturating_sub(before) > now.saturating_sub(empty) / 6
}

/// A line with the thousandths of the keys that are inserted when the nodes are last relocated: by
/// then the process has more room for them.
pub(super) fn report_age<R: AllocGlobal + Files + Print>(
    sheet: &Sheet<'_, R>,
    keys: &[&[u8]],
) -> io::Result<()> {
    let mut map: PatriciaMap<u64> = PatriciaMap::new(sheet.rt.alloc());
    let empty = memory(sheet.rt, "VmSize:");
    let mut size = empty;
    let mut relocated = 0;
    for some in keys.chunks(keys.len() / LOOKS + 1) {
        put(&mut map, some)?;
        let now = memory(sheet.rt, "VmSize:");
        if is_extended(empty, size, now) {
            relocated = map.len();
        }
        size = now;
    }
    report_share(sheet, "relocated", relocated, keys.len())
}
