//! What memory a map takes whose keys were removed and inserted again.
use crate::calls::{Each, call_each};
use crate::lines::{Sheet, line};
use crate::memory::{memory, memory_since};
use patricia_tree::PatriciaMap;
use std::alloc::AllocError;
use std::io;
use std::rt::Files;

// So often each half of the keys is removed and inserted again.
const ROUNDS: usize = 3;

// Removes keys and inserts them again.
fn exchange(map: &mut PatriciaMap<u64>, keys: &[&[u8]]) -> Result<(), AllocError> {
    call_each(map, Each::Take, keys)?;
    call_each(map, Each::Put, keys)?;
    Ok(())
}

/// Lines with the bytes of each key of a map that is filled, and of the same one when each half of
/// its keys was removed and inserted again, with the most until then.
pub(super) fn report_churn<R: AllocGlobal + Files + Print>(
    sheet: &Sheet<'_, R>,
    keys: &[&[u8]],
) -> io::Result<()> {
    let before = memory(sheet.rt, "VmRSS:");
    let mut map: PatriciaMap<u64> = PatriciaMap::new(sheet.rt.alloc());
    call_each(&mut map, Each::Put, keys)?;
    let (filled, _) = memory_since(sheet.rt, before, map.len());
    let (front, back) = keys.split_at(keys.len() / 2);
    for _ in 0..ROUNDS {
        exchange(&mut map, front)?;
        exchange(&mut map, back)?;
    }
    let (used, peak) = memory_since(sheet.rt, before, map.len());
    line(sheet, "memory", u128::from(filled))?;
    line(sheet, "churned_memory", u128::from(used))?;
    line(sheet, "churned_peak", u128::from(peak))
}
