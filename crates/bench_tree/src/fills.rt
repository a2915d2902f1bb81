//! A map that is filled from lines as they are read.
use crate::lines::{Sheet, line, report};
use crate::memory::{memory, memory_since};
use patricia_tree::PatriciaMap;
use std::alloc::{AllocError, Global};
use std::io::{self, BufRead, BufReader};
use std::rt::{Clock, Files};
use std::time::Instant;

/// A value that a map is filled with.
pub(super) trait Filler: Drop {
    fn make(alloc: Global) -> Self;
}

impl Filler for () {
    fn make(_alloc: Global) -> () {}
}

impl Filler for u32 {
    fn make(_alloc: Global) -> u32 {
        0
    }
}

impl Filler for u64 {
    fn make(_alloc: Global) -> u64 {
        0
    }
}

impl Filler for Vec<u8> {
    fn make(alloc: Global) -> Vec<u8> {
        Vec::new(alloc)
    }
}

// Inserts a line without its end, where it is not empty.
fn put_line<V: Filler>(map: &mut PatriciaMap<V>, line: &[u8], value: V) -> io::Result<()> {
    let key = line.strip_suffix(b"\n").unwrap_or(line);
    if key.is_empty() {
        return Ok(());
    }
    match map.insert(key, value) {
        Ok(_) => Ok(()),
        Err(_) => Err(io::Error::from(AllocError)),
    }
}

// Inserts the lines of an input, one after the other.
fn put_lines<R: BufRead, V: Filler>(
    alloc: Global,
    reader: &mut R,
    map: &mut PatriciaMap<V>,
) -> io::Result<()> {
    let mut line = Vec::new(alloc);
    for _ in 0..u64::MAX {
        line.clear();
        if reader.read_until(b'\n', &mut line)? == 0 {
            break;
        }
        put_line(map, &line, V::make(alloc))?;
    }
    Ok(())
}

/// Lines with the number of keys, the nanoseconds of each, with those in which it was read, and the
/// bytes of each.
pub(super) fn report_fill<R: AllocGlobal + Clock + Files + Input + Print, V: Filler>(
    sheet: &Sheet<'_, R>,
    mut map: PatriciaMap<V>,
) -> io::Result<()> {
    let mut reader = BufReader::new(sheet.rt.alloc(), sheet.rt.reader())?;
    let before = memory(sheet.rt, "VmRSS:");
    let start = Instant::now(sheet.rt)?;
    put_lines(sheet.rt.alloc(), &mut reader, &mut map)?;
    report(sheet, "fill", start, map.len(), map.len() as u64)?;
    let (used, peak) = memory_since(sheet.rt, before, map.len());
    line(sheet, "keys", map.len() as u128)?;
    line(sheet, "memory", u128::from(used))?;
    line(sheet, "peak", u128::from(peak))
}
