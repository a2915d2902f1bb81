//! How many children records have.
ghost use Rattle.std.specs.Prelude.{◌≤◌, length, IfOk};

use crate::record::Record;
use crate::width::Width;
use std::alloc::{AllocError, Global};

/// How many children each record has, as far as the bytes are records. They may be none that mean a
/// tree: the counts say how nodes lie best, and nothing else.
pub fn count_children<W: Width>(alloc: Global, bytes: &[u8]) -> Result<Vec<u32>, AllocError>
    ensures { IfOk result (λ counts. length counts.items ≤ length bytes.now) }
{
    let mut counts: Vec<u32> = Vec::new(alloc);
    // the last record of each level
    let mut last: Vec<usize> = Vec::new(alloc);
    let mut rest = bytes;
    while let Some(record) = Record::read::<W>(rest) {
        rest = &rest[W::head() + record.label.len()..];
        let level = record.level as usize;
        if let Some(parent) = last.get(level.wrapping_sub(1)) {
            if let Some(count) = counts.get_mut(*parent) {
                *count = count.saturating_add(1);
            }
        }
        match last.get_mut(level) {
            Some(id) => *id = counts.len(),
            None => last.push(counts.len())?,
        }
        counts.push(0)?;
    }
    Ok(counts)
}
