//! The memory of the process.
use std::fs;
use std::rt::Files;

// The number before the first `kB` of a text.
fn number(text: &str) -> Option<u64> {
    let (number, _) = text.trim_start().split_once(" kB")?;
    number.parse::<u64>().ok()
}

// The number of kilobytes that a line of a text names.
fn kilobytes(text: &str, name: &str) -> Option<u64> {
    let (_, behind) = text.split_once(name)?;
    number(behind)
}

/// The bytes that a line of /proc/self/status names, as `VmRSS:`, or 0 where it cannot be read.
pub(super) fn memory(rt: &(impl Alloc + Files), name: &str) -> u64 {
    match fs::read_to_string(rt, "/proc/self/status") {
        Ok(status) => kilobytes(status.as_str(), name)
            .unwrap_or(0)
            .wrapping_mul(1024),
        Err(_) => 0,
    }
}

/// The bytes of each of so many keys, and the most of them, since the process had so many.
pub(super) fn memory_since(rt: &(impl Alloc + Files), before: u64, count: usize) -> (u64, u64) {
    let keys = count.max(1) as u64;
    let after = memory(rt, "VmRSS:");
    let peak = memory(rt, "VmHWM:");
    (
        after.saturating_sub(before) / keys,
        peak.saturating_sub(before) / keys,
    )
}
