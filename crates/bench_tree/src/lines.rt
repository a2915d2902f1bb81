//! What is printed.
use std::io;
use std::rt::Clock;
use std::time::Instant;

/// Where lines go, whether they have times, and the names of those that are asked for, or none
/// where all are.
#[derive(Drop)]
pub(super) struct Sheet<'a, R> {
    pub(super) rt: &'a R,
    pub(super) times: bool,
    pub(super) names: &'a [String],
}

/// Whether the line is asked for.
pub(super) fn is_asked<R>(sheet: &Sheet<'_, R>, name: &str) -> bool {
    sheet.names.is_empty() || sheet.names.iter().any(|asked| asked.as_str() == name)
}

/// A line with a name and a number.
pub(super) fn line<R: Print>(sheet: &Sheet<'_, R>, name: &str, number: u128) -> io::Result<()> {
    println!(sheet.rt; "{name} {number}")
}

// Nanoseconds a call, or the answer of the calls.
fn figure<R: Clock>(
    sheet: &Sheet<'_, R>,
    start: Instant,
    calls: usize,
    answer: u64,
) -> io::Result<u128> {
    let nanos = start.elapsed(sheet.rt)?.as_nanos();
    if sheet.times {
        Ok(nanos / calls.max(1) as u128)
    } else {
        Ok(u128::from(answer))
    }
}

/// A line on calls that were begun at a time.
pub(super) fn report<R: Clock + Print>(
    sheet: &Sheet<'_, R>,
    name: &str,
    start: Instant,
    calls: usize,
    answer: u64,
) -> io::Result<()> {
    line(sheet, name, figure(sheet, start, calls, answer)?)
}

/// A line that has so many thousandths of a whole.
pub(super) fn report_share<R: Print>(
    sheet: &Sheet<'_, R>,
    name: &str,
    count: usize,
    whole: usize,
) -> io::Result<()> {
    line(sheet, name, count as u128 * 1000 / whole.max(1) as u128)
}
