//! The lines of a reader.

ghost use Rattle.std.specs.Prelude.{◌≡◌, ◌≤◌, ℕ, List, [], ◌∷◌, length, map as list_map};
ghost use Rattle.std.specs.Prelude.{IfOk, IfSome};
ghost use Rattle.std.specs.Io.BufRead.{strip_last};
ghost use Rattle.std.specs.List.{All};
ghost use Rattle.std.specs.Str.{IsUtf8};
ghost use Rattle.prefixes_core.specs.Internal.Heads.{IsSplit};
ghost use Rattle.prefixes_core.specs.Internal.TakenLines.{read_text as text_of_read, TakesLine};
ghost use Rattle.prefixes_core.specs.Internal.Together.{CutsLines};
ghost use Rattle.prefixes_core.specs.Lists.{line_text as text_of_line, unmarked as unmarked_bytes};

use crate::heads::fill;
use memchr::memchr;
use std::alloc::{AllocError, Global};
use std::io::{self, BufRead, Read};
use std::str;

/// How many lines are answered together at most.
pub const MOST_TOGETHER: usize = 256;

/// How bytes are cut into lines.
#[derive(Clone, Copy)]
pub struct LineFormat {
    /// The byte that ends each line.
    pub end: u8,
    /// Whether a carriage return at the end of a line, and a byte order mark before the first one,
    /// are parts of them. Files that were written on Windows often have both, and names have none.
    pub keeps_cr: bool,
}

/// Returns bytes without the last one if that is this byte.
pub fn without_end(bytes: &[u8], end: u8) -> &[u8]
    ensures { result.now ≡ strip_last end bytes.now }
{
    match bytes.split_last() {
        Some((last, front)) if *last == end => front,
        _ => bytes,
    }
}

// Returns the text of a line: all of it but a carriage return at its end, unless that is kept.
fn line_text(line: &[u8], format: LineFormat) -> &[u8]
    ensures { result.now ≡ text_of_line format line.now }
{
    if format.keeps_cr {
        line
    } else {
        without_end(line, b'\r')
    }
}

/// Returns the text of a line that was read with the byte at its end.
pub fn read_text(read: &[u8], format: LineFormat) -> &[u8]
    ensures { result.now ≡ text_of_read format read.now }
{
    line_text(without_end(read, format.end), format)
}

/// The UTF-8 byte order mark.
const MARK: &[u8] = b"\xef\xbb\xbf";

/// Returns bytes without the byte order mark that they begin with, unless that is kept.
pub fn unmarked(bytes: &[u8], format: LineFormat) -> &[u8]
    ensures { result.now ≡ unmarked_bytes format bytes.now }
{
    if format.keeps_cr || !bytes.starts_with(MARK) {
        return bytes;
    }
    &bytes[MARK.len()..]
}

/// Reads the beginning of an input as far as it is that of a byte order mark, and returns the bytes
/// that are read without a whole mark, unless that is kept. It reads no byte after the first one
/// that is none of a mark, so that it waits for no more than a line does.
///
/// # Errors
///
/// A failure to read.
pub fn read_unmarked<R: Read>(
    alloc: Global,
    input: &mut R,
    format: LineFormat,
) -> io::Result<Vec<u8>>
    ensures { IfOk result (λ head. IsSplit (R.remaining input.old) (R.remaining input.new)
        (unmarked_bytes format) head.items) }
{
    let mut head = Vec::new(alloc);
    while head.len() < MARK.len() {
        let mut byte = [0];
        if fill(input, &mut byte)? == 0 {
            return Ok(head);
        }
        head.push(byte[0])?;
        if !MARK.starts_with(&head) {
            return Ok(head);
        }
    }
    if !format.keeps_cr {
        head.clear();
    }
    Ok(head)
}

/// Reads the next line in place of the one before, with the byte at its end, and returns whether
/// there is one.
///
/// # Errors
///
/// A failure to read.
pub fn next_line<R: BufRead>(
    reader: &mut R,
    format: LineFormat,
    line: &mut Vec<u8>,
) -> io::Result<bool>
    ensures { IfOk result (λ is_some. TakesLine format (R.remaining reader.old)
        (R.remaining reader.new) is_some line.new.items) }
{
    line.clear();
    match reader.read_until(format.end, line) {
        Ok(len) => Ok(len != 0),
        Err(error) => Err(error),
    }
}

/// A line as it is asked about: a text, or any bytes.
pub trait Line<'b>: Copy {
    // the bytes of a line
    ghost content: { Self → List ℕ };

    // which bytes are such a line
    ghost IsRight: { List ℕ → Type 0 };

    /// Returns the line of these bytes, or `None` where they are none.
    fn of(bytes: &'b [u8]) -> Option<Self>
        ensures same { IfSome result (λ line. content line ≡ bytes.now) }
        ensures right { IfSome result (λ _. IsRight bytes.now) };
}

impl<'b> Line<'b> for &'b str {
    ghost content = { λ line. line.now };

    ghost IsRight = { IsUtf8 };

    fn of(bytes: &'b [u8]) -> Option<&'b str> {
        match str::from_utf8(bytes) {
            Ok(line) => Some(line),
            Err(_) => None,
        }
    }
}

impl<'b> Line<'b> for &'b [u8] {
    ghost content = { λ line. line.now };

    ghost IsRight = { λ _. Unit {0} };

    fn of(bytes: &'b [u8]) -> Option<&'b [u8]> {
        Some(bytes)
    }
}

// Cuts the first line off bytes, if it is whole and right. The byte at its end is dropped.
fn cut_line<'b, L: Line<'b>>(bytes: &'b [u8], format: LineFormat) -> Option<(L, &'b [u8])>
    ensures cut { IfSome result (λ cut.
        CutsLines format bytes.now (L.content cut.0 ∷ []) cut.1.now) }
    ensures right { IfSome result (λ cut. L.IsRight (L.content cut.0)) }
{
    let place = memchr(format.end, bytes)?;
    let line = L::of(line_text(&bytes[..place], format))?;
    Some((line, &bytes[place + 1..]))
}

/// Cuts the first lines off bytes, as far as they are whole and right, and at most as many as are
/// answered together. The bytes at their ends are dropped.
///
/// # Errors
///
/// Out of memory for the list of lines, never where there is none.
pub fn cut_lines<'b, L: Line<'b>>(
    alloc: Global,
    bytes: &'b [u8],
    format: LineFormat,
) -> Result<(Vec<L>, &'b [u8]), AllocError>
    ensures cut { IfOk result (λ cut. CutsLines format bytes.now
        (list_map L.content cut.0.items) cut.1.now) }
    ensures right { IfOk result (λ cut. All L.IsRight (list_map L.content cut.0.items)) }
    ensures few { IfOk result (λ cut. length cut.0.items ≤ 256) }
{
    let mut lines = Vec::new(alloc);
    let mut rest = bytes;
    for _ in 0..MOST_TOGETHER {
        let Some(cut) = cut_line(rest, format) else {
            return Ok((lines, rest));
        };
        lines.push(cut.0)?;
        rest = cut.1;
    }
    Ok((lines, rest))
}
