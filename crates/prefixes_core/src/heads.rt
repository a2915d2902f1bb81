//! The first bytes of an input.

ghost use Rattle.std.specs.Prelude.{◌≡◌, length, IfOk};
ghost use Rattle.std.specs.Io.KnownBytes.{prepend_known};
ghost use Rattle.prefixes_core.specs.Internal.Heads.{Fills, chained};

use std::alloc::Global;
use std::io::{self, BufReader, Chain, ErrorKind, Read};

/// Reads as many bytes as there is room for, or fewer if the input ends before, and returns how
/// many.
///
/// # Errors
///
/// A failure to read.
pub fn fill<R: Read>(input: &mut R, room: &mut [u8]) -> io::Result<usize>
    ensures fills { IfOk result (λ len.
        Fills (R.remaining input.old) (R.remaining input.new) room.new len) }
    ensures room { length room.new ≡ length room.old }
{
    let mut at = 0;
    for _ in 0..u64::MAX {
        if at >= room.len() {
            return Ok(at);
        }
        match input.read(&mut room[at..]) {
            Ok(0) => return Ok(at),
            Ok(len) => at += len,
            Err(error) => {
                if error.kind() != ErrorKind::Interrupted {
                    return Err(error);
                }
            }
        }
    }
    Err(io::Error::from(ErrorKind::Interrupted))
}

/// Returns a reader of bytes that were read ahead, and then of those that their input has left.
///
/// # Errors
///
/// Out of memory.
pub fn read_after<'h, F: Read + Drop>(
    alloc: Global,
    head: &'h [u8],
    input: F,
) -> io::Result<BufReader<Chain<&'h [u8], F>>>
    ensures { IfOk result (λ reader.
        chained F.remaining reader ≡ prepend_known head.now (F.remaining input)) }
{
    BufReader::new(alloc, head.chain(input))
}
