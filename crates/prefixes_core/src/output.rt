//! Answers that wait for the standard output.

ghost use Rattle.std.specs.Prelude.{◌≡◌, ◌⊎◌, [], OnOk, OnErr, IfErr};
ghost use Rattle.std.specs.Io.KnownBytes.{Appends};
ghost use Rattle.prefixes_core.specs.Internal.Failures.{GetsFirst, IsKept, IsOutputFailure};
ghost use Rattle.prefixes_core.specs.Internal.Failures.{IsWritten};

use crate::failure::Failure;
use std::io::{self, ErrorKind, Write};

// Writes bytes, of which the output has the first ones if that fails.
fn write_all<W: Write>(output: &mut W, bytes: &[u8]) -> io::Result<()>
    ensures written { OnOk result
        (Appends (W.contents output.old) (W.contents output.new) bytes.now) }
    ensures part { OnErr result
        (GetsFirst (W.contents output.old) (W.contents output.new) bytes.now) }
{
    let mut rest = bytes;
    for _ in 0..u64::MAX {
        if rest.is_empty() {
            return Ok(());
        }
        match output.write(rest) {
            Ok(0) => return Err(io::Error::from(ErrorKind::WriteZero)),
            Ok(len) => rest = &rest[len..],
            Err(error) if error.kind() == ErrorKind::Interrupted => {}
            Err(error) => return Err(error),
        }
    }
    Err(io::Error::from(ErrorKind::Interrupted))
}

/// Writes what waits. If that fails, the output has the first bytes of it.
pub fn put<W: Write>(output: &mut W, out: &mut Vec<u8>) -> Result<(), Failure>
    ensures written { OnOk result
        (Appends (W.contents output.old) (W.contents output.new) out.old.items) }
    ensures none_left { OnOk result (out.new.items ≡ []) }
    ensures part { OnErr result
        (GetsFirst (W.contents output.old) (W.contents output.new) out.old.items) }
    ensures named { IfErr result IsOutputFailure }
{
    if let Err(error) = write_all(output, out) {
        return Err(Failure::Output(error));
    }
    if let Err(error) = output.flush() {
        return Err(Failure::Output(error));
    }
    out.clear();
    Ok(())
}

/// Writes what waits if it is time to.
pub fn put_if<W: Write>(is_time: bool, output: &mut W, out: &mut Vec<u8>) -> Result<(), Failure>
    ensures kept { OnOk result (IsKept (W.contents output.old) (W.contents output.new)
        out.old.items out.new.items) }
    ensures part { OnErr result
        (GetsFirst (W.contents output.old) (W.contents output.new) out.old.items) }
    ensures named { IfErr result IsOutputFailure }
{
    if is_time { put(output, out) } else { Ok(()) }
}

/// Writes what waits before the program ends for a failure, and returns that failure, or the one of
/// the output.
pub fn stop<W: Write>(output: &mut W, out: &mut Vec<u8>, failure: Failure) -> Failure
    requires { IsOutputFailure failure → ⊥ }
    ensures written { IsWritten (W.contents output.old) (W.contents output.new) out.old.items
        result }
    ensures named { (result ≡ failure) ⊎ IsOutputFailure result }
{
    match put(output, out) {
        Ok(()) => failure,
        Err(unwritten) => {
            drop(failure);
            unwritten
        }
    }
}
