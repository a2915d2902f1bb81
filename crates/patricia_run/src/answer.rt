//! The answer to an input: each line is read, done and answered before the next one.

ghost use Rattle.std.specs.Prelude.{◌≡◌, ℕ, List, [], ◌∷◌, ◌++◌, IfOk, OnOk, Vec, string_bytes};
ghost use Rattle.std.specs.Global.{Global};
ghost use Rattle.patricia_tree.specs.ByteKind.{IsByteItem};
ghost use Rattle.patricia_tree.specs.TextKind.{IsTextItem};
ghost use Rattle.patricia_tree.specs.UnitKind.{IsUnitItem};
ghost use Rattle.patricia_run.specs.KeyFormats.{KeyFormat, as_bytes, as_text, as_units};
ghost use Rattle.patricia_run.specs.Text.{parse_line};
ghost use Rattle.patricia_run.specs.Answers.{Answers};
ghost use Rattle.patricia_run.specs.Internal.Turns.{AnswersFrom};

use crate::Bench;
use crate::cutting::Lines;
use crate::key_format::KeyText;
use crate::reading::read_line;
use crate::writing::{write_fault, write_reply};
use patricia_tree::{Bytes, UnitKey, Units};
use std::alloc::{AllocError, Global};

// Does what a line says, and writes its fault or its reply.
fn answer_line<'a, Q: KeyText<'a>>(
    bench: &mut Bench<Q::Owned, u64>,
    line: &'a [u8],
    buffer: &'a mut Vec<u8>,
    out: &mut Vec<u8>,
) -> Result<(), AllocError>
    ensures { OnOk result ((written : List ℕ)
        × (out.new.items ≡ out.old.items ++ written)
        × AnswersFrom Q.Owned.item Q.key_format Q.Owned.key
        bench.old (parse_line Q.key_format line.now ∷ []) written bench.new) }
{
    match read_line::<Q>(line, buffer)? {
        Ok(command) => write_reply::<Q>(out, &bench.step(command)),
        Err(fault) => write_fault(out, fault),
    }
}

// A kind of keys that lines may have. A borrowed key lives no longer than its line and what is
// decoded of it, so a line is answered by a call of the kind, and not by one of a borrowed key.
trait LineKeys: Bytes {
    // how such keys are read and printed
    ghost key_format: { KeyFormat };

    // Does what a line says, and writes its fault or its reply.
    fn answer_line(
        bench: &mut Bench<Self, u64>,
        line: &[u8],
        buffer: &mut Vec<u8>,
        out: &mut Vec<u8>,
    ) -> Result<(), AllocError>
        ensures { OnOk result ((written : List ℕ)
            × (out.new.items ≡ out.old.items ++ written)
            × AnswersFrom Self.item key_format Self.key
            bench.old (parse_line key_format line.now ∷ []) written bench.new) };
}

impl LineKeys for Vec<u8> {
    ghost key_format = { as_bytes };

    fn answer_line(
        bench: &mut Bench<Vec<u8>, u64>,
        line: &[u8],
        buffer: &mut Vec<u8>,
        out: &mut Vec<u8>,
    ) -> Result<(), AllocError> {
        answer_line::<&[u8]>(bench, line, buffer, out)
    }
}

impl LineKeys for String {
    ghost key_format = { as_text };

    fn answer_line(
        bench: &mut Bench<String, u64>,
        line: &[u8],
        buffer: &mut Vec<u8>,
        out: &mut Vec<u8>,
    ) -> Result<(), AllocError> {
        answer_line::<&str>(bench, line, buffer, out)
    }
}

impl LineKeys for UnitKey {
    ghost key_format = { as_units };

    fn answer_line(
        bench: &mut Bench<UnitKey, u64>,
        line: &[u8],
        buffer: &mut Vec<u8>,
        out: &mut Vec<u8>,
    ) -> Result<(), AllocError> {
        answer_line::<Units<'_>>(bench, line, buffer, out)
    }
}

// The answer to an input, over keys of one kind.
fn answer<K: LineKeys>(alloc: Global, input: &[u8]) -> Result<Vec<u8>, AllocError>
    ensures { IfOk result (λ output.
        Answers K.item K.key_format K.key input.now output.items) }
{
    let mut bench: Bench<K, u64> = Bench::new(alloc);
    let mut buffer = Vec::new(alloc);
    let mut out = Vec::new(alloc);
    for line in Lines::new(input) {
        K::answer_line(&mut bench, line, &mut buffer, &mut out)?;
    }
    Ok(out)
}

/// The answer to an input, over byte keys.
pub fn answer_bytes(alloc: Global, input: &[u8]) -> Result<Vec<u8>, AllocError>
    ensures { IfOk result (λ output.
        Answers IsByteItem as_bytes (λ (k : Vec ℕ Global). k.items) input.now output.items) }
{
    answer::<Vec<u8>>(alloc, input)
}

/// The answer to an input, over text keys.
pub fn answer_text(alloc: Global, input: &[u8]) -> Result<Vec<u8>, AllocError>
    ensures { IfOk result (λ output.
        Answers IsTextItem as_text (string_bytes {Z = Global}) input.now output.items) }
{
    answer::<String>(alloc, input)
}

/// The answer to an input, over keys of 16-bit units.
pub fn answer_units(alloc: Global, input: &[u8]) -> Result<Vec<u8>, AllocError>
    ensures { IfOk result (λ output.
        Answers IsUnitItem as_units ⟦<UnitKey as Bytes>⟧.key input.now output.items) }
{
    answer::<UnitKey>(alloc, input)
}
