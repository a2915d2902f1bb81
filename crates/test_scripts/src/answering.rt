//! Maps, sets and routers that answer calls.

use crate::answers::Answers;
use crate::calls::Call;
use crate::kinds::Readable;
use std::alloc::{AllocError, Global};
use std::io;

/// A map or a set whose entries are listed, or a router.
pub trait Listed: Drop {
    /// One with no keys.
    fn empty(alloc: Global) -> Self;

    /// Adds the entries up to a refused step.
    fn add_walked(&self, out: &mut String) -> Result<(), AllocError>;
}

/// One that answers calls on its keys.
pub trait Answering<'a, Q: Readable<'a>>: Listed {
    /// Adds the answers to a call.
    fn answer(
        &mut self,
        alloc: Global,
        call: &str,
        arguments: &'a [Vec<u8>],
        out: &mut String,
    ) -> Result<(), AllocError>;
}

/// Adds the entries, and once more behind `refused` where a step is refused.
pub fn add_entries<A: Listed>(asked: &A, out: &mut String) -> Result<(), AllocError> {
    if asked.add_walked(out).is_ok() {
        return Ok(());
    }
    out.add("refused")?;
    asked.add_walked(out)
}

/// Adds what a refused call left.
pub fn add_refusal<A: Listed>(asked: &A, out: &mut String) -> Result<(), AllocError> {
    out.add("refused")?;
    add_entries(asked, out)?;
    out.add("again")
}

// The answers to a call. One that is refused is made once more, behind what it left.
fn answer_again<'a, Q: Readable<'a>, A: Answering<'a, Q>>(
    asked: &mut A,
    alloc: Global,
    call: &'a Call<'_>,
    out: &mut String,
) -> Result<(), AllocError> {
    if asked.answer(alloc, call.name, &call.arguments, out).is_ok() {
        return Ok(());
    }
    add_refusal(asked, out)?;
    asked.answer(alloc, call.name, &call.arguments, out)
}

// Writes a call with its answers, or with a space where it has none.
fn write_answer<'a, Q: Readable<'a>, A: Answering<'a, Q>>(
    rt: &impl Print,
    alloc: Global,
    asked: &mut A,
    call: &'a Call<'_>,
    out: &mut String,
) -> io::Result<()> {
    out.clear();
    answer_again::<Q, A>(asked, alloc, call, out)?;
    if out.is_empty() {
        out.push(' ')?;
    }
    println!(rt; "{}:{}", call.line, out.as_str())
}

/// Writes the calls of one kind with their answers.
pub fn write_answers<'a, Q: Readable<'a>, A: Answering<'a, Q>>(
    rt: &impl Print,
    alloc: Global,
    kind: &str,
    calls: &'a [Call<'_>],
    out: &mut String,
) -> io::Result<()> {
    let mut asked = A::empty(alloc);
    for call in calls {
        if call.kind == kind {
            write_answer::<Q, A>(rt, alloc, &mut asked, call, out)?;
        }
    }
    Ok(())
}
