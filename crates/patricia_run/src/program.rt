//! The program over its words and streams.

use crate::answer::{answer_bytes, answer_text, answer_units};
use std::alloc::{AllocError, Global};
use std::io::{Read, Write};

// The kind of keys that the program works on.
#[derive(Clone, Copy)]
enum Kind {
    Bytes,
    Text,
    Units,
}

// What may keep the program from its answer.
#[derive(Clone, Copy)]
enum Failure {
    Read,
    Memory,
    Write,
}

// The kind that the program's words name.
fn kind_named(words: &[String]) -> Option<Kind> {
    match words {
        [word] if word.as_str() == "bytes" => Some(Kind::Bytes),
        [word] if word.as_str() == "text" => Some(Kind::Text),
        [word] if word.as_str() == "units" => Some(Kind::Units),
        _ => None,
    }
}

fn message(failure: Failure) -> &'static str {
    match failure {
        Failure::Read => "ptree: read failed\n",
        Failure::Memory => "ptree: out of memory\n",
        Failure::Write => "ptree: write failed\n",
    }
}

fn answer_for(kind: Kind, alloc: Global, input: &[u8]) -> Result<Vec<u8>, AllocError> {
    match kind {
        Kind::Bytes => answer_bytes(alloc, input),
        Kind::Text => answer_text(alloc, input),
        Kind::Units => answer_units(alloc, input),
    }
}

// Reads the input to its end, and then writes the whole answer at once.
fn attempt<R: Read, W: Write>(
    kind: Kind,
    alloc: Global,
    input: &mut R,
    output: &mut W,
) -> Result<(), Failure> {
    let mut text: Vec<u8> = Vec::new(alloc);
    if input.read_to_end(&mut text).is_err() {
        return Err(Failure::Read);
    }
    let Ok(answer) = answer_for(kind, alloc, &text) else {
        return Err(Failure::Memory);
    };
    if output.write_all(&answer).is_err() || output.flush().is_err() {
        return Err(Failure::Write);
    }
    Ok(())
}

/// The program, over its words and streams. It answers the status to end with: 0 where the answer
/// was written, 1 where reading, memory or writing failed, and 2 for words that name no kind. The
/// last two have a line on `errors`; a failure to write it changes no status.
pub fn serve<R: Read + Drop, W: Write + Drop, E: Write + Drop>(
    alloc: Global,
    words: &[String],
    mut input: R,
    mut output: W,
    mut errors: E,
) -> u8 {
    let Some(kind) = kind_named(words) else {
        let _ = errors.write_all(b"usage: ptree bytes|text|units\n");
        return 2;
    };
    match attempt(kind, alloc, &mut input, &mut output) {
        Ok(()) => 0,
        Err(failure) => {
            let _ = errors.write_all(message(failure).as_bytes());
            1
        }
    }
}
