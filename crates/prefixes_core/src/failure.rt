//! Why the program does not answer to the end.

ghost use Rattle.prefixes_core.specs.Internal.Failures.{IsInputFailure, IsLineFailure};
ghost use Rattle.prefixes_core.specs.Internal.Failures.{IsListFailure};

use crate::answering::AnswerError;
use crate::combining::LinesError;
use crate::listing::ListError;
use crate::packing::PackError;
use std::alloc::{AllocError, Global};
use std::io;
use thiserror::Error;

/// Why the program does not answer to the end, with the file that it is about.
#[derive(Debug, Drop, Error)]
pub enum Failure {
    #[error("{0}: {1}")]
    List(String, ListError),
    #[error("{0}: {1}")]
    Pack(String, PackError),
    #[error("{0}: {1}")]
    Lines(String, LinesError),
    #[error("{0}: {1}")]
    Write(String, io::Error),
    #[error("{0}: {1}")]
    Input(String, io::Error),
    #[error("{0}: line {1}: {2}")]
    Line(String, u64, AnswerError),
    #[error("standard input: it is read once, as a list or for the lines (--lines FILE)")]
    ReadTwice,
    #[error("standard output: {0}")]
    Output(io::Error),
    #[error("{0}")]
    Usage(clap::Error),
    #[error("out of memory")]
    Memory,
}

impl From<AllocError> for Failure {
    ghost use Rattle.std.specs.Prelude.{◌≡◌};
    ghost use Rattle.prefixes_core.specs.declared.failure.Failure.TheVariants.{Memory};

    ghost from_gives = { λ _ e. e ≡ Memory };

    fn from(_: AllocError) -> Failure {
        Failure::Memory
    }
}

/// A list at a path is not read.
pub fn list_failure(alloc: Global, path: &str, error: ListError) -> Failure
    ensures { IsListFailure result }
{
    match String::from_str(alloc, path) {
        Ok(path) => Failure::List(path, error),
        Err(_) => Failure::Memory,
    }
}

/// What is for a path, or was read from it, is not packed.
pub fn pack_failure(alloc: Global, path: &str, error: PackError) -> Failure {
    match String::from_str(alloc, path) {
        Ok(path) => Failure::Pack(path, error),
        Err(_) => Failure::Memory,
    }
}

/// Names are not written as lines to a path.
pub fn lines_failure(alloc: Global, path: &str, error: LinesError) -> Failure {
    match String::from_str(alloc, path) {
        Ok(path) => Failure::Lines(path, error),
        Err(_) => Failure::Memory,
    }
}

/// A file is not written.
pub fn write_failure(alloc: Global, path: &str, error: io::Error) -> Failure {
    match String::from_str(alloc, path) {
        Ok(path) => Failure::Write(path, error),
        Err(_) => Failure::Memory,
    }
}

/// The lines at a path are not read.
pub fn input_failure(alloc: Global, path: &str, error: io::Error) -> Failure
    ensures { IsInputFailure result }
{
    match String::from_str(alloc, path) {
        Ok(path) => Failure::Input(path, error),
        Err(_) => Failure::Memory,
    }
}

/// A line at a path is not answered.
pub fn line_failure(alloc: Global, path: &str, number: u64, error: AnswerError) -> Failure
    ensures { IsLineFailure number error result }
{
    match String::from_str(alloc, path) {
        Ok(path) => Failure::Line(path, number, error),
        Err(_) => Failure::Memory,
    }
}
