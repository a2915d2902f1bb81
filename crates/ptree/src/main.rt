//! The program: it hands its arguments and streams to `serve`.
#![tactic(auto)]

use std::alloc::Global;
use std::env::{self, Env, FillError};
use std::io::{self, ErrorKind, Write};
use std::process::ExitCode;

/// The arguments after the program's name, which need not be UTF-8.
#[derive(Drop)]
struct AfterName<'a>(&'a HostRuntime);

impl<'a> Env for AfterName<'a> {
    fn arg(&self, i: usize, buf: &mut [u8]) -> Result<usize, FillError> {
        self.0.arg(i.saturating_add(1), buf)
    }

    fn var(&self, name: &str, buf: &mut [u8]) -> Result<usize, FillError> {
        self.0.var(name, buf)
    }

    fn var_at(&self, i: usize, buf: &mut [u8]) -> Result<usize, FillError> {
        self.0.var_at(i, buf)
    }
}

// The words after the program's name. Where one is not UTF-8 there are none, and these name no
// kind of keys either.
fn words(rt: &HostRuntime) -> io::Result<Vec<String>> {
    match env::args(&(AfterName(rt), rt.alloc())) {
        Ok(words) => Ok(words.collect(rt.alloc())?),
        Err(error) if error.kind() == ErrorKind::InvalidData => Ok(Vec::new(rt.alloc())),
        Err(error) => Err(error),
    }
}

fn main(rt: HostRuntime) -> ExitCode {
    let Ok(words) = words(&rt) else {
        let _ = rt.stderr().write_all(b"ptree: read failed\n");
        return ExitCode::from(1);
    };
    let alloc: Global = rt.alloc();
    ExitCode::from(patricia_run::serve(alloc, &words, rt.stdin(), rt.stdout(), rt.stderr()))
}
