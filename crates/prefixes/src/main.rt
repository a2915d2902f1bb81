//! The program: it hands its arguments and streams to `serve`.
#![tactic(auto)]

#[cfg(test)]
mod tests;

use std::alloc::Global;
use std::env;
use std::io::{self, IsTerminal, Write};
use std::process::ExitCode;

fn words(rt: &HostRuntime) -> io::Result<Vec<String>> {
    Ok(env::args(&(rt, rt.alloc()))?.collect(rt.alloc())?)
}

fn main(rt: HostRuntime) -> ExitCode {
    let Ok(words) = words(&rt) else {
        let _ = rt
            .stderr()
            .write_all(b"prefixes: the arguments are not read\n");
        return ExitCode::from(2);
    };
    let alloc: Global = rt.alloc();
    let errors = rt.stderr();
    let progress = if errors.is_terminal() {
        Some(rt.stderr())
    } else {
        None
    };
    let (input, output) = (rt.stdin(), rt.stdout());
    ExitCode::from(prefixes_core::serve(&rt, alloc, &words, input, output, errors, progress))
}
