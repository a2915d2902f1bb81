//! How calls are written.
//!
//! An argument is parts with `+` between them. In a part `%` and two hexadecimal digits stand for a
//! byte, and `*` and a number at its end say how often the rest is repeated, so that `*` alone is
//! the empty key.

use std::alloc::{AllocError, Global};
use std::str;

// The value of a hexadecimal digit.
fn digit(byte: u8) -> u8 {
    match byte {
        b'0'..=b'9' => byte - b'0',
        b'A'..=b'F' => byte - b'A' + 10,
        _ => 0,
    }
}

fn unescaped(alloc: Global, text: &str) -> Result<Vec<u8>, AllocError> {
    let mut bytes = Vec::new(alloc);
    let mut left = text.as_bytes();
    for _ in 0..left.len() {
        match left {
            [b'%', high, low, rest @ ..] => {
                bytes.push(digit(*high) << 4 | digit(*low))?;
                left = rest;
            }
            [byte, rest @ ..] => {
                bytes.push(*byte)?;
                left = rest;
            }
            [] => break,
        }
    }
    Ok(bytes)
}

// The bytes that a part of a word stands for.
fn part(alloc: Global, word: &str) -> Result<Vec<u8>, AllocError> {
    match word.split_once('*') {
        Some((text, times)) => unescaped(alloc, text)?.repeat(alloc, number(times.as_bytes())),
        None => unescaped(alloc, word),
    }
}

fn push_part(alloc: Global, bytes: &mut Vec<u8>, word: &str) -> Result<(), AllocError> {
    let part = part(alloc, word)?;
    bytes.extend_from_slice(&part)
}

// The bytes that a word stands for.
fn argument(alloc: Global, word: &str) -> Result<Vec<u8>, AllocError> {
    if !word.contains('+') {
        return part(alloc, word);
    }
    let mut bytes = Vec::new(alloc);
    for word in word.split('+') {
        push_part(alloc, &mut bytes, word)?;
    }
    Ok(bytes)
}

fn arguments(alloc: Global, words: &[&str]) -> Result<Vec<Vec<u8>>, AllocError> {
    let mut arguments = Vec::new(alloc);
    for word in words {
        arguments.push(argument(alloc, word)?)?;
    }
    Ok(arguments)
}

/// A line that is a call.
#[derive(Drop)]
pub struct Call<'t> {
    pub line: &'t str,
    pub kind: &'t str,
    pub name: &'t str,
    pub arguments: Vec<Vec<u8>>,
}

// Adds the call that the words of a line are, if they are one.
fn push_call<'t>(
    alloc: Global,
    calls: &mut Vec<Call<'t>>,
    line: &'t str,
    words: &[&'t str],
) -> Result<(), AllocError> {
    if let [kind, name, words @ ..] = words {
        let arguments = arguments(alloc, words)?;
        calls.push(Call {
            line,
            kind,
            name,
            arguments,
        })?;
    }
    Ok(())
}

// The words of a line.
fn words<'t>(alloc: Global, line: &'t str) -> Result<Vec<&'t str>, AllocError> {
    line.split(' ').collect(alloc)
}

// Adds the call that a line is, if it is one.
fn push_line<'t>(
    alloc: Global,
    calls: &mut Vec<Call<'t>>,
    line: &'t str,
) -> Result<(), AllocError> {
    let words = words(alloc, line)?;
    push_call(alloc, calls, line, &words)
}

fn lines<'t>(alloc: Global, text: &'t str) -> Result<Vec<&'t str>, AllocError> {
    text.lines().collect(alloc)
}

/// The calls among the lines of a text.
pub fn calls<'t>(alloc: Global, text: &'t str) -> Result<Vec<Call<'t>>, AllocError> {
    let lines = lines(alloc, text)?;
    let mut calls = Vec::new(alloc);
    for line in &lines {
        push_line(alloc, &mut calls, line)?;
    }
    Ok(calls)
}

/// The number that the first argument is, or 0.
pub fn first_number(arguments: &[Vec<u8>]) -> usize {
    match arguments {
        [digits, ..] => number(digits),
        [] => 0,
    }
}

/// The number that some digits write, or 0.
pub fn number(digits: &[u8]) -> usize {
    let Ok(text) = str::from_utf8(digits) else {
        return 0;
    };
    text.parse::<usize>().unwrap_or(0)
}
