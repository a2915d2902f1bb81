//! How answers are written, each behind a space.

use patricia_tree::wire::{DecodeError, WireError};
use std::alloc::AllocError;
use std::fmt::{Debug, Display, Write};

/// A line that answers are added to.
pub trait Answers {
    /// Adds a word.
    fn add(&mut self, answer: &str) -> Result<(), AllocError>;

    /// Adds what a value is written as.
    fn add_text<D: Display>(&mut self, value: &D) -> Result<(), AllocError>;

    /// Adds a number.
    fn add_number(&mut self, number: u64) -> Result<(), AllocError>;

    /// Adds `true` or `false`.
    fn add_bool(&mut self, is_true: bool) -> Result<(), AllocError>;

    /// Adds a value, or `none`.
    fn add_value(&mut self, value: Option<u64>) -> Result<(), AllocError>;

    /// Adds the bytes of a key, written with letters, digits and escapes.
    fn add_key(&mut self, bytes: &[u8]) -> Result<(), AllocError>;

    /// Adds an entry, as its key and its value.
    fn add_pair(&mut self, key: &[u8], value: u64) -> Result<(), AllocError>;

    /// Adds tree bytes, or why there are none.
    fn add_tree(&mut self, tree: Result<Vec<u8>, WireError>) -> Result<(), AllocError>;

    /// Adds why bytes were not read.
    fn add_fault(&mut self, fault: DecodeError) -> Result<(), AllocError>;

    /// Adds the Debug text of a value, in a line for each entry where that is wanted.
    fn add_debug<D: Debug>(&mut self, value: &D, is_wide: bool) -> Result<(), AllocError>;
}

// The hexadecimal digit of a value below 16.
fn hexadecimal(value: u8) -> char {
    match value {
        0..=9 => char::from(b'0' + value),
        10..=15 => char::from(b'A' + (value - 10)),
        _ => '?',
    }
}

// Writes a byte of a key: a letter or a digit as it is, any other with two hexadecimal digits.
fn push_escaped(out: &mut String, byte: u8) -> Result<(), AllocError> {
    if byte.is_ascii_alphanumeric() {
        return out.push(char::from(byte));
    }
    out.push('%')?;
    out.push(hexadecimal(byte / 16))?;
    out.push(hexadecimal(byte % 16))
}

impl Answers for String {
    fn add(&mut self, answer: &str) -> Result<(), AllocError> {
        self.push(' ')?;
        self.push_str(answer)
    }

    fn add_text<D: Display>(&mut self, value: &D) -> Result<(), AllocError> {
        self.push(' ')?;
        write!(self, "{value}")
    }

    fn add_number(&mut self, number: u64) -> Result<(), AllocError> {
        self.add_text(&number)
    }

    fn add_bool(&mut self, is_true: bool) -> Result<(), AllocError> {
        self.add(if is_true { "true" } else { "false" })
    }

    fn add_value(&mut self, value: Option<u64>) -> Result<(), AllocError> {
        match value {
            Some(value) => self.add_number(value),
            None => self.add("none"),
        }
    }

    fn add_key(&mut self, bytes: &[u8]) -> Result<(), AllocError> {
        self.push(' ')?;
        for byte in bytes {
            push_escaped(self, *byte)?;
        }
        Ok(())
    }

    fn add_pair(&mut self, key: &[u8], value: u64) -> Result<(), AllocError> {
        self.add_key(key)?;
        self.push('=')?;
        write!(self, "{value}")
    }

    fn add_tree(&mut self, tree: Result<Vec<u8>, WireError>) -> Result<(), AllocError> {
        match tree {
            Ok(bytes) => self.add_key(&bytes),
            Err(WireError::Memory) => Err(AllocError),
            Err(fault) => self.add_text(&fault),
        }
    }

    fn add_fault(&mut self, fault: DecodeError) -> Result<(), AllocError> {
        if fault == DecodeError::Memory {
            return Err(AllocError);
        }
        self.add_text(&fault)
    }

    fn add_debug<D: Debug>(&mut self, value: &D, is_wide: bool) -> Result<(), AllocError> {
        self.push(' ')?;
        if is_wide {
            return write!(self, "{value:#?}");
        }
        write!(self, "{value:?}")
    }
}
