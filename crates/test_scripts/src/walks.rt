//! Walks over maps and sets, which are read past their end.

use crate::answers::Answers;
use patricia_tree::map::{
    IntoIter, Iter, IterPrefix, Keys, NearCursor, PrefixReadCursor, Range, RangeReadCursor,
    ReadCursor, Values,
};
use patricia_tree::{BorrowedBytes, Bytes, set};
use std::alloc::AllocError;

/// A walk over a map or a set.
pub trait Walk: Drop {
    /// Takes a step and adds what it gives. Returns whether it gives something.
    fn step(&mut self, out: &mut String) -> Result<bool, AllocError>;
}

/// Adds what a walk over so many entries gives, up to its end or to a step that is refused. Then it
/// takes two steps more, and adds `more` for each that is not at the end.
pub fn add_walk<W: Walk>(mut walk: W, len: usize, out: &mut String) -> Result<(), AllocError> {
    let came = add_steps(&mut walk, len, out);
    add_step_past(&mut walk, out)?;
    add_step_past(&mut walk, out)?;
    came
}

/// Adds what a walk gives first, or `none`, and drops the walk.
pub fn add_first<W: Walk>(mut walk: W, out: &mut String) -> Result<(), AllocError> {
    if walk.step(out)? {
        return Ok(());
    }
    out.add("none")
}

fn add_steps<W: Walk>(walk: &mut W, len: usize, out: &mut String) -> Result<(), AllocError> {
    for _ in 0..=len {
        if !walk.step(out)? {
            break;
        }
    }
    Ok(())
}

fn add_step_past<W: Walk>(walk: &mut W, out: &mut String) -> Result<(), AllocError> {
    match walk.step(out) {
        Ok(false) => Ok(()),
        _ => out.add("more"),
    }
}

// A step gave something, which was added.
fn given(added: Result<(), AllocError>) -> Result<bool, AllocError> {
    match added {
        Ok(()) => Ok(true),
        Err(error) => Err(error),
    }
}

fn add_entry<K: Bytes>(
    entry: Option<Result<(K, &u64), AllocError>>,
    out: &mut String,
) -> Result<bool, AllocError> {
    match entry {
        Some(Ok((key, value))) => given(out.add_pair(key.as_bytes(), *value)),
        Some(Err(error)) => Err(error),
        None => Ok(false),
    }
}

// The same of a key or an element.
fn add_key<K: Bytes>(
    key: Option<Result<K, AllocError>>,
    out: &mut String,
) -> Result<bool, AllocError> {
    match key {
        Some(Ok(key)) => given(out.add_key(key.as_bytes())),
        Some(Err(error)) => Err(error),
        None => Ok(false),
    }
}

impl<'a, K: Bytes> Walk for Iter<'a, K, u64> {
    fn step(&mut self, out: &mut String) -> Result<bool, AllocError> {
        add_entry(self.next(), out)
    }
}

impl<'a, Q: BorrowedBytes> Walk for IterPrefix<'a, Q, u64> {
    fn step(&mut self, out: &mut String) -> Result<bool, AllocError> {
        add_entry(self.next(), out)
    }
}

impl<'a, Q: BorrowedBytes> Walk for Range<'a, Q, u64> {
    fn step(&mut self, out: &mut String) -> Result<bool, AllocError> {
        add_entry(self.next(), out)
    }
}

impl<K: Bytes> Walk for IntoIter<K, u64> {
    fn step(&mut self, out: &mut String) -> Result<bool, AllocError> {
        match self.next() {
            Some(Ok((key, value))) => given(out.add_pair(key.as_bytes(), value)),
            Some(Err(error)) => Err(error),
            None => Ok(false),
        }
    }
}

impl<'a, K: Bytes> Walk for Keys<'a, K, u64> {
    fn step(&mut self, out: &mut String) -> Result<bool, AllocError> {
        add_key(self.next(), out)
    }
}

impl<'a, K: Bytes> Walk for Values<'a, K, u64> {
    fn step(&mut self, out: &mut String) -> Result<bool, AllocError> {
        match self.next() {
            Some(Ok(value)) => given(out.add_number(*value)),
            Some(Err(error)) => Err(error),
            None => Ok(false),
        }
    }
}

impl<'a, K: Bytes> Walk for set::Iter<'a, K> {
    fn step(&mut self, out: &mut String) -> Result<bool, AllocError> {
        add_key(self.next(), out)
    }
}

impl<'a, Q: BorrowedBytes> Walk for set::IterPrefix<'a, Q> {
    fn step(&mut self, out: &mut String) -> Result<bool, AllocError> {
        add_key(self.next(), out)
    }
}

impl<'a, Q: BorrowedBytes> Walk for set::ElementRange<'a, Q> {
    fn step(&mut self, out: &mut String) -> Result<bool, AllocError> {
        add_key(self.next(), out)
    }
}

impl<K: Bytes> Walk for set::IntoIter<K> {
    fn step(&mut self, out: &mut String) -> Result<bool, AllocError> {
        add_key(self.next(), out)
    }
}

/// What stands behind a key: a value of a map, or `()` of a set.
pub trait Stored {
    /// Adds the entry of a key, or the element that it is.
    fn add_behind(&self, key: &[u8], out: &mut String) -> Result<(), AllocError>;
}

impl Stored for u64 {
    fn add_behind(&self, key: &[u8], out: &mut String) -> Result<(), AllocError> {
        out.add_pair(key, *self)
    }
}

impl Stored for () {
    fn add_behind(&self, key: &[u8], out: &mut String) -> Result<(), AllocError> {
        out.add_key(key)
    }
}

// What a cursor lends.
fn add_lent<V: Stored>(
    key: Option<&[u8]>,
    value: Option<&V>,
    out: &mut String,
) -> Result<bool, AllocError> {
    match (key, value) {
        (Some(key), Some(value)) => given(value.add_behind(key, out)),
        _ => given(out.add("none")),
    }
}

impl<'a, K: Bytes, V: Stored> Walk for ReadCursor<'a, K, V> {
    fn step(&mut self, out: &mut String) -> Result<bool, AllocError> {
        match self.advance() {
            Ok(true) => add_lent(self.key(), self.value(), out),
            Ok(false) => Ok(self.key().is_some()),
            Err(error) => Err(error),
        }
    }
}

impl<'a, Q: BorrowedBytes, V: Stored> Walk for PrefixReadCursor<'a, Q, V> {
    fn step(&mut self, out: &mut String) -> Result<bool, AllocError> {
        match self.advance() {
            Ok(true) => add_lent(self.key(), self.value(), out),
            Ok(false) => Ok(self.key().is_some()),
            Err(error) => Err(error),
        }
    }
}

impl<'a, Q: BorrowedBytes, V: Stored> Walk for RangeReadCursor<'a, Q, V> {
    fn step(&mut self, out: &mut String) -> Result<bool, AllocError> {
        match self.advance() {
            Ok(true) => add_lent(self.key(), self.value(), out),
            Ok(false) => Ok(self.key().is_some()),
            Err(error) => Err(error),
        }
    }
}

impl<'a, Q: BorrowedBytes, V: Stored> Walk for NearCursor<'a, Q, V> {
    fn step(&mut self, out: &mut String) -> Result<bool, AllocError> {
        match self.advance() {
            Ok(true) => add_lent(self.key(), self.value(), out),
            Ok(false) => Ok(self.key().is_some()),
            Err(error) => Err(error),
        }
    }
}
