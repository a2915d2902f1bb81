//! The kinds of keys: bytes, texts and 16-bit units.

use crate::answers::Answers;
use patricia_tree::{BorrowedBytes, Bytes, GenericPatriciaMap, GenericPatriciaSet, UnitKey, Units};
use std::alloc::AllocError;
use std::str;

/// A key that can be read from bytes.
pub trait Readable<'a>: BorrowedBytes {
    /// The key of these bytes, or `None` where they are no key.
    fn read(bytes: &'a [u8]) -> Option<Self>;
}

impl<'a> Readable<'a> for &'a [u8] {
    fn read(bytes: &'a [u8]) -> Option<&'a [u8]> {
        Some(bytes)
    }
}

impl<'a> Readable<'a> for &'a str {
    fn read(bytes: &'a [u8]) -> Option<&'a str> {
        str::from_utf8(bytes).ok()
    }
}

impl<'a> Readable<'a> for Units<'a> {
    fn read(bytes: &'a [u8]) -> Option<Units<'a>> {
        Units::new(bytes)
    }
}

/// A key whose maps and sets may have a Debug text.
pub trait Shown: Bytes {
    /// Adds that of a map, if it has one.
    fn add_map(
        map: &GenericPatriciaMap<Self, u64>,
        is_wide: bool,
        out: &mut String,
    ) -> Result<(), AllocError>;

    /// Adds that of a set, if it has one.
    fn add_set(
        set: &GenericPatriciaSet<Self>,
        is_wide: bool,
        out: &mut String,
    ) -> Result<(), AllocError>;
}

impl Shown for Vec<u8> {
    fn add_map(
        map: &GenericPatriciaMap<Vec<u8>, u64>,
        is_wide: bool,
        out: &mut String,
    ) -> Result<(), AllocError> {
        out.add_debug(map, is_wide)
    }

    fn add_set(
        set: &GenericPatriciaSet<Vec<u8>>,
        is_wide: bool,
        out: &mut String,
    ) -> Result<(), AllocError> {
        out.add_debug(set, is_wide)
    }
}

impl Shown for String {
    fn add_map(
        map: &GenericPatriciaMap<String, u64>,
        is_wide: bool,
        out: &mut String,
    ) -> Result<(), AllocError> {
        out.add_debug(map, is_wide)
    }

    fn add_set(
        set: &GenericPatriciaSet<String>,
        is_wide: bool,
        out: &mut String,
    ) -> Result<(), AllocError> {
        out.add_debug(set, is_wide)
    }
}

impl Shown for UnitKey {
    fn add_map(
        _map: &GenericPatriciaMap<UnitKey, u64>,
        _is_wide: bool,
        out: &mut String,
    ) -> Result<(), AllocError> {
        out.add("unknown")
    }

    fn add_set(
        _set: &GenericPatriciaSet<UnitKey>,
        _is_wide: bool,
        out: &mut String,
    ) -> Result<(), AllocError> {
        out.add("unknown")
    }
}
