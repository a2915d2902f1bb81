//! Keys of 16-bit units, as UTF-16 has them: each is two bytes, the high one first.
//!
//! Such a key has an even number of bytes, and any number in each unit: no surrogate has to stand
//! in a pair. Keys are in the order of their bytes, so in that of their units.

ghost use Rattle.std.specs.Prelude.{◌≡◌, ◌<◌, ◌/◌, ◌%◌, ◌*◌, ◌+◌, length, flat_map, slice_range};
ghost use Rattle.std.specs.Prelude.{IfOk, IfSome, None, ◌↔◌};
ghost use Rattle.std.specs.Int.{w16, from_be_bytes, to_be_bytes};
ghost use Rattle.patricia_keys.specs.ByteKind.{IsByteItem};
ghost use Rattle.patricia_keys.specs.Keys.{IsCommon, IsFirstItem, IsValid};
ghost use Rattle.patricia_keys.specs.UnitKind.{IsUnitItem};
ghost use Rattle.patricia_keys.specs.Internal.UnitLaw.{unit_lawful};

use super::{BorrowedBytes, Bytes};
use std::alloc::{AllocError, Global};
use std::cmp::Ordering;
use std::marker::Model;

/// An owned key of 16-bit units, which contracts see as its bytes.
#[derive(Drop)]
pub struct UnitKey {
    bytes: Vec<u8>,
}

impl Model for UnitKey {
    ghost use Rattle.std.specs.Prelude.{◌≡◌, ◌%◌, ℕ, List, length};

    ghost Value = { List ℕ };

    ghost view = { λ k. k.bytes.items };

    ghost invariant = { λ k. length k.bytes.items % 2 ≡ 0 };
}

/// A borrowed key of 16-bit units.
#[derive(Clone, Copy)]
pub struct Units<'a> {
    bytes: &'a [u8],
    ghost even: { length bytes.now % 2 ≡ 0 },
}

impl UnitKey {
    /// Makes a key of units, in time in proportion to their number.
    ///
    /// # Errors
    ///
    /// Out of memory.
    ///
    /// # Examples
    ///
    /// ```
    /// let key = UnitKey::from_units(rt.alloc(), &[0x61, 0x3042])?;
    /// assert!(rt; key.as_units().as_bytes() == [0, 0x61, 0x30, 0x42].as_slice());
    /// ```
    pub fn from_units(alloc: Global, units: &[u16]) -> Result<UnitKey, AllocError>
        ensures { IfOk result (λ key. key ≡ flat_map (to_be_bytes w16) units.now) }
    {
        let mut bytes = Vec::new(alloc);
        for unit in units {
            bytes.extend_from_slice(&unit.to_be_bytes())?;
        }
        Ok(UnitKey { bytes })
    }

    /// The key, borrowed.
    ///
    /// # Examples
    ///
    /// ```
    /// let key = UnitKey::from_units(rt.alloc(), &[0x61, 0x3042])?;
    /// assert!(rt; key.as_units().as_bytes() == [0, 0x61, 0x30, 0x42].as_slice());
    /// ```
    pub fn as_units(&self) -> Units<'_>
        ensures { ⟦<Units<'static> as BorrowedBytes>⟧.key result ≡ self.now }
    {
        Units {
            bytes: self.bytes.as_slice(),
        }
    }
}

impl<'a> Units<'a> {
    /// The key that the bytes are, or `None` where their number is odd.
    ///
    /// # Examples
    ///
    /// ```
    /// if let Some(units) = Units::new(b"\0a\0b") {
    ///     assert_eq!(rt; units.len(), 2);
    ///     let last = units.len().saturating_sub(1);
    ///     if last < units.len() {
    ///         assert_eq!(rt; units.unit(last), 0x62);
    ///     }
    /// }
    /// assert!(rt; Units::new(b"\0a\0").is_none());
    /// ```
    pub fn new(bytes: &'a [u8]) -> Option<Units<'a>>
        ensures some { IfSome result (λ units.
            ⟦<Units<'a> as BorrowedBytes>⟧.key units ≡ bytes.now) }
        ensures none { (result ≡ None) ↔ (length bytes.now % 2 ≡ 1) }
    {
        if bytes.len() % 2 == 0 {
            Some(Units { bytes })
        } else {
            None
        }
    }

    /// The number of units.
    ///
    /// # Examples
    ///
    /// ```
    /// if let Some(units) = Units::new(b"\0a\0b") {
    ///     assert_eq!(rt; units.len(), 2);
    ///     let last = units.len().saturating_sub(1);
    ///     if last < units.len() {
    ///         assert_eq!(rt; units.unit(last), 0x62);
    ///     }
    /// }
    /// assert!(rt; Units::new(b"\0a\0").is_none());
    /// ```
    pub fn len(self) -> usize
        ensures { result ≡ length (⟦<Units<'a> as BorrowedBytes>⟧.key self.entry) / 2 }
    {
        self.bytes.len() / 2
    }

    /// The unit at a place, counted from 0. The place is less than the number of units.
    ///
    /// # Examples
    ///
    /// ```
    /// if let Some(units) = Units::new(b"\0a\0b") {
    ///     assert_eq!(rt; units.len(), 2);
    ///     let last = units.len().saturating_sub(1);
    ///     if last < units.len() {
    ///         assert_eq!(rt; units.unit(last), 0x62);
    ///     }
    /// }
    /// assert!(rt; Units::new(b"\0a\0").is_none());
    /// ```
    pub fn unit(self, place: usize) -> u16
        requires { place < length (⟦<Units<'a> as BorrowedBytes>⟧.key self) / 2 }
        ensures { result
            ≡ from_be_bytes w16 (slice_range (⟦<Units<'a> as BorrowedBytes>⟧.key self.entry)
            (2 * place) (2 * place + 2)) }
    {
        u16::from_be_bytes([self.bytes[2 * place], self.bytes[2 * place + 1]])
    }
}

// Bytes of an even number, which are a valid key.
fn whole(bytes: &[u8]) -> &[u8]
    requires { length bytes.now % 2 ≡ 0 }
    ensures value { result.now ≡ bytes.now }
    ensures valid { IsValid IsUnitItem bytes.now }
{
    bytes
}

// The first unit, as bytes, or the empty list.
fn first_item(bytes: &[u8]) -> &[u8]
    requires { length bytes.now % 2 ≡ 0 }
    ensures { IsFirstItem IsUnitItem bytes.now result.now }
{
    if bytes.is_empty() { bytes } else { &bytes[..2] }
}

// How many bytes of whole units two lists share at the front.
fn common_len(key: &[u8], bytes: &[u8]) -> usize
    ensures { IsCommon IsUnitItem key.now bytes.now result }
{
    let (_, shared) = key.strip_common_prefix_and_len(bytes);
    shared - shared % 2
}

impl Bytes for UnitKey {
    ghost item = { IsUnitItem };

    ghost key = { λ k. k };

    fn is_valid_bytes(bytes: &[u8]) -> bool {
        bytes.len() % 2 == 0
    }

    fn from_bytes(alloc: Global, bytes: &[u8]) -> Result<UnitKey, AllocError> {
        Ok(UnitKey {
            bytes: Vec::from_slice(alloc, bytes)?,
        })
    }

    fn as_bytes(&self) -> &[u8] {
        whole(self.bytes.as_slice())
    }

    fn floor_boundary(bytes: &[u8]) -> usize {
        bytes.len() - bytes.len() % 2
    }

    ghost lawful = { unit_lawful };
}

impl<'a> BorrowedBytes for Units<'a> {
    type Owned = UnitKey;

    ghost key = { λ k. k.bytes.now };

    fn as_bytes(&self) -> &[u8] {
        whole(self.bytes)
    }

    fn strip_common_prefix(self, bytes: &[u8]) -> Units<'a> {
        Units {
            bytes: &self.bytes[common_len(self.bytes, bytes)..],
        }
    }

    fn cmp_first_item(self, bytes: &[u8]) -> Ordering {
        first_item(self.bytes).cmp(first_item(bytes))
    }

    fn strip_n_prefix(self, n: usize) -> Units<'a> {
        Units {
            bytes: &self.bytes[n..],
        }
    }

    fn keep_n_prefix(self, n: usize) -> Units<'a> {
        Units {
            bytes: &self.bytes[..n],
        }
    }
}
