//! The text kind: the UTF-8 (RFC 3629) of each character is an item, of 1 to 4 bytes.
ghost use Rattle.std.specs.Prelude.{◌≡◌, ℕ, ◌≤◌, encode_utf8, length, slice_index, string_bytes};
ghost use Rattle.std.specs.Char.{IsScalar, len_utf8};
ghost use Rattle.patricia_keys.specs.Keys.{IsValid, IsFloor, IsFirstItem};
ghost use Rattle.patricia_keys.specs.TextKind.{IsTextItem};
ghost use Rattle.patricia_keys.specs.Internal.TextLaw.{text_lawful};

use super::byte::shared_len;
use super::{BorrowedBytes, Bytes};
use std::alloc::{AllocError, Global};
use std::cmp::Ordering;
use std::str;

// How many bytes at the front are whole characters.
fn text_len(bytes: &[u8]) -> usize
    ensures { IsFloor IsTextItem bytes.now result }
{
    match str::from_utf8(bytes) {
        Ok(_) => bytes.len(),
        Err(error) => error.valid_up_to(),
    }
}

/// The text of a list of bytes that is one.
pub fn text_of(bytes: &[u8]) -> &str
    requires { IsValid IsTextItem bytes.now }
    ensures { result.now ≡ bytes.now }
{
    match str::from_utf8(bytes) {
        Ok(text) => text,
        Err(_) => unreachable!(),
    }
}

impl Bytes for String {
    ghost item = { IsTextItem };

    ghost key = { λ k. string_bytes k };

    fn is_valid_bytes(bytes: &[u8]) -> bool {
        str::from_utf8(bytes).is_ok()
    }

    fn from_bytes(alloc: Global, bytes: &[u8]) -> Result<String, AllocError> {
        String::from_str(alloc, text_of(bytes))
    }

    fn as_bytes(&self) -> &[u8] {
        self.as_str().as_bytes()
    }

    fn floor_boundary(bytes: &[u8]) -> usize {
        text_len(bytes)
    }

    ghost lawful = { text_lawful };
}

// How many bytes a character has whose UTF-8 begins with this byte.
fn char_len(first: u8) -> usize
    ensures { (c : ℕ) → IsScalar c → slice_index (encode_utf8 c) 0 ≡ first → result ≡ len_utf8 c }
{
    if first < 0xc0 {
        1
    } else if first < 0xe0 {
        2
    } else if first < 0xf0 {
        3
    } else {
        4
    }
}

// The first character, as bytes, or the empty list.
fn first_item(bytes: &[u8]) -> &[u8]
    requires { IsValid IsTextItem bytes.now }
    ensures { IsFirstItem IsTextItem bytes.now result.now }
{
    if bytes.is_empty() {
        return bytes;
    }
    &bytes[..char_len(bytes[0])]
}

impl<'a> BorrowedBytes for &'a str {
    type Owned = String;

    ghost key = { λ k. k.now };

    fn as_bytes(&self) -> &[u8] {
        let text: &str = *self;
        text.as_bytes()
    }

    fn strip_common_prefix(self, bytes: &[u8]) -> &'a str {
        let n = self.floor_char_boundary(shared_len(self.as_bytes(), bytes));
        &self[n..]
    }

    fn cmp_first_item(self, bytes: &[u8]) -> Ordering {
        first_item(self.as_bytes()).cmp(first_item(bytes))
    }

    fn strip_n_prefix(self, n: usize) -> &'a str {
        &self[n..]
    }

    fn keep_n_prefix(self, n: usize) -> &'a str {
        &self[..n]
    }
}
