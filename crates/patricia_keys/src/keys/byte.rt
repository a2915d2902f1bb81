//! The byte kind: every byte is an item.
ghost use Rattle.std.specs.Prelude.{◌≡◌};
ghost use Rattle.patricia_keys.specs.Keys.{IsValid, IsFirstItem, IsSharedLen};
ghost use Rattle.patricia_keys.specs.ByteKind.{IsByteItem};
ghost use Rattle.patricia_keys.specs.Internal.ByteLaw.{byte_lawful};

use super::{BorrowedBytes, Bytes};
use std::alloc::{AllocError, Global};
use std::cmp::Ordering;

/// Returns how many bytes two lists share at the front.
pub fn shared_len(a: &[u8], b: &[u8]) -> usize
    ensures { IsSharedLen a.now b.now result }
{
    let mut n = 0;
    while n < a.len() && n < b.len() && a[n] == b[n] {
        n += 1;
    }
    n
}

// The bytes, which are a valid key.
fn whole(bytes: &[u8]) -> &[u8]
    ensures value { result.now ≡ bytes.now }
    ensures valid { IsValid IsByteItem bytes.now }
{
    bytes
}

// The first byte, as a list, or the empty list.
fn first_item(bytes: &[u8]) -> &[u8]
    ensures { IsFirstItem IsByteItem bytes.now result.now }
{
    if bytes.is_empty() { bytes } else { &bytes[..1] }
}

impl Bytes for Vec<u8> {
    ghost item = { IsByteItem };

    ghost key = { λ k. k.items };

    fn is_valid_bytes(_bytes: &[u8]) -> bool {
        true
    }

    fn from_bytes(alloc: Global, bytes: &[u8]) -> Result<Vec<u8>, AllocError> {
        Vec::from_slice(alloc, bytes)
    }

    fn as_bytes(&self) -> &[u8] {
        self.as_slice()
    }

    fn floor_boundary(bytes: &[u8]) -> usize {
        bytes.len()
    }

    ghost lawful = { byte_lawful };
}

impl<'a> BorrowedBytes for &'a [u8] {
    type Owned = Vec<u8>;

    ghost key = { λ k. k.now };

    fn as_bytes(&self) -> &[u8] {
        whole(*self)
    }

    fn strip_common_prefix(self, bytes: &[u8]) -> &'a [u8] {
        &self[shared_len(self, bytes)..]
    }

    fn cmp_first_item(self, bytes: &[u8]) -> Ordering {
        first_item(self).cmp(first_item(bytes))
    }

    fn strip_n_prefix(self, n: usize) -> &'a [u8] {
        &self[n..]
    }

    fn keep_n_prefix(self, n: usize) -> &'a [u8] {
        &self[..n]
    }
}
