//! The values of a list.

ghost use Rattle.std.specs.Prelude.{◌≡◌, ◌<◌, ◌≤◌, IfOk, OnErr, length};
ghost use Rattle.prefixes_core.specs.Internal.Values.{bytes_of, HasItsBytes};

use std::alloc::{AllocError, Global};
use std::marker::Model;
use std::{fmt, mem};

// How many bytes stand in a value itself.
const INLINE: usize = 22;

// The bytes of a value: the first of an array, or on the heap.
#[derive(Drop)]
enum Stored {
    Inline { len: u8, bytes: [u8; INLINE] },
    OnHeap(Box<Vec<u8>>),
}

/// What stands beside a name in a list: any bytes. Up to 22 of them stand in the value itself,
/// which does not allocate then.
#[derive(Drop)]
pub struct Payload {
    stored: Stored,
}

// A node of a map has room for a value, whether it has one or not.
const _: () = prove!(mem::size_of::<Payload>() == 24);

impl Model for Payload {
    ghost use Rattle.std.specs.Prelude.{ℕ, List};
    ghost use Rattle.std.specs.Coded.{coded_ℕ, coded_list};
    ghost use Rattle.prefixes_core.specs.Internal.Values.{bytes_of, HasItsBytes};

    ghost Value = { List ℕ };

    ghost coded = { coded_list coded_ℕ };

    ghost view = { λ payload. bytes_of payload.stored };

    ghost invariant = { λ payload. HasItsBytes payload.stored };
}

// Bytes that stand in a value itself.
fn inline(bytes: &[u8]) -> Stored
    requires { length bytes.now ≤ INLINE }
    ensures whole { HasItsBytes result }
    ensures bytes { bytes_of result ≡ bytes.now }
{
    let mut room = [0; INLINE];
    room[..bytes.len()].copy_from_slice(bytes);
    Stored::Inline {
        len: bytes.len() as u8,
        bytes: room,
    }
}

impl Payload {
    /// Makes a value of these bytes, in time in proportion to their number.
    ///
    /// # Errors
    ///
    /// Out of memory, never for up to 22 bytes.
    ///
    /// # Examples
    ///
    /// ```
    /// let payload = Payload::new(rt.alloc(), b"on".as_slice())?;
    /// assert_eq!(rt; payload.as_bytes(), b"on".as_slice());
    /// ```
    pub fn new(alloc: Global, bytes: &[u8]) -> Result<Payload, AllocError>
        ensures bytes { IfOk result (λ payload. payload ≡ bytes.now) }
        ensures err_only_long { OnErr result (INLINE < length bytes.now) }
    {
        if bytes.len() <= INLINE {
            return Ok(Payload {
                stored: inline(bytes),
            });
        }
        let on_heap = Box::new(alloc, Vec::from_slice(alloc, bytes)?)?;
        Ok(Payload {
            stored: Stored::OnHeap(on_heap),
        })
    }

    /// Returns the bytes, in constant time.
    ///
    /// # Examples
    ///
    /// ```
    /// let payload = Payload::new(rt.alloc(), b"".as_slice())?;
    /// assert!(rt; payload.as_bytes().is_empty());
    /// ```
    pub fn as_bytes(&self) -> &[u8]
        ensures { result.now ≡ self.now }
    {
        match &self.stored {
            Stored::Inline { len, bytes } => &bytes[..*len as usize],
            Stored::OnHeap(bytes) => bytes.as_slice(),
        }
    }
}

impl fmt::Debug for Payload {
    fn fmt<W: fmt::Write>(&self, f: &mut fmt::Formatter<W>) -> fmt::Result {
        write!(f, "{:?}", self.as_bytes())
    }
}
