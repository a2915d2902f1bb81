//! Numbers below 2^48 in six bytes.
ghost use Rattle.std.specs.Prelude.{◌≡◌, ◌+◌, ◌<◌};
ghost use Rattle.patricia_store.specs.Internal.Packing.{number, packed, most};

use std::mem;

/// The greatest number, and the most bytes that a store has. With a `usize` of 32 bits it is the
/// greatest `usize`, which is no length either.
pub const MOST: usize = 281474976710655u64 as usize;

/// The most nodes that a store has. The number of the next one is less than `MOST`.
pub const MOST_NODES: usize = MOST - 1;

/// A number below 2^48, in three parts of 16 bits from the lowest.
#[derive(Clone, Copy)]
pub struct Packed {
    low: u16,
    middle: u16,
    high: u16,
}

const _: () = prove!(mem::size_of::<Packed>() == 6);

const _: () = prove!(mem::align_of::<Packed>() == 2);

impl Packed {
    /// This number.
    pub fn new(n: usize) -> Packed
        requires { n < most + 1 }
        ensures { result ≡ packed n }
    {
        Packed {
            low: (n % 65536) as u16,
            middle: (n / 65536 % 65536) as u16,
            high: (n as u64 / 4294967296) as u16,
        }
    }

    /// The number.
    pub fn get(self) -> usize
        ensures value { result ≡ number self }
        ensures small { result < most + 1 }
    {
        let lower = self.low as u32 + 65536 * self.middle as u32;
        (lower as u64 + 4294967296 * self.high as u64) as usize
    }
}
