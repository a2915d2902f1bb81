//! In how many bytes the level of a record is written.
ghost use Rattle.std.specs.Prelude.{◌≡◌, ℕ, ◌+◌, ◌^◌, ◌<◌, ◌≤◌, ◌++◌, None, length, IfSome, OnOk};
ghost use Rattle.std.specs.Int.{bytes_high_first};

use std::alloc::AllocError;

/// A width of levels, for which the encoder and the decoder are written once.
pub trait Width {
    // how many bytes a level takes
    ghost width: { ℕ };

    /// How many bytes stand before a record's label: its flags, the label's length and its level.
    fn head() -> usize
        ensures bytes { result ≡ 2 + width }
        ensures few { result ≤ 6 };

    /// The level of a record that lies so deep, or `None` where the bytes have no room for it.
    fn level_at(depth: usize) -> Option<u32>
        ensures room { IfSome result (λ level. (level ≡ depth) × (level < 256 ^ width)) }
        ensures too_deep { result ≡ None → 256 ^ width ≤ depth };

    /// Writes a level behind what is there, its high byte first. The error is out of memory.
    fn write(level: u32, out: &mut Vec<u8>) -> Result<(), AllocError>
        requires { level < 256 ^ width }
        ensures { OnOk result (out.new.items ≡ out.old.items ++ bytes_high_first width level) };

    /// The level that the bytes spell.
    fn read(bytes: &[u8]) -> u32
        requires { length bytes.now ≡ width }
        ensures spelled { bytes_high_first width result ≡ bytes.now }
        ensures room { result < 256 ^ width };
}

/// Levels in two bytes, up to 65,535.
pub struct Narrow;

impl Width for Narrow {
    ghost width = { 2 };

    fn head() -> usize {
        4
    }

    fn level_at(depth: usize) -> Option<u32> {
        if depth <= u16::MAX as usize {
            Some(depth as u32)
        } else {
            None
        }
    }

    fn write(level: u32, out: &mut Vec<u8>) -> Result<(), AllocError> {
        out.extend_from_slice(&(level as u16).to_be_bytes())
    }

    fn read(bytes: &[u8]) -> u32 {
        u16::from_be_bytes([bytes[0], bytes[1]]) as u32
    }
}

/// Levels in four bytes, up to 4,294,967,295.
pub struct Wide;

impl Width for Wide {
    ghost width = { 4 };

    fn head() -> usize {
        6
    }

    fn level_at(depth: usize) -> Option<u32> {
        if depth <= u32::MAX as usize {
            Some(depth as u32)
        } else {
            None
        }
    }

    fn write(level: u32, out: &mut Vec<u8>) -> Result<(), AllocError> {
        out.extend_from_slice(&level.to_be_bytes())
    }

    fn read(bytes: &[u8]) -> u32 {
        u32::from_be_bytes([bytes[0], bytes[1], bytes[2], bytes[3]])
    }
}
