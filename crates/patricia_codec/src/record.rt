//! A record of the written form, as it is written and as it is read.
ghost use Rattle.std.specs.Prelude.{◌≡◌, ◌≤◌, ◌<◌, ◌^◌, ◌++◌, ℕ, List, None, length, IfSome, OnOk};
ghost use Rattle.patricia_wire.specs.Faults.{IsCutShort};
ghost use Rattle.patricia_wire.specs.Records as records;
ghost use Rattle.patricia_wire.specs.Records.{canonical_flags, canonical_bytes};
ghost use Rattle.patricia_codec.specs.Internal.Steps.{Fronts};

use crate::width::Width;
use std::alloc::AllocError;
use std::marker::Model;

// The most bytes of a label.
pub const LONGEST: usize = 255;

/// A node, or a piece of one, with its label where it stands: in the node, or in the bytes read.
#[derive(Drop)]
pub struct Record<'a> {
    pub level: u32,
    pub label: &'a [u8],
    pub value: bool,
    pub child: bool,
    pub sibling: bool,
}

impl<'a> Model for Record<'a> {
    ghost use Rattle.patricia_wire.specs.Records as records;

    ghost Value = { records.Record };

    ghost view = { λ r. record {
      level = r.level;
      label = r.label.now;
      value = r.value;
      child = r.child;
      sibling = r.sibling;
    } };
}

// The number where the mark is set, else 0.
fn bit_if(mark: bool, number: u8) -> u8
    ensures { result ≡ records.bit_if mark number }
{
    if mark { number } else { 0 }
}

impl<'a> Record<'a> {
    // The three marks, each in two bits.
    fn flags(&self) -> u8
        ensures { result ≡ canonical_flags self.now }
    {
        bit_if(self.value, 1 + 2) + bit_if(self.child, 4 + 8) + bit_if(self.sibling, 16 + 32)
    }

    /// Writes the record behind what is there. The error is out of memory.
    pub fn write<W: Width>(&self, out: &mut Vec<u8>) -> Result<(), AllocError>
        requires label { length self.now.label ≤ LONGEST }
        requires level { self.now.level < 256 ^ W.width }
        ensures { OnOk result (out.new.items ≡ out.old.items ++ canonical_bytes W.width self.now) }
    {
        out.push(self.flags())?;
        out.push(self.label.len() as u8)?;
        W::write(self.level, out)?;
        out.extend_from_slice(self.label)?;
        Ok(())
    }

    /// The record at the front of the bytes, or `None` where they are too few.
    pub fn read<W: Width>(bytes: &'a [u8]) -> Option<Record<'a>>
        ensures some { IfSome result (λ r. Fronts W.width r bytes.now) }
        ensures none { result ≡ None → IsCutShort W.width bytes.now }
    {
        let head = W::head();
        if bytes.len() < head {
            return None;
        }
        let flags = bytes[0];
        Some(Record {
            level: W::read(&bytes[2..head]),
            label: bytes[head..].get(..bytes[1] as usize)?,
            value: flags & 2 != 0,
            child: flags & 8 != 0,
            sibling: flags & 32 != 0,
        })
    }
}
