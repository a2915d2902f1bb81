//! The records of tree bytes, one after the other.

ghost use Rattle.std.specs.Prelude.{IfSome, IfNone};
ghost use Rattle.prefixes_core.specs.Internal.Splits.{IsFirstRecord, IsNoRecord};

/// A node of a tree as tree bytes have it: how many levels it lies below the root, its label, and
/// whether a name ends there.
#[derive(Clone, Copy)]
pub struct Record<'a> {
    pub level: u16,
    pub label: &'a [u8],
    pub is_name: bool,
}

/// The first record of tree bytes and what is behind it, or `None` where no record is left.
pub fn split_record(bytes: &[u8]) -> Option<(Record<'_>, &[u8])>
    ensures some { IfSome result (λ parts. IsFirstRecord bytes.now parts.0.level parts.0.label.now
        parts.0.is_name parts.1.now) }
    ensures none { IfNone result (IsNoRecord bytes.now) }
{
    if bytes.len() < 4 {
        return None;
    }
    let len = bytes[1] as usize;
    let (_, rest) = bytes.split_at(4);
    if rest.len() < len {
        return None;
    }
    let (label, rest) = rest.split_at(len);
    let record = Record {
        level: u16::from_be_bytes([bytes[2], bytes[3]]),
        label,
        is_name: bytes[0] & 2 != 0,
    };
    Some((record, rest))
}
