//! Why bytes and values are refused.

use std::alloc::AllocError;
use thiserror::Error;

/// Why bytes and values were not decoded. Each number is the offset, in bytes, at which the record
/// begins that breaks a rule; a record's rules are tried in the order of this list, and the first
/// record that breaks one decides.
#[derive(Clone, Copy, Debug, PartialEq, Eq, Error)]
pub enum DecodeError {
    /// Memory ran out.
    #[error("out of memory")]
    Memory,
    /// A record is due, and too few bytes are left for it.
    #[error("record cut short at {0}")]
    Truncated(usize),
    /// The level is not the record's depth by the marks before it.
    #[error("wrong level at {0}")]
    Level(usize),
    /// The root has a label.
    #[error("root with a label at {0}")]
    RootLabel(usize),
    /// The root has a sibling mark.
    #[error("root with a sibling at {0}")]
    RootSibling(usize),
    /// A label, not the root's, has no byte.
    #[error("empty label at {0}")]
    EmptyLabel(usize),
    /// A label is not a valid key of the kind.
    #[error("invalid label at {0}")]
    InvalidLabel(usize),
    /// A sibling's first item is not greater than that of the label before it.
    #[error("siblings out of order at {0}")]
    SiblingOrder(usize),
    /// A record, not the root's, has neither a value mark nor a child mark.
    #[error("record without value and child at {0}")]
    NoValueNoChild(usize),
    /// There is no value left for a value mark.
    #[error("too few values at {0}")]
    TooFewValues(usize),
    /// Bytes follow the last record; the first of them has this offset.
    #[error("bytes after the tree at {0}")]
    TrailingBytes(usize),
    /// There are more values than value marks.
    #[error("too many values")]
    TooManyValues,
}

impl From<AllocError> for DecodeError {
    ghost use Rattle.std.specs.Prelude.{◌≡◌};
    ghost use Rattle.patricia_wire.specs.declared.error.DecodeError.TheVariants.{Memory};

    ghost from_gives = { λ _ e. e ≡ Memory };

    fn from(_: AllocError) -> DecodeError {
        DecodeError::Memory
    }
}
