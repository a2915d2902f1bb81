//! Lists of which tree bytes are made.

ghost use Rattle.std.specs.Prelude.{◌≤◌, length};
ghost use Rattle.prefixes_core.specs.Lists.{most_packed};

use crate::listing::{Destination, EntryError, MOST_PACKED, NameError};
use std::alloc::Global;

/// A list, or its names, of which tree bytes are made: a name of more than `MOST_PACKED` bytes lies
/// too deep for them, and is refused.
#[derive(Drop)]
pub struct Packable<S>(pub S);

impl<S: Destination> Destination for Packable<S> {
    ghost IsName = { λ name. S.IsName name × (length name ≤ most_packed) };

    ghost Adds = { λ old name value new. S.Adds old.0 name value new.0 };

    fn add_entry(&mut self, alloc: Global, name: &str, value: &[u8]) -> Result<(), EntryError> {
        if name.len() > MOST_PACKED {
            return Err(EntryError::Name(NameError::TooLong));
        }
        self.0.add_entry(alloc, name, value)
    }
}
