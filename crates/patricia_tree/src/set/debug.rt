//! Debug of a set, in the form of Rust's own sets: `{[98, 97, 114]}`, or `{"bar", "foo"}`.

use super::GenericPatriciaSet;
use patricia_core::keys::Bytes;
use std::fmt::{Debug, Error, Formatter, Result, Write};

impl<T: Bytes + Debug> Debug for GenericPatriciaSet<T> {
    /// The error is that of the formatter, or that of an element for which memory ran out.
    fn fmt<W: Write>(&self, f: &mut Formatter<W>) -> Result {
        let mut entries = f.debug_set();
        for element in self {
            match element {
                Ok(element) => entries.entry(&element),
                Err(_) => return Err(Error),
            };
        }
        entries.finish()
    }
}
