//! Debug of a map, in the form of Rust's own maps: `{[98, 97, 114]: 2}`, or `{"bar": 2}`.

use super::GenericPatriciaMap;
use patricia_core::keys::Bytes;
use std::fmt::{Debug, Error, Formatter, Result, Write};

impl<K: Bytes + Debug, V: Drop + Debug> Debug for GenericPatriciaMap<K, V> {
    /// The error is that of the formatter, or that of a key for which memory ran out.
    fn fmt<W: Write>(&self, f: &mut Formatter<W>) -> Result {
        let mut entries = f.debug_map();
        for entry in self {
            match entry {
                Ok((key, value)) => entries.entry(&key, value),
                Err(_) => return Err(Error),
            };
        }
        entries.finish()
    }
}
