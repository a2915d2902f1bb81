//! Keys of 16-bit units, which `patricia_tree` has, under the path that they had here before.

pub use patricia_tree::{UnitKey, Units};
