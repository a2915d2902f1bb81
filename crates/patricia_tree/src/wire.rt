//! The wire: the faults of encoding and of decoding a map or a set, its laws, worked examples, and
//! the JSON of tree bytes and values.
//!
//! `tree_bytes` of a map or a set gives its tree bytes. Beside the values, in key order, they are
//! all that a map is, and `from_wire` makes it of them again. Each level takes two bytes of them,
//! so none is deeper than 65,535, as in the encoding of the Rust crate. `wide_tree_bytes` gives
//! four bytes to each, and `from_wide_wire` reads these. Neither call reads the other's encoding.

pub mod laws;

pub use patricia_core::tree::{DecodeError, WireError};
pub use patricia_core::wire_examples as examples;
pub use patricia_json::{JsonError, pair_from_json, pair_to_json};
