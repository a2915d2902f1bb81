//! The encoder, from the nodes of a tree to tree bytes, and the decoder back from them.
//!
//! `patricia_tree` is the library to use. It depends on this crate.
#![tactic(auto)]

mod builder;
pub mod counts;
pub mod decoder;
mod due;
pub mod encoder;
mod reader;
mod record;
mod records;
mod spare;
pub mod width;

pub use decoder::decode;
pub use encoder::{EncodeError, WireError, encode};
pub use patricia_wire::DecodeError;
pub use width::{Narrow, Wide, Width};
