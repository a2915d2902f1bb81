//! Look-ups of many keys at once.
//!
//! `patricia_tree` is the library to use. It depends on this crate.
#![tactic(auto)]

mod lookup;
pub mod many;
mod stages;
