//! Callers of maps: what they know of maps, encodings and walks, from contracts alone.
#![tactic(auto)]

pub mod counts;
pub mod cursors;
pub mod encodings;
pub mod json;
pub mod kept;
pub mod listings;
pub mod loans;
pub mod loops;
