//! A machine of commands over a map, the lines that tell it and that it replies, and the program.
//! The module `run` has all that a caller uses; its function `run` has no second name here.
#![tactic(auto)]

mod answer;
mod bench;
mod command;
mod cutting;
mod key_format;
mod program;
mod reading;
pub mod run;
pub mod units;
mod writing;

pub use patricia_tree::router;
pub use run::{Bench, Command, Reply, answer_bytes, answer_text, answer_units, serve};
