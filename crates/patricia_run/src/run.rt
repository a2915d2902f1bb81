//! All that a caller uses: commands over a map, answers to lines, and the program.

pub use crate::answer::{answer_bytes, answer_text, answer_units};
pub use crate::bench::{Bench, run};
pub use crate::command::{Command, Reply};
pub use crate::program::serve;
