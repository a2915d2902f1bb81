//! Questions about prefixes over lists of names: texts cut into words, completions, near names,
//! block lists and subtrees of dotted names; lists that are combined, measured, drawn and packed;
//! and the program that asks all of it.
#![tactic(auto)]

pub mod answering;
mod asking;
pub mod blocking;
pub mod combining;
pub mod completing;
pub mod cutting;
pub mod dotted;
pub mod drawing;
mod failure;
mod files;
mod heads;
mod inputs;
mod json;
mod lines;
pub mod listing;
pub mod measuring;
pub mod nearing;
pub mod networks;
mod objects;
mod opening;
mod options;
mod output;
pub mod packable;
pub mod packing;
pub mod program;
mod records;
mod saving;
mod showing;
pub mod value;

pub use blocking::BlockList;
pub use combining::{Combination, LinesError, combine, lines_of};
pub use completing::{Completions, complete, first_completions};
pub use cutting::segment;
pub use dotted::{drop_subtree, subtree};
pub use drawing::{Node, draw};
pub use inputs::Inputs;
pub use lines::LineFormat;
pub use measuring::{Measures, measure};
pub use nearing::{NearName, NearNames, SearchedNames, near};
pub use networks::{Network, NetworkError, Networks, network_of, parse_network};
pub use opening::Opens;
pub use options::command;
pub use packing::{PackError, UnpackError, pack, pack_names, unpack};
pub use program::{answer_all, serve};
pub use value::Payload;
