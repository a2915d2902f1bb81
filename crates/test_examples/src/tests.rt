//! Each file has the examples of some calls, which `tests/examples.py` copies into the comments of
//! these; `collecting` has calls of std.

mod asserts;
mod collecting;
mod cursors;
mod json;
mod keys;
mod maps;
mod ranges;
mod reading;
mod router;
mod set_ranges;
mod sets;
mod units;
mod whole_maps;
mod whole_sets;
