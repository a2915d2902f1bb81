//! The map for C: keys are byte strings, values numbers of 64 bits.
//!
//! `bindings/c/patricia.h` declares what is exported here. Each call takes a place of C, which is
//! all zero or as a call left it, and its contract says what the place holds before and after: a
//! finite map, a handle of one that others share, the entries that an iterator has left, or where a
//! cursor stands.
#![tactic(auto)]

mod blocks;
mod codes;
mod cursor_place;
mod cursor_pointer;
mod cursors;
mod encodings;
mod ends;
mod entries_pointer;
mod iteration;
mod iterator_place;
mod loading;
mod many;
mod map;
mod map_place;
mod map_pointer;
mod near;
mod prefixes;
mod ranges;
mod raw_box;
mod room;
mod shared;
mod shared_place;
mod shared_pointer;
mod text_encodings;
mod texts;
