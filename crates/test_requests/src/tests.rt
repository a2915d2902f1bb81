//! Of two tests of a name, the one that ends with `made` only makes its values, and the one that
//! ends with `called` makes the same values and then each call that does not allocate.
//! `tests/test_refusals.py` counts their memory requests, and refuses requests of the others.

mod asserts;
mod collects;
mod counts;
mod drops;
mod helpers;
mod json;
mod keys;
mod loans;
mod many;
mod maps;
mod prefixes;
mod reload;
mod removals;
mod router;
mod serve;
mod sets;
mod slots;
mod streams;
mod texts;
mod walks;
