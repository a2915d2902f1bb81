//! How often values are dropped, and prefixes that outlive their map.

mod early;
mod prefixes;
mod values;
