//! A map and a set whose keys are byte strings or texts and share their common prefixes.
//!
//! ```
//! let mut map = StringPatriciaMap::new(rt.alloc());
//! map.insert("rust", 1)?;
//! map.insert("ruby", 2)?;
//! assert_eq!(rt; map.get("ruby"), Some(&2));
//! assert_eq!(rt; map.get_longest_common_prefix("rusty"), Some(("rust", &1)));
//! assert_eq!(rt; map.count_prefix("ru")?, 2);
//! ```
//!
//! [`PatriciaMap`] and [`PatriciaSet`] have byte strings as keys, [`StringPatriciaMap`] and
//! [`StringPatriciaSet`] texts. The generic types take any kind of keys that is [`Bytes`]:
//! [`UnitKey`] has 16-bit units, as UTF-16 has them. [`Router`] is a table of routes.
//!
//! # Which call
//!
//! Sets have these calls too, unless std's set has other names for them.
//!
//! | to | call |
//! |---|---|
//! | look up, insert, remove | `get`, `contains_key`, `insert`, `remove` |
//! | route by longest prefix | `get_longest_common_prefix`, `common_prefixes`, [`Router`] |
//! | list those with a prefix | `iter_prefix`, `cursor_prefix`, `for_each_prefix`, `count_prefix` |
//! | search with misspellings | `within`, [`is_within`] |
//! | page through entries | `cursor_from`, `cursor_range`, `range_from`, `range` |
//! | go over all | `cursor`, `iter`, `keys`, `values`, `for_each`, `into_iter` |
//! | find an end, a neighbour | `first_key_value`, `last_key_value`, `first_after`, `last_before` |
//! | write to values | `get_mut`, `update`, `get_or_insert_with`, `iter_mut`, `values_mut` |
//! | take entries out | `split_by_prefix`, `remove_prefix`, `retain`, `pop_first`, `pop_last` |
//! | combine | `extend`, `sorted_load`, `merge_with`, `equals`, `union`, `difference` |
//! | store and load | `tree_bytes`, `from_wire`, [`wire`] |
//!
//! Keys are in the order of their bytes. A prefix that keys share is stored once. A look-up takes
//! time in proportion to the nodes that it visits, at most 256 for each byte of the key.
//!
//! A call that returns no `Result` does not allocate. One that does returns an error where memory
//! runs out, and its documentation says what stays as it was: mostly everything.
#![tactic(auto)]

mod entries;
mod guard;
pub mod map;
mod prefixes;
pub mod router;
pub mod set;
mod values;
pub mod wire;

pub use map::{GenericPatriciaMap, LoadError, PatriciaMap, Refused, StringPatriciaMap};
pub use patricia_core::keys::{BorrowedBytes, Bytes, KeyBytes, UnitKey, Units};
pub use patricia_core::{Steps, is_within};
pub use router::Router;
pub use set::{GenericPatriciaSet, PatriciaSet, StringPatriciaSet};
pub use wire::{DecodeError, WireError};
