//! The codes that calls return to C. The code of a fault in tree bytes is 10 more than the number
//! of the rule that is broken.

/// All was done.
pub(crate) const DONE: u32 = 0;
/// There is no such entry.
pub(crate) const ABSENT: u32 = 0;
/// No entry is left.
pub(crate) const END: u32 = 0;
/// There is such an entry.
pub(crate) const FOUND: u32 = 1;
/// An entry was written.
pub(crate) const ENTRY: u32 = 1;
/// Out of memory.
pub(crate) const NO_MEMORY: u32 = 2;
/// A record would lie too deep.
pub(crate) const TOO_DEEP: u32 = 3;
/// An array has too few places.
pub(crate) const NO_ROOM: u32 = 4;
/// Some key is no text.
pub(crate) const NOT_TEXT: u32 = 5;
/// A key does not come after the last one.
pub(crate) const NOT_IN_ORDER: u32 = 6;
/// Another handle of the map is left.
pub(crate) const SHARED: u32 = 7;
