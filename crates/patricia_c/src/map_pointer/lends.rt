//! The map behind a pointer, where it is.
ghost use Rattle.std.specs.Prelude.{◌≡◌, ◌≢◌, Some, None};
ghost use Rattle.std.specs.Borrow.{sem};
ghost use Rattle.patricia_c.specs.Internal.LentMap.{map_follows};

use super::{MapPointer, StoredMap};

impl MapPointer {
    /// The map, where it is.
    pub(crate) fn as_mut(&mut self) -> &mut StoredMap
        requires { self.old.stored ≢ None }
        ensures* writes_back { sem 𝓛 (map_follows self.entry result) }
        ensures value { self.old.stored ≡ Some result.now }
    {
        unsafe { &mut *(self.at as *mut StoredMap) }
    }
}
