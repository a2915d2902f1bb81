//! The handle behind a pointer, where it is.
ghost use Rattle.std.specs.Prelude.{◌≡◌, ◌≢◌, Some, None};
ghost use Rattle.std.specs.Borrow.{sem};
ghost use Rattle.patricia_c.specs.Internal.LentShared.{shared_follows};

use super::{SharedMap, SharedPointer};

impl SharedPointer {
    /// The handle, where it is.
    pub(crate) fn as_mut(&mut self) -> &mut SharedMap
        requires { self.old.stored ≢ None }
        ensures* writes_back { sem 𝓛 (shared_follows self.entry result) }
        ensures value { self.old.stored ≡ Some result.now }
    {
        unsafe { &mut *(self.at as *mut SharedMap) }
    }
}
