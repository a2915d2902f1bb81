//! A place of C that holds a handle of a shared map.
ghost use Rattle.std.specs.Prelude.{◌≡◌, Some, None};
ghost use Rattle.std.specs.Option.{option_map};
ghost use Rattle.patricia_c.specs.Internal.Full.{is_full};

use crate::shared_pointer::{SharedMap, SharedPointer};
use std::alloc::Global;
use std::mem;

mod lends;

/// A place of C for a handle of a shared map. All zero, it is a handle of the empty map.
#[repr(C)]
pub struct SharedPlace {
    full: bool,
    pointer: SharedPointer,
    alloc: Global,
    ghost kept: { full ≡ is_full pointer.stored },
}

impl Drop for SharedPlace {
    fn drop(self) {
        drop(self.into_stored());
    }
}

impl SharedPlace {
    /// A place with a handle of the empty map.
    pub(crate) fn none(alloc: Global) -> SharedPlace
        ensures { result.pointer.stored ≡ None }
    {
        SharedPlace {
            full: false,
            pointer: SharedPointer::none(alloc),
            alloc,
        }
    }

    /// A place that holds this handle.
    pub(crate) fn of(alloc: Global, stored: Box<SharedMap>) -> SharedPlace
        ensures { result.pointer.stored ≡ Some stored.value }
    {
        SharedPlace {
            full: true,
            pointer: SharedPointer::of(stored),
            alloc,
        }
    }

    fn into_stored(self) -> Option<Box<SharedMap>>
        ensures { option_map (λ b. b.value) result ≡ self.pointer.stored }
    {
        let SharedPlace {
            full,
            pointer,
            alloc: _,
        } = self;
        if full {
            Some(pointer.into_box())
        } else {
            drop(pointer);
            None
        }
    }

    /// Removes the handle from the place, and leaves one of the empty map.
    pub(crate) fn take(&mut self) -> Option<Box<SharedMap>>
        ensures taken { option_map (λ b. b.value) result ≡ self.old.pointer.stored }
        ensures left { self.new.pointer.stored ≡ None }
    {
        let alloc = self.alloc;
        mem::replace(self, SharedPlace::none(alloc)).into_stored()
    }

    /// Writes a handle to the place. What it held is dropped.
    pub(crate) fn put(&mut self, stored: Box<SharedMap>)
        ensures { self.new.pointer.stored ≡ Some stored.value }
    {
        *self = SharedPlace::of(self.alloc, stored);
    }
}
