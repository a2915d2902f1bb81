//! A place of C that holds an iterator.
ghost use Rattle.std.specs.Prelude.{◌≡◌, Some, None};
ghost use Rattle.std.specs.Option.{option_map};
ghost use Rattle.patricia_c.specs.Internal.Full.{is_full};

use crate::entries_pointer::{EntriesLeft, EntriesPointer};
use std::alloc::Global;
use std::mem;

/// A place of C for an iterator. All zero, it is at its end.
#[repr(C)]
pub struct IteratorPlace {
    full: bool,
    pointer: EntriesPointer,
    alloc: Global,
    ghost kept: { full ≡ is_full pointer.stored },
}

impl Drop for IteratorPlace {
    fn drop(self) {
        drop(self.into_stored());
    }
}

impl IteratorPlace {
    /// A place with an iterator at its end.
    pub(crate) fn none(alloc: Global) -> IteratorPlace
        ensures { result.pointer.stored ≡ None }
    {
        IteratorPlace {
            full: false,
            pointer: EntriesPointer::none(alloc),
            alloc,
        }
    }

    /// A place with an iterator over these entries.
    pub(crate) fn of(alloc: Global, stored: Box<EntriesLeft>) -> IteratorPlace
        ensures { result.pointer.stored ≡ Some stored.value }
    {
        IteratorPlace {
            full: true,
            pointer: EntriesPointer::of(stored),
            alloc,
        }
    }

    fn into_stored(self) -> Option<Box<EntriesLeft>>
        ensures { option_map (λ b. b.value) result ≡ self.pointer.stored }
    {
        let IteratorPlace {
            full,
            pointer,
            alloc: _,
        } = self;
        if full {
            Some(pointer.into_box())
        } else {
            drop(pointer);
            None
        }
    }

    /// Removes the entries from the place, and leaves an iterator at its end.
    pub(crate) fn take(&mut self) -> Option<Box<EntriesLeft>>
        ensures taken { option_map (λ b. b.value) result ≡ self.old.pointer.stored }
        ensures left { self.new.pointer.stored ≡ None }
    {
        let alloc = self.alloc;
        mem::replace(self, IteratorPlace::none(alloc)).into_stored()
    }

    /// Writes entries to the place. What it held is dropped.
    pub(crate) fn put(&mut self, stored: Box<EntriesLeft>)
        ensures { self.new.pointer.stored ≡ Some stored.value }
    {
        *self = IteratorPlace::of(self.alloc, stored);
    }
}
