//! Entries behind a pointer.
ghost use Rattle.std.specs.Prelude.{◌≡◌, ◌≢◌, Option, Some, None};
ghost use Rattle.patricia_c.specs.declared.entries_pointer.EntriesLeft.{EntriesLeft};
ghost use Rattle.patricia_c.specs.Internal.OwnedEntries.{entries_coded, entries_owns};

use crate::raw_box::RawBox;
use std::alloc::Global;
use std::collections::VecDeque;
use std::marker::{Model, Send};
use std::ptr;

/// What is on the heap: the entries that a walk has left.
#[derive(Drop)]
pub struct EntriesLeft {
    pub(crate) left: VecDeque<(Vec<u8>, u64)>,
}

/// Entries on the heap, or none. C sees a pointer.
#[repr(C)]
#[derive(Drop)]
pub struct EntriesPointer {
    at: *mut u8,
    alloc: Global,
    pub ghost stored: { Option EntriesLeft } by { entries_coded },
}

impl Model for EntriesPointer {
    ghost also_owns = { λ h. entries_owns h.alloc h.at h.stored };
}

impl EntriesPointer {
    /// Owns nothing.
    pub(crate) fn none(alloc: Global) -> EntriesPointer
        ensures { result.stored ≡ None }
    {
        EntriesPointer {
            at: ptr::null_mut(),
            alloc,
        }
    }

    /// Owns what the box did.
    fn of_raw_box(raw_box: RawBox<EntriesLeft, Global>) -> EntriesPointer
        ensures { result.stored ≡ Some raw_box.value }
    {
        let RawBox { at, alloc } = raw_box;
        EntriesPointer {
            at: at as *mut u8,
            alloc,
        }
    }

    /// The box again.
    fn into_raw_box(self) -> RawBox<EntriesLeft, Global>
        requires { self.stored ≢ None }
        ensures { self.stored ≡ Some result.value }
    {
        let EntriesPointer { at, alloc } = self;
        RawBox {
            at: at as *mut EntriesLeft,
            alloc,
        }
    }

    pub(crate) fn of(stored: Box<EntriesLeft>) -> EntriesPointer
        ensures { result.stored ≡ Some stored.value }
    {
        EntriesPointer::of_raw_box(RawBox::of(stored))
    }

    pub(crate) fn into_box(self) -> Box<EntriesLeft>
        requires { self.stored ≢ None }
        ensures { self.stored ≡ Some result.value }
    {
        self.into_raw_box().into_box()
    }
}

// The entries go with it.
unsafe impl Send for EntriesPointer {}
