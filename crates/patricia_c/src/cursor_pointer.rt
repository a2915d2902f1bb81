//! Where a cursor stands, behind a pointer.
ghost use Rattle.std.specs.Prelude.{◌≡◌, ◌≢◌, Option, Some, None};
ghost use Rattle.patricia_c.specs.declared.cursor_pointer.Position.{Position};
ghost use Rattle.patricia_c.specs.Internal.OwnedPosition.{position_coded, position_owns};

use crate::raw_box::RawBox;
use std::alloc::Global;
use std::marker::{Model, Send};
use std::ptr;

/// What is on the heap: where a cursor stands.
#[derive(Drop)]
pub struct Position {
    /// The key that it has passed, or at which it starts.
    pub(crate) key: Vec<u8>,
    /// With how many bytes of that key the others begin.
    pub(crate) common: usize,
    /// Whether it has passed that key.
    pub(crate) passed: bool,
    /// The key that the others come before, if there is one.
    pub(crate) end: Option<Vec<u8>>,
}

/// A position on the heap, or none. C sees a pointer.
#[repr(C)]
#[derive(Drop)]
pub struct CursorPointer {
    at: *mut u8,
    alloc: Global,
    pub ghost stored: { Option Position } by { position_coded },
}

impl Model for CursorPointer {
    ghost also_owns = { λ h. position_owns h.alloc h.at h.stored };
}

impl CursorPointer {
    /// Owns nothing.
    pub(crate) fn none(alloc: Global) -> CursorPointer
        ensures { result.stored ≡ None }
    {
        CursorPointer {
            at: ptr::null_mut(),
            alloc,
        }
    }

    /// Owns what the box did.
    fn of_raw_box(raw_box: RawBox<Position, Global>) -> CursorPointer
        ensures { result.stored ≡ Some raw_box.value }
    {
        let RawBox { at, alloc } = raw_box;
        CursorPointer {
            at: at as *mut u8,
            alloc,
        }
    }

    /// The box again.
    fn into_raw_box(self) -> RawBox<Position, Global>
        requires { self.stored ≢ None }
        ensures { self.stored ≡ Some result.value }
    {
        let CursorPointer { at, alloc } = self;
        RawBox {
            at: at as *mut Position,
            alloc,
        }
    }

    pub(crate) fn of(stored: Box<Position>) -> CursorPointer
        ensures { result.stored ≡ Some stored.value }
    {
        CursorPointer::of_raw_box(RawBox::of(stored))
    }

    pub(crate) fn into_box(self) -> Box<Position>
        requires { self.stored ≢ None }
        ensures { self.stored ≡ Some result.value }
    {
        self.into_raw_box().into_box()
    }
}

// The position goes with it.
unsafe impl Send for CursorPointer {}
