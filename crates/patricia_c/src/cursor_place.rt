//! A place of C that holds a cursor.
ghost use Rattle.std.specs.Prelude.{◌≡◌, ℕ, List, Some, None, IfOk, OnErr};
ghost use Rattle.std.specs.Option.{option_map};
ghost use Rattle.patricia_c.specs.Cursors.{ahead_of, end_of, prefix_of};
ghost use Rattle.patricia_c.specs.Internal.Full.{is_full};

use crate::cursor_pointer::{CursorPointer, Position};
use std::alloc::{AllocError, Global};
use std::mem;

/// A place of C for a cursor. All zero, it is before the first entry of all.
#[repr(C)]
pub struct CursorPlace {
    full: bool,
    pointer: CursorPointer,
    alloc: Global,
    ghost kept: { full ≡ is_full pointer.stored },
}

impl Drop for CursorPlace {
    fn drop(self) {
        drop(self.into_stored());
    }
}

impl CursorPlace {
    /// A place with a cursor before the first entry of all.
    pub(crate) fn none(alloc: Global) -> CursorPlace
        ensures { result.pointer.stored ≡ None }
    {
        CursorPlace {
            full: false,
            pointer: CursorPointer::none(alloc),
            alloc,
        }
    }

    /// A place with a cursor that stands here.
    pub(crate) fn of(alloc: Global, stored: Box<Position>) -> CursorPlace
        ensures { result.pointer.stored ≡ Some stored.value }
    {
        CursorPlace {
            full: true,
            pointer: CursorPointer::of(stored),
            alloc,
        }
    }

    fn into_stored(self) -> Option<Box<Position>>
        ensures { option_map (λ b. b.value) result ≡ self.pointer.stored }
    {
        let CursorPlace {
            full,
            pointer,
            alloc: _,
        } = self;
        if full {
            Some(pointer.into_box())
        } else {
            drop(pointer);
            None
        }
    }

    /// Removes the position from the place, and leaves a cursor before the first entry of all.
    pub(crate) fn take(&mut self) -> Option<Box<Position>>
        ensures taken { option_map (λ b. b.value) result ≡ self.old.pointer.stored }
        ensures left { self.new.pointer.stored ≡ None }
    {
        let alloc = self.alloc;
        mem::replace(self, CursorPlace::none(alloc)).into_stored()
    }

    /// Writes a position to the place. What it held is dropped.
    pub(crate) fn put(&mut self, stored: Box<Position>)
        ensures { self.new.pointer.stored ≡ Some stored.value }
    {
        *self = CursorPlace::of(self.alloc, stored);
    }

    /// Removes the position from the place, or makes that before the first entry of all. The error
    /// is an allocation failure.
    #[tactic(auto, using(crate::proofs::CursorLemmas::under_start))]
    pub(crate) fn take_or_make(&mut self, alloc: Global) -> Result<Box<Position>, AllocError>
        ensures ahead { IfOk result (λ b. (entries : List (List ℕ × ℕ)) →
            ahead_of (Some b.value) entries ≡ ahead_of self.old.pointer.stored entries) }
        ensures prefix { IfOk result (λ b.
            prefix_of (Some b.value) ≡ prefix_of self.old.pointer.stored) }
        ensures end_key { IfOk result (λ b.
            end_of (Some b.value) ≡ end_of self.old.pointer.stored) }
        ensures err { OnErr result (self.new.pointer.stored ≡ self.old.pointer.stored) }
    {
        match self.take() {
            Some(stored) => Ok(stored),
            None => {
                let position = Position {
                    key: Vec::new(alloc),
                    common: 0,
                    passed: false,
                    end: None,
                };
                Ok(Box::new(alloc, position)?)
            }
        }
    }
}
