//! A map behind a pointer.
ghost use Rattle.std.specs.Prelude.{◌≡◌, ◌≢◌, ℕ, Option, Some, None};
ghost use Rattle.patricia_c.specs.declared.map_pointer.StoredMap.{StoredMap};
ghost use Rattle.patricia_c.specs.Internal.OwnedMap.{map_coded, map_owns};

use crate::raw_box::RawBox;
use patricia_tree::PatriciaMap;
use std::alloc::Global;
use std::marker::{Model, Send};
use std::ptr;

mod lends;

/// What is on the heap.
#[derive(Drop)]
pub struct StoredMap {
    pub(crate) map: PatriciaMap<u64>,
}

/// A map on the heap, or none. C sees a pointer.
#[repr(C)]
#[derive(Drop)]
pub struct MapPointer {
    at: *mut u8,
    alloc: Global,
    pub ghost stored: { Option StoredMap } by { map_coded },
}

impl Model for MapPointer {
    ghost also_owns = { λ h. map_owns h.alloc h.at h.stored };
}

impl MapPointer {
    /// Owns nothing.
    pub(crate) fn none(alloc: Global) -> MapPointer
        ensures { result.stored ≡ None }
    {
        MapPointer {
            at: ptr::null_mut(),
            alloc,
        }
    }

    /// Owns what the box did.
    fn of_raw_box(raw_box: RawBox<StoredMap, Global>) -> MapPointer
        ensures { result.stored ≡ Some raw_box.value }
    {
        let RawBox { at, alloc } = raw_box;
        MapPointer {
            at: at as *mut u8,
            alloc,
        }
    }

    /// The box again.
    fn into_raw_box(self) -> RawBox<StoredMap, Global>
        requires { self.stored ≢ None }
        ensures { self.stored ≡ Some result.value }
    {
        let MapPointer { at, alloc } = self;
        RawBox {
            at: at as *mut StoredMap,
            alloc,
        }
    }

    pub(crate) fn of(stored: Box<StoredMap>) -> MapPointer
        ensures { result.stored ≡ Some stored.value }
    {
        MapPointer::of_raw_box(RawBox::of(stored))
    }

    pub(crate) fn into_box(self) -> Box<StoredMap>
        requires { self.stored ≢ None }
        ensures { self.stored ≡ Some result.value }
    {
        self.into_raw_box().into_box()
    }
}

// The map goes with it.
unsafe impl Send for MapPointer {}
