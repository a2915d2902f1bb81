//! A handle behind a pointer.
ghost use Rattle.std.specs.Prelude.{◌≡◌, ◌≢◌, ℕ, Option, Some, None};
ghost use Rattle.std.specs.Option.{option_map};
ghost use Rattle.patricia_c.specs.Shared.{referred};
ghost use Rattle.patricia_c.specs.declared.shared_pointer.SharedMap.{SharedMap};
ghost use Rattle.patricia_c.specs.Internal.OwnedShared.{shared_coded, shared_owns};

use crate::map_pointer::StoredMap;
use crate::raw_box::RawBox;
use std::alloc::Global;
use std::marker::{Model, Send};
use std::ptr;
use std::sync::Arc;

mod lends;

/// What is on the heap: a counted reference to a map, or none.
#[derive(Drop)]
pub struct SharedMap {
    pub(crate) map: Option<Arc<Box<StoredMap>, Global>>,
}

impl SharedMap {
    /// The map, where it is. `None` stands for the empty map.
    pub(crate) fn stored(&self) -> Option<&StoredMap>
        ensures { option_map (λ r. r.now) result ≡ referred self.now.map }
    {
        match &self.map {
            Some(arc) => Some(&***arc),
            None => None,
        }
    }
}

/// A handle on the heap, or none. C sees a pointer.
#[repr(C)]
#[derive(Drop)]
pub struct SharedPointer {
    at: *mut u8,
    alloc: Global,
    pub ghost stored: { Option SharedMap } by { shared_coded },
}

impl Model for SharedPointer {
    ghost also_owns = { λ h. shared_owns h.alloc h.at h.stored };
}

impl SharedPointer {
    /// Owns nothing.
    pub(crate) fn none(alloc: Global) -> SharedPointer
        ensures { result.stored ≡ None }
    {
        SharedPointer {
            at: ptr::null_mut(),
            alloc,
        }
    }

    /// Owns what the box did.
    fn of_raw_box(raw_box: RawBox<SharedMap, Global>) -> SharedPointer
        ensures { result.stored ≡ Some raw_box.value }
    {
        let RawBox { at, alloc } = raw_box;
        SharedPointer {
            at: at as *mut u8,
            alloc,
        }
    }

    /// The box again.
    fn into_raw_box(self) -> RawBox<SharedMap, Global>
        requires { self.stored ≢ None }
        ensures { self.stored ≡ Some result.value }
    {
        let SharedPointer { at, alloc } = self;
        RawBox {
            at: at as *mut SharedMap,
            alloc,
        }
    }

    pub(crate) fn of(stored: Box<SharedMap>) -> SharedPointer
        ensures { result.stored ≡ Some stored.value }
    {
        SharedPointer::of_raw_box(RawBox::of(stored))
    }

    pub(crate) fn into_box(self) -> Box<SharedMap>
        requires { self.stored ≢ None }
        ensures { self.stored ≡ Some result.value }
    {
        self.into_raw_box().into_box()
    }
}

// The handle goes with it.
unsafe impl Send for SharedPointer {}
