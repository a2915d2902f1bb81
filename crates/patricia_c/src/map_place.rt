//! A place of C that holds a map.
ghost use Rattle.std.specs.Prelude.{◌≡◌, ◌≢◌, Some, None, IfOk, OnOk, OnErr, true};
ghost use Rattle.std.specs.Option.{option_map};
ghost use Rattle.std.specs.FinMap as map;
ghost use Rattle.patricia_c.specs.Maps.{map_of};
ghost use Rattle.patricia_c.specs.Internal.Full.{is_full};

use crate::map_pointer::{MapPointer, StoredMap};
use patricia_tree::PatriciaMap;
use std::alloc::{AllocError, Global};
use std::mem;

mod lends;

/// A place of C for a map. All zero, it holds the empty map.
#[repr(C)]
pub struct MapPlace {
    full: bool,
    pointer: MapPointer,
    alloc: Global,
    ghost kept: { full ≡ is_full pointer.stored },
}

impl Drop for MapPlace {
    fn drop(self) {
        drop(self.into_stored());
    }
}

impl MapPlace {
    /// A place that holds the empty map.
    pub(crate) fn none(alloc: Global) -> MapPlace
        ensures { result.pointer.stored ≡ None }
    {
        MapPlace {
            full: false,
            pointer: MapPointer::none(alloc),
            alloc,
        }
    }

    /// A place that holds this map.
    pub(crate) fn of(alloc: Global, stored: Box<StoredMap>) -> MapPlace
        ensures { result.pointer.stored ≡ Some stored.value }
    {
        MapPlace {
            full: true,
            pointer: MapPointer::of(stored),
            alloc,
        }
    }

    fn into_stored(self) -> Option<Box<StoredMap>>
        ensures { option_map (λ b. b.value) result ≡ self.pointer.stored }
    {
        let MapPlace {
            full,
            pointer,
            alloc: _,
        } = self;
        if full {
            Some(pointer.into_box())
        } else {
            drop(pointer);
            None
        }
    }

    /// Removes the map from the place, and leaves the empty map.
    pub(crate) fn take(&mut self) -> Option<Box<StoredMap>>
        ensures taken { option_map (λ b. b.value) result ≡ self.old.pointer.stored }
        ensures left { self.new.pointer.stored ≡ None }
    {
        let alloc = self.alloc;
        mem::replace(self, MapPlace::none(alloc)).into_stored()
    }

    /// Writes a map to the place. What it held is dropped.
    pub(crate) fn put(&mut self, stored: Box<StoredMap>)
        ensures { self.new.pointer.stored ≡ Some stored.value }
    {
        *self = MapPlace::of(self.alloc, stored);
    }

    /// Removes the map from the place, or makes an empty one, and leaves the empty map. The error
    /// is an allocation failure.
    pub(crate) fn take_or_make(&mut self, alloc: Global) -> Result<Box<StoredMap>, AllocError>
        ensures ok { IfOk result (λ b. b.value.map ≡ map_of self.old.pointer.stored) }
        ensures left { map_of self.new.pointer.stored ≡ map.empty }
        ensures err { OnErr result (map_of self.old.pointer.stored ≡ map.empty) }
    {
        match self.take() {
            Some(stored) => Ok(stored),
            None => {
                let map = PatriciaMap::new(alloc);
                Ok(Box::new(alloc, StoredMap { map })?)
            }
        }
    }
}
