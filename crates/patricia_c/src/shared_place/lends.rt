//! The handle in a place, where it is.
ghost use Rattle.std.specs.Prelude.{◌≡◌};
ghost use Rattle.std.specs.Borrow.{sem};
ghost use Rattle.std.specs.Option.{option_copied, option_map};
ghost use Rattle.patricia_c.specs.Internal.LentSharedPlace.{shared_place_follows};
ghost use Rattle.patricia_c.specs.Internal.LentSharedPlace.{shared_place_stays};
ghost use Rattle.patricia_c.specs.Shared.{handed};

use super::SharedPlace;
use crate::map_pointer::StoredMap;
use crate::shared_pointer::SharedMap;

impl SharedPlace {
    /// The handle, where it is. `None` stands for one of the empty map.
    pub(crate) fn as_mut(&mut self) -> Option<&mut SharedMap>
        ensures* writes_back { sem 𝓛 (shared_place_follows self.entry result) }
        ensures taken { option_map (λ r. r.now) result ≡ self.old.pointer.stored }
    {
        if self.full {
            Some(self.pointer.as_mut())
        } else {
            None
        }
    }

    /// The map, to be read. `None` stands for the empty map.
    pub(crate) fn stored(&mut self) -> Option<&StoredMap>
        ensures* stays { sem 𝓛 (shared_place_stays self.entry) }
        ensures value { option_copied result ≡ handed self.old.pointer.stored }
    {
        match self.as_mut() {
            Some(handle) => handle.stored(),
            None => None,
        }
    }
}
