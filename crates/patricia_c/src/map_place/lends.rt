//! The map in a place, where it is.
ghost use Rattle.std.specs.Prelude.{◌≡◌};
ghost use Rattle.std.specs.Borrow.{sem};
ghost use Rattle.std.specs.Option.{option_copied, option_map};
ghost use Rattle.patricia_c.specs.Internal.LentPlace.{place_follows, place_stays};

use super::MapPlace;
use crate::map_pointer::StoredMap;

impl MapPlace {
    /// The map, where it is. `None` stands for the empty map.
    pub(crate) fn as_mut(&mut self) -> Option<&mut StoredMap>
        ensures* writes_back { sem 𝓛 (place_follows self.entry result) }
        ensures taken { option_map (λ r. r.now) result ≡ self.old.pointer.stored }
    {
        if self.full {
            Some(self.pointer.as_mut())
        } else {
            None
        }
    }

    /// The map, to be read. `None` stands for the empty map.
    pub(crate) fn stored(&mut self) -> Option<&StoredMap>
        ensures* stays { sem 𝓛 (place_stays self.entry) }
        ensures value { option_copied result ≡ self.old.pointer.stored }
    {
        match self.as_mut() {
            Some(stored) => Some(stored),
            None => None,
        }
    }
}
