//! The guard of a cursor, which holds the place of a map, and the map itself.
ghost use Rattle.std.specs.Prelude.{◌≡◌};

/// What was made of a value, and can be made into it again.
pub trait IntoMap<T>: Drop {
    /// Returns the value that it was made of, as it is now.
    ghost back: { Self → T };

    fn into_map(self) -> T
        ensures { result ≡ back self };
}

/// A guard: a cursor over a map that is lent to it. The map is put back where the guard is dropped.
///
/// While it lives the map's place holds the empty map, which does not allocate; so a cursor that is
/// forgotten (`std::mem::forget`) keeps the entries.
pub struct CursorGuard<'a, M: Drop, C: IntoMap<M>> {
    // where the map is put back
    pub(crate) owner: &'a mut M,
    // the cursor, which owns the map
    pub(crate) at: C,
}

impl<'a, M: Drop, C: IntoMap<M>> CursorGuard<'a, M, C> {
    /// Guards a cursor over what is lent to it, which is put back here once the cursor is dropped.
    pub fn new(owner: &'a mut M, at: C) -> Self
        ensures owner { result.owner.ghost_name ≡ owner.entry.ghost_name }
        ensures at { result.at ≡ at }
    {
        CursorGuard { owner, at }
    }
}

impl<'a, M: Drop, C: IntoMap<M>> Drop for CursorGuard<'a, M, C> {
    fn drop(self)
        ensures { self.exit.0.now ≡ C.back self.entry.at }
    {
        let CursorGuard { owner, at } = self;
        *owner = at.into_map();
    }
}
