//! Walks over a map from a key on, up to another one.
ghost use Rattle.std.specs.Prelude.{◌≡◌, Some, None};
ghost use Rattle.patricia_core.specs.RangeWalks.{YieldsOrEnds, items_in_range};
ghost use Rattle.patricia_model.specs.Siblings.{keys_of};

use patricia_keys::keys::{BorrowedBytes, Bytes};
use patricia_walks::range::RangeReadCursor;
use std::alloc::AllocError;
use std::iter::FusedIterator;
use std::marker::Model;

/// The entries of a range, each with an owned key. An error is out of memory, and ends the
/// iterator; it may come where no entry is left, too, since the walk goes past the last one, but
/// never over an empty map.
#[derive(Drop)]
pub struct Range<'a, Q: BorrowedBytes, V> {
    // none where nothing more is given: over an empty map, and once an error has ended it
    cursor: Option<RangeReadCursor<'a, Q, V>>,
}

impl<'a, Q: BorrowedBytes, V> Model for Range<'a, Q, V> {
    ghost use Rattle.std.specs.Prelude.{List, ℕ, Option};
    ghost use Rattle.std.specs.Option.{option_map};

    ghost Value = { Option (List (List ℕ × V)) };

    ghost view = { λ r. option_map (λ c. c.left) r.cursor };
}

impl<'a, Q: BorrowedBytes, V> Range<'a, Q, V> {
    /// Returns the entries that a cursor has left.
    pub fn new(cursor: RangeReadCursor<'a, Q, V>) -> Self
        ensures { result ≡ Some cursor.entry.left }
    {
        Range {
            cursor: Some(cursor),
        }
    }

    /// Returns an iterator that is at its end, as one over an empty map is from the start.
    pub fn ended() -> Self
        ensures { result ≡ None }
    {
        Range { cursor: None }
    }
}

impl<'a, Q: BorrowedBytes, V> Iterator for Range<'a, Q, V> {
    type Item = Result<(Q::Owned, &'a V), AllocError>;

    ghost next_gives = { YieldsOrEnds (λ e. (Q.Owned.key e.0, e.1.now)) };

    ghost remaining = { items_in_range };

    fn next(&mut self) -> Option<Result<(Q::Owned, &'a V), AllocError>> {
        let Some(cursor) = &mut self.cursor else {
            return None;
        };
        match cursor.next_entry() {
            Ok(Some(entry)) => Some(Ok(entry)),
            Ok(None) => None,
            Err(error) => {
                self.cursor = None;
                Some(Err(error))
            }
        }
    }
}

impl<'a, Q: BorrowedBytes, V> FusedIterator for Range<'a, Q, V> {}

/// The elements of a set in a range, each owned. An error is out of memory, and ends the iterator;
/// it may come where no element is left, too, but never over an empty set.
#[derive(Drop)]
pub struct ElementRange<'a, Q: BorrowedBytes> {
    entries: Range<'a, Q, ()>,
}

impl<'a, Q: BorrowedBytes> Model for ElementRange<'a, Q> {
    ghost use Rattle.std.specs.Prelude.{List, ℕ, Option};
    ghost use Rattle.std.specs.Option.{option_map};
    ghost use Rattle.patricia_model.specs.Siblings.{keys_of};

    ghost Value = { Option (List (List ℕ)) };

    ghost view = { λ r. option_map keys_of r.entries };
}

impl<'a, Q: BorrowedBytes> ElementRange<'a, Q> {
    /// Returns the keys that a cursor has left.
    pub fn new(cursor: RangeReadCursor<'a, Q, ()>) -> Self
        ensures { result ≡ Some (keys_of cursor.entry.left) }
    {
        ElementRange {
            entries: Range::new(cursor),
        }
    }

    /// Returns an iterator that is at its end, as one over an empty set is from the start.
    pub fn ended() -> Self
        ensures { result ≡ None }
    {
        ElementRange {
            entries: Range::ended(),
        }
    }
}

impl<'a, Q: BorrowedBytes> Iterator for ElementRange<'a, Q> {
    type Item = Result<Q::Owned, AllocError>;

    ghost next_gives = { YieldsOrEnds Q.Owned.key };

    ghost remaining = { items_in_range };

    fn next(&mut self) -> Option<Result<Q::Owned, AllocError>> {
        match self.entries.next()? {
            Ok((element, _)) => Some(Ok(element)),
            Err(refused) => Some(Err(refused)),
        }
    }
}

impl<'a, Q: BorrowedBytes> FusedIterator for ElementRange<'a, Q> {}
