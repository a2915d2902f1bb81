//! A count of steps that contracts alone can see.
ghost use Rattle.std.specs.Prelude.{◌≡◌, ◌+◌, ◌<◌};

use std::marker::Model;
use std::sync::ledger::{Blank, Book, Ledger, Share};

/// How many steps were taken. It takes no bytes at run time, and only `tick` changes it.
///
/// A caller names the ledger by a type parameter of its own, and calls that function with a brand
/// and a blank, which does not allocate:
///
/// ```
/// fn visits<L: Ledger>(map: &PatriciaMap<u32>, key: &[u8], blank: Blank) {
///     let mut steps: Steps<L> = Steps::new(blank);
///     let _ = map.get_counted(key, &mut steps);
/// }
/// visits::<Brand>(&map, b"foo", Blank::new(1));
/// ```
///
/// `visits` has the three conditions of `new`.
#[derive(Drop)]
pub struct Steps<L: Ledger> {
    book: Book<L>,
    share: Share<L>,
}

impl<L: Ledger> Model for Steps<L> {
    ghost use Rattle.std.specs.Prelude.{ℕ, ◌<◌};

    ghost Value = { ℕ };

    ghost view = { λ s. s.book.total };

    ghost invariant = { λ s. 0 < s.share.parts };
}

impl<L: Ledger> Steps<L> {
    /// Makes a count of no step yet. The blank is one of the ledger's, and nobody else has opened
    /// it.
    pub fn new(blank: Blank) -> Steps<L>
        requires name { blank.name ≡ L.name }
        requires parts { blank.parts ≡ L.parts }
        requires some { 0 < L.parts }
        ensures { result ≡ 0 }
    {
        let (book, share) = blank.open::<L>();
        Steps { book, share }
    }

    /// Adds a step.
    pub fn tick(&mut self)
        ensures { self.new ≡ self.old + 1 }
    {
        self.add(1);
    }

    /// Adds this many steps.
    pub fn add(&mut self, n: usize)
        ensures { self.new ≡ self.old + n }
    {
        self.book.add(&mut self.share, n as u64);
    }
}
