//! Files that are opened to read them.

ghost use Rattle.std.specs.Prelude.{◌≡◌, ℕ, List, Option, None, Some, IfOk, IfSome};

use std::fs;
use std::io::{self, Read};
use std::rt::Files;

/// What opens the files of lists and lines.
pub trait Opens {
    type File: Read + Drop;

    // the bytes of the file at a path, where they are known
    ghost content: { Self → List ℕ → Option (List ℕ) };

    /// Opens the file at a path.
    ///
    /// # Errors
    ///
    /// A failure to open it.
    fn open_to_read(&self, path: &str) -> io::Result<Self::File>
        ensures { IfOk result (λ file. IfSome (content self.now path.now) (λ bytes.
            Self.File.remaining file ≡ Some bytes)) };
}

// Of the files of a system nothing is known.
impl<R: Files> Opens for R {
    type File = R::File;

    ghost content = { λ _ _. None };

    fn open_to_read(&self, path: &str) -> io::Result<R::File> {
        fs::open(self, path)
    }
}
