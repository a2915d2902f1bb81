//! Texts cut at a byte, and the lines of an input.

ghost use Rattle.std.specs.Prelude.{◌≡◌, ◌∷◌, ℕ, List, [], ◌==◌, IfNone};
ghost use Rattle.std.specs.Iterator.{YieldsFirstRef, item_count};
ghost use Rattle.std.specs.List.{slice_split};
ghost use Rattle.std.specs.Option.{option_map_or};
ghost use Rattle.patricia_run.specs.Text.{lines_of};

use memchr::memchr;
use std::marker::Model;

// The text before the first such byte, and the text after it. Where there is no such byte, the
// whole text, and nothing.
pub(crate) fn cut(text: &[u8], at: u8) -> (&[u8], Option<&[u8]>)
    ensures pieces { slice_split (λ b. b == at) text.now
        ≡ result.0.now ∷ option_map_or (λ more. slice_split (λ b. b == at) more.now) result.1 [] }
    ensures whole { IfNone result.1 (result.0.now ≡ text.now) }
{
    match memchr(at, text) {
        Some(place) => (&text[..place], Some(&text[place + 1..])),
        None => (text, None),
    }
}

/// The lines of an input, each without the byte 10 at its end.
#[derive(Drop)]
pub struct Lines<'a> {
    rest: &'a [u8],
}

impl<'a> Model for Lines<'a> {
    ghost Value = { List (List ℕ) };

    ghost view = { λ lines. lines_of lines.rest.now };
}

impl<'a> Lines<'a> {
    /// The lines of an input.
    pub fn new(input: &'a [u8]) -> Lines<'a>
        ensures { result ≡ lines_of input.now }
    {
        Lines { rest: input }
    }
}

impl<'a> Iterator for Lines<'a> {
    type Item = &'a [u8];

    ghost next_gives = { YieldsFirstRef (λ lines. lines) };

    ghost remaining = { item_count (λ lines. lines) };

    fn next(&mut self) -> Option<&'a [u8]> {
        if self.rest.is_empty() {
            return None;
        }
        let (line, more) = cut(self.rest, b'\n');
        self.rest = more.unwrap_or(b"");
        Some(line)
    }
}
