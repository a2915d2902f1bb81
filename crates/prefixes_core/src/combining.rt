//! Sets of names: their union, intersection and difference, and their lines.

ghost use Rattle.std.specs.Prelude.{◌≡◌, ◌++◌, IfOk, OnOk, IfErr, OnErr, IfSome, IfNone};
ghost use Rattle.std.specs.Prelude.{map as list_map};
ghost use Rattle.std.specs.FinMap as map;
ghost use Rattle.std.specs.List.{concat, All};
ghost use Rattle.prefixes_core.specs.Combinations.{combined, MayFail};
ghost use Rattle.prefixes_core.specs.Lines.{line_of, HasLine, IsCutAt, IsLinesFault};
ghost use Rattle.prefixes_core.specs.Lines.{LinesReadBack};

use crate::lines::{LineFormat, without_end};
use memchr::memchr2;
use patricia_tree::StringPatriciaSet;
use std::alloc::{AllocError, Global};
use thiserror::Error;

/// How two sets of names are combined.
#[derive(Clone, Copy, Debug, Drop, PartialEq, Eq)]
pub enum Combination {
    /// The names that are in one of the sets, or in both.
    Union,
    /// The names that are in both sets.
    Intersection,
    /// The names of the first set that are not in the second one.
    Difference,
}

/// Why names are not written as lines.
#[derive(Debug, Drop, PartialEq, Eq, Error)]
pub enum LinesError {
    /// A line would not keep the byte of a name at this offset: a byte 9, the byte that ends lines,
    /// or a carriage return at the end of the name.
    #[error("the name {0:?} has at byte {1} what ends a name, and only a packed list can hold it")]
    Name(String, usize),
    #[error("out of memory")]
    Memory,
}

impl From<AllocError> for LinesError {
    ghost use Rattle.std.specs.Prelude.{◌≡◌};
    ghost use Rattle.prefixes_core.specs.declared.combining.LinesError.TheVariants.{Memory};

    ghost from_gives = { λ _ e. e ≡ Memory };

    fn from(_: AllocError) -> LinesError {
        LinesError::Memory
    }
}

/// Combines two sets of names.
///
/// Takes the time of the set's `union`, `intersection` or `difference`.
///
/// # Errors
///
/// Out of memory, never for a union of two empty sets, an intersection with an empty set, or a
/// difference whose first set is empty.
///
/// # Examples
///
/// ```
/// let one = StringPatriciaSet::from_iter(rt.alloc(), ["foo", "bar"])?;
/// let other = StringPatriciaSet::from_iter(rt.alloc(), ["bar", "baz"])?;
/// assert_eq!(rt; combine(Combination::Union, &one, &other)?.len(), 3);
/// assert!(rt; combine(Combination::Intersection, &one, &other)?.contains("bar"));
/// assert!(rt; combine(Combination::Difference, &one, &other)?.contains("foo"));
/// ```
pub fn combine(
    combination: Combination,
    one: &StringPatriciaSet,
    other: &StringPatriciaSet,
) -> Result<StringPatriciaSet, AllocError>
    ensures ok { IfOk result (λ set. set ≡ combined combination one.now other.now) }
    ensures err { OnErr result (MayFail combination one.now other.now) }
{
    match combination {
        Combination::Union => one.union(other),
        Combination::Intersection => one.intersection(other),
        Combination::Difference => one.difference(other),
    }
}

// Writes the line of a name.
fn push_line(out: &mut Vec<u8>, name: &[u8], end: u8) -> Result<(), AllocError>
    ensures { OnOk result (out.new.items ≡ out.old.items ++ line_of end name.now) }
{
    if name.is_empty() {
        out.push(b'\t')?;
    }
    out.extend_from_slice(name)?;
    out.push(end)?;
    Ok(())
}

// The place of a byte of a name that a line would not keep.
fn cut_place(name: &[u8], format: LineFormat) -> Option<usize>
    ensures cut { IfSome result (λ at. IsCutAt format name.now at) }
    ensures whole { IfNone result (HasLine format name.now) }
{
    if let Some(at) = memchr2(b'\t', format.end, name) {
        return Some(at);
    }
    if format.keeps_cr || !name.ends_with(b"\r") {
        return None;
    }
    Some(name.len() - 1)
}

/// Returns the lines of a set of names in key order. If the byte that ends them is not a byte 9,
/// they are read back as the same names (`lines_read_back`), unless they begin with the head of a
/// packed list or a byte order mark.
///
/// A byte 9 follows the empty name. Takes time in proportion to the bytes.
///
/// # Errors
///
/// `Name` with the first name that has a byte which no line keeps: a byte 9, the byte that ends
/// lines or, unless these are kept, a carriage return at its end; or out of memory, never for a set
/// without names.
///
/// # Examples
///
/// ```
/// let names = StringPatriciaSet::from_iter(rt.alloc(), ["foo", "bar"])?;
/// let format = LineFormat { end: b'\n', keeps_cr: false };
/// let lines = lines_of(rt.alloc(), &names, format)?;
/// assert_eq!(rt; lines.as_slice(), b"bar\nfoo\n".as_slice());
/// ```
pub fn lines_of(
    alloc: Global,
    names: &StringPatriciaSet,
    format: LineFormat,
) -> Result<Vec<u8>, LinesError>
    ensures lines { IfOk result (λ lines.
        lines.items ≡ concat (list_map (line_of format.end) (map.keys names.now))) }
    ensures whole { OnOk result (All (HasLine format) (map.keys names.now)) }
    ensures named { IfErr result (λ e. IsLinesFault (map.keys names.now) format e) }
{
    let mut lines = Vec::new(alloc);
    for name in names.iter() {
        let name = name?;
        if let Some(at) = cut_place(name.as_bytes(), format) {
            return Err(LinesError::Name(name, at));
        }
        push_line(&mut lines, name.as_bytes(), format.end)?;
    }
    Ok(lines)
}

/// The lines of names are read as these names, in order, if each has a line and the byte that ends
/// them is not a byte 9. A law, which does nothing at run time.
pub fn lines_read_back()
    ensures { LinesReadBack }
{}
