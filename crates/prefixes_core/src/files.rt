//! Commands that write a list: one that is packed, and names that are combined.

ghost use Rattle.std.specs.Prelude.{◌≡◌, ◌≢◌, ◌⊎◌, ◌∷◌, codes, map as list_map};
ghost use Rattle.std.specs.Prelude.{IfOk, OnOk};
ghost use Rattle.std.specs.Bool.{MatchBool};
ghost use Rattle.std.specs.FinMap as map;
ghost use Rattle.std.specs.Io.KnownBytes.{Appends};
ghost use Rattle.prefixes_core.specs.Internal.Hidden.{IsHidden, IsPlain};
ghost use Rattle.prefixes_core.specs.Lines.{IsListOf};
ghost use Rattle.prefixes_core.specs.Packings.{ArePackedBytes, without_values};
ghost use Rattle.prefixes_core.specs.Combinations.{CombinesAll, CombinesWith};
ghost use Rattle.prefixes_core.specs.Internal.Inputs.{IsAfter};
ghost use Rattle.prefixes_core.specs.Sources.{HasBytes};

use crate::combining::{Combination, combine, lines_of};
use crate::failure::{Failure, lines_failure, pack_failure, write_failure};
use crate::inputs::{Inputs, shown};
use crate::lines::{LineFormat, unmarked};
use crate::listing::NameSet;
use crate::opening::Opens;
use crate::options::{line_format, path};
use crate::output::put;
use crate::packing::{HEAD, pack, pack_names};
use crate::saving::save;
use clap::ArgMatches;
use std::alloc::{AllocError, Global};
use std::io::{Read, Write};
use std::rt::Files;

// The path that a command writes to: a hyphen, which is the standard output, if it names none.
fn destination<'a>(matches: &ArgMatches<'a>) -> &'a str {
    matches.get_str("OUT").unwrap_or("-")
}

// What messages call such a path.
fn shown_destination(path: &str) -> &str {
    if path == "-" { "standard output" } else { path }
}

// Writes the bytes of a list.
fn write_list<R: Files, W: Write>(
    rt: &R,
    alloc: Global,
    path: &str,
    bytes: Vec<u8>,
    output: &mut W,
) -> Result<(), Failure>
    ensures standard { OnOk result (path.now ≡ codes "-"
        → Appends (W.contents output.old) (W.contents output.new) bytes.items) }
    ensures file { path.now ≢ codes "-" → output.new ≡ output.old }
{
    let mut bytes = bytes;
    if path == "-" {
        return put(output, &mut bytes);
    }
    match save(rt, alloc, path, &bytes) {
        Ok(()) => Ok(()),
        Err(error) => Err(write_failure(alloc, path, error)),
    }
}

/// Packs the list at a path into a file, or to the standard output.
pub fn pack_file<R: Files, I: Read + Drop, E: Write + Drop, W: Write>(
    inputs: &mut Inputs<'_, R, I, E>,
    matches: &ArgMatches<'_>,
    output: &mut W,
) -> Result<(), Failure> {
    let alloc = inputs.alloc;
    let (from, to) = (path(matches, "LIST"), destination(matches));
    let list = inputs.packable_list(from)?;
    let packed = pack(alloc, &list);
    drop(list);
    match packed {
        Ok(bytes) => write_list(inputs.rt, alloc, to, bytes, output),
        Err(error) => Err(pack_failure(alloc, shown(from), error)),
    }
}

// How a subcommand combines sets.
fn combination(name: &str) -> Combination
    ensures union { name.now ≡ codes "union" → result ≡ Combination.Union }
    ensures intersection { name.now ≡ codes "intersection"
        → result ≡ Combination.Intersection }
    ensures difference { name.now ≡ codes "difference" → result ≡ Combination.Difference }
{
    match name {
        "union" => Combination::Union,
        "intersection" => Combination::Intersection,
        _ => Combination::Difference,
    }
}

// Names, combined with those of the list at a path.
fn combined_with<R: Opens, I: Read + Drop, E: Write + Drop>(
    inputs: &mut Inputs<'_, R, I, E>,
    combination: Combination,
    names: NameSet,
    list: &str,
) -> Result<NameSet, Failure>
    ensures combined { IfOk result (CombinesWith inputs.old.format
        (HasBytes R.content I.remaining inputs.old) combination names list.now) }
    ensures after { IsAfter inputs.old inputs.new }
{
    let other = inputs.set(list)?;
    let both = combine(combination, &names, &other);
    drop(names);
    drop(other);
    Ok(both?)
}

// The names of the lists, combined from the first to the last.
fn combined<R: Opens, I: Read + Drop, E: Write + Drop>(
    inputs: &mut Inputs<'_, R, I, E>,
    combination: Combination,
    lists: &[&str],
) -> Result<NameSet, Failure>
    ensures { IfOk result (CombinesAll inputs.old.format
        (HasBytes R.content I.remaining inputs.old) combination
        (list_map (λ path. path.now) lists.now)) }
{
    let Some((first, others)) = lists.split_first() else {
        return Ok(NameSet::new(inputs.alloc));
    };
    let mut names = inputs.set(first)?;
    for list in others {
        names = combined_with(inputs, combination, names, list)?;
    }
    Ok(names)
}

// Whether lines begin as a packed list does, or with a byte order mark that a reader drops.
fn is_hidden(lines: &[u8], format: LineFormat) -> bool
    ensures { MatchBool result (IsHidden format lines.now) (IsPlain format lines.now) }
{
    lines.starts_with(HEAD) || unmarked(lines, format).len() != lines.len()
}

// Lines that no reader takes for a packed list, and whose first name keeps a byte order mark: an
// empty line, which is passed over, comes before the head or the mark that they begin with.
fn told_from_packed(
    alloc: Global,
    lines: Vec<u8>,
    format: LineFormat,
) -> Result<Vec<u8>, AllocError>
    ensures plain { IfOk result (λ told. IsPlain format told.items) }
    ensures lines { IfOk result (λ told. (told.items ≡ lines.items)
        ⊎ (told.items ≡ format.end ∷ lines.items)) }
{
    if !is_hidden(&lines, format) {
        return Ok(lines);
    }
    let mut told = Vec::from_slice(alloc, &[format.end])?;
    told.extend_from_slice(&lines)?;
    Ok(told)
}

// The lines of names, for a file.
fn lines_for(
    alloc: Global,
    names: &NameSet,
    format: LineFormat,
    to: &str,
) -> Result<Vec<u8>, Failure>
    ensures { IfOk result (λ bytes. format.end ≢ 9
        → IsListOf format bytes.items (map.keys names.now)) }
{
    match lines_of(alloc, names, format) {
        Ok(lines) => Ok(told_from_packed(alloc, lines, format)?),
        Err(error) => Err(lines_failure(alloc, shown_destination(to), error)),
    }
}

// Names as a packed list, for a file.
fn packed_for(alloc: Global, names: &NameSet, to: &str) -> Result<Vec<u8>, Failure>
    ensures { IfOk result (λ bytes.
        ArePackedBytes bytes.items (without_values (map.keys names.now))) }
{
    match pack_names(alloc, names) {
        Ok(bytes) => Ok(bytes),
        Err(error) => Err(pack_failure(alloc, shown_destination(to), error)),
    }
}

// Writes names into the file that a command has for them, or to the standard output.
fn write_names<R: Files, W: Write>(
    rt: &R,
    alloc: Global,
    names: &NameSet,
    format: LineFormat,
    matches: &ArgMatches<'_>,
    output: &mut W,
) -> Result<(), Failure> {
    let to = destination(matches);
    let bytes = if matches.get_flag("as-lines") {
        lines_for(alloc, names, format, to)?
    } else {
        packed_for(alloc, names, to)?
    };
    write_list(rt, alloc, to, bytes, output)
}

/// Combines lists into a file, or to the standard output.
pub fn combine_files<R: Files, I: Read + Drop, E: Write + Drop, W: Write>(
    inputs: &mut Inputs<'_, R, I, E>,
    matches: &ArgMatches<'_>,
    output: &mut W,
) -> Result<(), Failure> {
    let Some((name, matches)) = matches.subcommand() else {
        return Ok(());
    };
    inputs.format = line_format(matches);
    let lists = matches.get_strs("LIST").unwrap_or(&[]);
    let names = combined(inputs, combination(name), lists)?;
    let (rt, alloc, format) = (inputs.rt, inputs.alloc, inputs.format);
    let written = write_names(rt, alloc, &names, format, matches, output);
    drop(names);
    written
}
