//! Commands that show a list as a whole: what it takes, and its tree.

ghost use Rattle.std.specs.Prelude.{◌≡◌, ◌≢◌, ◌↔◌, ℕ, List, [], IfOk, OnOk, IsTrue};
ghost use Rattle.std.specs.FinMap as map;
ghost use Rattle.std.specs.Io.KnownBytes.{Appends};
ghost use Rattle.patricia_tree.specs.Prefixes.{under};
ghost use Rattle.prefixes_core.specs.Drawings.{Draws};
ghost use Rattle.prefixes_core.specs.Measures.{TellsMeasures};

use crate::dotted::begins_some;
use crate::drawing::{Form, draw, push_drawing};
use crate::failure::{Failure, pack_failure};
use crate::inputs::{Inputs, shown};
use crate::listing::Names;
use crate::measuring::{measure, push_measures};
use crate::opening::Opens;
use crate::options::path;
use crate::output::put;
use clap::ArgMatches;
use std::alloc::Global;
use std::io::{Read, Write};

// Writes what a list takes, and returns whether it has a name.
fn put_measures<W: Write>(
    alloc: Global,
    list: &str,
    names: &Names,
    as_json: bool,
    output: &mut W,
) -> Result<bool, Failure>
    ensures written { OnOk result ((text : List ℕ)
        × TellsMeasures as_json (map.entries names.now) text
        × Appends (W.contents output.old) (W.contents output.new) text) }
    ensures found { IfOk result (λ found. IsTrue found ↔ (map.entries names.now ≢ [])) }
{
    let measures = match measure(names) {
        Ok(measures) => measures,
        Err(error) => return Err(pack_failure(alloc, shown(list), error)),
    };
    let mut out = Vec::new(alloc);
    push_measures(alloc, &measures, as_json, &mut out)?;
    put(output, &mut out)?;
    Ok(measures.names != 0)
}

/// Shows what the list at a path takes, and returns whether it has a name.
pub fn show_measures<R: Opens, I: Read + Drop, E: Write + Drop, W: Write>(
    inputs: &mut Inputs<'_, R, I, E>,
    matches: &ArgMatches<'_>,
    output: &mut W,
) -> Result<bool, Failure> {
    let list = path(matches, "LIST");
    let names = inputs.packable_names(list)?;
    let is_found = put_measures(inputs.alloc, list, &names, matches.get_flag("json"), output);
    drop(names);
    is_found
}

// How the command line says that a tree is drawn.
fn form(matches: &ArgMatches<'_>) -> Form {
    if matches.get_flag("dot") {
        Form::Graph
    } else if matches.get_flag("json") {
        Form::Json
    } else {
        Form::Lines
    }
}

// Writes the tree of those names of a list that begin with a prefix, and returns whether there is
// one.
fn put_tree<W: Write>(
    alloc: Global,
    list: &str,
    names: Names,
    prefix: &str,
    form: Form,
    output: &mut W,
) -> Result<bool, Failure>
    ensures written { OnOk result ((text : List ℕ)
        × Draws form (under prefix.now (map.entries names)) text
        × Appends (W.contents output.old) (W.contents output.new) text) }
    ensures found { IfOk result (λ found.
        IsTrue found ↔ (under prefix.now (map.entries names) ≢ [])) }
{
    let is_found = begins_some(&names, prefix);
    let nodes = match draw(alloc, names, prefix) {
        Ok(nodes) => nodes,
        Err(error) => return Err(pack_failure(alloc, shown(list), error)),
    };
    let mut out = Vec::new(alloc);
    push_drawing(alloc, &nodes, form, &mut out)?;
    put(output, &mut out)?;
    Ok(is_found)
}

/// Shows the tree of the names that begin with a prefix, and returns whether there is one.
pub fn show_tree<R: Opens, I: Read + Drop, E: Write + Drop, W: Write>(
    inputs: &mut Inputs<'_, R, I, E>,
    matches: &ArgMatches<'_>,
    output: &mut W,
) -> Result<bool, Failure> {
    let list = path(matches, "LIST");
    let prefix = path(matches, "PREFIX");
    // of names that begin with a prefix alone are tree bytes made
    let names = if prefix.is_empty() {
        inputs.packable_names(list)?
    } else {
        inputs.names(list)?
    };
    put_tree(inputs.alloc, list, names, prefix, form(matches), output)
}
