//! What a command asks of its list.

ghost use Rattle.std.specs.Prelude.{◌≡◌, ◌≢◌, if◌then◌else◌, [], Bool, codes, IfOk, IfErr};
ghost use Rattle.prefixes_core.specs.Internal.Failures.{IsListFailure};
ghost use Rattle.prefixes_core.specs.Internal.Inputs.{IsAfter};
ghost use Rattle.prefixes_core.specs.Requests.{Asks, AsksRoute, AsksComplete, AsksNear, AsksTree};
ghost use Rattle.prefixes_core.specs.Requests.{IsFlag, IsMost, IsNumber};
ghost use Rattle.prefixes_core.specs.Sources.{HasBytes};

use crate::answering::Question;
use crate::failure::Failure;
use crate::inputs::Inputs;
use crate::listing::Names;
use crate::nearing::SearchedNames;
use crate::opening::Opens;
use crate::options::path;
use clap::ArgMatches;
use std::io::{Read, Write};

// How many entries a command shows for each line.
fn most(matches: &ArgMatches<'_>) -> usize
    ensures { IsMost matches.now result }
{
    matches.get_one::<u32>("most").unwrap_or(10) as usize
}

// How many edits a name may be from a line.
fn edits(matches: &ArgMatches<'_>) -> u32
    ensures { IsNumber matches.now 8 1 (codes "edits") result }
{
    u32::from(matches.get_one::<u8>("edits").unwrap_or(1))
}

// What `complete` asks.
fn completions(matches: &ArgMatches<'_>, names: Names, most: usize) -> Question
    ensures { (given : Bool) × IsFlag matches.now (codes "no-count") given × (result
        ≡ (if given then Question.First names most else Question.Complete names most)) }
{
    if matches.get_flag("no-count") {
        Question::First(names, most)
    } else {
        Question::Complete(names, most)
    }
}

// What a command asks of names that it finds some of.
fn some_question<R: Opens, I: Read + Drop, E: Write + Drop>(
    inputs: &mut Inputs<'_, R, I, E>,
    name: &str,
    matches: &ArgMatches<'_>,
) -> Result<Question, Failure>
    ensures complete { name.now ≡ codes "complete" → IfOk result (AsksComplete matches.now
        inputs.old.format (HasBytes R.content I.remaining inputs.old)) }
    ensures near { name.now ≢ codes "complete" → IfOk result (AsksNear matches.now
        inputs.old.format (HasBytes R.content I.remaining inputs.old)) }
    ensures after { IsAfter inputs.old inputs.new }
    ensures named { IfErr result IsListFailure }
{
    let names = inputs.names(path(matches, "LIST"))?;
    let most = most(matches);
    if name == "complete" {
        return Ok(completions(matches, names, most));
    }
    let edits = edits(matches);
    let searched = SearchedNames::new(names)?;
    Ok(Question::Near(searched, edits, most))
}

// What the command about routes asks.
fn route_question<R: Opens, I: Read + Drop, E: Write + Drop>(
    inputs: &mut Inputs<'_, R, I, E>,
    matches: &ArgMatches<'_>,
) -> Result<Question, Failure>
    ensures asks { IfOk result (AsksRoute matches.now
        inputs.old.format (HasBytes R.content I.remaining inputs.old)) }
    ensures after { IsAfter inputs.old inputs.new }
    ensures named { IfErr result IsListFailure }
{
    let path = path(matches, "TABLE");
    if matches.get_flag("cidr") {
        Ok(Question::Network(inputs.networks(path)?))
    } else {
        Ok(Question::Route(inputs.router(path)?))
    }
}

// What the command about subtrees asks.
fn tree_question<R: Opens, I: Read + Drop, E: Write + Drop>(
    inputs: &mut Inputs<'_, R, I, E>,
    matches: &ArgMatches<'_>,
) -> Result<Question, Failure>
    ensures asks { IfOk result (AsksTree matches.now
        inputs.old.format (HasBytes R.content I.remaining inputs.old)) }
    ensures after { IsAfter inputs.old inputs.new }
    ensures named { IfErr result IsListFailure }
{
    let list = inputs.list(path(matches, "LIST"))?;
    if matches.get_flag("drop") {
        Ok(Question::DropTree(list))
    } else {
        Ok(Question::Tree(list))
    }
}

/// What a command asks, once its list is read.
pub fn question<R: Opens, I: Read + Drop, E: Write + Drop>(
    inputs: &mut Inputs<'_, R, I, E>,
    name: &str,
    matches: &ArgMatches<'_>,
) -> Result<Question, Failure>
    ensures asks { IfOk result (Asks matches.now inputs.old.format
        (HasBytes R.content I.remaining inputs.old) name.now) }
    ensures after { IsAfter inputs.old inputs.new }
    ensures named { IfErr result IsListFailure }
{
    match name {
        "route" => route_question(inputs, matches),
        "block" => Ok(Question::Block(inputs.block_list(path(matches, "LIST"))?)),
        "segment" => Ok(Question::Segment(inputs.names(path(matches, "DICTIONARY"))?)),
        "complete" | "near" => some_question(inputs, name, matches),
        _ => tree_question(inputs, matches),
    }
}
