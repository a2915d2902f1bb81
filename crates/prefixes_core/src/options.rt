//! The words of the command line.

ghost use Rattle.std.specs.Prelude.{◌≡◌, []};
ghost use Rattle.prefixes_core.specs.Requests.{text_or};

use crate::lines::LineFormat;
use clap::{Arg, ArgAction, ArgMatches, Command, value_parser};
use std::alloc::{AllocError, Global};

/// The version of the program.
const VERSION: &str = "0.1.0";

// What lists are written to.
const TO_FILE: &str = "The file to write; - is the standard output";

// A command and one more argument of it. An error is passed on here, and not at each call.
fn with<'a>(
    command: Result<Command<'a>, AllocError>,
    arg: Arg<'a>,
) -> Result<Command<'a>, AllocError> {
    let Ok(command) = command else {
        drop(arg);
        return Err(AllocError);
    };
    command.arg(arg)
}

// A command and one more subcommand of it.
fn over<'a>(
    command: Result<Command<'a>, AllocError>,
    subcommand: Result<Command<'a>, AllocError>,
) -> Result<Command<'a>, AllocError> {
    let Ok(command) = command else {
        drop(subcommand);
        return Err(AllocError);
    };
    let Ok(subcommand) = subcommand else {
        drop(command);
        return Err(AllocError);
    };
    command.subcommand(subcommand)
}

// A file that a command needs.
fn file<'a>(alloc: Global, name: &'a str, help: &'a str) -> Arg<'a> {
    Arg::new(alloc, name)
        .required(true)
        .action(ArgAction::Set)
        .value_name(name)
        .help(help)
}

// An argument that has no value.
fn flag<'a>(alloc: Global, name: &'a str, help: &'a str) -> Arg<'a> {
    Arg::new(alloc, name)
        .long(name)
        .action(ArgAction::SetTrue)
        .help(help)
}

// An argument that has a value, and need not be there.
fn option<'a>(alloc: Global, name: &'a str, value: &'a str, help: &'a str) -> Arg<'a> {
    Arg::new(alloc, name)
        .long(name)
        .value_name(value)
        .help(help)
}

fn null<'a>(alloc: Global) -> Arg<'a> {
    flag(
        alloc,
        "null",
        "Lines of lists, input and answers end with a byte 0 in place of 10",
    )
}

fn keep_cr<'a>(alloc: Global) -> Arg<'a> {
    flag(
        alloc,
        "keep-cr",
        "Keep a carriage return at a line's end and a byte order mark; --null keeps them, too",
    )
}

// A command with the arguments that say how lines are cut.
fn with_format<'a>(
    alloc: Global,
    command: Result<Command<'a>, AllocError>,
) -> Result<Command<'a>, AllocError> {
    with(with(command, null(alloc)), keep_cr(alloc))
}

fn json<'a>(alloc: Global) -> Arg<'a> {
    flag(alloc, "json", "Answer by an object of JSON on each line")
}

// A command that reads a list.
fn over_list<'a>(
    alloc: Global,
    name: &'a str,
    list: &'a str,
    about: &'a str,
) -> Result<Command<'a>, AllocError> {
    let list = file(
        alloc,
        list,
        "A file with a name on each line, or a packed list; - is the standard input",
    );
    let command = Command::new(alloc, name).about(about);
    with_format(alloc, with(Ok(command), list))
}

// A command that shows a list as a whole.
fn of_list<'a>(alloc: Global, name: &'a str, about: &'a str) -> Result<Command<'a>, AllocError> {
    with(over_list(alloc, name, "LIST", about), json(alloc))
}

// A command that answers lines about a list.
fn of_lines<'a>(
    alloc: Global,
    name: &'a str,
    list: &'a str,
    about: &'a str,
) -> Result<Command<'a>, AllocError> {
    let lines = option(
        alloc,
        "lines",
        "FILE",
        "Answer the lines of this file in place of the standard input",
    );
    let command = over_list(alloc, name, list, about);
    with(with(command, json(alloc)), lines)
}

// How many entries a command shows for each line.
fn most<'a>(alloc: Global) -> Arg<'a> {
    option(alloc, "most", "N", "How many entries to show for each line")
        .short('n')
        .value_parser(value_parser!(u32))
        .default_value("10")
}

// How many edits a name may be from a line.
fn edits<'a>(alloc: Global) -> Arg<'a> {
    let help = "How many edits to allow, each of one character";
    option(alloc, "edits", "N", help)
        .short('k')
        .value_parser(value_parser!(u8))
        .default_value("1")
}

fn route<'a>(alloc: Global) -> Result<Command<'a>, AllocError> {
    let about = "Shows the longest prefix of the table that begins each line, and its target";
    let help = "Routes are networks, such as 10.0.0.0/8, and lines are IPv4 and IPv6 addresses; \
                otherwise both are texts, which are compared byte by byte";
    let command = of_lines(alloc, "route", "TABLE", about);
    with(command, flag(alloc, "cidr", help))
}

fn complete<'a>(alloc: Global) -> Result<Command<'a>, AllocError> {
    let about = "Shows the first entries that begin with each line, and how many there are";
    let no_count = flag(
        alloc,
        "no-count",
        "Show no numbers, which take long to count",
    );
    let command = of_lines(alloc, "complete", "LIST", about);
    with(with(command, most(alloc)), no_count)
}

fn near<'a>(alloc: Global) -> Result<Command<'a>, AllocError> {
    let about = "Shows the names that are few edits from each line, the nearest first";
    let command = of_lines(alloc, "near", "LIST", about);
    with(with(command, edits(alloc)), most(alloc))
}

fn tree<'a>(alloc: Global) -> Result<Command<'a>, AllocError> {
    let about = "Shows the entry of each line and those below it, by dotted names";
    let drop = flag(alloc, "drop", "Drop each subtree once it is shown");
    with(of_lines(alloc, "tree", "LIST", about), drop)
}

fn pack<'a>(alloc: Global) -> Result<Command<'a>, AllocError> {
    let about = "Writes a list as a packed one, which each command reads in place of it";
    let out = file(alloc, "OUT", TO_FILE);
    with(over_list(alloc, "pack", "LIST", about), out)
}

// The lists that a command combines.
fn lists<'a>(alloc: Global) -> Arg<'a> {
    Arg::new(alloc, "LIST")
        .required(true)
        .action(ArgAction::Append)
        .num_args(2..)
        .value_name("LIST")
        .help("Files with a name on each line, or packed lists")
}

// A way to combine lists.
fn way<'a>(alloc: Global, name: &'a str, about: &'a str) -> Result<Command<'a>, AllocError> {
    let out = Arg::new(alloc, "OUT")
        .short('o')
        .long("output")
        .value_name("OUT")
        .help(TO_FILE);
    let lines = flag(
        alloc,
        "as-lines",
        "Write a line for each name in place of a packed list",
    );
    let command = Command::new(alloc, name).about(about);
    let command = with(with(with(Ok(command), lists(alloc)), out), lines);
    with_format(alloc, command)
}

fn combine<'a>(alloc: Global) -> Result<Command<'a>, AllocError> {
    let union = "The names of all the lists";
    let intersection = "The names that are in each list";
    let difference = "The names of the first list that no other list has";
    let command = Command::new(alloc, "combine")
        .about("Writes the names of lists as one list: a packed one, without values")
        .subcommand_required(true)
        .arg_required_else_help(true);
    let command = over(Ok(command), way(alloc, "union", union));
    let command = over(command, way(alloc, "intersection", intersection));
    over(command, way(alloc, "difference", difference))
}

// A graph in place of lines.
fn dot<'a>(alloc: Global) -> Result<Arg<'a>, AllocError> {
    flag(alloc, "dot", "Write a graph in the language of Graphviz").conflicts_with("json")
}

fn draw<'a>(alloc: Global) -> Result<Command<'a>, AllocError> {
    let about = "Shows the tree that the names are kept in, a node on each line";
    let dot = dot(alloc)?;
    let prefix = Arg::new(alloc, "PREFIX")
        .action(ArgAction::Set)
        .value_name("PREFIX")
        .help("What the names begin with, which else are all names");
    with(with(of_list(alloc, "draw", about), prefix), dot)
}

/// How a command cuts lists and input into lines.
pub fn line_format(matches: &ArgMatches<'_>) -> LineFormat {
    if matches.get_flag("null") {
        LineFormat {
            end: 0,
            keeps_cr: true,
        }
    } else {
        LineFormat {
            end: b'\n',
            keeps_cr: matches.get_flag("keep-cr"),
        }
    }
}

/// The path that a command has for one of its files, which are required.
pub fn path<'a>(matches: &ArgMatches<'a>, id: &str) -> &'a str
    ensures { result.now ≡ text_or matches.now [] id.now }
{
    matches.get_str(id).unwrap_or("")
}

// The program without its commands.
fn program<'a>(alloc: Global) -> Command<'a> {
    Command::new(alloc, "prefixes")
        .version(VERSION)
        .about("Answers questions about prefixes: one for each line of the standard input")
        .after_help(
            "Each command ends with 0 where something was found, 1 where nothing was, and 2 where \
             something went wrong.",
        )
        .subcommand_required(true)
        .arg_required_else_help(true)
}

// The commands that answer lines.
fn with_questions<'a>(alloc: Global, program: Command<'a>) -> Result<Command<'a>, AllocError> {
    let block = "Shows the longest name that is each host, or a domain that it belongs to";
    let segment = "Cuts each line into the longest words of the dictionary";
    let program = over(Ok(program), route(alloc));
    let program = over(over(program, complete(alloc)), near(alloc));
    let program = over(program, of_lines(alloc, "block", "LIST", block));
    let program = over(program, tree(alloc));
    over(program, of_lines(alloc, "segment", "DICTIONARY", segment))
}

/// The command line of the program.
///
/// # Errors
///
/// Out of memory.
pub fn command<'a>(alloc: Global) -> Result<Command<'a>, AllocError> {
    let stats = "Shows how much memory the names take, and how much their prefixes save";
    let program = with_questions(alloc, program(alloc));
    let program = over(over(program, pack(alloc)), combine(alloc));
    over(over(program, of_list(alloc, "stats", stats)), draw(alloc))
}
