//! What is asked of a list, and the lines or the JSON that answer it.

ghost use Rattle.std.specs.Prelude.{◌≡◌, ℕ, IfOk, OnOk, IfErr};
ghost use Rattle.std.specs.FinMap as map;
ghost use Rattle.std.specs.Str.{IsUtf8, IsValidUpTo};
ghost use Rattle.prefixes_core.specs.Answers.{Writes, IsFound, Leaves, AsksTexts};
ghost use Rattle.prefixes_core.specs.Answers.{IsRightLine, IsAnswerFault};
ghost use Rattle.prefixes_core.specs.Subtrees.{elsewhere};

pub(crate) mod together;
mod writing;

use crate::blocking::{BlockList, folded};
use crate::completing::{complete, first_completions};
use crate::cutting::segment;
use crate::dotted::{begins_some, drop_subtree, subtree};
use crate::listing::{Listing, Names};
use crate::nearing::{SearchedNames, near};
use crate::networks::{Networks, network_of};
use crate::value::Payload;
use patricia_tree::router::Router;
use std::alloc::{AllocError, Global};
use std::net::IpAddr;
use std::str;
use thiserror::Error;
use writing::{
    push_blocked, push_completed, push_first, push_near, push_network, push_pieces, push_route,
    push_tree,
};

/// Why a line is not answered.
#[derive(Clone, Copy, Debug, Drop, PartialEq, Eq, Error)]
pub enum AnswerError {
    /// From this byte of the line on, counted from 0.
    #[error("not UTF-8 at byte {0}")]
    NotUtf8(usize),
    #[error("not an IPv4 or IPv6 address")]
    NotAddress,
    #[error("out of memory")]
    Memory,
}

impl From<AllocError> for AnswerError {
    ghost use Rattle.std.specs.Prelude.{◌≡◌};
    ghost use Rattle.prefixes_core.specs.declared.answering.AnswerError.TheVariants.{Memory};

    ghost from_gives = { λ _ e. e ≡ Memory };

    fn from(_: AllocError) -> AnswerError {
        AnswerError::Memory
    }
}

/// How answers are written.
#[derive(Clone, Copy)]
pub enum Style {
    /// As lines, each up to this byte.
    Lines(u8),
    /// As an object of JSON on a line.
    Json,
}

/// What each line is asked about.
#[derive(Drop)]
pub enum Question {
    /// The longest prefix that begins the line, and its target.
    Route(Router<String, Payload>),
    /// The longest network that the address is in, and its target.
    Network(Networks),
    /// The first so many names that begin with the line, and how many there are.
    Complete(Names, usize),
    /// The first so many names that begin with the line.
    First(Names, usize),
    /// The first so many names that are few edits from the line, and how many there are.
    Near(SearchedNames, u32, usize),
    /// The longest name that covers the host.
    Block(BlockList),
    /// The name and those below it.
    Tree(Listing),
    /// The same, which are dropped.
    DropTree(Listing),
    /// The longest words that the line is cut into.
    Segment(Names),
}

fn route(
    alloc: Global,
    routes: &Router<String, Payload>,
    line: &str,
    style: Style,
    out: &mut Vec<u8>,
) -> Result<bool, AllocError>
    ensures written { OnOk result
        (Writes style (Question.Route routes.now) line.now out.old.items out.new.items) }
    ensures found { IfOk result (λ found. IsFound (Question.Route routes.now) line.now found) }
{
    let found = routes.route(line);
    push_route(alloc, line, found, style, out)?;
    Ok(found.is_some())
}

fn network(
    alloc: Global,
    table: &Networks,
    line: &[u8],
    style: Style,
    out: &mut Vec<u8>,
) -> Result<bool, AnswerError>
    ensures written { OnOk result
        (Writes style (Question.Network table.now) line.now out.old.items out.new.items) }
    ensures found { IfOk result (λ found. IsFound (Question.Network table.now) line.now found) }
    ensures right { OnOk result (IsRightLine (Question.Network table.now) line.now) }
    ensures named { IfErr result (λ e. IsAnswerFault (Question.Network table.now) line.now e) }
{
    let address = match IpAddr::parse_ascii(line) {
        Ok(address) => address,
        Err(_) => return Err(AnswerError::NotAddress),
    };
    let found = network_of(alloc, table, address)?;
    push_network(alloc, line, found, style, out)?;
    Ok(found.is_some())
}

fn complete_all(
    alloc: Global,
    names: &Names,
    line: &str,
    most: usize,
    style: Style,
    out: &mut Vec<u8>,
) -> Result<bool, AllocError>
    ensures written { OnOk result
        (Writes style (Question.Complete names.now most) line.now out.old.items out.new.items) }
    ensures found { IfOk result (λ found.
        IsFound (Question.Complete names.now most) line.now found) }
{
    let found = complete(alloc, names, line, most)?;
    push_completed(alloc, &found, line, style, out)?;
    Ok(found.count != 0)
}

fn first_all(
    alloc: Global,
    names: &Names,
    line: &str,
    most: usize,
    style: Style,
    out: &mut Vec<u8>,
) -> Result<bool, AllocError>
    ensures written { OnOk result
        (Writes style (Question.First names.now most) line.now out.old.items out.new.items) }
    ensures found { IfOk result (λ found.
        IsFound (Question.First names.now most) line.now found) }
{
    let found = first_completions(alloc, names, line, most)?;
    push_first(alloc, &found, line, style, out)?;
    Ok(begins_some(names, line))
}

fn near_all(
    alloc: Global,
    names: &SearchedNames,
    line: &str,
    edits: u32,
    most: usize,
    style: Style,
    out: &mut Vec<u8>,
) -> Result<bool, AllocError>
    ensures written { OnOk result
        (Writes style (Question.Near names.now edits most) line.now out.old.items out.new.items) }
    ensures found { IfOk result (λ found.
        IsFound (Question.Near names.now edits most) line.now found) }
{
    let found = near(alloc, names, line, edits, most)?;
    push_near(alloc, &found, line, style, out)?;
    Ok(found.count != 0)
}

fn block(
    alloc: Global,
    list: &BlockList,
    line: &[u8],
    style: Style,
    out: &mut Vec<u8>,
) -> Result<bool, AllocError>
    ensures written { OnOk result
        (Writes style (Question.Block list.now) line.now out.old.items out.new.items) }
    ensures found { IfOk result (λ found. IsFound (Question.Block list.now) line.now found) }
{
    let host = folded(alloc, line)?;
    let found = list.find(&host)?;
    let is_blocked = found.is_some();
    push_blocked(alloc, line, found, style, out)?;
    Ok(is_blocked)
}

fn tree(
    alloc: Global,
    list: &Listing,
    line: &str,
    style: Style,
    out: &mut Vec<u8>,
) -> Result<bool, AllocError>
    ensures written { OnOk result
        (Writes style (Question.Tree list.now) line.now out.old.items out.new.items) }
    ensures found { IfOk result (λ found. IsFound (Question.Tree list.now) line.now found) }
{
    let found = subtree(alloc, list, line)?;
    push_tree(alloc, &found, line, style, out)?;
    Ok(!found.is_empty())
}

fn drop_tree(
    alloc: Global,
    list: &mut Listing,
    line: &str,
    style: Style,
    out: &mut Vec<u8>,
) -> Result<bool, AllocError>
    ensures written { OnOk result
        (Writes style (Question.Tree list.old) line.now out.old.items out.new.items) }
    ensures found { IfOk result (λ found. IsFound (Question.Tree list.old) line.now found) }
    ensures dropped { OnOk result
        (map.entries list.new ≡ elsewhere line.now (map.entries list.old)) }
{
    let is_found = tree(alloc, list, line, style, out)?;
    drop_subtree(alloc, list, line)?;
    Ok(is_found)
}

fn cut(
    alloc: Global,
    words: &Names,
    line: &str,
    style: Style,
    out: &mut Vec<u8>,
) -> Result<bool, AllocError>
    ensures written { OnOk result
        (Writes style (Question.Segment words.now) line.now out.old.items out.new.items) }
    ensures found { IfOk result (λ found. IsFound (Question.Segment words.now) line.now found) }
{
    let pieces = segment(alloc, words, line)?;
    push_pieces(alloc, &pieces, line, style, out)?;
    Ok(!line.is_empty())
}

// The text that a line is.
fn text(line: &[u8]) -> Result<&str, AnswerError>
    ensures text { IfOk result (λ text. text.now ≡ line.now) }
    ensures utf8 { OnOk result (IsUtf8 line.now) }
    ensures named { IfErr result (λ e. (at : ℕ) × (e ≡ AnswerError.NotUtf8 at)
        × (IsUtf8 line.now → ⊥) × IsValidUpTo line.now at) }
{
    match str::from_utf8(line) {
        Ok(text) => Ok(text),
        Err(error) => Err(AnswerError::NotUtf8(error.valid_up_to())),
    }
}

impl Question {
    // Answers a line that is a text, if texts are asked about.
    fn answer_text(
        &mut self,
        alloc: Global,
        line: &str,
        style: Style,
        out: &mut Vec<u8>,
    ) -> Result<bool, AllocError>
        requires { AsksTexts self.old }
        ensures written { OnOk result
            (Writes style self.old line.now out.old.items out.new.items) }
        ensures found { IfOk result (λ found. IsFound self.old line.now found) }
        ensures left { OnOk result (Leaves self.old line.now self.new) }
    {
        match self {
            Question::Route(routes) => route(alloc, routes, line, style, out),
            Question::Network(_) | Question::Block(_) => unreachable!(),
            Question::Complete(list, most) => complete_all(alloc, list, line, *most, style, out),
            Question::First(list, most) => first_all(alloc, list, line, *most, style, out),
            Question::Near(list, edits, most) => {
                near_all(alloc, list, line, *edits, *most, style, out)
            }
            Question::Tree(list) => tree(alloc, list, line, style, out),
            Question::DropTree(list) => drop_tree(alloc, list, line, style, out),
            Question::Segment(list) => cut(alloc, list, line, style, out),
        }
    }

    /// Writes the answer to a line at the end of a text, and returns whether something was found.
    ///
    /// # Errors
    ///
    /// The line is not UTF-8, which only a host need not be; or not an address, if networks are
    /// asked about; or out of memory.
    pub fn answer(
        &mut self,
        alloc: Global,
        line: &[u8],
        style: Style,
        out: &mut Vec<u8>,
    ) -> Result<bool, AnswerError>
        ensures written { OnOk result
            (Writes style self.old line.now out.old.items out.new.items) }
        ensures found { IfOk result (λ found. IsFound self.old line.now found) }
        ensures left { OnOk result (Leaves self.old line.now self.new) }
        ensures right { OnOk result (IsRightLine self.old line.now) }
        ensures named { IfErr result (λ e. IsAnswerFault self.old line.now e) }
    {
        match self {
            Question::Network(table) => return network(alloc, table, line, style, out),
            Question::Block(list) => return Ok(block(alloc, list, line, style, out)?),
            _ => {}
        }
        match text(line) {
            Ok(line) => Ok(self.answer_text(alloc, line, style, out)?),
            Err(error) => Err(error),
        }
    }
}
