//! Lines that are answered together.

ghost use Rattle.std.specs.Prelude.{◌≡◌, ◌++◌, ◌≤◌, ℕ, List, map as list_map, IfOk, OnOk, OnErr};
ghost use Rattle.std.specs.List.{All};
ghost use Rattle.std.specs.Option.{option_map};
ghost use Rattle.std.specs.Str.{IsUtf8};
ghost use Rattle.prefixes_core.specs.Answers.{block_text};
ghost use Rattle.prefixes_core.specs.Internal.Reversed.{name_of};
ghost use Rattle.prefixes_core.specs.Internal.Together.{AnswersTogether, AnswersFront};
ghost use Rattle.prefixes_core.specs.declared.answering.Question.{Question};
ghost use Rattle.prefixes_core.specs.declared.answering.Question.TheVariants as Questions;

use super::writing::{push_blocked, push_pieces, push_route};
use super::{Question, Style};
use crate::blocking::{BlockList, cut_keys, joined_keys, write_name};
use crate::cutting::segment_all;
use crate::lines::{Line, LineFormat, cut_lines};
use crate::listing::Names;
use crate::value::Payload;
use patricia_tree::router::Router;
use std::alloc::{AllocError, Global};

/// Lines at the front of bytes that are answered together.
#[derive(Clone, Copy)]
pub(crate) struct Together {
    /// How many they are.
    pub count: usize,
    /// How many bytes they take, with those at their ends.
    pub len: usize,
    /// Whether something was found for one of them.
    pub is_found: bool,
}

// What lines are asked of together.
trait AnswersLines<'b> {
    type Line: Line<'b>;

    // what is asked
    ghost question: { Self → Question };

    // Writes the answers to lines, and returns whether something was found for one of them.
    fn answer_lines(
        &self,
        alloc: Global,
        lines: &[Self::Line],
        style: Style,
        out: &mut Vec<u8>,
    ) -> Result<bool, AllocError>
        requires { All Self.Line.IsRight (list_map Self.Line.content lines.now) }
        ensures { IfOk result (λ found. AnswersTogether style (question self.now)
            (list_map Self.Line.content lines.now) out.old.items out.new.items found) };
}

impl<'b> AnswersLines<'b> for Router<String, Payload> {
    type Line = &'b str;

    ghost question = { Questions.Route };

    fn answer_lines(
        &self,
        alloc: Global,
        lines: &[&'b str],
        style: Style,
        out: &mut Vec<u8>,
    ) -> Result<bool, AllocError> {
        route_lines(alloc, self, lines, style, out)
    }
}

impl<'b> AnswersLines<'b> for BlockList {
    type Line = &'b [u8];

    ghost question = { Questions.Block };

    fn answer_lines(
        &self,
        alloc: Global,
        lines: &[&'b [u8]],
        style: Style,
        out: &mut Vec<u8>,
    ) -> Result<bool, AllocError> {
        block_lines(alloc, self, lines, style, out)
    }
}

impl<'b> AnswersLines<'b> for Names {
    type Line = &'b str;

    ghost question = { Questions.Segment };

    fn answer_lines(
        &self,
        alloc: Global,
        lines: &[&'b str],
        style: Style,
        out: &mut Vec<u8>,
    ) -> Result<bool, AllocError> {
        segment_lines(alloc, self, lines, style, out)
    }
}

// Writes the routes of lines, which are looked up side by side, and returns whether there is one.
fn route_lines(
    alloc: Global,
    routes: &Router<String, Payload>,
    lines: &[&str],
    style: Style,
    out: &mut Vec<u8>,
) -> Result<bool, AllocError>
    requires { All IsUtf8 (list_map (λ line. line.now) lines.now) }
    ensures { IfOk result (λ found. AnswersTogether style (Questions.Route routes.now)
        (list_map (λ line. line.now) lines.now) out.old.items out.new.items found) }
{
    let found = routes.route_all(lines)?;
    let mut is_found = false;
    for (i, line) in lines.iter().enumerate() {
        let route = found[i];
        push_route(alloc, line, route, style, out)?;
        is_found |= route.is_some();
    }
    Ok(is_found)
}

// Writes by which name a host is blocked, whose key is found, if it is.
fn push_by_key(
    alloc: Global,
    line: &[u8],
    key: Option<&[u8]>,
    style: Style,
    name: &mut Vec<u8>,
    out: &mut Vec<u8>,
) -> Result<(), AllocError>
    ensures { OnOk result (out.new.items ≡ out.old.items
        ++ block_text style line.now (option_map (λ key. name_of key.now) key.entry)) }
{
    let Some(key) = key else {
        return push_blocked(alloc, line, None, style, out);
    };
    write_name(key, name)?;
    push_blocked(alloc, line, Some(name.as_slice()), style, out)
}

// Writes by which names hosts are blocked, which are looked up side by side, and returns whether
// one is.
fn block_lines(
    alloc: Global,
    list: &BlockList,
    lines: &[&[u8]],
    style: Style,
    out: &mut Vec<u8>,
) -> Result<bool, AllocError>
    ensures { IfOk result (λ found. AnswersTogether style (Questions.Block list.now)
        (list_map (λ line. line.now) lines.now) out.old.items out.new.items found) }
{
    let joined = joined_keys(alloc, lines)?;
    let keys = cut_keys(alloc, lines, &joined)?;
    let found = list.find_keys(&keys)?;
    let mut name = Vec::new(alloc);
    let mut is_found = false;
    for (i, line) in lines.iter().enumerate() {
        let key = found[i];
        push_by_key(alloc, line, key, style, &mut name, out)?;
        is_found |= key.is_some();
    }
    Ok(is_found)
}

// Writes the pieces of lines, which are cut side by side, and returns whether there is one.
fn segment_lines(
    alloc: Global,
    words: &Names,
    lines: &[&str],
    style: Style,
    out: &mut Vec<u8>,
) -> Result<bool, AllocError>
    requires { All IsUtf8 (list_map (λ line. line.now) lines.now) }
    ensures { IfOk result (λ found. AnswersTogether style (Questions.Segment words.now)
        (list_map (λ line. line.now) lines.now) out.old.items out.new.items found) }
{
    let pieces = segment_all(alloc, words, lines)?;
    let mut is_found = false;
    for (i, line) in lines.iter().enumerate() {
        push_pieces(alloc, &pieces[i], line, style, out)?;
        is_found |= !line.is_empty();
    }
    Ok(is_found)
}

// Answers the first lines of bytes, behind the answers that wait. Where memory runs out these stay
// as they are.
fn try_front<'b, A: AnswersLines<'b>>(
    alloc: Global,
    asked: &A,
    bytes: &'b [u8],
    format: LineFormat,
    style: Style,
    next: &mut Vec<u8>,
    out: &mut Vec<u8>,
) -> Result<Together, AllocError>
    ensures answered { IfOk result (λ together. AnswersFront style format (A.question asked.now)
        bytes.now together out.old.items out.new.items) }
    ensures few { IfOk result (λ together. together.count ≤ 256) }
    ensures kept { OnErr result (out.new.items ≡ out.old.items) }
{
    let (lines, rest) = cut_lines::<A::Line>(alloc, bytes, format)?;
    next.clear();
    let is_found = asked.answer_lines(alloc, &lines, style, next)?;
    out.extend_from_slice(next)?;
    Ok(Together {
        count: lines.len(),
        len: bytes.len() - rest.len(),
        is_found,
    })
}

// Answers the first lines of bytes, behind the answers that wait, or none where memory runs out.
fn front<'b, A: AnswersLines<'b>>(
    alloc: Global,
    asked: &A,
    bytes: &'b [u8],
    format: LineFormat,
    style: Style,
    next: &mut Vec<u8>,
    out: &mut Vec<u8>,
) -> Together
    ensures answered { AnswersFront style format (A.question asked.now) bytes.now result
        out.old.items out.new.items }
    ensures few { result.count ≤ 256 }
{
    match try_front(alloc, asked, bytes, format, style, next, out) {
        Ok(together) => together,
        Err(_) => NONE,
    }
}

// No line is answered.
const NONE: Together = Together {
    count: 0,
    len: 0,
    is_found: false,
};

/// Answers the first lines of bytes, behind the answers that wait, if lines are answered together
/// for what is asked: those that are whole and right, up to as many as are answered together. Where
/// memory runs out for them it answers none.
pub(crate) fn answer_front(
    alloc: Global,
    question: &Question,
    bytes: &[u8],
    format: LineFormat,
    style: Style,
    next: &mut Vec<u8>,
    out: &mut Vec<u8>,
) -> Together
    ensures answered { AnswersFront style format question.now bytes.now result
        out.old.items out.new.items }
    ensures few { result.count ≤ 256 }
{
    match question {
        Question::Route(routes) => front(alloc, routes, bytes, format, style, next, out),
        Question::Block(list) => front(alloc, list, bytes, format, style, next, out),
        Question::Segment(words) => front(alloc, words, bytes, format, style, next, out),
        _ => NONE,
    }
}
