//! The program over its words, its files and its streams.

ghost use Rattle.std.specs.Prelude.{◌≡◌, ◌⊎◌, ◌<◌, ◌≤◌, ◌^◌, ◌++◌, if◌then◌else◌, ℕ, List};
ghost use Rattle.std.specs.Prelude.{length, codes, IfOk, OnOk, IfErr, OnErr, IfSome, Some};
ghost use Rattle.std.specs.Io.Buffered.{reader_remaining};
ghost use Rattle.prefixes_core.specs.Answers.{Writes, IsFound, Leaves, IsRightLine, IsAnswerFault};
ghost use Rattle.prefixes_core.specs.Internal.Failures.{IsInputFailure, IsNamed};
ghost use Rattle.prefixes_core.specs.Internal.Failures.{IsOutputFailure, IsWritten};
ghost use Rattle.prefixes_core.specs.Internal.TakenLines.{TakesLine};
ghost use Rattle.prefixes_core.specs.Internal.Together.{TakesTogether};
ghost use Rattle.prefixes_core.specs.Lists.{lines_of};
ghost use Rattle.prefixes_core.specs.Requests.{IsStyle, text_or};
ghost use Rattle.prefixes_core.specs.Runs.{Answers, AnswersInput, EndsEarly, StopsInput};
ghost use Rattle.prefixes_core.specs.Sources.{HasBytes};
ghost use Rattle.prefixes_core.specs.Turns.{AnswersAll, answered, IsStoppedAt};

use crate::answering::together::answer_front;
use crate::answering::{AnswerError, Question, Style};
use crate::asking::question;
use crate::failure::{Failure, input_failure, line_failure};
use crate::files::{combine_files, pack_file};
use crate::heads::read_after;
use crate::inputs::{Inputs, shown};
use crate::lines::{LineFormat, MOST_TOGETHER, next_line, read_text, read_unmarked};
use crate::opening::Opens;
use crate::options::{self, line_format};
use crate::output::{put, put_if, stop};
use crate::showing::{show_measures, show_tree};
use clap::ArgMatches;
use memchr::memchr;
use std::alloc::Global;
use std::io::{self, BufRead, BufReader, ErrorKind, Read, Write};
use std::rt::Files;

// How many bytes of answers wait for more lines at most, beside those of lines that are answered
// together.
const MOST_WAITING: usize = 1 << 16;

// Lines with lower numbers are answered: no input has so many.
const MOST_LINES: u64 = u64::MAX - MOST_TOGETHER as u64;

// The status if nobody reads the standard output any more: that which a shell shows for a program
// that the signal SIGPIPE ends, as it ends `grep`.
const CLOSED: u8 = 141;

// Lines that are read from a file or the standard input, and how they are answered.
#[derive(Clone, Copy)]
struct Asked<'p> {
    path: &'p str,
    format: LineFormat,
    style: Style,
}

// Reads the next line in place of the one before, and returns whether there is one. If it is not
// read, the answers that wait are written.
fn read_line<R: BufRead, W: Write>(
    alloc: Global,
    reader: &mut R,
    asked: &Asked<'_>,
    line: &mut Vec<u8>,
    out: &mut Vec<u8>,
    output: &mut W,
) -> Result<bool, Failure>
    ensures taken { IfOk result (λ is_some. TakesLine asked.now.format (R.remaining reader.old)
        (R.remaining reader.new) is_some line.new.items) }
    ensures waits { OnOk result (output.new ≡ output.old) }
    ensures kept { OnOk result (out.new.items ≡ out.old.items) }
    ensures named { IfErr result (λ e. IsInputFailure e ⊎ IsOutputFailure e) }
    ensures before { IfErr result (λ e.
        IsWritten (W.contents output.old) (W.contents output.new) out.old.items e) }
{
    match next_line(reader, asked.format, line) {
        Ok(is_some) => Ok(is_some),
        Err(error) => {
            let unread = input_failure(alloc, shown(asked.path), error);
            Err(stop(output, out, unread))
        }
    }
}

// Writes the answer to a line after those that wait, which stay as they are if it is refused.
fn add_answer(
    alloc: Global,
    question: &mut Question,
    line: &[u8],
    style: Style,
    next: &mut Vec<u8>,
    out: &mut Vec<u8>,
) -> Result<bool, AnswerError>
    ensures written { OnOk result
        (Writes style question.old line.now out.old.items out.new.items) }
    ensures found { IfOk result (λ found. IsFound question.old line.now found) }
    ensures left { OnOk result (Leaves question.old line.now question.new) }
    ensures right { OnOk result (IsRightLine question.old line.now) }
    ensures named { IfErr result (λ e. IsAnswerFault question.old line.now e) }
    ensures kept { OnErr result (out.new.items ≡ out.old.items) }
{
    next.clear();
    let found = match question.answer(alloc, line, style, next) {
        Ok(found) => found,
        Err(error) => return Err(error),
    };
    out.extend_from_slice(next)?;
    Ok(found)
}

// Answers a line. If it is refused, the answers before it are written.
fn answer_line<W: Write>(
    alloc: Global,
    question: &mut Question,
    line: &[u8],
    number: u64,
    asked: &Asked<'_>,
    next: &mut Vec<u8>,
    out: &mut Vec<u8>,
    output: &mut W,
) -> Result<bool, Failure>
    ensures written { OnOk result
        (Writes asked.now.style question.old line.now out.old.items out.new.items) }
    ensures found { IfOk result (λ found. IsFound question.old line.now found) }
    ensures left { OnOk result (Leaves question.old line.now question.new) }
    ensures right { OnOk result (IsRightLine question.old line.now) }
    ensures waits { OnOk result (output.new ≡ output.old) }
    ensures named { IfErr result (λ e. IsNamed question.old line.now number e) }
    ensures before { IfErr result (λ e.
        IsWritten (W.contents output.old) (W.contents output.new) out.old.items e) }
{
    match add_answer(alloc, question, line, asked.style, next, out) {
        Ok(found) => Ok(found),
        Err(error) => {
            let failure = line_failure(alloc, shown(asked.path), number, error);
            Err(stop(output, out, failure))
        }
    }
}

// Answers lines that are at hand together, if that is done for what is asked, and returns how many
// they are, and whether something was found. Where memory runs out it answers none: each may do
// with less by itself.
fn answer_together<F: Read + Drop>(
    alloc: Global,
    question: &Question,
    reader: &mut BufReader<F>,
    asked: &Asked<'_>,
    next: &mut Vec<u8>,
    out: &mut Vec<u8>,
) -> (u64, bool)
    ensures answered { IfSome (reader_remaining F.remaining reader.old) (λ bytes.
        TakesTogether asked.now.style asked.now.format question.now bytes
        (reader_remaining F.remaining reader.new) result.0 out.old.items out.new.items result.1) }
    ensures few { result.0 ≤ 256 }
{
    let bytes = reader.buffer();
    let together = answer_front(alloc, question, bytes, asked.format, asked.style, next, out);
    reader.consume(together.len);
    (together.count as u64, together.is_found)
}

// Whether it is time to write so many bytes of answers: they are many, or no whole line is at hand,
// and the next one may be long in coming.
fn is_time<F: Read + Drop>(reader: &BufReader<F>, end: u8, waiting: usize) -> bool {
    waiting >= MOST_WAITING || waiting != 0 && memchr(end, reader.buffer()).is_none()
}

// Answers each line of a reader, and writes the answers whenever no whole line is at hand, or many
// bytes of them wait. It returns whether something was found.
fn answer_each<F: Read + Drop, W: Write>(
    alloc: Global,
    question: &mut Question,
    reader: &mut BufReader<F>,
    asked: &Asked<'_>,
    output: &mut W,
) -> Result<bool, Failure>
    ensures answered { IfOk result (λ found.
        IfSome (reader_remaining F.remaining reader.old) (λ bytes.
        IfSome (W.contents output.old) (λ start. length bytes < 2 ^ 63 → (written : List ℕ)
        × AnswersAll asked.now.style question.old (lines_of asked.now.format bytes)
        (answered question.new written found)
        × (W.contents output.new ≡ Some (start ++ written))))) }
    ensures stopped { IfErr result (λ e.
        IfSome (reader_remaining F.remaining reader.old) (λ bytes.
        IfSome (W.contents output.old) (λ start. IsStoppedAt asked.now.style question.old
        (lines_of asked.now.format bytes) start (W.contents output.new) e))) }
{
    let mut is_found = false;
    let mut line = Vec::new(alloc);
    let mut next = Vec::new(alloc);
    let mut out = Vec::new(alloc);
    let mut number = 1;
    while number < MOST_LINES {
        let (count, found) = answer_together(alloc, question, reader, asked, &mut next, &mut out);
        number += count;
        is_found |= found;
        let is_time = is_time(reader, asked.format.end, out.len());
        put_if(is_time, output, &mut out)?;
        if !read_line(alloc, reader, asked, &mut line, &mut out, output)? {
            put(output, &mut out)?;
            return Ok(is_found);
        }
        let line = read_text(&line, asked.format);
        match answer_line(
            alloc, question, line, number, asked, &mut next, &mut out, output,
        ) {
            Ok(found) => is_found |= found,
            Err(failure) => return Err(failure),
        }
        number += 1;
    }
    put(output, &mut out)?;
    Ok(is_found)
}

// Answers each line of the input, and returns whether something was found.
fn answer_lines<F: Read + Drop, W: Write>(
    alloc: Global,
    question: &mut Question,
    mut input: F,
    asked: &Asked<'_>,
    output: &mut W,
) -> Result<bool, Failure>
    ensures answered { IfOk result (AnswersInput asked.now.style asked.now.format question.old
        (λ bytes. F.remaining input ≡ Some bytes) (W.contents output.old) (W.contents output.new)
        question.new) }
    ensures stopped { IfErr result (StopsInput asked.now.style asked.now.format question.old
        (λ bytes. F.remaining input ≡ Some bytes) (W.contents output.old)
        (W.contents output.new)) }
{
    let head = match read_unmarked(alloc, &mut input, asked.format) {
        Ok(head) => head,
        Err(error) => return Err(input_failure(alloc, shown(asked.path), error)),
    };
    match read_after(alloc, &head, input) {
        Ok(mut reader) => answer_each(alloc, question, &mut reader, asked, output),
        Err(error) => Err(input_failure(alloc, shown(asked.path), error)),
    }
}

// How the command line says that answers are written.
fn style(matches: &ArgMatches<'_>, format: LineFormat) -> Style
    ensures { IsStyle matches.now format result }
{
    if matches.get_flag("json") {
        Style::Json
    } else {
        Style::Lines(format.end)
    }
}

// How the command line says that lines are read and answered.
fn form_of<'p>(matches: &ArgMatches<'p>, format: LineFormat) -> Asked<'p>
    ensures path { result.path.now ≡ text_or matches.now (codes "-") (codes "lines") }
    ensures format { result.format ≡ format }
    ensures style { IsStyle matches.now format result.style }
{
    Asked {
        path: matches.get_str("lines").unwrap_or("-"),
        format,
        style: style(matches, format),
    }
}

// Answers the lines of a file.
fn answer_file<R: Opens, W: Write>(
    rt: &R,
    alloc: Global,
    question: &mut Question,
    asked: &Asked<'_>,
    output: &mut W,
) -> Result<bool, Failure>
    ensures answered { IfOk result (AnswersInput asked.now.style asked.now.format question.old
        (λ bytes. R.content rt.now asked.now.path.now ≡ Some bytes) (W.contents output.old)
        (W.contents output.new) question.new) }
    ensures stopped { IfErr result (StopsInput asked.now.style asked.now.format question.old
        (λ bytes. R.content rt.now asked.now.path.now ≡ Some bytes) (W.contents output.old)
        (W.contents output.new)) }
{
    match rt.open_to_read(asked.path) {
        Ok(file) => answer_lines(alloc, question, file, asked, output),
        Err(error) => Err(input_failure(alloc, asked.path, error)),
    }
}

// Answers the lines of the standard input, which no list has been read from.
fn answer_standard<I: Read + Drop, W: Write>(
    alloc: Global,
    question: &mut Question,
    standard: Option<I>,
    asked: &Asked<'_>,
    output: &mut W,
) -> Result<bool, Failure>
    ensures answered { IfOk result (AnswersInput asked.now.style asked.now.format question.old
        (λ bytes. IfSome standard (λ input. I.remaining input ≡ Some bytes))
        (W.contents output.old) (W.contents output.new) question.new) }
    ensures stopped { IfErr result (StopsInput asked.now.style asked.now.format question.old
        (λ bytes. IfSome standard (λ input. I.remaining input ≡ Some bytes))
        (W.contents output.old) (W.contents output.new)) }
{
    match standard {
        Some(input) => answer_lines(alloc, question, input, asked, output),
        None => Err(Failure::ReadTwice),
    }
}

// Answers the lines of a file or of the standard input.
fn answer_asked<R: Opens, I: Read + Drop, W: Write, E: Write + Drop>(
    inputs: &mut Inputs<'_, R, I, E>,
    question: &mut Question,
    asked: &Asked<'_>,
    output: &mut W,
) -> Result<bool, Failure>
    ensures answered { IfOk result (AnswersInput asked.now.style asked.now.format question.old
        (HasBytes R.content I.remaining inputs.old asked.now.path.now) (W.contents output.old)
        (W.contents output.new) question.new) }
    ensures stopped { IfErr result (StopsInput asked.now.style asked.now.format question.old
        (HasBytes R.content I.remaining inputs.old asked.now.path.now) (W.contents output.old)
        (W.contents output.new)) }
{
    if asked.path == "-" {
        let standard = inputs.standard.take();
        answer_standard(inputs.alloc, question, standard, asked, output)
    } else {
        answer_file(inputs.rt, inputs.alloc, question, asked, output)
    }
}

/// Answers lines about a list, and returns whether something was found. The command has this name
/// and these arguments.
///
/// # Errors
///
/// Why a list is not read, or a line not answered; the answers to the lines before it are written.
pub fn answer_all<R: Opens, I: Read + Drop, W: Write, E: Write + Drop>(
    inputs: &mut Inputs<'_, R, I, E>,
    name: &str,
    matches: &ArgMatches<'_>,
    output: &mut W,
) -> Result<bool, Failure>
    ensures answered { IfOk result (Answers name.now matches.now inputs.old.format
        (HasBytes R.content I.remaining inputs.old) (W.contents output.old)
        (W.contents output.new)) }
    ensures stopped { IfErr result (EndsEarly name.now matches.now inputs.old.format
        (HasBytes R.content I.remaining inputs.old) (W.contents output.old)
        (W.contents output.new)) }
{
    let mut question = question(inputs, name, matches)?;
    let asked = form_of(matches, inputs.format);
    let found = answer_asked(inputs, &mut question, &asked, output);
    // by a call, which is proved once for all that a question holds
    drop(question);
    found
}

// Does what a command says, and returns whether something was found.
fn obey<R: Files, I: Read + Drop, W: Write, E: Write + Drop>(
    inputs: &mut Inputs<'_, R, I, E>,
    name: &str,
    matches: &ArgMatches<'_>,
    output: &mut W,
) -> Result<bool, Failure> {
    inputs.format = line_format(matches);
    match name {
        "pack" => pack_file(inputs, matches, output)?,
        "combine" => combine_files(inputs, matches, output)?,
        "stats" => return show_measures(inputs, matches, output),
        "draw" => return show_tree(inputs, matches, output),
        _ => return answer_all(inputs, name, matches, output),
    }
    Ok(true)
}

// What the words of the command line are.
fn matched<'a>(alloc: Global, words: &'a [String]) -> Result<ArgMatches<'a>, Failure> {
    match options::command(alloc)?.try_get_matches_from(words) {
        Ok(matches) => Ok(matches),
        Err(error) => Err(Failure::Usage(error)),
    }
}

// Runs the program, and returns whether something was found.
fn run<R: Files, I: Read + Drop, W: Write, E: Write + Drop>(
    mut inputs: Inputs<'_, R, I, E>,
    words: &[String],
    output: &mut W,
) -> Result<bool, Failure> {
    let matches = matched(inputs.alloc, words)?;
    match matches.subcommand() {
        Some((name, matches)) => obey(&mut inputs, name, matches, output),
        None => Ok(false),
    }
}

// The status to end with, where nothing went wrong.
fn status(is_found: bool) -> u8
    ensures { result ≡ (if is_found then 0 else 1) }
{
    if is_found { 0 } else { 1 }
}

// Writes why the program does not answer to the end, and returns the status to end with.
fn complain<E: Write>(errors: &mut E, failure: &Failure) -> u8 {
    let _ = writeln!(errors, "prefixes: {failure}");
    2
}

// Returns the status to end with if the output is not written, and writes why, unless nobody reads
// it any more.
fn end_unwritten<E: Write>(errors: &mut E, error: io::Error) -> u8 {
    if error.kind() == ErrorKind::BrokenPipe {
        return CLOSED;
    }
    complain(errors, &Failure::Output(error))
}

// Writes the help or the version, and returns the status to end with.
fn show_help<W: Write, E: Write>(output: &mut W, errors: &mut E, help: &clap::Error) -> u8 {
    let mut written = write!(output, "{help}");
    if written.is_ok() {
        written = output.flush();
    }
    match written {
        Ok(()) => 0,
        Err(error) => end_unwritten(errors, error),
    }
}

// Writes what is wrong with the words of the command line, or what they ask for, and returns the
// status to end with.
fn show_usage<W: Write, E: Write>(output: &mut W, errors: &mut E, usage: &clap::Error) -> u8 {
    if !usage.use_stderr() {
        return show_help(output, errors, usage);
    }
    let _ = write!(errors, "{usage}");
    2
}

/// The program, over its words and streams. It returns the status to end with: 0 where something
/// was found or written, 1 where nothing was found, and 2 where something went wrong, which has a
/// line on `errors`. Where there is a `progress`, long lists tell it how far they are read.
pub fn serve<R: Files, I: Read + Drop, W: Write + Drop, E: Write + Drop>(
    rt: &R,
    alloc: Global,
    words: &[String],
    input: I,
    mut output: W,
    mut errors: E,
    progress: Option<E>,
) -> u8 {
    let inputs = Inputs {
        rt,
        alloc,
        standard: Some(input),
        progress,
        format: LineFormat {
            end: b'\n',
            keeps_cr: false,
        },
    };
    match run(inputs, words, &mut output) {
        Ok(is_found) => status(is_found),
        Err(Failure::Usage(usage)) => show_usage(&mut output, &mut errors, &usage),
        Err(Failure::Output(error)) => end_unwritten(&mut errors, error),
        Err(failure) => complain(&mut errors, &failure),
    }
}
