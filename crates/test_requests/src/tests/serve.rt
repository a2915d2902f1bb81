//! The program's statuses and error lines, over streams that may fail.

use super::streams::{Pieces, Progress, Takes, list_of};
use crate::tests::asserts::{done, holds, same};
use patricia_run::serve;
use std::alloc::{AllocError, Global};
use std::io::ErrorKind;
use std::process::Abort;

const USAGE: &str = "usage: ptree bytes|text|units\n";

const READ_FAILED: &str = "ptree: read failed\n";

const OUT_OF_MEMORY: &str = "ptree: out of memory\n";

const WRITE_FAILED: &str = "ptree: write failed\n";

/// How the streams of a run behave.
#[derive(Clone, Copy)]
struct Streams {
    read_failure: Option<ErrorKind>,
    room: usize,
    fails_to_flush: bool,
    error_room: usize,
}

// Streams that do not fail.
const SOUND: Streams = Streams {
    read_failure: None,
    room: 1_000_000,
    fails_to_flush: false,
    error_room: 100,
};

/// What a run comes to: its status, output and error line, and how far the input was read.
#[derive(Clone, Copy)]
struct End<'a> {
    status: u8,
    output: &'a str,
    errors: &'a str,
    read: Progress,
}

// Runs the program over such streams. It gives the status, and how far the input was read.
fn run_over(
    alloc: Global,
    words: &[String],
    text: &[u8],
    streams: Streams,
    output: &mut Vec<u8>,
    errors: &mut Vec<u8>,
) -> (u8, Progress) {
    let mut progress = Progress::Unasked;
    let input = Pieces {
        text,
        piece: 5,
        failure: streams.read_failure,
        progress: &mut progress,
    };
    let output = Takes {
        taken: output,
        room: streams.room,
        fails_to_flush: streams.fails_to_flush,
    };
    let errors = Takes {
        taken: errors,
        room: streams.error_room,
        fails_to_flush: false,
    };
    let status = serve(alloc, words, input, output, errors);
    (status, progress)
}

// Asserts what a run over such streams comes to, with these words.
fn check_run(rt: &impl Abort, alloc: Global, words: &[&str], streams: Streams, wanted: End<'_>) {
    let words = done(rt, list_of(alloc, words));
    let (mut output, mut errors) = (Vec::new(alloc), Vec::new(alloc));
    let text = b"insert\ta\t7\nget\ta".as_slice();
    let (status, read) = run_over(alloc, &words, text, streams, &mut output, &mut errors);
    same!(rt; (status, read), (wanted.status, wanted.read));
    same!(rt; output.as_slice(), wanted.output.as_bytes());
    same!(rt; errors.as_slice(), wanted.errors.as_bytes());
}

#[test]
fn answers(rt: HostRuntime) {
    let end = End {
        status: 0,
        output: "none\nsome 7\n",
        errors: "",
        read: Progress::Ended,
    };
    check_run(&rt, rt.alloc(), &["bytes"], SOUND, end);
}

// Asserts the status 1, what was written and the error line of a run.
fn check_failure(rt: &impl Abort, alloc: Global, streams: Streams, output: &str, errors: &str) {
    let read = match streams.read_failure {
        Some(_) => Progress::Begun,
        None => Progress::Ended,
    };
    let end = End {
        status: 1,
        output,
        errors,
        read,
    };
    check_run(rt, alloc, &["bytes"], streams, end);
}

const FAILS: Streams = Streams {
    read_failure: Some(ErrorKind::Other),
    ..SOUND
};

const STARVED: Streams = Streams {
    read_failure: Some(ErrorKind::OutOfMemory),
    ..SOUND
};

const MUTE: Streams = Streams {
    error_room: 0,
    ..FAILS
};

// An allocation failure while the input is read counts as a failure to read.
#[test]
fn failures_to_read(rt: HostRuntime) {
    check_failure(&rt, rt.alloc(), FAILS, "", READ_FAILED);
    check_failure(&rt, rt.alloc(), MUTE, "", "");
    check_failure(&rt, rt.alloc(), STARVED, "", READ_FAILED);
}

const FULL: Streams = Streams { room: 0, ..SOUND };

const SMALL: Streams = Streams { room: 3, ..SOUND };

const CURT: Streams = Streams {
    error_room: 5,
    ..SMALL
};

const STUCK: Streams = Streams {
    fails_to_flush: true,
    ..SOUND
};

// An answer that was not taken whole, or not flushed, is a failure to write.
#[test]
fn failures_to_write(rt: HostRuntime) {
    check_failure(&rt, rt.alloc(), FULL, "", WRITE_FAILED);
    check_failure(&rt, rt.alloc(), SMALL, "non", WRITE_FAILED);
    check_failure(&rt, rt.alloc(), CURT, "non", "ptree");
    check_failure(&rt, rt.alloc(), STUCK, "none\nsome 7\n", WRITE_FAILED);
}

// Words that are refused, how much room there is for the line of usage, and what is written of it.
const REFUSED_WORDS: [(&[&str], usize, &str); 7] = [
    (&[], 100, USAGE),
    (&["Bytes"], 100, USAGE),
    (&["texts"], 100, USAGE),
    (&["unit"], 100, USAGE),
    (&[""], 100, USAGE),
    (&["text", "bytes"], 100, USAGE),
    (&["bytes", "bytes"], 0, ""),
];

// Words are refused before the input is asked for anything.
#[test]
fn usage(rt: HostRuntime) {
    for (words, error_room, errors) in &REFUSED_WORDS {
        let streams = Streams {
            error_room: *error_room,
            ..FAILS
        };
        let end = End {
            status: 2,
            output: "",
            errors,
            read: Progress::Unasked,
        };
        check_run(&rt, rt.alloc(), words, streams, end);
    }
}

// What a run may answer where one memory request is refused, if it is one of its map.
const ANSWERS: [&str; 5] = [
    "none\nnone\nsome 1\nrows 1\nac 2\nok\ncount 0\n",
    "no memory\nnone\nnone\nrows 1\nac 2\nok\ncount 0\n",
    "none\nno memory\nsome 1\nrows 0\nok\ncount 0\n",
    "none\nnone\nno memory\nrows 2\nab 1\nac 2\nok\ncount 0\n",
    "none\nnone\nsome 1\nno memory\nok\ncount 0\n",
];

fn is_answer(output: &[u8]) -> bool {
    for answer in &ANSWERS {
        if answer.as_bytes() == output {
            return true;
        }
    }
    false
}

// The line of a run that wants memory: it says whether the end of the input had been seen.
fn failure_line(read: Progress) -> &'static str {
    match read {
        Progress::Ended => OUT_OF_MEMORY,
        _ => READ_FAILED,
    }
}

// Whether a run with one memory request refused was answered, or failed.
fn is_allowed(status: u8, read: Progress, output: &[u8], errors: &[u8]) -> bool {
    if status == 0 {
        return is_answer(output) & errors.is_empty();
    }
    (status == 1) & output.is_empty() & (errors == failure_line(read).as_bytes())
}

// The words and the room for what is written are asked for before the run. Where one of these
// requests is refused, there is no run.
fn run_refused(alloc: Global) -> Result<bool, AllocError> {
    let text = b"insert\tab\t1\ninsert\tac\t2\nremove\tab\nlist\nclear\nlen\n".as_slice();
    let words = list_of(alloc, &["text"])?;
    let mut output = Vec::with_capacity(alloc, 100)?;
    let mut errors = Vec::with_capacity(alloc, 100)?;
    let (status, read) = run_over(alloc, &words, text, SOUND, &mut output, &mut errors);
    Ok(is_allowed(status, read, &output, &errors))
}

// `tests/test_refusals.py` refuses the Nth request, for each N.
#[test]
fn refused_in_turn(rt: HostRuntime) {
    holds!(rt; run_refused(rt.alloc()).unwrap_or(true));
}
