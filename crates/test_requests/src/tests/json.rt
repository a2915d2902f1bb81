//! The JSON of tree bytes and values: which texts are pairs, and how these are written again.

use crate::tests::asserts::{done, same};
use patricia_json::{JsonError, pair_from_json, pair_to_json};
use std::alloc::{AllocError, Global};
use std::process::Abort;

// What is read from a text, written again, or `None` where the text is no pair.
fn rewritten(alloc: Global, text: &str) -> Result<Option<String>, AllocError> {
    match pair_from_json(alloc, text) {
        Ok((bytes, values)) => Ok(Some(pair_to_json(alloc, &bytes, values)?)),
        Err(JsonError::Json) => Ok(None),
        Err(JsonError::Memory) => Err(AllocError),
    }
}

// Asserts how a text is written again.
fn check(rt: &impl Abort, alloc: Global, text: &str, wanted: Option<&str>) {
    let again = done(rt, rewritten(alloc, text));
    same!(rt; again.as_deref(), wanted);
}

// The first has a tree with the keys "bar", "baz" and "foo". The values are of each kind, and the
// numbers the greatest and the least.
const PAIRS: [&str; 7] = [
    "[[12,0,0,0,60,2,0,1,98,97,51,1,0,2,114,3,1,0,2,122,3,3,0,1,102,111,111],[2,3,1]]",
    "[[3,0,0,0],[null]]",
    "[[0,0,0,0],[]]",
    "[[255],[null,18446744073709551615]]",
    "[[],[]]",
    "[[1],[true,false,\"a\\\"b\",[],{},[[null],{\"k\":[1]}]]]",
    "[[],[18446744073709551615,-9223372036854775808]]",
];

#[test]
fn pairs(rt: HostRuntime) {
    for text in PAIRS {
        check(&rt, rt.alloc(), text, Some(text));
    }
}

// Spaces go, and the later of two members with a name stays.
#[test]
fn pairs_of_other_texts(rt: HostRuntime) {
    let spaces = " [\n\t[ 1 , 2 ] , [ 3, null ]\r\n] ";
    check(&rt, rt.alloc(), spaces, Some("[[1,2],[3,null]]"));
    let members = "[[],[{\"b\":1,\"a\":2,\"b\":3}]]";
    check(&rt, rt.alloc(), members, Some("[[],[{\"a\":2,\"b\":3}]]"));
}

const NO_PAIRS: [&str; 14] = [
    "",
    "{}",
    "[]",
    "[[1]]",
    "[[1],[],[]]",
    "[1,[]]",
    "[[1],1]",
    "[[1],[]",
    "[[1],[]]]",
    "[[1],[]]x",
    "[[256],[]]",
    "[[-1],[]]",
    "[[null],[]]",
    "[[01],[]]",
];

#[test]
fn no_pairs(rt: HostRuntime) {
    for text in NO_PAIRS {
        check(&rt, rt.alloc(), text, None);
    }
}

// Floating-point numbers, as `serde_json` reads them.
const FLOATS: [&str; 8] = [
    "1.5",
    "1.0",
    "1e0",
    "1E2",
    "-0",
    "18446744073709551616",
    "-9223372036854775809",
    "1e999",
];

// Asserts that a floating-point number as a byte, as a value and within a value makes no pair.
fn check_float(rt: &impl Abort, alloc: Global, float: &str) {
    let byte = done(rt, format!(in alloc; "[[{float}],[]]"));
    check(rt, alloc, &byte, None);
    let value = done(rt, format!(in alloc; "[[1],[2,{float}]]"));
    check(rt, alloc, &value, None);
    let inner = done(rt, format!(in alloc; "[[1],[[{{\"k\":[{float}]}}],2]]"));
    check(rt, alloc, &inner, None);
}

#[test]
fn floats(rt: HostRuntime) {
    for float in FLOATS {
        check_float(&rt, rt.alloc(), float);
    }
}

// A pair with a value of so many nested arrays.
fn nested(alloc: Global, depth: usize) -> Result<String, AllocError> {
    let opened = "[".repeat(alloc, depth)?;
    let closed = "]".repeat(alloc, depth)?;
    format!(in alloc; "[[1],[{opened}{closed}]]")
}

#[test]
fn nested_too_deep(rt: HostRuntime) {
    let most = done(&rt, nested(rt.alloc(), 125));
    check(&rt, rt.alloc(), &most, Some(&most));
    let more = done(&rt, nested(rt.alloc(), 126));
    check(&rt, rt.alloc(), &more, None);
}

// Asserts how a text is written again, where one memory request may be refused: the call that it is
// for says so, and is made again.
fn check_again(rt: &impl Abort, alloc: Global, text: &str, wanted: Option<&str>) {
    if let Ok(again) = rewritten(alloc, text) {
        same!(rt; again.as_deref(), wanted);
        return;
    }
    check(rt, alloc, text, wanted);
}

// `tests/test_refusals.py` refuses the Nth request, for each N.
#[test]
fn texts_refused_in_turn(rt: HostRuntime) {
    let text = "[[3,0,0,0,255],[18446744073709551615,null,7,8,9]]";
    check_again(&rt, rt.alloc(), text, Some(text));
    check_again(&rt, rt.alloc(), "[[3,256],[7]]", None);
}
