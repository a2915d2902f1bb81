//! The texts of errors that no line of data brings.
use crate::tests::asserts::{done, same};
use patricia_json::JsonError;
use patricia_tree::map::Refused;
use patricia_tree::{DecodeError, LoadError, WireError};
use std::alloc::Global;
use std::fmt::Display;
use std::process::Abort;

// Asserts the text of an error.
fn check_text<E: Display + Drop>(rt: &impl Abort, alloc: Global, error: E, wanted: &str) {
    let text = done(rt, error.to_string(alloc));
    same!(rt; text.as_str(), wanted);
}

#[test]
fn of_tree_bytes(rt: HostRuntime) {
    let (narrow, wide) = (
        "tree deeper than level 65535",
        "tree deeper than level 4294967295",
    );
    check_text(&rt, rt.alloc(), WireError::TooDeep, narrow);
    check_text(&rt, rt.alloc(), WireError::TooDeepWide, wide);
    check_text(&rt, rt.alloc(), WireError::Memory, "out of memory");
    check_text(&rt, rt.alloc(), DecodeError::Memory, "out of memory");
}

#[test]
fn of_loads(rt: HostRuntime) {
    check_text(&rt, rt.alloc(), LoadError::Memory, "out of memory");
    check_text(&rt, rt.alloc(), LoadError::NotInOrder, "key out of order");
}

#[test]
fn of_inserts(rt: HostRuntime) {
    check_text(&rt, rt.alloc(), Refused { value: 3u8 }, "out of memory");
}

#[test]
fn of_json(rt: HostRuntime) {
    check_text(&rt, rt.alloc(), JsonError::Memory, "out of memory");
    check_text(
        &rt,
        rt.alloc(),
        JsonError::Json,
        "not the JSON of a wire pair",
    );
}
