// Look-ups of many keys side by side.
use super::helpers::{map_of, set_of};
use crate::tests::asserts::{done, holds};
use patricia_tree::{BorrowedBytes, GenericPatriciaMap, GenericPatriciaSet, StringPatriciaMap};
use std::alloc::{AllocError, Global};
use std::process::Abort;

// How many answers a call gives, or 0 where it fails.
fn len<T: Drop>(answers: Result<Vec<T>, AllocError>) -> usize {
    match answers {
        Ok(answers) => answers.len(),
        Err(_) => 0,
    }
}

// Whether each key is answered by the calls that make a list.
fn are_answered<Q: BorrowedBytes>(
    map: &GenericPatriciaMap<Q::Owned, u64>,
    set: &GenericPatriciaSet<Q::Owned>,
    keys: &[Q],
) -> bool {
    let count = keys.len();
    len(map.get_many(keys)) == count
        && len(map.contains_many(keys)) == count
        && len(map.longest_many(keys)) == count
        && len(set.contains_many(keys)) == count
}

const STORED: [&str; 3] = ["", "あ", "あいうえおかきくけこさし"];

const BYTES: [&[u8]; 3] = [b"", b"bar", b"bar bar bar bar bar bar bar bar bar foo foo"];

// Whether thousands of keys are answered.
fn are_thousands_answered(alloc: Global) -> Result<bool, AllocError> {
    let map = map_of(alloc, &BYTES)?;
    let set = set_of(alloc, &BYTES)?;
    Ok(are_answered(&map, &set, &[b"bar".as_slice(); 5_000]))
}

// An allocation failure that did not happen meets the contracts.
#[test]
fn thousands(rt: HostRuntime) {
    holds!(rt; done(&rt, are_thousands_answered(rt.alloc())));
}

// Looks the longest prefixes of keys up, which go where the caller says.
fn look_up_longest(rt: &impl Abort, map: &StringPatriciaMap<u64>, keys: &[&str]) {
    holds!(rt; map.longest_many_into(keys, &mut [None; 8]) == keys.len());
}

#[test]
fn texts_made(rt: HostRuntime) {
    let map = done(&rt, map_of(rt.alloc(), &STORED));
    look_up_longest(&rt, &map, &[]);
}

#[test]
fn texts_called(rt: HostRuntime) {
    let map = done(&rt, map_of(rt.alloc(), &STORED));
    look_up_longest(&rt, &map, &["", "あ", "あいうえおかきくけこさしす", "ん"]);
}
