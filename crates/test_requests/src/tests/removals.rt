// Of three removals the third alone joins labels. They are taken out of a copy, which has no room
// for more bytes of labels, so the joined label asks for memory, once.
use super::helpers::map_of;
use crate::tests::asserts::{done, holds};
use patricia_tree::{BorrowedBytes, GenericPatriciaMap};
use std::alloc::{AllocError, Global};
use std::process::Abort;

const STEM: &str = "123";

const DIGITS: &str = "123456";

const FIRST: &str = "123abc";

const LAST: &str = "123def";

// Four keys, of which one begins the others.
const KEYS: [&str; 4] = [STEM, DIGITS, FIRST, LAST];

// Whether a key is removed that had its length in bytes.
fn is_removed<Q: BorrowedBytes>(map: &mut GenericPatriciaMap<Q::Owned, u64>, key: Q) -> bool {
    match map.remove(key) {
        Ok(old) => old == Some(key.as_bytes().len() as u64),
        Err(_) => false,
    }
}

fn are_removed<Q: BorrowedBytes>(map: &mut GenericPatriciaMap<Q::Owned, u64>, keys: &[Q]) -> bool {
    for key in keys {
        if !is_removed(map, *key) {
            return false;
        }
    }
    true
}

// Makes a map of keys, and takes some out of a copy.
fn remove_some<Q: BorrowedBytes>(
    rt: &impl Abort,
    alloc: Global,
    keys: &[Q],
    removed: &[Q],
) -> Result<(), AllocError> {
    let mut map = map_of(alloc, keys)?.clone()?;
    holds!(rt; map.len() == keys.len());
    holds!(rt; are_removed(&mut map, removed));
    Ok(())
}

#[test]
fn none_of_three(rt: HostRuntime) {
    done(&rt, remove_some(&rt, rt.alloc(), &KEYS, &[]));
}

#[test]
fn two_of_three(rt: HostRuntime) {
    done(&rt, remove_some(&rt, rt.alloc(), &KEYS, &[LAST, DIGITS]));
}

#[test]
fn three_of_three(rt: HostRuntime) {
    done(
        &rt,
        remove_some(&rt, rt.alloc(), &KEYS, &[LAST, DIGITS, STEM]),
    );
}
