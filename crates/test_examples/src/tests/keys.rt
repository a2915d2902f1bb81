//! The examples of the key traits, as the documentation has them.

use crate::tests::asserts::{done, holds, same};
use patricia_tree::{BorrowedBytes, Bytes};
use std::cmp::Ordering;
use std::string::String;

#[test]
fn is_valid_bytes(rt: HostRuntime) {
    // example: keys is_valid_bytes floor_boundary
    // a text of two characters, whose second is cut
    let bytes = [97, 227, 129];
    holds!(rt; !String::is_valid_bytes(&bytes));
    same!(rt; String::floor_boundary(&bytes), 1);
    // end
}

#[test]
fn from_bytes(rt: HostRuntime) {
    // example: keys from_bytes as_bytes is_empty
    let borrowed = "foo";
    let key = done(
        &rt,
        String::from_bytes(rt.alloc(), BorrowedBytes::as_bytes(&borrowed)),
    );
    same!(rt; Bytes::as_bytes(&key), b"foo".as_slice());
    holds!(rt; !BorrowedBytes::is_empty(&borrowed));
    // end
}

#[test]
fn strip_common_prefix(rt: HostRuntime) {
    // example: keys strip_common_prefix strip_common_prefix_and_len
    same!(rt; "foobar".strip_common_prefix(b"foxes"), "obar");
    same!(rt; "foobar".strip_common_prefix_and_len(b"foxes"), ("obar", 2));
    // two characters that begin with the same byte have none in common
    same!(rt; "あ".strip_common_prefix("い".as_bytes()), "あ");
    // end
}

#[test]
fn cmp_first_item(rt: HostRuntime) {
    // example: keys cmp_first_item
    let other = "bar";
    let order = "foo".cmp_first_item(BorrowedBytes::as_bytes(&other));
    same!(rt; order, Ordering::Greater);
    // end
}

// example: keys strip_n_prefix keep_n_prefix
// The first bytes of a key and the others, where the first are whole items.
fn halves<Q: BorrowedBytes>(key: Q, n: usize) -> Option<(Q, Q)> {
    let Some(front) = key.as_bytes().get(..n) else {
        return None;
    };
    if !Q::Owned::is_valid_bytes(front) {
        return None;
    }
    Some((key.keep_n_prefix(n), key.strip_n_prefix(n)))
}
// end

#[test]
fn strip_n_prefix(rt: HostRuntime) {
    holds!(rt; halves("foobar", 3) == Some(("foo", "bar")));
    holds!(rt; halves("あ", 1).is_none());
    holds!(rt; halves("foo", 4).is_none());
}
