//! The examples of the calls of sets, as the documentation has them.

use crate::tests::asserts::{done, holds, same, set_of};
use patricia_tree::{DecodeError, PatriciaSet, StringPatriciaSet, WireError};
use std::alloc::AllocError;
use std::vec::Vec;

#[test]
fn new(rt: HostRuntime) {
    // example: set new
    let set = PatriciaSet::new(rt.alloc());
    holds!(rt; set.is_empty());
    // end
}

#[test]
fn len(rt: HostRuntime) {
    // example: set len
    let mut set = StringPatriciaSet::new(rt.alloc());
    done(&rt, set.insert("foo"));
    done(&rt, set.insert("foo"));
    same!(rt; set.len(), 1);
    // end
}

#[test]
fn is_empty(rt: HostRuntime) {
    // example: set is_empty
    let mut set = StringPatriciaSet::new(rt.alloc());
    holds!(rt; set.is_empty());
    done(&rt, set.insert(""));
    holds!(rt; !set.is_empty());
    // end
}

#[test]
fn clear(rt: HostRuntime) {
    // example: set clear
    let mut set = StringPatriciaSet::new(rt.alloc());
    done(&rt, set.insert("foo"));
    set.clear();
    holds!(rt; set.is_empty());
    // end
}

#[test]
fn contains(rt: HostRuntime) {
    // example: set contains
    let mut set = StringPatriciaSet::new(rt.alloc());
    done(&rt, set.insert("foo"));
    holds!(rt; set.contains("foo"));
    holds!(rt; !set.contains("bar"));
    // end
}

#[test]
fn contains_many_into(rt: HostRuntime) {
    // example: set contains_many_into
    let set = set_of(&rt, rt.alloc(), &["foo", "bar"]);
    let mut found = [false; 2];
    same!(rt; set.contains_many_into(&["bar", "baz", "foo"], &mut found), 2);
    same!(rt; found.as_slice(), [true, false].as_slice());
    // end
}

#[test]
fn contains_many(rt: HostRuntime) {
    // example: set contains_many
    let set = set_of(&rt, rt.alloc(), &["foo", "bar"]);
    let found = done(&rt, set.contains_many(&["bar", "baz", "foo"]));
    same!(rt; found.as_slice(), [true, false, true].as_slice());
    // end
}

#[test]
fn longest_many_into(rt: HostRuntime) {
    // example: set longest_many_into
    let set = set_of(&rt, rt.alloc(), &["foo", "bar"]);
    let mut found = [None; 2];
    same!(rt; set.longest_many_into(&["foot", "fo", "bar"], &mut found), 2);
    same!(rt; found.as_slice(), [Some("foo"), None].as_slice());
    // end
}

#[test]
fn longest_many(rt: HostRuntime) {
    // example: set longest_many
    let set = set_of(&rt, rt.alloc(), &["", "foo"]);
    let found = done(&rt, set.longest_many(&["foot", "bar"]));
    same!(rt; found.as_slice(), [Some("foo"), Some("")].as_slice());
    // end
}

#[test]
fn get_longest_common_prefix(rt: HostRuntime) {
    // example: set get_longest_common_prefix
    let mut set = StringPatriciaSet::new(rt.alloc());
    done(&rt, set.insert("foo"));
    done(&rt, set.insert("foobar"));
    same!(rt; set.get_longest_common_prefix("foobaz"), Some("foo"));
    same!(rt; set.get_longest_common_prefix("bar"), None);
    // end
}

#[test]
fn longest_common_prefix_len(rt: HostRuntime) {
    // example: set longest_common_prefix_len
    let mut set = StringPatriciaSet::new(rt.alloc());
    done(&rt, set.insert("foobar"));
    same!(rt; set.longest_common_prefix_len("foobaz"), 5);
    // end
}

#[test]
fn insert(rt: HostRuntime) {
    // example: set insert
    let mut set = StringPatriciaSet::new(rt.alloc());
    holds!(rt; done(&rt, set.insert("foo")));
    holds!(rt; !done(&rt, set.insert("foo")));
    // end
}

#[test]
fn remove(rt: HostRuntime) {
    // example: set remove
    let mut set = StringPatriciaSet::new(rt.alloc());
    done(&rt, set.insert("foo"));
    holds!(rt; done(&rt, set.remove("foo")));
    holds!(rt; !done(&rt, set.remove("foo")));
    // end
}

#[test]
fn clone(rt: HostRuntime) {
    // example: set clone
    let mut set = StringPatriciaSet::new(rt.alloc());
    done(&rt, set.insert("foo"));
    let copy = done(&rt, set.clone());
    set.clear();
    holds!(rt; copy.contains("foo"));
    // end
}

#[test]
fn split_by_prefix(rt: HostRuntime) {
    // example: set split_by_prefix
    let mut set = set_of(&rt, rt.alloc(), &["rust", "ruby", "python"]);
    let split = done(&rt, set.split_by_prefix("ru"));
    same!(rt; split.len(), 2);
    holds!(rt; split.contains("rust"));
    holds!(rt; set.contains("python"));
    // end
}

#[test]
fn tree_bytes(rt: HostRuntime) {
    // example: set tree_bytes
    let set = set_of(&rt, rt.alloc(), &["a"]);
    same!(rt; done(&rt, set.tree_bytes()).as_slice(), [12, 0, 0, 0, 3, 1, 0, 1, 97].as_slice());
    // end
}

#[test]
fn from_wire(rt: HostRuntime) {
    // example: set from_wire
    let bytes = [12, 0, 0, 0, 3, 1, 0, 1, 97];
    let values = done(&rt, Vec::from_slice(rt.alloc(), &[()]));
    let set = done(
        &rt,
        StringPatriciaSet::from_wire(rt.alloc(), &bytes, values),
    );
    holds!(rt; set.contains("a"));
    // end
}

#[test]
fn wide_tree_bytes(rt: HostRuntime) {
    // example: set wide_tree_bytes
    let set = set_of(&rt, rt.alloc(), &["a"]);
    same!(rt;
        done(&rt, set.wide_tree_bytes()).as_slice(),
        [12, 0, 0, 0, 0, 0, 3, 1, 0, 0, 0, 1, 97].as_slice()
    );
    // end
}

#[test]
fn from_wide_wire(rt: HostRuntime) {
    // example: set from_wide_wire
    let bytes = [12, 0, 0, 0, 0, 0, 3, 1, 0, 0, 0, 1, 97];
    let values = done(&rt, Vec::from_slice(rt.alloc(), &[()]));
    let set = done(
        &rt,
        StringPatriciaSet::from_wide_wire(rt.alloc(), &bytes, values),
    );
    holds!(rt; set.contains("a"));
    // end
}

#[test]
fn extend(rt: HostRuntime) {
    // example: set extend
    let mut set = StringPatriciaSet::new(rt.alloc());
    done(&rt, set.extend(["foo", "bar", "foo"]));
    same!(rt; set.len(), 2);
    // end
}

#[test]
fn from_iter(rt: HostRuntime) {
    // example: set from_iter
    let set = done(
        &rt,
        StringPatriciaSet::from_iter(rt.alloc(), ["foo", "bar"]),
    );
    holds!(rt; set.contains("bar"));
    // end
}

#[test]
fn iter(rt: HostRuntime) {
    // example: set iter
    let set = set_of(&rt, rt.alloc(), &["foo", "bar"]);
    let mut elements = set.iter();
    same!(rt; done(&rt, elements.next().transpose()).as_deref(), Some("bar"));
    same!(rt; done(&rt, elements.next().transpose()).as_deref(), Some("foo"));
    holds!(rt; elements.next().is_none());
    // end
}

#[test]
fn iter_prefix(rt: HostRuntime) {
    // example: set iter_prefix
    let set = set_of(&rt, rt.alloc(), &["foo", "bar", "baz"]);
    let mut elements = set.iter_prefix("ba");
    same!(rt; done(&rt, elements.next().transpose()).as_deref(), Some("bar"));
    same!(rt; done(&rt, elements.next().transpose()).as_deref(), Some("baz"));
    holds!(rt; elements.next().is_none());
    // end
}

#[test]
fn cursor(rt: HostRuntime) {
    // example: set cursor
    let set = set_of(&rt, rt.alloc(), &["foo", "bar"]);
    let mut cursor = set.cursor();
    holds!(rt; done(&rt, cursor.advance()));
    same!(rt; cursor.text(), Some("bar"));
    // end
}

#[test]
fn cursor_prefix(rt: HostRuntime) {
    // example: set cursor_prefix
    let set = set_of(&rt, rt.alloc(), &["foo", "bar", "baz"]);
    let mut cursor = set.cursor_prefix("f");
    holds!(rt; done(&rt, cursor.advance()));
    same!(rt; cursor.text(), Some("foo"));
    holds!(rt; !done(&rt, cursor.advance()));
    // end
}
