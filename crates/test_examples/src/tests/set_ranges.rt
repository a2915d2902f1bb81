//! The examples of ranges, ends and counts of sets, as the documentation has them.

use crate::tests::asserts::{done, holds, same, set_of};
use patricia_tree::StringPatriciaSet;
use std::alloc::AllocError;

#[test]
fn range_from(rt: HostRuntime) {
    // example: set range_from
    let set = set_of(&rt, rt.alloc(), &["bar", "baz", "foo"]);
    let mut rest = set.range_from("bas");
    same!(rt; done(&rt, rest.next().transpose()).as_deref(), Some("baz"));
    same!(rt; done(&rt, rest.next().transpose()).as_deref(), Some("foo"));
    holds!(rt; rest.next().is_none());
    // end
}

#[test]
fn range(rt: HostRuntime) {
    // example: set range
    let set = set_of(&rt, rt.alloc(), &["bar", "baz", "foo"]);
    let mut some = set.range("bar", "baz");
    same!(rt; done(&rt, some.next().transpose()).as_deref(), Some("bar"));
    holds!(rt; some.next().is_none());
    // end
}

#[test]
fn cursor_from(rt: HostRuntime) {
    // example: set cursor_from
    let set = set_of(&rt, rt.alloc(), &["bar", "baz", "foo"]);
    let mut cursor = set.cursor_from("c");
    holds!(rt; done(&rt, cursor.advance()));
    same!(rt; cursor.text(), Some("foo"));
    holds!(rt; !done(&rt, cursor.advance()));
    // end
}

#[test]
fn cursor_range(rt: HostRuntime) {
    // example: set cursor_range
    let set = set_of(&rt, rt.alloc(), &["bar", "baz", "foo"]);
    let mut cursor = set.cursor_range("baz", "c");
    holds!(rt; done(&rt, cursor.advance()));
    same!(rt; cursor.text(), Some("baz"));
    holds!(rt; !done(&rt, cursor.advance()));
    // end
}

#[test]
fn first(rt: HostRuntime) {
    // example: set first
    let set = set_of(&rt, rt.alloc(), &["foo", "bar"]);
    same!(rt; done(&rt, set.first()).as_deref(), Some("bar"));
    // end
}

#[test]
fn first_after(rt: HostRuntime) {
    // example: set first_after
    let set = set_of(&rt, rt.alloc(), &["foo", "bar"]);
    same!(rt; done(&rt, set.first_after("bar")).as_deref(), Some("foo"));
    holds!(rt; done(&rt, set.first_after("foo")).is_none());
    // end
}

#[test]
fn count_prefix(rt: HostRuntime) {
    // example: set count_prefix
    let set = set_of(&rt, rt.alloc(), &["bar", "baz", "foo"]);
    same!(rt; done(&rt, set.count_prefix("ba")), 2);
    // end
}

#[test]
fn remove_prefix(rt: HostRuntime) {
    // example: set remove_prefix
    let mut set = set_of(&rt, rt.alloc(), &["bar", "baz", "foo"]);
    same!(rt; done(&rt, set.remove_prefix("ba")), 2);
    holds!(rt; set.contains("foo"));
    // end
}

#[test]
fn last(rt: HostRuntime) {
    // example: set last
    let set = set_of(&rt, rt.alloc(), &["foo", "bar"]);
    same!(rt; done(&rt, set.last()).as_deref(), Some("foo"));
    // end
}

#[test]
fn last_before(rt: HostRuntime) {
    // example: set last_before
    let set = set_of(&rt, rt.alloc(), &["foo", "bar"]);
    same!(rt; done(&rt, set.last_before("foo")).as_deref(), Some("bar"));
    holds!(rt; done(&rt, set.last_before("bar")).is_none());
    // end
}

#[test]
fn pop_first(rt: HostRuntime) {
    // example: set pop_first
    let mut set = set_of(&rt, rt.alloc(), &["foo", "bar"]);
    same!(rt; done(&rt, set.pop_first()).as_deref(), Some("bar"));
    same!(rt; set.len(), 1);
    // end
}

#[test]
fn pop_last(rt: HostRuntime) {
    // example: set pop_last
    let mut set = set_of(&rt, rt.alloc(), &["foo", "bar"]);
    same!(rt; done(&rt, set.pop_last()).as_deref(), Some("foo"));
    same!(rt; set.len(), 1);
    // end
}

#[test]
fn within(rt: HostRuntime) {
    // example: set within
    let set = set_of(&rt, rt.alloc(), &["sitting", "kitten", "kitchen"]);
    let mut cursor = set.within("kitten", 2);
    holds!(rt; done(&rt, cursor.advance()));
    same!(rt; cursor.text(), Some("kitchen"));
    holds!(rt; done(&rt, cursor.advance()));
    same!(rt; cursor.text(), Some("kitten"));
    holds!(rt; !done(&rt, cursor.advance()));
    // end
}
