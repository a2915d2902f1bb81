//! The examples of cursors that read, as the documentation has them.

use crate::tests::asserts::{done, holds, map_of, same};
use patricia_tree::is_within;

#[test]
fn advance(rt: HostRuntime) {
    // example: read_cursor advance key value text
    let map = map_of(&rt, rt.alloc(), &[("foo", 1), ("bar", 2)]);
    let mut cursor = map.cursor();
    same!(rt; cursor.text(), None);
    holds!(rt; done(&rt, cursor.advance()));
    same!(rt; (cursor.text(), cursor.value()), (Some("bar"), Some(&2)));
    holds!(rt; done(&rt, cursor.advance()));
    same!(rt; cursor.key(), Some(b"foo".as_slice()));
    holds!(rt; !done(&rt, cursor.advance()));
    // end
}

#[test]
fn skip(rt: HostRuntime) {
    // example: read_cursor skip
    let map = map_of(&rt, rt.alloc(), &[("a/b", 1), ("a/c", 2), ("d", 3)]);
    let mut cursor = map.cursor();
    holds!(rt; done(&rt, cursor.advance()));
    cursor.skip(2);
    holds!(rt; done(&rt, cursor.advance()));
    same!(rt; cursor.text(), Some("d"));
    // end
}

#[test]
fn end(rt: HostRuntime) {
    // example: read_cursor end
    let map = map_of(&rt, rt.alloc(), &[("foo", 1), ("bar", 2)]);
    let mut cursor = map.cursor();
    cursor.end();
    holds!(rt; !done(&rt, cursor.advance()));
    // end
}

#[test]
fn advance_under(rt: HostRuntime) {
    // example: prefix_read_cursor advance key value text
    let map = map_of(&rt, rt.alloc(), &[("foo", 1), ("bar", 2), ("baz", 3)]);
    let mut cursor = map.cursor_prefix("ba");
    holds!(rt; done(&rt, cursor.advance()));
    same!(rt; (cursor.text(), cursor.value()), (Some("bar"), Some(&2)));
    holds!(rt; done(&rt, cursor.advance()));
    same!(rt; cursor.key(), Some(b"baz".as_slice()));
    holds!(rt; !done(&rt, cursor.advance()));
    // end
}

#[test]
fn advance_in_range(rt: HostRuntime) {
    // example: range_read_cursor advance key value text
    let map = map_of(&rt, rt.alloc(), &[("bar", 1), ("baz", 2), ("foo", 3)]);
    let mut cursor = map.cursor_range("bas", "foo");
    holds!(rt; done(&rt, cursor.advance()));
    same!(rt; (cursor.text(), cursor.value()), (Some("baz"), Some(&2)));
    same!(rt; cursor.key(), Some(b"baz".as_slice()));
    holds!(rt; !done(&rt, cursor.advance()));
    // end
}

#[test]
fn next_entry(rt: HostRuntime) {
    // example: range_read_cursor next_entry
    let map = map_of(&rt, rt.alloc(), &[("bar", 1), ("foo", 2)]);
    let mut cursor = map.cursor_from("baz");
    if let Some((key, value)) = done(&rt, cursor.next_entry()) {
        same!(rt; (key.as_str(), value), ("foo", &2));
    }
    holds!(rt; done(&rt, cursor.next_entry()).is_none());
    // end
}

#[test]
fn advance_near(rt: HostRuntime) {
    // example: near_cursor advance key value text
    let map = map_of(&rt, rt.alloc(), &[("sitting", 1), ("sting", 2)]);
    let mut cursor = map.within("string", 1);
    holds!(rt; done(&rt, cursor.advance()));
    same!(rt; (cursor.text(), cursor.value()), (Some("sting"), Some(&2)));
    same!(rt; cursor.key(), Some(b"sting".as_slice()));
    holds!(rt; !done(&rt, cursor.advance()));
    // end
}

#[test]
fn within(rt: HostRuntime) {
    // example: distance is_within
    holds!(rt; done(&rt, is_within(rt.alloc(), "kitten", "sitting", 3)));
    holds!(rt; !done(&rt, is_within(rt.alloc(), "kitten", "sitting", 2)));
    // end
}
