//! The examples of ranges, ends and changes of maps, as the documentation has them.

use crate::tests::asserts::{done, holds, map_of, same};
use patricia_tree::StringPatriciaMap;

#[test]
fn range_from(rt: HostRuntime) {
    // example: map range_from
    let map = map_of(&rt, rt.alloc(), &[("bar", 1), ("baz", 2), ("foo", 3)]);
    let mut rest = map.range_from("bas");
    if let Some(first) = rest.next() {
        let (key, value) = done(&rt, first);
        same!(rt; (key.as_str(), value), ("baz", &2));
    }
    // end
}

#[test]
fn range(rt: HostRuntime) {
    // example: map range
    let map = map_of(&rt, rt.alloc(), &[("bar", 1), ("baz", 2), ("foo", 3)]);
    for entry in map.range("bar", "foo") {
        let (key, _) = done(&rt, entry);
        holds!(rt; key.starts_with("ba"));
    }
    // end
}

#[test]
fn cursor_from(rt: HostRuntime) {
    // example: map cursor_from
    let map = map_of(&rt, rt.alloc(), &[("bar", 1), ("baz", 2), ("foo", 3)]);
    let mut cursor = map.cursor_from("baz");
    holds!(rt; done(&rt, cursor.advance()));
    same!(rt; (cursor.text(), cursor.value()), (Some("baz"), Some(&2)));
    holds!(rt; done(&rt, cursor.advance()));
    same!(rt; cursor.text(), Some("foo"));
    holds!(rt; !done(&rt, cursor.advance()));
    // end
}

#[test]
fn cursor_range(rt: HostRuntime) {
    // example: map cursor_range
    let map = map_of(&rt, rt.alloc(), &[("bar", 1), ("baz", 2), ("foo", 3)]);
    let mut cursor = map.cursor_range("bar", "baz");
    holds!(rt; done(&rt, cursor.advance()));
    same!(rt; cursor.text(), Some("bar"));
    holds!(rt; !done(&rt, cursor.advance()));
    // end
}

#[test]
fn first_key_value(rt: HostRuntime) {
    // example: map first_key_value
    let map = map_of(&rt, rt.alloc(), &[("foo", 1), ("bar", 2)]);
    if let Some((key, value)) = done(&rt, map.first_key_value()) {
        same!(rt; (key.as_str(), value), ("bar", &2));
    }
    // end
}

#[test]
fn first_after(rt: HostRuntime) {
    // example: map first_after
    let map = map_of(&rt, rt.alloc(), &[("bar", 1), ("foo", 2)]);
    if let Some((key, value)) = done(&rt, map.first_after("bar")) {
        same!(rt; (key.as_str(), value), ("foo", &2));
    }
    holds!(rt; done(&rt, map.first_after("foo")).is_none());
    // end
}

#[test]
fn count_prefix(rt: HostRuntime) {
    // example: map count_prefix
    let map = map_of(&rt, rt.alloc(), &[("bar", 1), ("baz", 2), ("foo", 3)]);
    same!(rt; done(&rt, map.count_prefix("ba")), 2);
    // end
}

#[test]
fn remove_prefix(rt: HostRuntime) {
    // example: map remove_prefix
    let mut map = map_of(&rt, rt.alloc(), &[("bar", 1), ("baz", 2)]);
    same!(rt; done(&rt, map.remove_prefix("ba")), 2);
    holds!(rt; map.is_empty());
    // end
}

#[test]
fn update(rt: HostRuntime) {
    // example: map update
    let mut map = map_of(&rt, rt.alloc(), &[("foo", 1)]);
    holds!(rt; map.update("foo", |value| *value = 5).is_some());
    holds!(rt; map.update("bar", |value| *value = 5).is_none());
    same!(rt; map.get("foo"), Some(&5));
    // end
}

#[test]
fn insert_with(rt: HostRuntime) {
    // example: map insert_with
    let mut map = map_of(&rt, rt.alloc(), &[("foo", 1)]);
    holds!(rt; !done(&rt, map.insert_with("foo", || 5)));
    holds!(rt; done(&rt, map.insert_with("bar", || 5)));
    same!(rt; map.get("bar"), Some(&5));
    // end
}

#[test]
fn last_key_value(rt: HostRuntime) {
    // example: map last_key_value
    let map = map_of(&rt, rt.alloc(), &[("foo", 1), ("bar", 2)]);
    if let Some((key, value)) = done(&rt, map.last_key_value()) {
        same!(rt; (key.as_str(), value), ("foo", &1));
    }
    // end
}

#[test]
fn last_before(rt: HostRuntime) {
    // example: map last_before
    let map = map_of(&rt, rt.alloc(), &[("bar", 1), ("foo", 2)]);
    if let Some((key, value)) = done(&rt, map.last_before("foo")) {
        same!(rt; (key.as_str(), value), ("bar", &1));
    }
    holds!(rt; done(&rt, map.last_before("bar")).is_none());
    // end
}

#[test]
fn pop_first(rt: HostRuntime) {
    // example: map pop_first
    let mut map = map_of(&rt, rt.alloc(), &[("foo", 1), ("bar", 2)]);
    if let Some((key, value)) = done(&rt, map.pop_first()) {
        same!(rt; (key.as_str(), value), ("bar", 2));
    }
    same!(rt; map.len(), 1);
    // end
}

#[test]
fn pop_last(rt: HostRuntime) {
    // example: map pop_last
    let mut map = map_of(&rt, rt.alloc(), &[("foo", 1), ("bar", 2)]);
    if let Some((key, value)) = done(&rt, map.pop_last()) {
        same!(rt; (key.as_str(), value), ("foo", 1));
    }
    same!(rt; map.len(), 1);
    // end
}

#[test]
fn within(rt: HostRuntime) {
    // example: map within
    let map = map_of(&rt, rt.alloc(), &[("bar", 1), ("baz", 2), ("foo", 3)]);
    let mut cursor = map.within("bat", 1);
    holds!(rt; done(&rt, cursor.advance()));
    same!(rt; (cursor.text(), cursor.value()), (Some("bar"), Some(&1)));
    holds!(rt; done(&rt, cursor.advance()));
    same!(rt; cursor.text(), Some("baz"));
    holds!(rt; !done(&rt, cursor.advance()));
    // end
}

#[test]
fn skip(rt: HostRuntime) {
    let files = [
        ("README", 1),
        ("src/lib", 2),
        ("src/map/ends", 3),
        ("test/lib", 4),
    ];
    let map = done(&rt, StringPatriciaMap::from_iter(rt.alloc(), files));
    let mut cursor = map.cursor();
    holds!(rt; done(&rt, cursor.advance()));
    holds!(rt; done(&rt, cursor.advance()));
    same!(rt; cursor.text(), Some("src/lib"));
    cursor.skip(4);
    same!(rt; cursor.text(), Some("src/lib"));
    holds!(rt; done(&rt, cursor.advance()));
    same!(rt; cursor.text(), Some("test/lib"));
    holds!(rt; !done(&rt, cursor.advance()));
}
