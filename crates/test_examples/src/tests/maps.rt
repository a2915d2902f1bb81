//! The examples of the calls of maps, as the documentation has them.

use crate::tests::asserts::{alike, done, holds, map_of, same};
use patricia_tree::{DecodeError, PatriciaMap, StringPatriciaMap};
use std::vec::Vec;

#[test]
fn words(rt: HostRuntime) {
    // example: lib words
    let mut map = StringPatriciaMap::new(rt.alloc());
    done(&rt, map.insert("rust", 1));
    done(&rt, map.insert("ruby", 2));
    same!(rt; map.get("ruby"), Some(&2));
    assert_eq!(rt; map.get_longest_common_prefix("rusty"), Some(("rust", &1)));
    same!(rt; done(&rt, map.count_prefix("ru")), 2);
    // end
}

#[test]
fn new(rt: HostRuntime) {
    // example: map new
    let map: PatriciaMap<u32> = PatriciaMap::new(rt.alloc());
    holds!(rt; map.is_empty());
    // end
}

#[test]
fn len(rt: HostRuntime) {
    // example: map len
    let mut map = StringPatriciaMap::new(rt.alloc());
    done(&rt, map.insert("", 1));
    done(&rt, map.insert("foo", 2));
    same!(rt; map.len(), 2);
    // end
}

#[test]
fn is_empty(rt: HostRuntime) {
    // example: map is_empty
    let mut map = StringPatriciaMap::new(rt.alloc());
    holds!(rt; map.is_empty());
    done(&rt, map.insert("foo", 1));
    holds!(rt; !map.is_empty());
    // end
}

#[test]
fn clear(rt: HostRuntime) {
    // example: map clear
    let mut map = StringPatriciaMap::new(rt.alloc());
    done(&rt, map.insert("foo", 1));
    map.clear();
    holds!(rt; map.is_empty());
    // end
}

#[test]
fn contains_key(rt: HostRuntime) {
    // example: map contains_key
    let mut map = StringPatriciaMap::new(rt.alloc());
    done(&rt, map.insert("foo", 1));
    holds!(rt; map.contains_key("foo"));
    holds!(rt; !map.contains_key("fo"));
    // end
}

#[test]
fn get(rt: HostRuntime) {
    // example: map get
    let mut map = StringPatriciaMap::new(rt.alloc());
    done(&rt, map.insert("foo", 1));
    same!(rt; map.get("foo"), Some(&1));
    same!(rt; map.get("foobar"), None);
    // end
}

#[test]
fn get_many_into(rt: HostRuntime) {
    // example: map get_many_into
    let map = map_of(&rt, rt.alloc(), &[("foo", 1), ("bar", 2)]);
    let mut found = [None; 2];
    same!(rt; map.get_many_into(&["bar", "baz", "foo"], &mut found), 2);
    alike!(rt; found, [Some(&2), None]);
    // end
}

#[test]
fn contains_many_into(rt: HostRuntime) {
    // example: map contains_many_into
    let map = map_of(&rt, rt.alloc(), &[("foo", 1), ("bar", 2)]);
    let mut found = [false; 2];
    same!(rt; map.contains_many_into(&["bar", "baz", "foo"], &mut found), 2);
    alike!(rt; found, [true, false]);
    // end
}

#[test]
fn contains_many(rt: HostRuntime) {
    // example: map contains_many
    let map = map_of(&rt, rt.alloc(), &[("foo", 1), ("bar", 2)]);
    let found = done(&rt, map.contains_many(&["bar", "baz", "foo"]));
    same!(rt; found.as_slice(), [true, false, true].as_slice());
    // end
}

#[test]
fn longest_many_into(rt: HostRuntime) {
    // example: map longest_many_into
    let map = map_of(&rt, rt.alloc(), &[("foo", 1), ("bar", 2)]);
    let mut found = [None; 2];
    same!(rt; map.longest_many_into(&["foot", "fo", "bar"], &mut found), 2);
    alike!(rt; found, [Some(("foo", &1)), None]);
    // end
}

#[test]
fn longest_many(rt: HostRuntime) {
    // example: map longest_many
    let map = map_of(&rt, rt.alloc(), &[("foo", 1), ("bar", 2)]);
    let entries = done(&rt, map.longest_many(&["foot", "fo", "bar"]));
    same!(rt; entries.as_slice(), [Some(("foo", &1)), None, Some(("bar", &2))].as_slice());
    // end
}

#[test]
fn get_many(rt: HostRuntime) {
    // example: map get_many
    let map = map_of(&rt, rt.alloc(), &[("foo", 1), ("bar", 2)]);
    let values = done(&rt, map.get_many(&["bar", "baz", "foo"]));
    same!(rt; values.as_slice(), [Some(&2), None, Some(&1)].as_slice());
    // end
}

#[test]
fn get_mut(rt: HostRuntime) {
    // example: map get_mut
    let mut map = StringPatriciaMap::new(rt.alloc());
    done(&rt, map.insert("foo", 1));
    if let Some(value) = map.get_mut("foo") {
        *value = 5;
    }
    same!(rt; map.get("foo"), Some(&5));
    // end
}

#[test]
fn get_longest_common_prefix(rt: HostRuntime) {
    // example: map get_longest_common_prefix
    let mut map = StringPatriciaMap::new(rt.alloc());
    done(&rt, map.insert("foo", 1));
    done(&rt, map.insert("foobar", 2));
    assert_eq!(rt; map.get_longest_common_prefix("foobaz"), Some(("foo", &1)));
    assert_eq!(rt;
        map.get_longest_common_prefix("foobarbaz"),
        Some(("foobar", &2))
    );
    assert_eq!(rt; map.get_longest_common_prefix("fo"), None);
    // end
}

#[test]
fn get_longest_common_prefix_mut(rt: HostRuntime) {
    // example: map get_longest_common_prefix_mut
    let mut map = StringPatriciaMap::new(rt.alloc());
    done(&rt, map.insert("foo", 1));
    if let Some((key, value)) = map.get_longest_common_prefix_mut("foobar") {
        same!(rt; key, "foo");
        *value = 4;
    }
    same!(rt; map.get("foo"), Some(&4));
    // end
}

#[test]
fn with_longest_common_prefix_mut(rt: HostRuntime) {
    // example: map with_longest_common_prefix_mut
    let mut map = StringPatriciaMap::new(rt.alloc());
    done(&rt, map.insert("foo", 1));
    let found = map.with_longest_common_prefix_mut("foobar", |_key, value| *value = 4);
    holds!(rt; found.is_some());
    same!(rt; map.get("foo"), Some(&4));
    // end
}

#[test]
fn longest_common_prefix_len(rt: HostRuntime) {
    // example: map longest_common_prefix_len
    let mut map = StringPatriciaMap::new(rt.alloc());
    done(&rt, map.insert("foobar", 1));
    same!(rt; map.longest_common_prefix_len("foobaz"), 5);
    same!(rt; map.longest_common_prefix_len("bar"), 0);
    // end
}

#[test]
fn common_prefixes(rt: HostRuntime) {
    // example: map common_prefixes
    let mut map = StringPatriciaMap::new(rt.alloc());
    done(&rt, map.insert("foo", 1));
    done(&rt, map.insert("foobar", 2));
    let mut entries = map.common_prefixes("foobarbaz");
    same!(rt; entries.next(), Some(("foo", &1)));
    same!(rt; entries.next(), Some(("foobar", &2)));
    same!(rt; entries.next(), None);
    // end
}

#[test]
fn common_prefix_values(rt: HostRuntime) {
    // example: map common_prefix_values
    let mut map = StringPatriciaMap::new(rt.alloc());
    done(&rt, map.insert("foo", 1));
    done(&rt, map.insert("foobar", 2));
    let mut values = map.common_prefix_values("foobarbaz");
    same!(rt; values.next(), Some(&1));
    same!(rt; values.next(), Some(&2));
    same!(rt; values.next(), None);
    // end
}

#[test]
fn common_prefix_values_owned(rt: HostRuntime) {
    // example: map common_prefix_values_owned
    let mut map = PatriciaMap::new(rt.alloc());
    done(&rt, map.insert(b"foo".as_slice(), 1));
    let mut values = map.common_prefix_values_owned(done(
        &rt,
        Vec::from_slice(rt.alloc(), b"foobar"),
    ));
    same!(rt; values.next(), Some(&1));
    same!(rt; values.next(), None);
    // end
}

#[test]
fn insert(rt: HostRuntime) {
    // example: map insert
    let mut map = PatriciaMap::new(rt.alloc());
    same!(rt; done(&rt, map.insert(b"foo".as_slice(), 1)), None);
    same!(rt; done(&rt, map.insert(b"foo".as_slice(), 2)), Some(1));
    same!(rt; map.get(b"foo".as_slice()), Some(&2));
    // end
}

#[test]
fn remove(rt: HostRuntime) {
    // example: map remove
    let mut map = StringPatriciaMap::new(rt.alloc());
    done(&rt, map.insert("foo", 1));
    same!(rt; done(&rt, map.remove("foo")), Some(1));
    same!(rt; done(&rt, map.remove("foo")), None);
    // end
}

#[test]
fn clone(rt: HostRuntime) {
    // example: map clone
    let mut map = StringPatriciaMap::new(rt.alloc());
    done(&rt, map.insert("foo", 1));
    let copy = done(&rt, map.clone());
    map.clear();
    same!(rt; copy.get("foo"), Some(&1));
    // end
}

#[test]
fn split_by_prefix(rt: HostRuntime) {
    // example: map split_by_prefix
    let mut map = StringPatriciaMap::new(rt.alloc());
    done(&rt, map.insert("rust", 1));
    done(&rt, map.insert("ruby", 2));
    done(&rt, map.insert("python", 3));
    let split = done(&rt, map.split_by_prefix("ru"));
    same!(rt; split.len(), 2);
    holds!(rt; split.contains_key("ruby"));
    same!(rt; map.len(), 1);
    holds!(rt; map.contains_key("python"));
    // end
}

#[test]
fn tree_bytes(rt: HostRuntime) {
    // example: map tree_bytes
    let mut map = StringPatriciaMap::new(rt.alloc());
    done(&rt, map.insert("a", 1));
    // the root, which has a child; and a node at level 1 with the label "a" and a value
    same!(rt; done(&rt, map.tree_bytes()).as_slice(), [12, 0, 0, 0, 3, 1, 0, 1, 97].as_slice());
    // end
}

#[test]
fn from_wire(rt: HostRuntime) {
    // example: map from_wire
    let bytes = [12, 0, 0, 0, 3, 1, 0, 1, 97];
    let values = done(&rt, Vec::from_slice(rt.alloc(), &[1]));
    let map = done(
        &rt,
        StringPatriciaMap::from_wire(rt.alloc(), &bytes, values),
    );
    same!(rt; map.get("a"), Some(&1));

    let cut = PatriciaMap::<u32>::from_wire(rt.alloc(), &bytes[..8], Vec::new(rt.alloc()));
    holds!(rt; matches!(cut, Err(DecodeError::Truncated(4))));
    // end
}

#[test]
fn wide_tree_bytes(rt: HostRuntime) {
    // example: map wide_tree_bytes
    let mut map = StringPatriciaMap::new(rt.alloc());
    done(&rt, map.insert("a", 1));
    same!(rt;
        done(&rt, map.wide_tree_bytes()).as_slice(),
        [12, 0, 0, 0, 0, 0, 3, 1, 0, 0, 0, 1, 97].as_slice()
    );
    // end
}

#[test]
fn from_wide_wire(rt: HostRuntime) {
    // example: map from_wide_wire
    let bytes = [12, 0, 0, 0, 0, 0, 3, 1, 0, 0, 0, 1, 97];
    let values = done(&rt, Vec::from_slice(rt.alloc(), &[1]));
    let map = done(
        &rt,
        StringPatriciaMap::from_wide_wire(rt.alloc(), &bytes, values),
    );
    same!(rt; map.get("a"), Some(&1));

    let cut = PatriciaMap::<u32>::from_wide_wire(rt.alloc(), &bytes[..4], Vec::new(rt.alloc()));
    holds!(rt; matches!(cut, Err(DecodeError::Truncated(0))));
    // end
}

#[test]
fn extend(rt: HostRuntime) {
    // example: map extend
    let mut map = StringPatriciaMap::new(rt.alloc());
    done(&rt, map.extend([("foo", 1), ("bar", 2), ("foo", 3)]));
    same!(rt; map.len(), 2);
    same!(rt; map.get("foo"), Some(&3));
    // end
}

#[test]
fn from_iter(rt: HostRuntime) {
    // example: map from_iter
    let map = done(
        &rt,
        StringPatriciaMap::from_iter(rt.alloc(), [("foo", 1), ("bar", 2)]),
    );
    same!(rt; map.get("bar"), Some(&2));
    // end
}

#[test]
fn iter(rt: HostRuntime) {
    // example: map iter
    let map = map_of(&rt, rt.alloc(), &[("foo", 1), ("bar", 2)]);
    let mut entries = map.iter();
    if let Some(first) = entries.next() {
        let (key, value) = done(&rt, first);
        same!(rt; (key.as_str(), value), ("bar", &2));
    }
    // end
}

#[test]
fn iter_prefix(rt: HostRuntime) {
    // example: map iter_prefix
    let map = map_of(&rt, rt.alloc(), &[("foo", 1), ("bar", 2), ("baz", 3)]);
    for entry in map.iter_prefix("ba") {
        let (key, _) = done(&rt, entry);
        holds!(rt; key.starts_with("ba"));
    }
    // end
}

#[test]
fn keys(rt: HostRuntime) {
    // example: map keys
    let map = map_of(&rt, rt.alloc(), &[("foo", 1), ("bar", 2)]);
    let mut keys = map.keys();
    same!(rt; done(&rt, keys.next().transpose()).as_deref(), Some("bar"));
    same!(rt; done(&rt, keys.next().transpose()).as_deref(), Some("foo"));
    holds!(rt; keys.next().is_none());
    // end
}

#[test]
fn values(rt: HostRuntime) {
    // example: map values
    let map = map_of(&rt, rt.alloc(), &[("foo", 1), ("bar", 2)]);
    let mut values = map.values();
    same!(rt; done(&rt, values.next().transpose()), Some(&2));
    same!(rt; done(&rt, values.next().transpose()), Some(&1));
    holds!(rt; values.next().is_none());
    // end
}

#[test]
fn cursor(rt: HostRuntime) {
    // example: map cursor
    let map = map_of(&rt, rt.alloc(), &[("foo", 1), ("bar", 2)]);
    let mut cursor = map.cursor();
    holds!(rt; done(&rt, cursor.advance()));
    same!(rt; (cursor.text(), cursor.value()), (Some("bar"), Some(&2)));
    // end
}

#[test]
fn cursor_prefix(rt: HostRuntime) {
    // example: map cursor_prefix
    let map = map_of(&rt, rt.alloc(), &[("foo", 1), ("bar", 2), ("baz", 3)]);
    let mut cursor = map.cursor_prefix("ba");
    holds!(rt; done(&rt, cursor.advance()));
    same!(rt; cursor.text(), Some("bar"));
    holds!(rt; done(&rt, cursor.advance()));
    same!(rt; cursor.text(), Some("baz"));
    holds!(rt; !done(&rt, cursor.advance()));
    // end
}
