//! The examples of whole maps, as the documentation has them.

use crate::tests::asserts::{done, holds, map_of, same};
use patricia_tree::{LoadError, StringPatriciaMap};

#[test]
fn equals(rt: HostRuntime) {
    // example: map equals
    let map = map_of(&rt, rt.alloc(), &[("foo", 1), ("bar", 2)]);
    let same = map_of(&rt, rt.alloc(), &[("bar", 2), ("foo", 1)]);
    let other = map_of(&rt, rt.alloc(), &[("bar", 2), ("foo", 3)]);
    holds!(rt; done(&rt, map.equals(&same)));
    holds!(rt; !done(&rt, map.equals(&other)));
    // end
}

#[test]
fn merge_with(rt: HostRuntime) {
    // example: map merge_with
    let mut map = map_of(&rt, rt.alloc(), &[("foo", 1), ("bar", 2)]);
    let other = map_of(&rt, rt.alloc(), &[("foo", 5), ("baz", 7)]);
    done(
        &rt,
        map.merge_with(other, |value, new| *value = (*value).max(new)),
    );
    same!(rt; map.get("foo"), Some(&5));
    same!(rt; map.len(), 3);
    // end
}

#[test]
fn get_or_insert_with(rt: HostRuntime) {
    // example: map get_or_insert_with
    let mut map = map_of(&rt, rt.alloc(), &[("foo", 1)]);
    *done(&rt, map.get_or_insert_with("foo", || 5)) = 2;
    *done(&rt, map.get_or_insert_with("bar", || 5)) = 7;
    same!(rt; map.get("foo"), Some(&2));
    same!(rt; map.get("bar"), Some(&7));
    // end
}

#[test]
fn for_each(rt: HostRuntime) {
    // example: map for_each
    let map = map_of(&rt, rt.alloc(), &[("quux", 1), ("bar", 2)]);
    let (mut longest, mut greatest) = (0, 0);
    done(
        &rt,
        map.for_each(&mut |key, value| {
            longest = longest.max(key.len());
            greatest = greatest.max(*value);
        }),
    );
    same!(rt; (longest, greatest), (4, 2));
    // end
}

#[test]
fn for_each_prefix(rt: HostRuntime) {
    // example: map for_each_prefix
    let map = map_of(&rt, rt.alloc(), &[("foo", 5), ("bar", 2), ("baz", 3)]);
    let mut greatest = 0;
    done(
        &rt,
        map.for_each_prefix("ba", &mut |_, value| greatest = greatest.max(*value)),
    );
    same!(rt; greatest, 3);
    // end
}

#[test]
fn retain(rt: HostRuntime) {
    // example: map retain
    let pairs = [("foo", 1), ("bar", 2), ("baz", 3)];
    let mut map = done(&rt, StringPatriciaMap::from_iter(rt.alloc(), pairs));
    done(
        &rt,
        map.retain(|key, value| {
            *value = (*value).max(3);
            key.starts_with(b"b")
        }),
    );
    same!(rt; map.len(), 2);
    same!(rt; map.get("bar"), Some(&3));
    // end
}

#[test]
fn sorted_load(rt: HostRuntime) {
    // example: map sorted_load
    let mut map = StringPatriciaMap::new(rt.alloc());
    done(&rt, map.sorted_load([("bar", 1), ("foo", 2)]));
    same!(rt; map.sorted_load([("quux", 3), ("baz", 4)]), Err(LoadError::NotInOrder));
    same!(rt; map.len(), 3);
    // end
}
