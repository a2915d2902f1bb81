//! The examples of cursors, as the documentation has them.

use crate::tests::asserts::{done, holds, map_of, same};
use patricia_tree::{BorrowedBytes, GenericPatriciaMap, StringPatriciaMap};
use std::alloc::AllocError;

#[test]
fn iter_mut(rt: HostRuntime) {
    // example: map iter_mut
    let mut map = map_of(&rt, rt.alloc(), &[("foo", 1), ("bar", 2)]);
    let mut cursor = map.iter_mut();
    same!(rt; done(&rt, cursor.advance()).as_deref(), Some("bar"));
    if let Some(value) = cursor.value() {
        *value = 5;
    }
    drop(cursor);
    same!(rt; map.get("bar"), Some(&5));
    // end
}

#[test]
fn advance(rt: HostRuntime) {
    // example: cursor advance
    let mut map = map_of(&rt, rt.alloc(), &[("foo", 1), ("bar", 2)]);
    let mut cursor = map.iter_mut();
    same!(rt; done(&rt, cursor.advance()).as_deref(), Some("bar"));
    same!(rt; done(&rt, cursor.advance()).as_deref(), Some("foo"));
    same!(rt; done(&rt, cursor.advance()), None);
    // end
}

#[test]
fn value(rt: HostRuntime) {
    // example: cursor value
    let mut map = map_of(&rt, rt.alloc(), &[("foo", 1), ("bar", 2)]);
    let mut cursor = map.iter_mut();
    same!(rt; cursor.value(), None);
    done(&rt, cursor.advance());
    same!(rt; cursor.value(), Some(&mut 2));
    // end
}

#[test]
fn next(rt: HostRuntime) {
    // example: cursor next
    let mut map = map_of(&rt, rt.alloc(), &[("foo", 1), ("bar", 2)]);
    let mut cursor = map.iter_mut();
    if let Some((key, value)) = done(&rt, cursor.next()) {
        same!(rt; key.as_str(), "bar");
        *value = 5;
    }
    drop(cursor);
    same!(rt; map.get("bar"), Some(&5));
    // end
}

#[test]
fn next_with(rt: HostRuntime) {
    // example: cursor next_with
    let mut map = map_of(&rt, rt.alloc(), &[("foo", 1), ("bar", 2)]);
    let len = map.len();
    let mut cursor = map.iter_mut();
    for _ in 0..len {
        done(&rt, cursor.next_with(|key, value| *value = key.len()));
    }
    drop(cursor);
    same!(rt; map.get("bar"), Some(&3));
    // end
}

#[test]
fn values_mut(rt: HostRuntime) {
    // example: map values_mut
    let mut map = map_of(&rt, rt.alloc(), &[("foo", 1), ("bar", 2)]);
    let len = map.len();
    let mut cursor = map.values_mut();
    for _ in 0..len {
        done(&rt, cursor.next_with(|value| *value = 7));
    }
    drop(cursor);
    same!(rt; map.get("foo"), Some(&7));
    // end
}

// example: map iter_prefix_mut
// Sets the values under a prefix to 0.
fn clear_values<Q: BorrowedBytes>(
    map: &mut GenericPatriciaMap<Q::Owned, u32>,
    prefix: Q,
) -> Result<(), AllocError> {
    let len = map.len();
    let mut cursor = map.iter_prefix_mut(prefix);
    for _ in 0..len {
        cursor.next_with(|_key, value| *value = 0)?;
    }
    Ok(())
}
// end

#[test]
fn iter_prefix_mut(rt: HostRuntime) {
    let mut map = map_of(&rt, rt.alloc(), &[("foo", 1), ("bar", 2)]);
    done(&rt, clear_values(&mut map, "f"));
    same!(rt; map.get("foo"), Some(&0));
    same!(rt; map.get("bar"), Some(&2));
}

#[test]
fn advance_to_values(rt: HostRuntime) {
    // example: values advance value
    let mut map = map_of(&rt, rt.alloc(), &[("foo", 1), ("bar", 2)]);
    let mut cursor = map.values_mut();
    holds!(rt; done(&rt, cursor.advance()));
    if let Some(value) = cursor.value() {
        *value = 5;
    }
    drop(cursor);
    same!(rt; map.get("bar"), Some(&5));
    // end
}

#[test]
fn next_value(rt: HostRuntime) {
    // example: values next
    let mut map = map_of(&rt, rt.alloc(), &[("foo", 1), ("bar", 2)]);
    let mut cursor = map.values_mut();
    if let Some(value) = done(&rt, cursor.next()) {
        *value = 5;
    }
    drop(cursor);
    same!(rt; map.get("bar"), Some(&5));
    // end
}

#[test]
fn next_with_value(rt: HostRuntime) {
    // example: values next_with
    let mut map = map_of(&rt, rt.alloc(), &[("foo", 1), ("bar", 2)]);
    let mut cursor = map.values_mut();
    same!(rt; done(&rt, cursor.next_with(|value| *value)), Some(2));
    same!(rt; done(&rt, cursor.next_with(|value| *value)), Some(1));
    same!(rt; done(&rt, cursor.next_with(|value| *value)), None);
    // end
}

// example: prefix_cursor advance value
// Sets the first value under a prefix.
fn set_first<Q: BorrowedBytes>(
    map: &mut GenericPatriciaMap<Q::Owned, u32>,
    prefix: Q,
    new: u32,
) -> Result<(), AllocError> {
    let mut cursor = map.iter_prefix_mut(prefix);
    cursor.advance()?;
    if let Some(value) = cursor.value() {
        *value = new;
    }
    Ok(())
}
// end

#[test]
fn advance_under(rt: HostRuntime) {
    let mut map = map_of(&rt, rt.alloc(), &[("foo", 1), ("bar", 2)]);
    done(&rt, set_first(&mut map, "f", 5));
    same!(rt; map.get("foo"), Some(&5));
    same!(rt; map.get("bar"), Some(&2));
}

// example: prefix_cursor next next_with
// Adds up the first two values under a prefix, the second where it is read by a closure.
fn sum_of_two<Q: BorrowedBytes>(
    map: &mut GenericPatriciaMap<Q::Owned, u32>,
    prefix: Q,
) -> Result<u32, AllocError> {
    let mut cursor = map.iter_prefix_mut(prefix);
    let first = match cursor.next()? {
        Some((_key, value)) => *value,
        None => 0,
    };
    let second = cursor.next_with(|_key, value| *value)?;
    Ok(first.wrapping_add(second.unwrap_or(0)))
}
// end

#[test]
fn next_under(rt: HostRuntime) {
    let mut map = map_of(&rt, rt.alloc(), &[("foo", 1), ("bar", 2), ("baz", 3)]);
    same!(rt; done(&rt, sum_of_two(&mut map, "ba")), 5);
    same!(rt; done(&rt, sum_of_two(&mut map, "f")), 1);
}
