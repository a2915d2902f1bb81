// Calls of a set.
use super::helpers::set_of;
use crate::tests::asserts::{done, holds};
use patricia_tree::{BorrowedBytes, Bytes, GenericPatriciaSet};
use std::alloc::{AllocError, Global};
use std::iter;
use std::process::Abort;

// Makes iterators and cursors from an element on, up to it, under it and near it.
fn make_ranges<Q: BorrowedBytes>(set: &GenericPatriciaSet<Q::Owned>, element: Q) {
    drop(set.range_from(element));
    drop(set.range(element, element));
    drop(set.cursor_from(element));
    drop(set.cursor_range(element, element));
    drop(set.cursor_prefix(element));
    drop(set.within(element, 1));
    drop(set.within(element, u32::MAX));
}

// Questions about an element of the set, or about what is none.
fn ask<Q: BorrowedBytes>(
    rt: &impl Abort,
    set: &GenericPatriciaSet<Q::Owned>,
    element: Q,
    is_there: bool,
) {
    holds!(rt; set.contains(element) == is_there);
    holds!(rt; set.get_longest_common_prefix(element).is_some());
    holds!(rt; set.longest_common_prefix_len(element) <= element.as_bytes().len());
    drop(set.iter_prefix(element));
    make_ranges(set, element);
}

// Whether an insert is done, where the element was there or was not.
fn is_put<Q: BorrowedBytes>(
    set: &mut GenericPatriciaSet<Q::Owned>,
    element: Q,
    is_new: bool,
) -> bool {
    match set.insert(element) {
        Ok(found) => found == is_new,
        Err(_) => false,
    }
}

// Whether a removal is done, where the element was there or was not.
fn is_removed<Q: BorrowedBytes>(
    set: &mut GenericPatriciaSet<Q::Owned>,
    element: Q,
    is_there: bool,
) -> bool {
    match set.remove(element) {
        Ok(found) => found == is_there,
        Err(_) => false,
    }
}

// Whether an element is inserted by a call that takes an iterator.
fn is_extended<Q: BorrowedBytes>(set: &mut GenericPatriciaSet<Q::Owned>, element: Q) -> bool {
    set.extend(iter::once(element)).is_ok()
}

// Whether there is nothing under a prefix to remove.
fn splits_nothing<Q: BorrowedBytes>(set: &mut GenericPatriciaSet<Q::Owned>, prefix: Q) -> bool {
    match set.split_by_prefix(prefix) {
        Ok(part) => part.is_empty(),
        Err(_) => false,
    }
}

// Changes that leave the set as it is. The empty element is there.
fn change<Q: BorrowedBytes>(
    rt: &impl Abort,
    set: &mut GenericPatriciaSet<Q::Owned>,
    there: Q,
    absent: Q,
) {
    holds!(rt; is_put(set, there, false));
    holds!(rt; is_removed(set, absent, false));
    holds!(rt; is_extended(set, there));
    holds!(rt; splits_nothing(set, absent));
}

// Whether a copy of a set is empty.
fn is_copy_empty<K: Bytes>(set: &GenericPatriciaSet<K>) -> bool {
    match set.clone() {
        Ok(copy) => copy.is_empty(),
        Err(_) => false,
    }
}

// Whether a walk over a set gives nothing.
fn gives_none<K: Bytes>(set: &GenericPatriciaSet<K>) -> bool {
    set.iter().next().is_none()
}

// A copy of an empty set, and a walk over it.
fn look_at_none<K: Bytes>(rt: &impl Abort, set: &GenericPatriciaSet<K>) {
    holds!(rt; set.is_empty());
    holds!(rt; is_copy_empty(set));
    holds!(rt; gives_none(set));
}

// The empty element goes into an empty set and out of it.
fn in_and_out<Q: BorrowedBytes>(rt: &impl Abort, set: &mut GenericPatriciaSet<Q::Owned>, none: Q) {
    holds!(rt; is_put(set, none, true));
    holds!(rt; is_removed(set, none, true));
}

// A set of the empty element alone, and a walk over it that is not begun.
fn make_one<Q: BorrowedBytes>(alloc: Global, none: Q) -> Result<(), AllocError> {
    let one = GenericPatriciaSet::from_iter(alloc, iter::once(none))?;
    drop(one.into_iter());
    Ok(())
}

fn clear<K: Bytes>(rt: &impl Abort, mut set: GenericPatriciaSet<K>) {
    set.clear();
    holds!(rt; set.len() == 0);
}

// Whether a search in an empty set ends at once.
fn ends_at_once<Q: BorrowedBytes>(set: &GenericPatriciaSet<Q::Owned>, none: Q) -> bool {
    matches!(set.within(none, u32::MAX).advance(), Ok(false))
}

// Calls on a set that the empty prefix leaves empty.
fn empty<Q: BorrowedBytes>(
    rt: &impl Abort,
    set: &mut GenericPatriciaSet<Q::Owned>,
    none: Q,
) -> Result<(), AllocError> {
    clear(rt, set.split_by_prefix(none)?);
    look_at_none(rt, set);
    holds!(rt; ends_at_once(set, none));
    in_and_out(rt, set, none);
    Ok(())
}

// A walk that takes an empty set.
fn walk_out<K: Bytes>(rt: &impl Abort, set: GenericPatriciaSet<K>) {
    holds!(rt; set.into_iter().next().is_none());
}

// Questions about each element of the set and changes, and questions about what is none.
fn call_each<Q: BorrowedBytes>(
    rt: &impl Abort,
    set: &mut GenericPatriciaSet<Q::Owned>,
    there: &[Q],
    absent: &[Q],
    other: Q,
) {
    for element in there {
        ask(rt, set, *element, true);
        change(rt, set, *element, other);
    }
    for element in absent {
        ask(rt, set, *element, false);
    }
    holds!(rt; set.contains_many_into(there, &mut [false; 8]) == there.len());
}

// Makes a set, and then each call.
fn call_all<Q: BorrowedBytes>(
    rt: &impl Abort,
    alloc: Global,
    there: &[Q],
    absent: &[Q],
    other: Q,
    none: Q,
) -> Result<(), AllocError> {
    let mut set = set_of(alloc, there)?;
    call_each(rt, &mut set, there, absent, other);
    empty(rt, &mut set, none)?;
    walk_out(rt, set);
    make_one(alloc, none)
}

const BYTES: [&[u8]; 4] = [
    b"",
    b"bar",
    b"bar bar bar bar bar bar bar bar bar",
    b"bar bar bar bar bar bar bar bar bar foo foo",
];

const ABSENT_BYTES: [&[u8]; 3] = [b"ba", b"bar bar bar bar bar bar bar bar bar foo", b"\xff"];

#[test]
fn bytes_made(rt: HostRuntime) {
    let set = done(&rt, set_of(rt.alloc(), &BYTES));
    holds!(rt; set.len() == 4);
}

#[test]
fn bytes_called(rt: HostRuntime) {
    done(
        &rt,
        call_all(
            &rt,
            rt.alloc(),
            &BYTES,
            &ABSENT_BYTES,
            b"y".as_slice(),
            b"".as_slice(),
        ),
    );
}

const TEXTS: [&str; 4] = ["", "あい", "あいろ", "xxxxxxxxxxxxxxxxxxxxyyyyyyyyyyyyyyyyyyyy"];

const ABSENT: [&str; 3] = ["あ", "xxxxxxxxxxxxxxxxxxxxyyyyyyyyyyyyyyyyyyyyz", "y"];

#[test]
fn texts_made(rt: HostRuntime) {
    let set = done(&rt, set_of(rt.alloc(), &TEXTS));
    holds!(rt; set.len() == 4);
}

#[test]
fn texts_called(rt: HostRuntime) {
    done(&rt, call_all(&rt, rt.alloc(), &TEXTS, &ABSENT, "y", ""));
}
