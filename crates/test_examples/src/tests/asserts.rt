//! Assertions as calls. The prover carries what it knows of a body to each point of it: an
//! assertion that is written out adds a dozen points, a call one.

use patricia_tree::{BorrowedBytes, GenericPatriciaMap, GenericPatriciaSet};
use std::alloc::Global;
use std::fmt::Debug;
use std::process::Abort;

// Ends the test where two values differ.
pub(super) fn same_as<T: PartialEq + Debug + Drop>(rt: &impl Abort, got: T, want: T, what: &str) {
    assert_eq!(rt; got, want, "{what}");
}

// Ends the test where something does not hold.
pub(super) fn is_so(rt: &impl Abort, holds: bool, what: &str) {
    assert!(rt; holds, "assertion failed: {what}");
}

// What a call gave. Ends the test where it gave an error.
pub(super) fn done<T: Drop, E: Debug + Drop>(rt: &impl Abort, got: Result<T, E>) -> T {
    match got {
        Ok(value) => value,
        Err(error) => panic!(rt; "refused: {error:?}"),
    }
}

// `assert_eq!` as a call.
macro_rules! same {
    ($rt:expr; $got:expr, $want:expr $(,)?) => {
        $crate::tests::asserts::same_as(&$rt, $got, $want, stringify!($got))
    };
}

// `assert_eq!` of two arrays as a call.
macro_rules! alike {
    ($rt:expr; $got:expr, $want:expr $(,)?) => {
        $crate::tests::asserts::same!($rt; $got.as_slice(), $want.as_slice())
    };
}

// `assert!` as a call.
macro_rules! holds {
    ($rt:expr; $holds:expr $(,)?) => {
        $crate::tests::asserts::is_so(&$rt, $holds, stringify!($holds))
    };
}

pub(super) use alike;
pub(super) use holds;
pub(super) use same;

// A map of these entries. An array that is passed as an iterator is expensive to prove, too, and
// so is what loops over keys of one kind.
pub(super) fn map_of<Q: BorrowedBytes, V: Copy + Drop>(
    rt: &impl Abort,
    alloc: Global,
    entries: &[(Q, V)],
) -> GenericPatriciaMap<Q::Owned, V> {
    let mut map = GenericPatriciaMap::new(alloc);
    for (key, value) in entries {
        holds!(rt; map.insert(*key, *value).is_ok());
    }
    map
}

// A set of these elements, in the same way.
pub(super) fn set_of<Q: BorrowedBytes>(
    rt: &impl Abort,
    alloc: Global,
    elements: &[Q],
) -> GenericPatriciaSet<Q::Owned> {
    let mut set = GenericPatriciaSet::new(alloc);
    for element in elements {
        done(rt, set.insert(*element));
    }
    set
}
