//! Assertions as calls, which name the expression that fails. The prover lists each local at each
//! point of a body, so one that is written out there costs seconds, and a call costs little.
use std::fmt::Debug;
use std::process::Abort;

/// Ends the test where two values differ.
pub(crate) fn same_as<T: PartialEq + Debug + Drop>(rt: &impl Abort, got: T, want: T, what: &str) {
    assert_eq!(rt; got, want, "{what}");
}

/// Ends the test where a condition does not hold.
pub(crate) fn is_so(rt: &impl Abort, is_true: bool, what: &str) {
    assert!(rt; is_true, "{what}");
}

/// What a call returned. Ends the test where that is an error.
pub(crate) fn done<T: Drop, E: Drop>(rt: &impl Abort, got: Result<T, E>) -> T {
    match got {
        Ok(value) => value,
        Err(_) => panic!(rt; "refused"),
    }
}

macro_rules! same {
    ($rt:expr; $got:expr, $want:expr) => {
        $crate::tests::asserts::same_as(&$rt, $got, $want, stringify!($got))
    };
}

macro_rules! holds {
    ($rt:expr; $condition:expr) => {
        $crate::tests::asserts::is_so(&$rt, $condition, stringify!($condition))
    };
}

pub(crate) use holds;
pub(crate) use same;
