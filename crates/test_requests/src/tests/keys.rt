// The functions of the key traits, but `from_bytes`.
use crate::tests::asserts::{done, holds};
use patricia_tree::{BorrowedBytes, Bytes, UnitKey, Units};
use std::alloc::{AllocError, Global};
use std::cmp::Ordering;
use std::process::Abort;

// The functions on bytes, each of which may end inside an item, and those on the key itself.
fn call_alone<Q: BorrowedBytes>(rt: &impl Abort, owned: &Q::Owned, key: Q, bytes: &[u8]) {
    let floor = Q::Owned::floor_boundary(bytes);
    holds!(rt; Q::Owned::is_valid_bytes(bytes) == (floor == bytes.len()));
    holds!(rt; owned.as_bytes() == key.as_bytes());
    holds!(rt; key.is_empty() == key.as_bytes().is_empty());
}

// The functions that part a key after its first bytes, where these are whole items.
fn call_halves<Q: BorrowedBytes>(rt: &impl Abort, key: Q, n: usize) {
    let Some(front) = key.as_bytes().get(..n) else {
        return;
    };
    if Q::Owned::is_valid_bytes(front) {
        holds!(rt; key.keep_n_prefix(n).is_empty() == (n == 0));
        holds!(rt; key.strip_n_prefix(n).is_empty() == (n == key.as_bytes().len()));
    }
}

// The functions that compare a key with bytes.
fn call_beside<Q: BorrowedBytes>(rt: &impl Abort, key: Q, bytes: &[u8]) {
    let (rest, len) = key.strip_common_prefix_and_len(bytes);
    let again = key.strip_common_prefix(bytes);
    holds!(rt; rest.as_bytes() == again.as_bytes());
    call_halves(rt, key, len);
    if Q::Owned::is_valid_bytes(bytes) {
        let is_equal = len > 0 || (key.is_empty() && bytes.is_empty());
        holds!(rt; (key.cmp_first_item(bytes) == Ordering::Equal) == is_equal);
    }
}

// Makes an owned key, and then the calls with all other bytes.
fn call_all<Q: BorrowedBytes>(
    rt: &impl Abort,
    alloc: Global,
    key: Q,
    others: &[&[u8]],
) -> Result<(), AllocError> {
    let bytes = key.as_bytes();
    if !Q::Owned::is_valid_bytes(bytes) {
        return Ok(());
    }
    let owned = Q::Owned::from_bytes(alloc, bytes)?;
    for other in others {
        call_alone(rt, &owned, key, other);
        call_beside(rt, key, other);
    }
    Ok(())
}

const BYTES: &[u8] = b"foo\xe3\x81bar";

const OTHER_BYTES: [&[u8]; 6] = [
    b"",
    b"foo",
    b"foo\xe3\x81bar",
    b"foo\xe3\x82",
    b"fox",
    b"x\xff",
];

const TEXT: &str = "あい🌏🗻";

const OTHER_TEXTS: [&[u8]; 6] = [
    b"",
    b"\xe3\x81\x82",
    b"\xe3\x81\x82\xe3\x81",
    b"\xe3\x81\x82\xe3\x81\x84\xf0\x9f\x8c\x8f\xf0\x9f\x97\xbb",
    b"\xe3\x81\x82\xe3\x81\x86",
    b"x\xff",
];

#[test]
fn bytes_made(rt: HostRuntime) {
    done(&rt, call_all(&rt, rt.alloc(), BYTES, &[]));
}

#[test]
fn bytes_called(rt: HostRuntime) {
    done(&rt, call_all(&rt, rt.alloc(), BYTES, &OTHER_BYTES));
}

#[test]
fn texts_made(rt: HostRuntime) {
    done(&rt, call_all(&rt, rt.alloc(), TEXT, &[]));
}

#[test]
fn texts_called(rt: HostRuntime) {
    done(&rt, call_all(&rt, rt.alloc(), TEXT, &OTHER_TEXTS));
}

// The unit at a place, if there is one.
fn unit_at(units: Units<'_>, place: usize) -> Option<u16> {
    if place < units.len() {
        Some(units.unit(place))
    } else {
        None
    }
}

// Makes a key of units, and then the calls with all other bytes.
fn call_units(rt: &impl Abort, alloc: Global, others: &[&[u8]]) -> Result<(), AllocError> {
    let key = UnitKey::from_units(alloc, &[0x61, 0xd83c, 0xdf0f])?;
    for other in others {
        let is_whole = Units::new(other).is_some();
        holds!(rt; is_whole == UnitKey::is_valid_bytes(other));
        holds!(rt; unit_at(key.as_units(), 0) == Some(0x61));
    }
    call_all(rt, alloc, key.as_units(), others)
}

const OTHER_UNITS: [&[u8]; 5] = [
    b"",
    b"\0a",
    b"\0a\xd8",
    b"\0a\xd8\x3c\xdf\x0f",
    b"\0b\xd8\x3d",
];

#[test]
fn units_made(rt: HostRuntime) {
    done(&rt, call_units(&rt, rt.alloc(), &[]));
}

#[test]
fn units_called(rt: HostRuntime) {
    done(&rt, call_units(&rt, rt.alloc(), &OTHER_UNITS));
}
