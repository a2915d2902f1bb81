// Walks to the end, and calls of `next` past it, over labels of at most 30 bytes and of more.
use super::helpers::{map_of, set_of};
use crate::tests::asserts::{done, holds};
use patricia_tree::map::{
    IntoIter, Iter, IterMut, IterPrefix, IterPrefixMut, Keys, ReadCursor, Values, ValuesMut,
};
use patricia_tree::{BorrowedBytes, Bytes, GenericPatriciaMap, GenericPatriciaSet, set};
use std::alloc::{AllocError, Global};

// A walk over a map.
trait Walk: Drop {
    // Whether a step gives something.
    fn gives(&mut self) -> bool;
}

impl<'a, K: Bytes> Walk for Iter<'a, K, u64> {
    fn gives(&mut self) -> bool {
        self.next().is_some()
    }
}

impl<'a, K: Bytes> Walk for Keys<'a, K, u64> {
    fn gives(&mut self) -> bool {
        self.next().is_some()
    }
}

impl<'a, K: Bytes> Walk for Values<'a, K, u64> {
    fn gives(&mut self) -> bool {
        self.next().is_some()
    }
}

impl<'a, K: Bytes> Walk for ReadCursor<'a, K, u64> {
    fn gives(&mut self) -> bool {
        self.advance().unwrap_or(false)
    }
}

impl<K: Bytes> Walk for IntoIter<K, u64> {
    fn gives(&mut self) -> bool {
        self.next().is_some()
    }
}

impl<'a, Q: BorrowedBytes> Walk for IterPrefix<'a, Q, u64> {
    fn gives(&mut self) -> bool {
        self.next().is_some()
    }
}

impl<'a, K: Bytes> Walk for IterMut<'a, K, u64> {
    fn gives(&mut self) -> bool {
        matches!(self.next(), Ok(Some(_)))
    }
}

impl<'a, K: Bytes> Walk for ValuesMut<'a, K, u64> {
    fn gives(&mut self) -> bool {
        matches!(self.next(), Ok(Some(_)))
    }
}

impl<'a, K: Bytes, Q: BorrowedBytes<Owned = K>> Walk for IterPrefixMut<'a, K, Q, u64> {
    fn gives(&mut self) -> bool {
        matches!(self.next(), Ok(Some(_)))
    }
}

impl<'a, K: Bytes> Walk for set::Iter<'a, K> {
    fn gives(&mut self) -> bool {
        self.next().is_some()
    }
}

impl<'a, Q: BorrowedBytes> Walk for set::IterPrefix<'a, Q> {
    fn gives(&mut self) -> bool {
        self.next().is_some()
    }
}

impl<K: Bytes> Walk for set::IntoIter<K> {
    fn gives(&mut self) -> bool {
        self.next().is_some()
    }
}

// Whether a walk gives so many items, and past the end none where that is asked.
fn gives_all<W: Walk>(mut walk: W, len: usize, past: bool) -> bool {
    let mut gives_each = true;
    for _ in 0..len {
        gives_each &= walk.gives();
    }
    gives_each && (!past || !walk.gives())
}

// Whether a cursor finds an entry, and past it what begins with its first byte is skipped where
// that is asked.
fn skips<K: Bytes>(map: &GenericPatriciaMap<K, u64>, past: bool) -> bool {
    let mut cursor = map.cursor();
    let found = cursor.gives();
    if past {
        cursor.skip(1);
    }
    found
}

// Whether each walk over a map that stays does.
fn gives_borrowed<K: Bytes>(map: &GenericPatriciaMap<K, u64>, past: bool) -> bool {
    let len = map.len();
    gives_all(map.iter(), len, past)
        && gives_all(map.keys(), len, past)
        && gives_all(map.values(), len, past)
        && gives_all(map.cursor(), len, past)
        && skips(map, past)
}

// Whether each cursor that lends values does, and walks under a prefix that begins all keys, and
// under one that begins none.
fn gives_lent<Q: BorrowedBytes>(
    map: &mut GenericPatriciaMap<Q::Owned, u64>,
    none: Q,
    absent: Q,
    past: bool,
) -> bool {
    let len = map.len();
    gives_all(map.iter_prefix(none), len, past)
        && gives_all(map.iter_prefix(absent), 0, past)
        && gives_all(map.iter_mut(), len, past)
        && gives_all(map.values_mut(), len, past)
        && gives_all(map.iter_prefix_mut(none), len, past)
        && gives_all(map.iter_prefix_mut(absent), 0, past)
}

// Whether each walk over a set does.
fn gives_elements<Q: BorrowedBytes>(
    set: GenericPatriciaSet<Q::Owned>,
    none: Q,
    absent: Q,
    past: bool,
) -> bool {
    let len = set.len();
    gives_all(set.iter(), len, past)
        && gives_all(set.iter_prefix(none), len, past)
        && gives_all(set.iter_prefix(absent), 0, past)
        && gives_all(set.into_iter(), len, past)
}

// Whether each walk over a map and a set of some keys does. One more begins all of them, and one
// none.
fn gives_each<Q: BorrowedBytes>(
    alloc: Global,
    keys: &[Q],
    none: Q,
    absent: Q,
    past: bool,
) -> Result<bool, AllocError> {
    let mut map = map_of(alloc, keys)?;
    let len = map.len();
    let lends = gives_borrowed(&map, past) && gives_lent(&mut map, none, absent, past);
    let set = set_of(alloc, keys)?;
    let gives = gives_elements(set, none, absent, past);
    Ok(lends && gives && gives_all(map.into_iter(), len, past))
}

const BYTES: [&[u8]; 4] = [
    b"",
    b"bar",
    b"bar bar bar bar bar bar bar bar bar",
    b"foo foo foo foo foo foo foo foo foo",
];

const NONE: &[u8] = b"";

const ABSENT: &[u8] = b"bars";

const TEXTS: [&str; 4] = ["", "あ", "あいうえおかきくけこさしす", "いいいいいいいいいいい"];

#[test]
fn bytes_made(rt: HostRuntime) {
    holds!(rt; done(&rt, gives_each(rt.alloc(), &BYTES, NONE, ABSENT, false)));
}

#[test]
fn bytes_called(rt: HostRuntime) {
    holds!(rt; done(&rt, gives_each(rt.alloc(), &BYTES, NONE, ABSENT, true)));
}

#[test]
fn texts_made(rt: HostRuntime) {
    holds!(rt; done(&rt, gives_each(rt.alloc(), &TEXTS, "", "ん", false)));
}

#[test]
fn texts_called(rt: HostRuntime) {
    holds!(rt; done(&rt, gives_each(rt.alloc(), &TEXTS, "", "ん", true)));
}
