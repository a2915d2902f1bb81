//! Maps and sets made where std asks for its own traits.

use crate::tests::asserts::{done, holds, same};
use patricia_tree::{StringPatriciaMap, StringPatriciaSet};
use std::alloc::AllocError;
use std::collections::BTreeMap;
use std::iter::{IntoIterator, Iterator};

#[test]
fn collects_pairs(rt: HostRuntime) {
    let map: StringPatriciaMap<u32> = done(
        &rt,
        [("foo", 1), ("bar", 2), ("foo", 3)]
            .into_iter()
            .collect(rt.alloc()),
    );
    same!(rt; map.len(), 2);
    same!(rt; map.get("foo"), Some(&3));
}

#[test]
fn collects_elements(rt: HostRuntime) {
    let set: StringPatriciaSet = done(&rt, ["foo", "bar", "foo"].into_iter().collect(rt.alloc()));
    same!(rt; set.len(), 2);
    holds!(rt; set.contains("bar"));
}

#[test]
fn parts_elements(rt: HostRuntime) {
    let (long, short): (StringPatriciaSet, StringPatriciaSet) = done(
        &rt,
        ["foo", "b", "fo"]
            .into_iter()
            .partition(rt.alloc(), |text| text.len() > 1),
    );
    same!(rt; long.len(), 2);
    holds!(rt; short.contains("b"));
}

#[test]
fn begins_empty(rt: HostRuntime) {
    let mut maps: BTreeMap<u32, StringPatriciaMap<u32>> = BTreeMap::new(rt.alloc());
    let map = done(&rt, maps.entry(7)).or_default();
    holds!(rt; map.is_empty());
    done(&rt, map.extend([("foo", 1)]));
    same!(rt; map.get("foo"), Some(&1));
}
