//! The README's examples of a map: three words, a look-up, the entries in order, and a look-up
//! whose steps are counted.
//!
//! A count takes no bytes at run time: what it holds, only contracts can say. It has a ledger
//! `L`, which the caller of `look_up` picks by passing `Brand`.
#![tactic(auto)]

ghost use Rattle.std.specs.Prelude.{◌≡◌, ◌<◌};

use patricia_tree::{PatriciaMap, Steps};
use std::marker::Brand;
use std::str;
use std::sync::ledger::{Blank, Ledger};

fn list(rt: &impl Print, map: &PatriciaMap<u32>) -> anyhow::Result<()> {
    for entry in map {
        let (key, number) = entry?;
        println!(rt; "{} {number}", str::from_utf8(&key)?)?;
    }
    Ok(())
}

// example: map get_counted
fn look_up<L: Ledger>(map: &PatriciaMap<u32>, key: &[u8], blank: Blank) -> Option<u32>
    requires name { blank.name ≡ L.name }
    requires parts { blank.parts ≡ L.parts }
    requires some { 0 < L.parts }
{
    let mut steps: Steps<L> = Steps::new(blank);
    map.get_counted(key, &mut steps).copied()
}
// end

fn main(rt: HostRuntime) -> anyhow::Result<()> {
    // example: readme map
    let mut map = PatriciaMap::new(rt.alloc());
    for (word, number) in [("foo", 1), ("bar", 2), ("baz", 3)] {
        map.insert(word.as_bytes(), number)?;
    }
    println!(rt; "baz is {:?}", map.get(b"baz".as_slice()))?;
    // end
    list(&rt, &map)?;
    let found = look_up::<Brand>(&map, b"foo".as_slice(), Blank::new(1));
    println!(rt; "foo is {found:?}")?;
    Ok(())
}
