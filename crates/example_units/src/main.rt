//! Lists UTF-16 texts by prefix. Each line of the input is a text in hexadecimal UTF-16, with the
//! high byte of each unit first. The first line is the prefix, the others are the texts.
#![tactic(auto)]

use anyhow::Context;
use patricia_tree::{BorrowedBytes, Bytes, GenericPatriciaSet, UnitKey, Units};
use std::alloc::{AllocError, Global};

// The key that a line spells.
fn key(alloc: Global, line: &str) -> anyhow::Result<UnitKey> {
    let bytes = hex::decode(alloc, line)?;
    let units = Units::new(&bytes).context("half a unit")?;
    Ok(UnitKey::from_bytes(alloc, units.as_bytes())?)
}

// The units of a key.
fn units_of(alloc: Global, key: Units<'_>) -> Result<Vec<u16>, AllocError> {
    let mut units = Vec::new(alloc);
    for place in 0..key.len() {
        units.push(key.unit(place))?;
    }
    Ok(units)
}

// Lists the texts of a set that begin with a prefix, with their numbers of units.
fn list(
    rt: &(impl AllocGlobal + Print),
    texts: &GenericPatriciaSet<UnitKey>,
    prefix: Units<'_>,
) -> anyhow::Result<()> {
    for text in texts.iter_prefix(prefix) {
        let text = text?;
        let units = units_of(rt.alloc(), text.as_units())?;
        println!(rt;
            "{} {}",
            units.len(),
            String::from_utf16_lossy(rt.alloc(), &units)?
        )?;
    }
    Ok(())
}

fn main(rt: HostRuntime) -> anyhow::Result<()> {
    let mut texts = GenericPatriciaSet::new(rt.alloc());
    let mut lines = rt.lines(rt.alloc());
    let Some(prefix) = lines.next() else {
        return Ok(());
    };
    let prefix = key(rt.alloc(), &prefix?)?;
    for line in lines {
        let text = key(rt.alloc(), &line?)?;
        texts.insert(text.as_units())?;
    }
    list(&rt, &texts, prefix.as_units())
}
