//! The keys of the input, and their order.
use std::alloc::{AllocError, Global};

/// The keys that are inserted and those that are only asked for, the first halves of some of the
/// latter, and a prefix of about a tenth of the former; and the memory that a key took, and the
/// most of it.
#[derive(Drop)]
pub(super) struct Lists<Q> {
    pub(super) present: Vec<Q>,
    pub(super) absent: Vec<Q>,
    pub(super) halves: Vec<Q>,
    pub(super) prefix: Q,
    pub(super) memory: (u64, u64),
}

/// As many absent keys as there are halves.
pub(super) fn few<Q>(lists: &Lists<Q>) -> &[Q] {
    let absent = lists.absent.as_slice();
    absent.get(..lists.halves.len()).unwrap_or(absent)
}

fn push<'k>(list: &mut Vec<&'k [u8]>, key: &'k [u8]) -> Result<(), AllocError> {
    list.push(key)?;
    Ok(())
}

// Puts a line that is not empty into the second list where that is shorter, or else into the first.
fn push_line<'k>(lists: &mut Lists<&'k [u8]>, line: &'k [u8]) -> Result<(), AllocError> {
    if line.is_empty() {
        Ok(())
    } else if lists.present.len() == lists.absent.len() {
        push(&mut lists.present, line)
    } else {
        push(&mut lists.absent, line)
    }
}

// Adds the lines of the input that are not empty.
fn push_lines<'k>(lists: &mut Lists<&'k [u8]>, input: &'k [u8]) -> Result<(), AllocError> {
    for line in input.split(|byte| *byte == b'\n') {
        push_line(lists, line)?;
    }
    Ok(())
}

// Lists with no keys.
fn no_lists<'k>(alloc: Global) -> Lists<&'k [u8]> {
    Lists {
        present: Vec::new(alloc),
        absent: Vec::new(alloc),
        halves: Vec::new(alloc),
        prefix: &[],
        memory: (0, 0),
    }
}

/// Puts the keys in another order, the same each time.
pub(super) fn shuffle<T>(keys: &mut [T], seed: u64) {
    let mut random = seed;
    for i in 1..keys.len() {
        random ^= random << 13;
        random ^= random >> 7;
        random ^= random << 17;
        keys.swap(i, random as usize % (i + 1));
    }
}

// Adds the first half of each of up to 100,000 keys.
fn push_halves<'k>(halves: &mut Vec<&'k [u8]>, keys: &[&'k [u8]]) -> Result<(), AllocError> {
    for key in &keys[..keys.len().min(100_000)] {
        push(halves, &key[..key.len() / 2])?;
    }
    Ok(())
}

// How many keys begin with a prefix.
fn begun(keys: &[&[u8]], prefix: &[u8]) -> usize {
    let mut begun: usize = 0;
    for key in keys {
        if key.starts_with(prefix) {
            begun = begun.wrapping_add(1);
        }
    }
    begun
}

// A prefix, and by how many keys those that begin with it differ from a tenth of all.
type Share<'a> = (&'a [u8], usize);

// The prefix of a key that is nearer to a tenth than the best so far, or else that.
fn nearer<'a>(keys: &[&'a [u8]], key: &'a [u8], best: Share<'a>) -> Share<'a> {
    let tenth = keys.len() / 10;
    let mut nearest = best;
    for len in 0..key.len() {
        let prefix = &key[..len + 1];
        let begun = begun(keys, prefix);
        let off = begun.abs_diff(tenth);
        if off < nearest.1 {
            nearest = (prefix, off);
        }
        // a longer prefix begins no more keys
        if begun <= tenth {
            break;
        }
    }
    nearest
}

// A prefix of about a tenth of the keys: the nearest to it of the prefixes of eight keys. The
// keys are sorted, and the eight lie evenly among them.
fn tenth<'a>(keys: &[&'a [u8]]) -> &'a [u8] {
    let mut best: Share<'a> = (&[], keys.len());
    for eighth in 0..8usize {
        if let Some(key) = keys.get(eighth.wrapping_mul(keys.len() / 8)) {
            best = nearer(keys, key, best);
        }
    }
    best.0
}

// Brings the keys into the order in which they are inserted and asked for, after a prefix is
// chosen.
fn arrange(lists: &mut Lists<&[u8]>) {
    lists.present.sort_unstable();
    lists.prefix = tenth(&lists.present);
    shuffle(&mut lists.present, 1);
    shuffle(&mut lists.absent, 2);
}

// Adds the keys of the input and what is made of them.
fn fill_lists<'k>(lists: &mut Lists<&'k [u8]>, input: &'k [u8]) -> Result<(), AllocError> {
    push_lines(lists, input)?;
    arrange(lists);
    push_halves(&mut lists.halves, &lists.absent)
}

/// The keys of the input, in the order in which they are inserted and asked for.
pub(super) fn read_lists(alloc: Global, input: &[u8]) -> Result<Lists<&[u8]>, AllocError> {
    let mut lists = no_lists(alloc);
    fill_lists(&mut lists, input)?;
    Ok(lists)
}
