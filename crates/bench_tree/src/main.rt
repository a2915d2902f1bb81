//! bench_tree [counts|times|age|churn|fill] [LINE..]: counts the answers of a map for the keys of
//! its input, or times its calls, or says how many of the keys are inserted when the nodes are last
//! relocated, or what memory a map takes, as it is filled and after its keys were removed and
//! inserted again.
//!
//! `fill` has a word `unit`, `u32`, `u64` or `bytes` for the values, and inserts each line as it is
//! read, so that the process holds nothing else.
//!
//! The input has a key a line. The keys of every other line are inserted, the rest are only asked
//! for. With the word `times` each line of the output has nanoseconds a call or an entry, or bytes
//! a key; `tree_size` has the tree bytes of 1,000 entries, and `share` the thousandths of the
//! entries that `split_by_prefix` removes. Where lines are named, as `get` or `count`, the map is
//! filled and asked for these alone.
#![tactic(auto)]

mod age;
mod calls;
mod churns;
mod fills;
mod keys;
mod lines;
mod loads;
mod memory;
mod steps;

use age::report_age;
use calls::{Each, Maps, no_maps};
use churns::report_churn;
use fills::report_fill;
use keys::{Lists, few, read_lists, shuffle};
use lines::{Sheet, line};
use loads::{time_load, time_made, time_union};
use memory::{memory, memory_since};
use patricia_tree::{BorrowedBytes, GenericPatriciaMap, PatriciaMap};
use std::env;
use std::io::{self, Read as _};
use std::rt::{Clock, Env, Files};
use steps::{time_each, time_questions, time_steps};

// Fills the map.
fn fill<R: Alloc + Clock + Files + Print, Q: BorrowedBytes>(
    sheet: &Sheet<'_, R>,
    map: &mut GenericPatriciaMap<Q::Owned, u64>,
    lists: &mut Lists<Q>,
) -> io::Result<()> {
    let before = memory(sheet.rt, "VmRSS:");
    time_each(sheet, "insert", map, Each::Put, &lists.present)?;
    lists.memory = memory_since(sheet.rt, before, map.len());
    Ok(())
}

// Fills the map and asks it, and then does the rest where no lines are named.
fn measure_maps<R: Alloc + Clock + Files + Print, Q: BorrowedBytes>(
    sheet: &Sheet<'_, R>,
    maps: &mut Maps<Q::Owned>,
    lists: &mut Lists<Q>,
) -> io::Result<()> {
    fill(sheet, &mut maps.map, lists)?;
    shuffle(&mut lists.present, 3);
    time_questions(sheet, maps, lists)?;
    if sheet.names.is_empty() {
        time_steps(sheet, maps, lists)?;
    }
    Ok(())
}

// Calls each method for all keys in turn.
fn measure<R: AllocGlobal + Clock + Files + Print, Q: BorrowedBytes>(
    sheet: &Sheet<'_, R>,
    lists: &mut Lists<Q>,
) -> io::Result<()> {
    measure_maps(sheet, &mut no_maps(sheet.rt.alloc()), lists)
}

// Puts the keys in in their order.
fn put_in_order<R: AllocGlobal + Clock + Print, Q: BorrowedBytes>(
    sheet: &Sheet<'_, R>,
    keys: &[Q],
) -> io::Result<()> {
    let mut map = GenericPatriciaMap::new(sheet.rt.alloc());
    time_each(sheet, "insert_sorted", &mut map, Each::Put, keys)?;
    time_load(sheet, keys)?;
    time_made(sheet, keys)
}

fn report_memory<R: Print>(sheet: &Sheet<'_, R>, memory: (u64, u64)) -> io::Result<()> {
    if !sheet.times {
        return Ok(());
    }
    line(sheet, "memory", u128::from(memory.0))?;
    line(sheet, "peak", u128::from(memory.1))
}

// Sorts the keys and inserts them.
fn put_sorted<R: AllocGlobal + Clock + Print>(
    sheet: &Sheet<'_, R>,
    keys: &mut [&[u8]],
) -> io::Result<()> {
    keys.sort_unstable();
    put_in_order(sheet, keys)
}

// Inserts in the keys' order, and makes sets.
fn measure_sorted<R: AllocGlobal + Clock + Print>(
    sheet: &Sheet<'_, R>,
    lists: &mut Lists<&[u8]>,
) -> io::Result<()> {
    put_sorted(sheet, &mut lists.present)?;
    time_union(sheet, &lists.present, few(lists))
}

// Measures the calls, and then what goes by the keys' order where no lines are named.
fn measure_both<R: AllocGlobal + Clock + Files + Print>(
    sheet: &Sheet<'_, R>,
    lists: &mut Lists<&[u8]>,
) -> io::Result<()> {
    line(sheet, "keys", lists.present.len() as u128)?;
    measure(sheet, lists)?;
    if sheet.names.is_empty() {
        measure_sorted(sheet, lists)?;
    }
    report_memory(sheet, lists.memory)
}

// Measures the calls with the keys of an input.
fn run_on<R: AllocGlobal + Clock + Files + Print>(
    sheet: &Sheet<'_, R>,
    input: &[u8],
) -> io::Result<()> {
    let mut lists = read_lists(sheet.rt.alloc(), input)?;
    measure_both(sheet, &mut lists)
}

// Whether the first word after the program's name is this one.
fn has_word(words: &[String], wanted: &str) -> bool {
    match words.get(1) {
        Some(word) => word.as_str() == wanted,
        None => false,
    }
}

// Says how old the order of the nodes is, with the keys of an input.
fn age_on<R: AllocGlobal + Files + Print>(sheet: &Sheet<'_, R>, input: &[u8]) -> io::Result<()> {
    let lists = read_lists(sheet.rt.alloc(), input)?;
    report_age(sheet, &lists.present)
}

// Says what memory is taken after keys of an input were removed and inserted again.
fn churn_on<R: AllocGlobal + Files + Print>(sheet: &Sheet<'_, R>, input: &[u8]) -> io::Result<()> {
    let lists = read_lists(sheet.rt.alloc(), input)?;
    report_churn(sheet, &lists.present)
}

fn read_input(rt: &(impl AllocGlobal + Input)) -> io::Result<Vec<u8>> {
    let mut input: Vec<u8> = Vec::new(rt.alloc());
    rt.reader().read_to_end(&mut input)?;
    Ok(input)
}

// Fills a map with values of the type that a word names from the lines of the input.
fn fill_on<R: AllocGlobal + Clock + Files + Input + Print>(
    sheet: &Sheet<'_, R>,
    word: &str,
) -> io::Result<()> {
    let alloc = sheet.rt.alloc();
    match word {
        "unit" => report_fill(sheet, PatriciaMap::<()>::new(alloc)),
        "u32" => report_fill(sheet, PatriciaMap::<u32>::new(alloc)),
        "bytes" => report_fill(sheet, PatriciaMap::<Vec<u8>>::new(alloc)),
        _ => report_fill(sheet, PatriciaMap::<u64>::new(alloc)),
    }
}

// Does what the first word says with the keys of the input.
fn run_by_word<R: AllocGlobal + Clock + Files + Input + Print>(
    sheet: &Sheet<'_, R>,
    words: &[String],
) -> io::Result<()> {
    let input = read_input(sheet.rt)?;
    if has_word(words, "age") {
        age_on(sheet, &input)
    } else if has_word(words, "churn") {
        churn_on(sheet, &input)
    } else {
        run_on(sheet, &input)
    }
}

fn run<R: AllocGlobal + Clock + Env + Files + Input + Print>(rt: &R) -> io::Result<()> {
    let words: Vec<String> = env::args(&(rt, rt.alloc()))?.collect(rt.alloc())?;
    let fills = has_word(&words, "fill");
    let sheet = Sheet {
        rt,
        times: fills || has_word(&words, "times"),
        names: words.get(2..).unwrap_or(&[]),
    };
    if !fills {
        return run_by_word(&sheet, &words);
    }
    match sheet.names.first() {
        Some(word) => fill_on(&sheet, word.as_str()),
        None => fill_on(&sheet, "u64"),
    }
}

fn main(rt: HostRuntime) -> io::Result<()> {
    run(&rt)
}
