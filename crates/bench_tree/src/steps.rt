//! The steps of a measurement, one after the other.
use crate::calls::{Each, Maps, Whole, call_each, call_whole, collect, exchange, forget, refill};
use crate::keys::{Lists, few};
use crate::lines::{Sheet, is_asked, report, report_share};
use patricia_tree::{BorrowedBytes, Bytes, GenericPatriciaMap};
use std::io;
use std::rt::Clock;
use std::time::Instant;

// A part of the keys.
#[derive(Clone, Copy)]
enum Part {
    Present,
    Absent,
    // as many absent ones as there are halves
    Few,
    Halves,
    // of the present ones those in the first half of their order, and the others
    Front,
    Back,
}

// What is done between calls, outside their times. Two of these have a line, and so a name.
#[derive(Clone, Copy)]
enum Between {
    Collect,
    Exchange,
    Forget,
    Refill,
    Share,
    Size,
}

// What a line of the output tells of: a call for each key, a call for all, or none.
#[derive(Clone, Copy)]
enum Step {
    Each(Each, Part),
    Whole(Whole),
    Between(Between),
}

// What a map is asked as it is filled.
const QUESTIONS: [(&str, Step); 15] = [
    ("get", Step::Each(Each::Get, Part::Present)),
    ("get_absent", Step::Each(Each::Get, Part::Absent)),
    ("get_many", Step::Each(Each::GetMany, Part::Present)),
    ("get_many_absent", Step::Each(Each::GetMany, Part::Absent)),
    ("walk", Step::Whole(Whole::Walk)),
    ("lend", Step::Whole(Whole::Lend)),
    ("scan", Step::Whole(Whole::Scan)),
    ("values", Step::Whole(Whole::Values)),
    ("range", Step::Each(Each::From, Part::Few)),
    ("under", Step::Each(Each::Under, Part::Halves)),
    ("longest", Step::Each(Each::Longest, Part::Few)),
    ("longest_many", Step::Each(Each::LongestMany, Part::Few)),
    ("first_after", Step::Each(Each::After, Part::Few)),
    ("last_before", Step::Each(Each::Before, Part::Few)),
    ("count", Step::Whole(Whole::Count)),
];

// What is done then. The map that is read from the tree bytes has just relocated its nodes: it is
// asked in the place of the one that was filled.
const STEPS: [(&str, Step); 30] = [
    ("tree_bytes", Step::Whole(Whole::Write)),
    ("tree_size", Step::Between(Between::Size)),
    ("", Step::Between(Between::Collect)),
    ("from_wire", Step::Whole(Whole::Read)),
    ("", Step::Between(Between::Exchange)),
    ("fresh_get", Step::Each(Each::Get, Part::Present)),
    ("fresh_get_absent", Step::Each(Each::Get, Part::Absent)),
    ("fresh_lend", Step::Whole(Whole::Lend)),
    ("fresh_scan", Step::Whole(Whole::Scan)),
    ("", Step::Between(Between::Exchange)),
    ("", Step::Between(Between::Forget)),
    ("values_mut", Step::Whole(Whole::Raise)),
    ("clone", Step::Whole(Whole::Copy)),
    ("equals", Step::Whole(Whole::Equals)),
    ("split_by_prefix", Step::Whole(Whole::Split)),
    ("share", Step::Between(Between::Share)),
    ("merge", Step::Whole(Whole::Merge)),
    ("retain", Step::Whole(Whole::Retain)),
    ("pops", Step::Whole(Whole::Pop)),
    ("", Step::Between(Between::Forget)),
    ("remove", Step::Each(Each::Take, Part::Present)),
    ("", Step::Between(Between::Refill)),
    ("churn_remove", Step::Each(Each::Take, Part::Front)),
    ("churn_insert", Step::Each(Each::Put, Part::Front)),
    ("churn_remove_again", Step::Each(Each::Take, Part::Back)),
    ("churn_insert_again", Step::Each(Each::Put, Part::Back)),
    ("churned_get", Step::Each(Each::Get, Part::Present)),
    ("churned_get_absent", Step::Each(Each::Get, Part::Absent)),
    ("churned_walk", Step::Whole(Whole::Walk)),
    ("churned_lend", Step::Whole(Whole::Lend)),
];

fn part_of<Q>(lists: &Lists<Q>, part: Part) -> &[Q] {
    let middle = lists.present.len() / 2;
    match part {
        Part::Present => &lists.present,
        Part::Absent => &lists.absent,
        Part::Few => few(lists),
        Part::Halves => &lists.halves,
        Part::Front => &lists.present[..middle],
        Part::Back => &lists.present[middle..],
    }
}

/// Times a call for each key.
pub(super) fn time_each<R: Clock + Print, Q: BorrowedBytes>(
    sheet: &Sheet<'_, R>,
    name: &str,
    map: &mut GenericPatriciaMap<Q::Owned, u64>,
    call: Each,
    keys: &[Q],
) -> io::Result<()> {
    let start = Instant::now(sheet.rt)?;
    let answer = call_each(map, call, keys)?;
    report(sheet, name, start, keys.len(), answer)
}

// Over how many entries a call goes that answers a number.
fn entries_of<K: Bytes>(maps: &Maps<K>, call: Whole, answer: u64) -> usize {
    match call {
        Whole::Count | Whole::Split | Whole::Pop => answer as usize,
        _ => maps.map.len(),
    }
}

// Times a call on a whole map.
fn time_whole<R: Clock + Print, Q: BorrowedBytes>(
    sheet: &Sheet<'_, R>,
    name: &str,
    maps: &mut Maps<Q::Owned>,
    call: Whole,
    prefix: Q,
) -> io::Result<()> {
    let start = Instant::now(sheet.rt)?;
    let answer = call_whole(maps, call, prefix)?;
    report(sheet, name, start, entries_of(maps, call, answer), answer)
}

// A line on what a split removed.
fn report_part<R: Print, K: Bytes>(
    sheet: &Sheet<'_, R>,
    name: &str,
    maps: &Maps<K>,
) -> io::Result<()> {
    let part = maps.part.len();
    report_share(sheet, name, part, maps.copy.len().saturating_add(part))
}

// A line on the tree bytes, where times are asked for.
fn report_size<R: Print, K: Bytes>(
    sheet: &Sheet<'_, R>,
    name: &str,
    maps: &Maps<K>,
) -> io::Result<()> {
    if !sheet.times {
        return Ok(());
    }
    report_share(sheet, name, maps.tree.len(), maps.map.len())
}

// Does what is done between calls.
fn pass<R: Print, Q: BorrowedBytes>(
    sheet: &Sheet<'_, R>,
    name: &str,
    maps: &mut Maps<Q::Owned>,
    between: Between,
    lists: &Lists<Q>,
) -> io::Result<()> {
    match between {
        Between::Collect => collect(maps)?,
        Between::Exchange => exchange(maps),
        Between::Forget => forget(maps),
        Between::Refill => refill(maps, &lists.present)?,
        Between::Share => report_part(sheet, name, maps)?,
        Between::Size => report_size(sheet, name, maps)?,
    }
    Ok(())
}

// Makes a step.
fn time_step<R: Clock + Print, Q: BorrowedBytes>(
    sheet: &Sheet<'_, R>,
    name: &str,
    maps: &mut Maps<Q::Owned>,
    step: Step,
    lists: &Lists<Q>,
) -> io::Result<()> {
    match step {
        Step::Each(call, part) => {
            time_each(sheet, name, &mut maps.map, call, part_of(lists, part))
        }
        Step::Whole(call) => time_whole(sheet, name, maps, call, lists.prefix),
        Step::Between(between) => pass(sheet, name, maps, between, lists),
    }
}

/// Asks a map that is filled what the lines tell that are asked for.
pub(super) fn time_questions<R: Clock + Print, Q: BorrowedBytes>(
    sheet: &Sheet<'_, R>,
    maps: &mut Maps<Q::Owned>,
    lists: &Lists<Q>,
) -> io::Result<()> {
    for (name, step) in &QUESTIONS {
        if is_asked(sheet, name) {
            time_step(sheet, name, maps, *step, lists)?;
        }
    }
    Ok(())
}

/// Makes each other step.
pub(super) fn time_steps<R: Clock + Print, Q: BorrowedBytes>(
    sheet: &Sheet<'_, R>,
    maps: &mut Maps<Q::Owned>,
    lists: &Lists<Q>,
) -> io::Result<()> {
    for (name, step) in &STEPS {
        time_step(sheet, name, maps, *step, lists)?;
    }
    Ok(())
}
