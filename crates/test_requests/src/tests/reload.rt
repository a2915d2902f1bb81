//! The bench. `tests/test_refusals.py` counts the memory requests of `made`; with the next one
//! refused `reloaded` fails.

use crate::tests::asserts::{done, holds, same};
use patricia_run::run::run;
use patricia_run::{Bench, Command, Reply};
use std::alloc::Global;
use std::process::Abort;

// Puts a=2 in, which is tried once more where it is refused.
fn put(rt: &impl Abort, bench: &mut Bench<Vec<u8>, u32>) {
    if let Reply::NoMemory = bench.step(Command::Insert(b"a".as_slice(), 2)) {
        let again = bench.step(Command::Insert(b"a".as_slice(), 2));
        holds!(rt; matches!(again, Reply::None));
    }
}

// Asserts that a=2 is the one entry.
fn check_entry(rt: &impl Abort, bench: &mut Bench<Vec<u8>, u32>) {
    let value = bench.step(Command::Get(b"a".as_slice()));
    holds!(rt; matches!(value, Reply::Some(2)));
    let count = bench.step(Command::<&[u8], u32>::Len);
    holds!(rt; matches!(count, Reply::Count(1)));
}

// A bench with a=2.
fn bench_of_one(rt: &impl Abort, alloc: Global) -> Bench<Vec<u8>, u32> {
    let mut bench = Bench::new(alloc);
    put(rt, &mut bench);
    check_entry(rt, &mut bench);
    bench
}

// Reloads the map.
fn reload(bench: &mut Bench<Vec<u8>, u32>) -> Reply<Vec<u8>, u32> {
    bench.step(Command::<&[u8], u32>::Reload)
}

fn check_done(rt: &impl Abort, reply: Reply<Vec<u8>, u32>) {
    holds!(rt; matches!(reply, Reply::Done));
}

#[test]
fn made(rt: HostRuntime) {
    let mut bench = bench_of_one(&rt, rt.alloc());
    check_entry(&rt, &mut bench);
}

#[test]
fn reloaded(rt: HostRuntime) {
    let mut bench = bench_of_one(&rt, rt.alloc());
    let reply = reload(&mut bench);
    check_entry(&rt, &mut bench);
    check_done(&rt, reply);
}

// Each of the commands once.
const EACH_ONCE: [Command<&[u8], u32>; 17] = [
    Command::Insert(b"foo", 1),
    Command::Get(b"foo"),
    Command::Remove(b"foo"),
    Command::Len,
    Command::List,
    Command::Under(b"foo"),
    Command::Along(b"foo"),
    Command::Longest(b"foo"),
    Command::Reach(b"foo"),
    Command::Split(b"foo"),
    Command::Swap,
    Command::Copy,
    Command::Clear,
    Command::Wire,
    Command::Reload,
    Command::Wide,
    Command::ReloadWide,
];

// An allocation failure that did not happen meets the contract of `run`.
#[test]
fn each_command_is_answered(rt: HostRuntime) {
    let mut bench: Bench<Vec<u8>, u32> = Bench::new(rt.alloc());
    same!(rt; done(&rt, run(&mut bench, &EACH_ONCE)).len(), 17);
}
