//! Reads calls of maps, sets and routers, a line each, and writes each line with its answers.
//!
//! A line is words separated by spaces: the kind of keys, the call, and its arguments. The kinds
//! are `bytes`, `text` and `units` for maps, the same with `_set` for sets and with `_router` for
//! routers. The lines of each kind are called in their order, on one map, set or router, which is
//! empty at first, and the kinds stand in this order. Other lines are left out.
//!
//! A call that finds no memory answers `refused` and what the map or the set then has, and behind
//! `again` what it answers when it is made once more. A list of entries that is refused is written
//! once more behind `refused` alone, and a cursor that writes goes on behind it.
#![tactic(auto)]

mod answering;
mod answers;
mod calls;
mod encodings;
mod key_calls;
mod kinds;
mod map_bulk;
mod map_calls;
mod map_queries;
mod map_values;
mod order_calls;
mod prefix_calls;
mod router_calls;
mod set_bulk;
mod set_calls;
mod set_pairs;
mod set_queries;
mod walks;
mod wholes;

use answering::write_answers;
use map_calls::MapCalls;
use patricia_tree::{UnitKey, Units};
use router_calls::RouterCalls;
use set_calls::SetCalls;
use std::alloc::Global;
use std::io::{self, Read};

// So many bytes of answers to a call ask for no memory, and what is refused is the library's.
const ROOM: usize = 65536;

// Writes the calls of a text with their answers, kind by kind.
fn write_all(rt: &impl Print, alloc: Global, text: &str) -> io::Result<()> {
    let calls = calls::calls(alloc, text)?;
    let mut out = String::with_capacity(alloc, ROOM)?;
    write_answers::<&[u8], MapCalls<Vec<u8>>>(rt, alloc, "bytes", &calls, &mut out)?;
    write_answers::<&str, MapCalls<String>>(rt, alloc, "text", &calls, &mut out)?;
    write_answers::<Units<'_>, MapCalls<UnitKey>>(rt, alloc, "units", &calls, &mut out)?;
    write_answers::<&[u8], SetCalls<Vec<u8>>>(rt, alloc, "bytes_set", &calls, &mut out)?;
    write_answers::<&str, SetCalls<String>>(rt, alloc, "text_set", &calls, &mut out)?;
    write_answers::<Units<'_>, SetCalls<UnitKey>>(rt, alloc, "units_set", &calls, &mut out)?;
    write_answers::<&[u8], RouterCalls<Vec<u8>>>(rt, alloc, "bytes_router", &calls, &mut out)?;
    write_answers::<&str, RouterCalls<String>>(rt, alloc, "text_router", &calls, &mut out)?;
    write_answers::<Units<'_>, RouterCalls<UnitKey>>(rt, alloc, "units_router", &calls, &mut out)
}

fn main(rt: HostRuntime) -> io::Result<()> {
    let mut text = String::new(rt.alloc());
    rt.stdin().read_to_string(&mut text)?;
    write_all(&rt, rt.alloc(), &text)
}
