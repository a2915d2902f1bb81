//! Look-ups side by side, in stages: a look-up waits for memory most of its time, and the waits
//! overlap.
ghost use Rattle.std.specs.Prelude.{◌≡◌, ◌+◌, ◌≤◌, Bool, false, length};
ghost use Rattle.std.specs.Prelude.{map as list_map};
ghost use Rattle.patricia_model.specs.Siblings.{IsCanonical};
ghost use Rattle.patricia_nodes.specs.Internal.Plans.{IsWellFormed, siblings_of};
ghost use Rattle.patricia_many.specs.Internal.Lookups.{AreEndedTo, AreLookups};

use crate::lookup::Lookup;
use patricia_keys::{BorrowedBytes, Bytes};
use patricia_nodes::arena::NodeArena;

/// So many look-ups go on side by side.
pub const SIDE_BY_SIDE: usize = 32;

// the place of each of them
const PLACES: [u8; SIDE_BY_SIDE] = [
    0, 1, 2, 3, 4, 5, 6, 7, 8, 9, 10, 11, 12, 13, 14, 15, 16, 17, 18, 19, 20, 21, 22, 23, 24, 25,
    26, 27, 28, 29, 30, 31,
];

// so many go on faster each by itself
const FEW: usize = 3;

// a look-up of more steps, which is rare, goes on by itself
const MOST_ROUNDS: usize = 64;

// Reads the keys. Nothing here waits for what was read, so that all wait for memory together.
#[inline(never)]
fn read_keys<Q: BorrowedBytes>(keys: &[Q], lookups: &mut [Lookup])
    requires { length keys.now ≡ length lookups.old }
    ensures { length lookups.new ≡ length lookups.old }
{
    let mut k = 0;
    while k < keys.len() {
        lookups[k].read_key(keys[k]);
        k += 1;
    }
}

// Reads the heads of the nodes where the look-ups at these places are, in the same way.
#[inline(never)]
fn read_heads<Q: BorrowedBytes, V>(
    arena: &NodeArena<V>,
    keys: &[Q],
    places: &[u8],
    lookups: &mut [Lookup],
)
    requires whole { IsWellFormed arena.now }
    requires siblings { IsCanonical Q.Owned.item (siblings_of arena.now) }
    requires as_many { length keys.now ≡ length lookups.old }
    requires keys { AreLookups Q.Owned.item arena.now false
        (list_map Q.key keys.now) lookups.old }
    ensures as_many { length lookups.new ≡ length lookups.old }
    ensures keys { (by_prefix : Bool)
        → AreLookups Q.Owned.item arena.now by_prefix (list_map Q.key keys.now) lookups.old
        → AreLookups Q.Owned.item arena.now by_prefix (list_map Q.key keys.now) lookups.new }
{
    let mut i = 0;
    while i < places.len() {
        let k = places[i] as usize;
        if k < keys.len() {
            lookups[k].read_head(arena);
        }
        i += 1;
    }
}

// Reads the labels of the nodes where the look-ups at these places are, in the same way.
#[inline(never)]
fn read_labels<Q: BorrowedBytes, V>(
    arena: &NodeArena<V>,
    keys: &[Q],
    places: &[u8],
    lookups: &mut [Lookup],
)
    requires whole { IsWellFormed arena.now }
    requires siblings { IsCanonical Q.Owned.item (siblings_of arena.now) }
    requires as_many { length keys.now ≡ length lookups.old }
    requires keys { AreLookups Q.Owned.item arena.now false
        (list_map Q.key keys.now) lookups.old }
    ensures as_many { length lookups.new ≡ length lookups.old }
    ensures keys { (by_prefix : Bool)
        → AreLookups Q.Owned.item arena.now by_prefix (list_map Q.key keys.now) lookups.old
        → AreLookups Q.Owned.item arena.now by_prefix (list_map Q.key keys.now) lookups.new }
{
    let mut i = 0;
    while i < places.len() {
        let k = places[i] as usize;
        if k < keys.len() {
            lookups[k].read_label(arena);
        }
        i += 1;
    }
}

// The look-ups at these places go on, up to a label for which they wait. Leaves at the front the
// places of those that are not at their ends and do not wait, and writes the places of those that
// wait to the front of a list. Returns how many both are.
fn go_to_labels<Q: BorrowedBytes, V>(
    arena: &NodeArena<V>,
    keys: &[Q],
    by_prefix: bool,
    places: &mut [u8],
    lookups: &mut [Lookup],
    waiting: &mut [u8],
) -> (usize, usize)
    requires whole { IsWellFormed arena.now }
    requires siblings { IsCanonical Q.Owned.item (siblings_of arena.now) }
    requires as_many { length keys.now ≡ length lookups.old }
    requires room { length places.old ≤ length waiting.old }
    requires keys { AreLookups Q.Owned.item arena.now by_prefix
        (list_map Q.key keys.now) lookups.old }
    ensures as_many { length lookups.new ≡ length lookups.old }
    ensures keys { AreLookups Q.Owned.item arena.now by_prefix
        (list_map Q.key keys.now) lookups.new }
    ensures as_many_places { length places.new ≡ length places.old }
    ensures room { length waiting.new ≡ length waiting.old }
    ensures few { result.0 + result.1 ≤ length places.old }
{
    let mut going = 0;
    let mut count = 0;
    let mut i = 0;
    while i < places.len() {
        let place = places[i];
        let k = place as usize;
        if k < keys.len() {
            let waits = lookups[k].go(arena, keys[k], by_prefix);
            let goes_on = lookups[k].goes_on_at_once(waits);
            waiting[count] = place;
            count += waits as usize;
            places[going] = place;
            going += goes_on as usize;
        }
        i += 1;
    }
    (going, count)
}

// The look-ups at these places, which waited for a label, go on. Writes the places of those that
// are then not at their ends to the front of a list, and returns how many they are.
fn go_past_labels<Q: BorrowedBytes, V>(
    arena: &NodeArena<V>,
    keys: &[Q],
    by_prefix: bool,
    waiting: &[u8],
    lookups: &mut [Lookup],
    places: &mut [u8],
) -> usize
    requires whole { IsWellFormed arena.now }
    requires siblings { IsCanonical Q.Owned.item (siblings_of arena.now) }
    requires as_many { length keys.now ≡ length lookups.old }
    requires room { length waiting.now ≤ length places.old }
    requires keys { AreLookups Q.Owned.item arena.now by_prefix
        (list_map Q.key keys.now) lookups.old }
    ensures as_many { length lookups.new ≡ length lookups.old }
    ensures keys { AreLookups Q.Owned.item arena.now by_prefix
        (list_map Q.key keys.now) lookups.new }
    ensures as_many_places { length places.new ≡ length places.old }
    ensures few { result ≤ length waiting.now }
{
    let mut count = 0;
    let mut i = 0;
    while i < waiting.len() {
        let place = waiting[i];
        let k = place as usize;
        if k < keys.len() {
            lookups[k].advance(arena, keys[k], by_prefix);
            places[count] = place;
            count += lookups[k].goes_on() as usize;
        }
        i += 1;
    }
    count
}

// The look-ups at these places go on, in stages. Leaves at the front the places of those that are
// not at their ends, and returns how many they are. `waiting` has room for those that wait.
fn go_all<Q: BorrowedBytes, V>(
    arena: &NodeArena<V>,
    keys: &[Q],
    by_prefix: bool,
    places: &mut [u8],
    lookups: &mut [Lookup],
    waiting: &mut [u8],
) -> usize
    requires whole { IsWellFormed arena.now }
    requires siblings { IsCanonical Q.Owned.item (siblings_of arena.now) }
    requires as_many { length keys.now ≡ length lookups.old }
    requires room { length places.old ≤ length waiting.old }
    requires keys { AreLookups Q.Owned.item arena.now by_prefix
        (list_map Q.key keys.now) lookups.old }
    ensures as_many { length lookups.new ≡ length lookups.old }
    ensures keys { AreLookups Q.Owned.item arena.now by_prefix
        (list_map Q.key keys.now) lookups.new }
    ensures room { length waiting.new ≡ length waiting.old }
    ensures few { result ≤ length places.old }
    ensures as_many_places { length places.new ≡ length places.old }
{
    read_heads(arena, keys, places, lookups);
    let (going, count) = go_to_labels(arena, keys, by_prefix, places, lookups, waiting);
    let due = &waiting[..count];
    read_labels(arena, keys, due, lookups);
    let behind = &mut places[going..];
    going + go_past_labels(arena, keys, by_prefix, due, lookups, behind)
}

// All look-ups go on to their ends, side by side until few are left.
fn finish_all<Q: BorrowedBytes, V>(
    arena: &NodeArena<V>,
    keys: &[Q],
    by_prefix: bool,
    lookups: &mut [Lookup],
)
    requires few { length keys.now ≤ 32 }
    requires whole { IsWellFormed arena.now }
    requires siblings { IsCanonical Q.Owned.item (siblings_of arena.now) }
    requires as_many { length keys.now ≡ length lookups.old }
    requires keys { AreLookups Q.Owned.item arena.now by_prefix
        (list_map Q.key keys.now) lookups.old }
    ensures as_many { length lookups.new ≡ length lookups.old }
    ensures keys { AreLookups Q.Owned.item arena.now by_prefix
        (list_map Q.key keys.now) lookups.new }
    ensures ended { AreEndedTo (length keys.now) lookups.new }
{
    let mut places = PLACES;
    let mut waiting = PLACES;
    let mut rounds = 0;
    let mut left = keys.len();
    while left > FEW && rounds < MOST_ROUNDS {
        left = go_all(
            arena,
            keys,
            by_prefix,
            &mut places[..left],
            lookups,
            &mut waiting,
        );
        rounds += 1;
    }
    let mut k = 0;
    while k < keys.len() {
        lookups[k].finish(arena, keys[k], by_prefix);
        k += 1;
    }
}

// Begins the look-ups of keys.
fn start_all<Q: BorrowedBytes, V>(
    arena: &NodeArena<V>,
    keys: &[Q],
    by_prefix: bool,
    lookups: &mut [Lookup],
)
    requires whole { IsWellFormed arena.now }
    requires siblings { IsCanonical Q.Owned.item (siblings_of arena.now) }
    requires as_many { length keys.now ≡ length lookups.old }
    ensures as_many { length lookups.new ≡ length lookups.old }
    ensures keys { AreLookups Q.Owned.item arena.now by_prefix
        (list_map Q.key keys.now) lookups.new }
{
    let mut k = 0;
    while k < keys.len() {
        lookups[k].start(arena, keys[k], by_prefix);
        k += 1;
    }
}

/// Looks up the keys of a block, and their longest prefixes where these are asked for.
pub fn look_up<Q: BorrowedBytes, V>(
    arena: &NodeArena<V>,
    keys: &[Q],
    by_prefix: bool,
    lookups: &mut [Lookup],
)
    requires few { length keys.now ≤ 32 }
    requires whole { IsWellFormed arena.now }
    requires siblings { IsCanonical Q.Owned.item (siblings_of arena.now) }
    requires as_many { length keys.now ≡ length lookups.old }
    ensures as_many { length lookups.new ≡ length lookups.old }
    ensures keys { AreLookups Q.Owned.item arena.now by_prefix
        (list_map Q.key keys.now) lookups.new }
    ensures ended { AreEndedTo (length keys.now) lookups.new }
{
    read_keys(keys, lookups);
    start_all(arena, keys, by_prefix, lookups);
    finish_all(arena, keys, by_prefix, lookups);
}
