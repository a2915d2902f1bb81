//! Many look-ups at once: the keys lie one behind the other in one array.
ghost use Rattle.std.specs.Prelude.{◌≡◌, ◌≤◌, ◌<◌, length, true, false};
ghost use Rattle.std.specs.Prelude.{Some, None, map as list_map, get_or, set};
ghost use Rattle.std.specs.List.{sum};
ghost use Rattle.std.specs.Option.{option_copied, option_map};
ghost use Rattle.std.specs.FinMap as map;
ghost use Rattle.patricia_tree.specs.Prefixes.{longest};
ghost use Rattle.patricia_c.specs.Many.{AnswersLongest, AnswersMany, flag, keys_in, measured};
ghost use Rattle.patricia_c.specs.Many.{number, written};
ghost use Rattle.patricia_c.specs.Internal.Behind.{map_behind};
ghost use Rattle.patricia_c.specs.Maps.{map_of};

use crate::codes::{DONE, NO_ROOM};
use crate::map_place::MapPlace;
use crate::map_pointer::StoredMap;
use std::array;

// so many keys are looked up side by side
const SIDE_BY_SIDE: usize = 32;

// Whether keys of these lengths lie in so many bytes.
pub(crate) fn lie_in(lens: &[usize], bytes: usize) -> bool
    ensures within { result ≡ true → sum lens.now ≤ bytes }
    ensures past { result ≡ false → bytes < sum lens.now }
{
    let mut left = bytes;
    let mut i = 0;
    while i < lens.len() {
        if left < lens[i] {
            return false;
        }
        left -= lens[i];
        i += 1;
    }
    true
}

// Writes one answer.
fn write_value(answer: Option<u64>, i: usize, values: &mut [u64], found: &mut [u8])
    requires values_fit { i < length values.old }
    requires found_fit { i < length found.old }
    ensures values { values.new ≡ set values.old i
        (number (λ v. v) answer (get_or values.old i 0)) }
    ensures found { found.new ≡ set found.old i (flag answer (get_or found.old i 0)) }
{
    match answer {
        Some(value) => {
            values[i] = value;
            found[i] = 1;
        }
        None => found[i] = 0,
    }
}

// Writes answers, one behind the other.
fn write_answers(answers: &[Option<&u64>], values: &mut [u64], found: &mut [u8])
    requires values_fit { length answers.now ≤ length values.old }
    requires found_fit { length answers.now ≤ length found.old }
    ensures values { values.new ≡ written (number (λ v. v)) (list_map option_copied answers.now)
        values.old }
    ensures found { found.new ≡ written flag (list_map option_copied answers.now) found.old }
{
    let mut i = 0;
    while i < answers.len() {
        write_value(answers[i].copied(), i, values, found);
        i += 1;
    }
}

// Cuts off the keys of these lengths, and returns how many bytes they have.
fn cut_keys<'a>(keys: &'a [u8], lens: &[usize], block: &mut [&'a [u8]]) -> usize
    requires keys_fit { sum lens.now ≤ length keys.now }
    requires as_many { length lens.now ≡ length block.old }
    ensures used { result ≡ sum lens.now }
    ensures keys { list_map (λ key. key.now) block.new ≡ keys_in keys.now lens.now }
{
    let mut used = 0;
    let mut i = 0;
    while i < lens.len() {
        let end = used + lens[i];
        block[i] = &keys[used..end];
        used = end;
        i += 1;
    }
    used
}

// Looks up a block of keys side by side, and writes their answers. Returns how many bytes the keys
// have.
fn get_block(
    stored: &StoredMap,
    keys: &[u8],
    lens: &[usize],
    values: &mut [u64],
    found: &mut [u8],
) -> usize
    requires few { length lens.now ≤ 32 }
    requires keys_fit { sum lens.now ≤ length keys.now }
    requires values_fit { length lens.now ≤ length values.old }
    requires found_fit { length lens.now ≤ length found.old }
    ensures used { result ≡ sum lens.now }
    ensures values { values.new ≡ written (number (λ v. v)) (list_map
        (map.get stored.now.map) (keys_in keys.now lens.now)) values.old }
    ensures found { found.new ≡ written flag (list_map
        (map.get stored.now.map) (keys_in keys.now lens.now)) found.old }
{
    let mut block: [&[u8]; SIDE_BY_SIDE] = array::from_fn(|_| keys);
    let block = &mut block[..lens.len()];
    let used = cut_keys(keys, lens, block);
    let mut answers: [Option<&u64>; SIDE_BY_SIDE] = [None; SIDE_BY_SIDE];
    let answers = &mut answers[..lens.len()];
    stored.map.get_many_into(block, answers);
    write_answers(answers, values, found);
    used
}

// Looks up keys, a block of them after the other.
fn get_blocks(stored: &StoredMap, keys: &[u8], lens: &[usize], values: &mut [u64], found: &mut [u8])
    requires keys_fit { sum lens.now ≤ length keys.now }
    requires values_fit { length lens.now ≤ length values.old }
    requires found_fit { length lens.now ≤ length found.old }
    ensures values { values.new ≡ written (number (λ v. v)) (list_map
        (map.get stored.now.map) (keys_in keys.now lens.now)) values.old }
    ensures found { found.new ≡ written flag (list_map
        (map.get stored.now.map) (keys_in keys.now lens.now)) found.old }
{
    let mut used = 0;
    let mut i = 0;
    while i < lens.len() {
        let end = i + (lens.len() - i).min(SIDE_BY_SIDE);
        let rest = &keys[used..];
        let block = &lens[i..end];
        used += get_block(stored, rest, block, &mut values[i..end], &mut found[i..end]);
        i = end;
    }
}

// Looks up each key, and writes its answer.
fn get_each(
    stored: Option<&StoredMap>,
    keys: &[u8],
    lens: &[usize],
    values: &mut [u64],
    found: &mut [u8],
)
    requires keys_fit { sum lens.now ≤ length keys.now }
    requires values_fit { length lens.now ≤ length values.old }
    requires found_fit { length lens.now ≤ length found.old }
    ensures values { values.new ≡ written (number (λ v. v)) (list_map
        (map.get (map_behind stored.entry)) (keys_in keys.now lens.now)) values.old }
    ensures found { found.new ≡ written flag (list_map
        (map.get (map_behind stored.entry)) (keys_in keys.now lens.now)) found.old }
{
    match stored {
        Some(stored) => get_blocks(stored, keys, lens, values, found),
        None => found[..lens.len()].fill(0),
    }
}

// Looks up each key, where there is room for the answers.
pub(crate) fn get_many(
    stored: Option<&StoredMap>,
    keys: &[u8],
    lens: &[usize],
    values: &mut [u64],
    found: &mut [u8],
) -> u32
    ensures { AnswersMany (map.get (map_behind stored.entry)) keys.now lens.now
        result values.old found.old values.new found.new }
{
    if values.len() < lens.len() || found.len() < lens.len() || !lie_in(lens, keys.len()) {
        return NO_ROOM;
    }
    get_each(stored, keys, lens, values, found);
    DONE
}

/// Looks up many keys: those of these lengths that lie one behind the other in `keys`, up to 32 of
/// them side by side. Writes to `found`, for each in turn, 1 where it is there, and then its value
/// to `values`, and else 0. Returns `DONE`; or `NO_ROOM` where `values` or `found` has fewer places
/// than there are lengths, or the lengths reach behind `keys`: nothing is written then. Does not
/// allocate.
#[unsafe(no_mangle)]
pub extern "C" fn patricia_get_many(
    at: &mut MapPlace,
    keys: &[u8],
    lens: &[usize],
    values: &mut [u64],
    found: &mut [u8],
) -> u32
    ensures same { at.new ≡ at.old }
    ensures answers { AnswersMany (map.get (map_of at.old.pointer.stored)) keys.now lens.now
        result values.old found.old values.new found.new }
{
    get_many(at.stored(), keys, lens, values, found)
}

// The length of a prefix that was found, and its value.
fn measure(answer: Option<(&[u8], &u64)>) -> Option<(usize, u64)>
    ensures { result ≡ measured (option_map (λ e. (e.0.now, e.1.now)) answer.entry) }
{
    match answer {
        Some((front, value)) => Some((front.len(), *value)),
        None => None,
    }
}

// Writes one answer.
fn write_longest(
    answer: Option<(usize, u64)>,
    i: usize,
    prefix_lens: &mut [usize],
    values: &mut [u64],
    found: &mut [u8],
)
    requires lens_fit { i < length prefix_lens.old }
    requires values_fit { i < length values.old }
    requires found_fit { i < length found.old }
    ensures lens { prefix_lens.new ≡ set prefix_lens.old i
        (number (λ e. e.0) answer (get_or prefix_lens.old i 0)) }
    ensures values { values.new ≡ set values.old i
        (number (λ e. e.1) answer (get_or values.old i 0)) }
    ensures found { found.new ≡ set found.old i (flag answer (get_or found.old i 0)) }
{
    match answer {
        Some((len, value)) => {
            prefix_lens[i] = len;
            values[i] = value;
            found[i] = 1;
        }
        None => found[i] = 0,
    }
}

// Writes the answers of a block, one behind the other.
fn write_prefixes(
    answers: &[Option<(&[u8], &u64)>],
    prefix_lens: &mut [usize],
    values: &mut [u64],
    found: &mut [u8],
)
    requires lens_fit { length answers.now ≤ length prefix_lens.old }
    requires values_fit { length answers.now ≤ length values.old }
    requires found_fit { length answers.now ≤ length found.old }
    ensures lens { prefix_lens.new ≡ written (number (λ e. e.0)) (list_map
        (λ answer. measured (option_map (λ e. (e.0.now, e.1.now)) answer)) answers.now)
        prefix_lens.old }
    ensures values { values.new ≡ written (number (λ e. e.1)) (list_map
        (λ answer. measured (option_map (λ e. (e.0.now, e.1.now)) answer)) answers.now)
        values.old }
    ensures found { found.new ≡ written flag (list_map
        (λ answer. measured (option_map (λ e. (e.0.now, e.1.now)) answer)) answers.now)
        found.old }
{
    let mut i = 0;
    while i < answers.len() {
        write_longest(measure(answers[i]), i, prefix_lens, values, found);
        i += 1;
    }
}

// Looks up the longest prefixes of a block of keys side by side, and writes their answers. Returns
// how many bytes the keys have.
fn longest_block(
    stored: &StoredMap,
    keys: &[u8],
    lens: &[usize],
    prefix_lens: &mut [usize],
    values: &mut [u64],
    found: &mut [u8],
) -> usize
    requires few { length lens.now ≤ 32 }
    requires keys_fit { sum lens.now ≤ length keys.now }
    requires lens_fit { length lens.now ≤ length prefix_lens.old }
    requires values_fit { length lens.now ≤ length values.old }
    requires found_fit { length lens.now ≤ length found.old }
    ensures used { result ≡ sum lens.now }
    ensures lens { prefix_lens.new ≡ written (number (λ e. e.0)) (list_map
        (λ key. measured (longest key (map.entries stored.now.map)))
        (keys_in keys.now lens.now)) prefix_lens.old }
    ensures values { values.new ≡ written (number (λ e. e.1)) (list_map
        (λ key. measured (longest key (map.entries stored.now.map)))
        (keys_in keys.now lens.now)) values.old }
    ensures found { found.new ≡ written flag (list_map
        (λ key. measured (longest key (map.entries stored.now.map)))
        (keys_in keys.now lens.now)) found.old }
{
    let mut block: [&[u8]; SIDE_BY_SIDE] = array::from_fn(|_| keys);
    let block = &mut block[..lens.len()];
    let used = cut_keys(keys, lens, block);
    let mut answers: [Option<(&[u8], &u64)>; SIDE_BY_SIDE] = [None; SIDE_BY_SIDE];
    let answers = &mut answers[..lens.len()];
    stored.map.longest_many_into(block, answers);
    write_prefixes(answers, prefix_lens, values, found);
    used
}

// Looks up the longest prefixes of keys, a block of them after the other.
fn longest_blocks(
    stored: &StoredMap,
    keys: &[u8],
    lens: &[usize],
    prefix_lens: &mut [usize],
    values: &mut [u64],
    found: &mut [u8],
)
    requires keys_fit { sum lens.now ≤ length keys.now }
    requires lens_fit { length lens.now ≤ length prefix_lens.old }
    requires values_fit { length lens.now ≤ length values.old }
    requires found_fit { length lens.now ≤ length found.old }
    ensures lens { prefix_lens.new ≡ written (number (λ e. e.0)) (list_map
        (λ key. measured (longest key (map.entries stored.now.map)))
        (keys_in keys.now lens.now)) prefix_lens.old }
    ensures values { values.new ≡ written (number (λ e. e.1)) (list_map
        (λ key. measured (longest key (map.entries stored.now.map)))
        (keys_in keys.now lens.now)) values.old }
    ensures found { found.new ≡ written flag (list_map
        (λ key. measured (longest key (map.entries stored.now.map)))
        (keys_in keys.now lens.now)) found.old }
{
    let mut used = 0;
    let mut i = 0;
    while i < lens.len() {
        let end = i + (lens.len() - i).min(SIDE_BY_SIDE);
        let (rest, block) = (&keys[used..], &lens[i..end]);
        let (sizes, numbers) = (&mut prefix_lens[i..end], &mut values[i..end]);
        used += longest_block(stored, rest, block, sizes, numbers, &mut found[i..end]);
        i = end;
    }
}

// Looks up the longest prefix of each key, and writes its answer.
fn longest_each(
    stored: Option<&StoredMap>,
    keys: &[u8],
    lens: &[usize],
    prefix_lens: &mut [usize],
    values: &mut [u64],
    found: &mut [u8],
)
    requires keys_fit { sum lens.now ≤ length keys.now }
    requires lens_fit { length lens.now ≤ length prefix_lens.old }
    requires values_fit { length lens.now ≤ length values.old }
    requires found_fit { length lens.now ≤ length found.old }
    ensures lens { prefix_lens.new ≡ written (number (λ e. e.0)) (list_map
        (λ key. measured (longest key (map.entries (map_behind stored.entry))))
        (keys_in keys.now lens.now)) prefix_lens.old }
    ensures values { values.new ≡ written (number (λ e. e.1)) (list_map
        (λ key. measured (longest key (map.entries (map_behind stored.entry))))
        (keys_in keys.now lens.now)) values.old }
    ensures found { found.new ≡ written flag (list_map
        (λ key. measured (longest key (map.entries (map_behind stored.entry))))
        (keys_in keys.now lens.now)) found.old }
{
    let Some(stored) = stored else {
        found[..lens.len()].fill(0);
        return;
    };
    longest_blocks(stored, keys, lens, prefix_lens, values, found);
}

// Looks up the longest prefix of each key, where there is room for the answers.
pub(crate) fn longest_prefix_many(
    stored: Option<&StoredMap>,
    keys: &[u8],
    lens: &[usize],
    prefix_lens: &mut [usize],
    values: &mut [u64],
    found: &mut [u8],
) -> u32
    ensures { AnswersLongest (map.entries (map_behind stored.entry)) keys.now lens.now
        result prefix_lens.old values.old found.old prefix_lens.new values.new found.new }
{
    let count = lens.len();
    if prefix_lens.len() < count || values.len() < count || found.len() < count {
        return NO_ROOM;
    }
    if !lie_in(lens, keys.len()) {
        return NO_ROOM;
    }
    longest_each(stored, keys, lens, prefix_lens, values, found);
    DONE
}

/// Looks up the longest key that is a prefix, for many keys: those of these lengths that lie one
/// behind the other in `keys`, up to 32 of them side by side. Writes to `found`, for each in turn,
/// 1 where there is one, and then its length to `prefix_lens` and its value to `values`, and else
/// 0. Returns `DONE`; or `NO_ROOM` where one of the three has fewer places than there are lengths,
/// or the lengths reach behind `keys`: nothing is written then. Does not allocate.
#[unsafe(no_mangle)]
pub extern "C" fn patricia_longest_prefix_many(
    at: &mut MapPlace,
    keys: &[u8],
    lens: &[usize],
    prefix_lens: &mut [usize],
    values: &mut [u64],
    found: &mut [u8],
) -> u32
    ensures same { at.new ≡ at.old }
    ensures answers { AnswersLongest (map.entries (map_of at.old.pointer.stored)) keys.now lens.now
        result prefix_lens.old values.old found.old prefix_lens.new values.new found.new }
{
    longest_prefix_many(at.stored(), keys, lens, prefix_lens, values, found)
}
