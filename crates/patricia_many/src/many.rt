//! Look-ups of many keys, a block at a time.
ghost use Rattle.std.specs.Prelude.{◌≡◌, ◌≤◌, ◌++◌, Bool, false, is_some, length, true};
ghost use Rattle.std.specs.Prelude.{map as list_map};
ghost use Rattle.std.specs.Option.{option_copied, option_map};
ghost use Rattle.std.specs.FinMap.{find};
ghost use Rattle.patricia_keys.specs.Keys.{key_cmp};
ghost use Rattle.patricia_model.specs.Prefixes.{longest};
ghost use Rattle.patricia_model.specs.Siblings.{own, IsCanonical};
ghost use Rattle.patricia_nodes.specs.Internal.Plans.{IsWellFormed, entries_of, siblings_of};
ghost use Rattle.patricia_many.specs.Internal.Lookups.{AreEndedTo, AreLookups};

use crate::lookup::Lookup;
use crate::stages::{SIDE_BY_SIDE, look_up};
use patricia_keys::{BorrowedBytes, Bytes};
use patricia_nodes::arena::NodeArena;

// Writes the values at a block of keys, by their look-ups.
fn write_values<'a, Q: BorrowedBytes, V>(
    arena: &'a NodeArena<V>,
    keys: &[Q],
    lookups: &[Lookup],
    top: Option<&'a V>,
    found: &mut [Option<&'a V>],
)
    requires siblings { IsCanonical Q.Owned.item (siblings_of arena.now) }
    requires as_many { length keys.now ≡ length lookups.now }
    requires found_as_many { length keys.now ≡ length found.old }
    requires keys { AreLookups Q.Owned.item arena.now false (list_map Q.key keys.now) lookups.now }
    requires ended { AreEndedTo (length keys.now) lookups.now }
    ensures { list_map option_copied found.new
        ≡ list_map (λ key. find key_cmp (Q.key key)
        (own (option_copied top.entry) ++ entries_of arena.now)) keys.now }
{
    let mut k = 0;
    while k < keys.len() {
        found[k] = lookups[k].value(arena, top, keys[k]);
        k += 1;
    }
}

// Looks up the keys of a block.
fn get_block<'a, Q: BorrowedBytes, V>(
    arena: &'a NodeArena<V>,
    keys: &[Q],
    top: Option<&'a V>,
    found: &mut [Option<&'a V>],
)
    requires whole { IsWellFormed arena.now }
    requires siblings { IsCanonical Q.Owned.item (siblings_of arena.now) }
    requires few { length keys.now ≤ 32 }
    requires as_many { length keys.now ≡ length found.old }
    ensures { list_map option_copied found.new
        ≡ list_map (λ key. find key_cmp (Q.key key)
        (own (option_copied top.entry) ++ entries_of arena.now)) keys.now }
{
    let mut lookups = [Lookup::new(); SIDE_BY_SIDE];
    let lookups = &mut lookups[..keys.len()];
    look_up(arena, keys, false, lookups);
    write_values(arena, keys, lookups, top, found);
}

/// Looks up keys side by side, and writes the value at each to the place of the key. That of the
/// empty key is given. Does not allocate.
pub fn get_many<'a, Q: BorrowedBytes, V>(
    arena: &'a NodeArena<V>,
    keys: &[Q],
    top: Option<&'a V>,
    found: &mut [Option<&'a V>],
)
    requires whole { IsWellFormed arena.now }
    requires siblings { IsCanonical Q.Owned.item (siblings_of arena.now) }
    requires as_many { length keys.now ≡ length found.old }
    ensures { list_map option_copied found.new
        ≡ list_map (λ key. find key_cmp (Q.key key)
        (own (option_copied top.entry) ++ entries_of arena.now)) keys.now }
{
    let mut at = 0;
    while at < keys.len() {
        let end = at + (keys.len() - at).min(SIDE_BY_SIDE);
        get_block(arena, &keys[at..end], top, &mut found[at..end]);
        at = end;
    }
}

// Writes which keys of a block are there, by their look-ups.
fn write_flags<Q: BorrowedBytes, V>(
    arena: &NodeArena<V>,
    keys: &[Q],
    lookups: &[Lookup],
    top: Option<&V>,
    found: &mut [bool],
)
    requires siblings { IsCanonical Q.Owned.item (siblings_of arena.now) }
    requires as_many { length keys.now ≡ length lookups.now }
    requires found_as_many { length keys.now ≡ length found.old }
    requires keys { AreLookups Q.Owned.item arena.now false (list_map Q.key keys.now) lookups.now }
    requires ended { AreEndedTo (length keys.now) lookups.now }
    ensures { found.new ≡ list_map (λ key. is_some (find key_cmp (Q.key key)
        (own (option_copied top.entry) ++ entries_of arena.now))) keys.now }
{
    let mut k = 0;
    while k < keys.len() {
        found[k] = lookups[k].value(arena, top, keys[k]).is_some();
        k += 1;
    }
}

// Looks up whether the keys of a block are there.
fn contains_block<Q: BorrowedBytes, V>(
    arena: &NodeArena<V>,
    keys: &[Q],
    top: Option<&V>,
    found: &mut [bool],
)
    requires whole { IsWellFormed arena.now }
    requires siblings { IsCanonical Q.Owned.item (siblings_of arena.now) }
    requires few { length keys.now ≤ 32 }
    requires as_many { length keys.now ≡ length found.old }
    ensures { found.new ≡ list_map (λ key. is_some (find key_cmp (Q.key key)
        (own (option_copied top.entry) ++ entries_of arena.now))) keys.now }
{
    let mut lookups = [Lookup::new(); SIDE_BY_SIDE];
    let lookups = &mut lookups[..keys.len()];
    look_up(arena, keys, false, lookups);
    write_flags(arena, keys, lookups, top, found);
}

/// Looks up keys side by side, and writes whether each is there to the place of the key. The value
/// at the empty key is given. Does not allocate.
pub fn contains_many<Q: BorrowedBytes, V>(
    arena: &NodeArena<V>,
    keys: &[Q],
    top: Option<&V>,
    found: &mut [bool],
)
    requires whole { IsWellFormed arena.now }
    requires siblings { IsCanonical Q.Owned.item (siblings_of arena.now) }
    requires as_many { length keys.now ≡ length found.old }
    ensures { found.new ≡ list_map (λ key. is_some (find key_cmp (Q.key key)
        (own (option_copied top.entry) ++ entries_of arena.now))) keys.now }
{
    let mut at = 0;
    while at < keys.len() {
        let end = at + (keys.len() - at).min(SIDE_BY_SIDE);
        contains_block(arena, &keys[at..end], top, &mut found[at..end]);
        at = end;
    }
}

// Writes the longest prefixes of a block of keys, by their look-ups.
fn write_prefixes<'a, Q: BorrowedBytes, V>(
    arena: &'a NodeArena<V>,
    keys: &[Q],
    lookups: &[Lookup],
    top: Option<&'a V>,
    found: &mut [Option<(Q, &'a V)>],
)
    requires as_many { length keys.now ≡ length lookups.now }
    requires found_as_many { length keys.now ≡ length found.old }
    requires keys { AreLookups Q.Owned.item arena.now true (list_map Q.key keys.now) lookups.now }
    requires ended { AreEndedTo (length keys.now) lookups.now }
    ensures { list_map (option_map (λ e. (Q.key e.0, e.1.now))) found.new
        ≡ list_map (λ key. longest (Q.key key)
        (own (option_copied top.entry) ++ entries_of arena.now)) keys.now }
{
    let mut k = 0;
    while k < keys.len() {
        found[k] = lookups[k].prefix(arena, top, keys[k]);
        k += 1;
    }
}

// Looks up the longest prefixes of the keys of a block.
fn longest_block<'a, Q: BorrowedBytes, V>(
    arena: &'a NodeArena<V>,
    keys: &[Q],
    top: Option<&'a V>,
    found: &mut [Option<(Q, &'a V)>],
)
    requires whole { IsWellFormed arena.now }
    requires siblings { IsCanonical Q.Owned.item (siblings_of arena.now) }
    requires few { length keys.now ≤ 32 }
    requires as_many { length keys.now ≡ length found.old }
    ensures { list_map (option_map (λ e. (Q.key e.0, e.1.now))) found.new
        ≡ list_map (λ key. longest (Q.key key)
        (own (option_copied top.entry) ++ entries_of arena.now)) keys.now }
{
    let mut lookups = [Lookup::new(); SIDE_BY_SIDE];
    let lookups = &mut lookups[..keys.len()];
    look_up(arena, keys, true, lookups);
    write_prefixes(arena, keys, lookups, top, found);
}

/// Looks up the longest prefixes of keys side by side, and writes each, with the value there, to
/// the place of the key. The value at the empty key is given. Does not allocate.
pub fn longest_many<'a, Q: BorrowedBytes, V>(
    arena: &'a NodeArena<V>,
    keys: &[Q],
    top: Option<&'a V>,
    found: &mut [Option<(Q, &'a V)>],
)
    requires whole { IsWellFormed arena.now }
    requires siblings { IsCanonical Q.Owned.item (siblings_of arena.now) }
    requires as_many { length keys.now ≡ length found.old }
    ensures { list_map (option_map (λ e. (Q.key e.0, e.1.now))) found.new
        ≡ list_map (λ key. longest (Q.key key)
        (own (option_copied top.entry) ++ entries_of arena.now)) keys.now }
{
    let mut at = 0;
    while at < keys.len() {
        let end = at + (keys.len() - at).min(SIDE_BY_SIDE);
        longest_block(arena, &keys[at..end], top, &mut found[at..end]);
        at = end;
    }
}

// Writes the longest prefixes of a block of keys without their values, by their look-ups.
fn write_prefix_keys<Q: BorrowedBytes, V>(
    arena: &NodeArena<V>,
    keys: &[Q],
    lookups: &[Lookup],
    top: Option<&V>,
    found: &mut [Option<Q>],
)
    requires as_many { length keys.now ≡ length lookups.now }
    requires found_as_many { length keys.now ≡ length found.old }
    requires keys { AreLookups Q.Owned.item arena.now true (list_map Q.key keys.now) lookups.now }
    requires ended { AreEndedTo (length keys.now) lookups.now }
    ensures { list_map (option_map Q.key) found.new
        ≡ list_map (λ key. option_map (λ e. e.0) (longest (Q.key key)
        (own (option_copied top.entry) ++ entries_of arena.now))) keys.now }
{
    let mut k = 0;
    while k < keys.len() {
        found[k] = lookups[k].prefix_key(arena, top, keys[k]);
        k += 1;
    }
}

// Looks up the longest prefixes of the keys of a block, without their values.
fn prefix_keys_block<Q: BorrowedBytes, V>(
    arena: &NodeArena<V>,
    keys: &[Q],
    top: Option<&V>,
    found: &mut [Option<Q>],
)
    requires whole { IsWellFormed arena.now }
    requires siblings { IsCanonical Q.Owned.item (siblings_of arena.now) }
    requires few { length keys.now ≤ 32 }
    requires as_many { length keys.now ≡ length found.old }
    ensures { list_map (option_map Q.key) found.new
        ≡ list_map (λ key. option_map (λ e. e.0) (longest (Q.key key)
        (own (option_copied top.entry) ++ entries_of arena.now))) keys.now }
{
    let mut lookups = [Lookup::new(); SIDE_BY_SIDE];
    let lookups = &mut lookups[..keys.len()];
    look_up(arena, keys, true, lookups);
    write_prefix_keys(arena, keys, lookups, top, found);
}

/// Looks up the longest prefixes of keys side by side, and writes each, without the value there, to
/// the place of the key. The value at the empty key is given. Does not allocate.
pub fn longest_keys<Q: BorrowedBytes, V>(
    arena: &NodeArena<V>,
    keys: &[Q],
    top: Option<&V>,
    found: &mut [Option<Q>],
)
    requires whole { IsWellFormed arena.now }
    requires siblings { IsCanonical Q.Owned.item (siblings_of arena.now) }
    requires as_many { length keys.now ≡ length found.old }
    ensures { list_map (option_map Q.key) found.new
        ≡ list_map (λ key. option_map (λ e. e.0) (longest (Q.key key)
        (own (option_copied top.entry) ++ entries_of arena.now))) keys.now }
{
    let mut at = 0;
    while at < keys.len() {
        let end = at + (keys.len() - at).min(SIDE_BY_SIDE);
        prefix_keys_block(arena, &keys[at..end], top, &mut found[at..end]);
        at = end;
    }
}
