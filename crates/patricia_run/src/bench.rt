//! The bench, which holds the map that commands work on and one aside, and what each command does.

ghost use Rattle.std.specs.Prelude.{◌≡◌, ◌≢◌, [], length, IfOk, IfErr, OnErr, map as list_map};
ghost use Rattle.std.specs.FinMap as map;
ghost use Rattle.patricia_tree.specs.Bulk.{by_bytes};
ghost use Rattle.patricia_tree.specs.Prefixes.{along, under};
ghost use Rattle.patricia_tree.specs.TreeBytes.{AreTreeBytes};
ghost use Rattle.patricia_tree.specs.Writings.{Means, TooDeep};
ghost use Rattle.patricia_tree.specs.Clones.{CloneIsSame};
ghost use Rattle.patricia_run.specs.Machine.{Step, Run, empty_state, with_key};
ghost use Rattle.patricia_run.specs.Internal.Levels.{width_of, wire_with, reload_with};
ghost use Rattle.patricia_run.specs.declared.command.Command.TheVariants as Commands;

use crate::command::{Command, Reply};
use patricia_tree::wire::laws;
use patricia_tree::{BorrowedBytes, Bytes, DecodeError, GenericPatriciaMap, WireError};
use std::alloc::{AllocError, Global};
use std::marker::Model;
use std::mem;

/// A map that commands work on, and one that is kept aside.
#[derive(Drop)]
pub struct Bench<K: Bytes, V> {
    alloc: Global,
    main: GenericPatriciaMap<K, V>,
    aside: GenericPatriciaMap<K, V>,
}

impl<K: Bytes, V> Model for Bench<K, V> {
    ghost use Rattle.patricia_run.specs.Machine.{State};
    ghost use Rattle.patricia_run.specs.Internal.Codes.{state_code};

    ghost Value = { State V };

    ghost coded = { state_code V.code };

    ghost view = { λ b. record { main = b.main; aside = b.aside } };
}

// The entries of a map, in key order.
fn entries_of<K: Bytes, V: Copy>(
    alloc: Global,
    entries: &GenericPatriciaMap<K, V>,
) -> Result<Vec<(K, V)>, AllocError>
    ensures ok { IfOk result (λ listed. by_bytes K.key listed.items ≡ map.entries entries.now) }
    ensures err { OnErr result (map.entries entries.now ≢ []) }
{
    let mut listed = Vec::new(alloc);
    for entry in entries.iter() {
        let (key, value) = entry?;
        listed.push((key, *value))?;
    }
    Ok(listed)
}

// The entries whose key begins with a prefix, in key order.
fn entries_under<Q: BorrowedBytes, V: Copy>(
    alloc: Global,
    entries: &GenericPatriciaMap<Q::Owned, V>,
    prefix: Q,
) -> Result<Vec<(Q::Owned, V)>, AllocError>
    ensures ok { IfOk result (λ listed.
        by_bytes Q.Owned.key listed.items ≡ under (Q.key prefix) (map.entries entries.now)) }
    ensures err { OnErr result (under (Q.key prefix) (map.entries entries.now) ≢ []) }
{
    let mut listed = Vec::new(alloc);
    for entry in entries.iter_prefix(prefix) {
        let (key, value) = entry?;
        listed.push((key, *value))?;
    }
    Ok(listed)
}

// The common prefixes of a key, the shortest first.
fn entries_along<Q: BorrowedBytes, V: Copy>(
    alloc: Global,
    entries: &GenericPatriciaMap<Q::Owned, V>,
    key: Q,
) -> Result<Vec<(Q::Owned, V)>, AllocError>
    ensures ok { IfOk result (λ listed.
        by_bytes Q.Owned.key listed.items ≡ along (Q.key key) (map.entries entries.now)) }
    ensures err { OnErr result (along (Q.key key) (map.entries entries.now) ≢ []) }
{
    let mut listed = Vec::new(alloc);
    for (prefix, value) in entries.common_prefixes(key) {
        listed.push((Bytes::from_bytes(alloc, prefix.as_bytes())?, *value))?;
    }
    Ok(listed)
}

// The values of a map, in key order.
fn values<K: Bytes, V: Copy>(
    alloc: Global,
    entries: &GenericPatriciaMap<K, V>,
) -> Result<Vec<V>, AllocError>
    ensures { IfOk result (λ values. values.items ≡ map.values entries.now) }
{
    let mut values = Vec::new(alloc);
    for value in entries.values() {
        values.push(*value?)?;
    }
    Ok(values)
}

// In how many bytes tree bytes have the level of a record.
#[derive(Clone, Copy)]
enum Levels {
    Narrow,
    Wide,
}

// The tree bytes of a map, with such levels.
fn tree_bytes<K: Bytes, V: Copy>(
    entries: &GenericPatriciaMap<K, V>,
    levels: Levels,
) -> Result<Vec<u8>, WireError>
    ensures ok { IfOk result (λ b.
        AreTreeBytes K.item (width_of levels) b.items (map.entries entries.now)) }
    ensures too_deep { IfErr result (λ e. e ≢ WireError.Memory
        → TooDeep K.item (width_of levels) (map.keys entries.now)) }
{
    match levels {
        Levels::Narrow => entries.tree_bytes(),
        Levels::Wide => entries.wide_tree_bytes(),
    }
}

// The tree bytes of a map, with such levels, and its values in key order.
fn written<K: Bytes, V: Copy>(
    alloc: Global,
    entries: &GenericPatriciaMap<K, V>,
    levels: Levels,
) -> Result<(Vec<u8>, Vec<V>), WireError>
    ensures bytes { IfOk result (λ w.
        AreTreeBytes K.item (width_of levels) w.0.items (map.entries entries.now)) }
    ensures values { IfOk result (λ w. w.1.items ≡ map.values entries.now) }
    ensures too_deep { IfErr result (λ e. e ≢ WireError.Memory
        → TooDeep K.item (width_of levels) (map.keys entries.now)) }
{
    Ok((tree_bytes(entries, levels)?, values(alloc, entries)?))
}

// The map that tree bytes with such levels and values mean.
fn read<K: Bytes, V: Copy>(
    alloc: Global,
    bytes: &[u8],
    values: Vec<V>,
    levels: Levels,
) -> Result<GenericPatriciaMap<K, V>, DecodeError>
    ensures { IfOk result (λ m.
        Means K.item (width_of levels) bytes.now values.items (map.entries m)) }
{
    match levels {
        Levels::Narrow => GenericPatriciaMap::from_wire(alloc, bytes, values),
        Levels::Wide => GenericPatriciaMap::from_wide_wire(alloc, bytes, values),
    }
}

impl<K: Bytes, V: Copy> Bench<K, V> {
    /// Makes a bench whose maps are empty.
    pub fn new(alloc: Global) -> Self
        ensures { result ≡ empty_state }
    {
        Bench {
            alloc,
            main: GenericPatriciaMap::new(alloc),
            aside: GenericPatriciaMap::new(alloc),
        }
    }

    // Sets the value of a key.
    fn insert<Q: BorrowedBytes<Owned = K>>(&mut self, key: Q, value: V) -> Reply<K, V>
        ensures { Step K.item K.key self.old (Commands.Insert (Q.key key) value) result self.new }
    {
        match self.main.insert(key, value) {
            Ok(None) => Reply::None,
            Ok(Some(before)) => Reply::Some(before),
            Err(_) => Reply::NoMemory,
        }
    }

    // Looks a key up.
    fn get<Q: BorrowedBytes<Owned = K>>(&self, key: Q) -> Reply<K, V>
        ensures { Step K.item K.key self.now (Commands.Get (Q.key key)) result self.now }
    {
        match self.main.get(key) {
            None => Reply::None,
            Some(value) => Reply::Some(*value),
        }
    }

    // Takes a key out.
    fn remove<Q: BorrowedBytes<Owned = K>>(&mut self, key: Q) -> Reply<K, V>
        ensures { Step K.item K.key self.old (Commands.Remove (Q.key key)) result self.new }
    {
        match self.main.remove(key) {
            Ok(None) => Reply::None,
            Ok(Some(before)) => Reply::Some(before),
            Err(_) => Reply::NoMemory,
        }
    }

    // Counts the entries.
    fn count(&self) -> Reply<K, V>
        ensures { Step K.item K.key self.now Commands.Len result self.now }
    {
        Reply::Count(self.main.len())
    }

    // Lists the entries.
    fn list(&self) -> Reply<K, V>
        ensures { Step K.item K.key self.now Commands.List result self.now }
    {
        match entries_of(self.alloc, &self.main) {
            Ok(listed) => Reply::Rows(listed),
            Err(_) => Reply::NoMemory,
        }
    }

    // Lists the entries under a prefix.
    fn under<Q: BorrowedBytes<Owned = K>>(&self, prefix: Q) -> Reply<K, V>
        ensures { Step K.item K.key self.now (Commands.Under (Q.key prefix)) result self.now }
    {
        match entries_under(self.alloc, &self.main, prefix) {
            Ok(listed) => Reply::Rows(listed),
            Err(_) => Reply::NoMemory,
        }
    }

    // Lists the common prefixes of a key.
    fn along<Q: BorrowedBytes<Owned = K>>(&self, key: Q) -> Reply<K, V>
        ensures { Step K.item K.key self.now (Commands.Along (Q.key key)) result self.now }
    {
        match entries_along(self.alloc, &self.main, key) {
            Ok(listed) => Reply::Rows(listed),
            Err(_) => Reply::NoMemory,
        }
    }

    // Finds the longest key that begins a key.
    fn longest<Q: BorrowedBytes<Owned = K>>(&self, key: Q) -> Reply<K, V>
        ensures { Step K.item K.key self.now (Commands.Longest (Q.key key)) result self.now }
    {
        match self.main.get_longest_common_prefix(key) {
            None => Reply::None,
            Some((prefix, value)) => Reply::Longest(prefix.as_bytes().len(), *value),
        }
    }

    // Finds how far the keys go with a key.
    fn reach<Q: BorrowedBytes<Owned = K>>(&self, key: Q) -> Reply<K, V>
        ensures { Step K.item K.key self.now (Commands.Reach (Q.key key)) result self.now }
    {
        Reply::Count(self.main.longest_common_prefix_len(key))
    }

    // Puts the entries under a prefix aside.
    fn split<Q: BorrowedBytes<Owned = K>>(&mut self, prefix: Q) -> Reply<K, V>
        ensures { Step K.item K.key self.old (Commands.Split (Q.key prefix)) result self.new }
    {
        match self.main.split_by_prefix(prefix) {
            Ok(taken) => {
                self.aside = taken;
                Reply::Done
            }
            Err(_) => Reply::NoMemory,
        }
    }

    // Exchanges the two maps.
    fn swap(&mut self) -> Reply<K, V>
        ensures { Step K.item K.key self.old Commands.Swap result self.new }
    {
        mem::swap(&mut self.main, &mut self.aside);
        Reply::Done
    }

    // Puts a copy of the map aside.
    fn copy(&mut self) -> Reply<K, V>
        requires { (v : V) → CloneIsSame V.is_clone v }
        ensures { Step K.item K.key self.old Commands.Copy result self.new }
    {
        match self.main.clone() {
            Ok(copy) => {
                self.aside = copy;
                Reply::Done
            }
            Err(_) => Reply::NoMemory,
        }
    }

    // Takes each entry out.
    fn clear(&mut self) -> Reply<K, V>
        ensures { Step K.item K.key self.old Commands.Clear result self.new }
    {
        self.main.clear();
        Reply::Done
    }

    // Writes the tree with such levels.
    fn wire(&self, levels: Levels) -> Reply<K, V>
        ensures { Step K.item K.key self.now (wire_with levels) result self.now }
    {
        match written(self.alloc, &self.main, levels) {
            Ok((bytes, values)) => Reply::Wire(bytes, values),
            Err(WireError::Memory) => Reply::NoMemory,
            Err(_) => Reply::TooDeep,
        }
    }

    // Writes the tree with such levels and makes the map anew of what was written.
    fn reload(&mut self, levels: Levels) -> Reply<K, V>
        ensures { Step K.item K.key self.old (reload_with levels) result self.new }
    {
        let (bytes, values) = match written(self.alloc, &self.main, levels) {
            Ok(written) => written,
            Err(WireError::Memory) => return Reply::NoMemory,
            Err(_) => return Reply::TooDeep,
        };
        // for the proof alone: what is written is read to the same map
        laws::tree_bytes_read_back::<K, V>();
        match read(self.alloc, &bytes, values, levels) {
            Ok(again) => {
                self.main = again;
                Reply::Done
            }
            // what was written has no fault, so an allocation failed (`meant_is_never_faulty`)
            Err(_) => Reply::NoMemory,
        }
    }

    /// Does one command. Each clone of a value is asked to be that value.
    pub fn step<Q: BorrowedBytes<Owned = K>>(&mut self, command: Command<Q, V>) -> Reply<K, V>
        requires { (v : V) → CloneIsSame V.is_clone v }
        ensures { Step K.item K.key self.old (with_key Q.key command) result self.new }
    {
        match command {
            Command::Insert(key, value) => self.insert(key, value),
            Command::Get(key) => self.get(key),
            Command::Remove(key) => self.remove(key),
            Command::Len => self.count(),
            Command::List => self.list(),
            Command::Under(prefix) => self.under(prefix),
            Command::Along(key) => self.along(key),
            Command::Longest(key) => self.longest(key),
            Command::Reach(key) => self.reach(key),
            Command::Split(prefix) => self.split(prefix),
            Command::Swap => self.swap(),
            Command::Copy => self.copy(),
            Command::Clear => self.clear(),
            Command::Wire => self.wire(Levels::Narrow),
            Command::Reload => self.reload(Levels::Narrow),
            Command::Wide => self.wire(Levels::Wide),
            Command::ReloadWide => self.reload(Levels::Wide),
        }
    }
}

/// Does the commands in order. Each clone of a value is asked to be that value.
///
/// # Errors
///
/// Out of memory for the list of replies, which is reserved before the first command, never for no
/// commands: nothing is done then.
pub fn run<K: Bytes, V: Copy, Q: BorrowedBytes<Owned = K>>(
    bench: &mut Bench<K, V>,
    commands: &[Command<Q, V>],
) -> Result<Vec<Reply<K, V>>, AllocError>
    requires { (v : V) → CloneIsSame V.is_clone v }
    ensures ok { IfOk result (λ replies.
        Run K.item K.key
        bench.old (list_map (with_key Q.key) commands.now) replies.items bench.new) }
    ensures unchanged { OnErr result (bench.new ≡ bench.old) }
    ensures err_only_nonempty { OnErr result (commands.now ≢ []) }
{
    let mut replies = Vec::with_capacity(bench.alloc, commands.len())?;
    for command in commands {
        replies.push(bench.step(*command)).unwrap();
    }
    Ok(replies)
}
