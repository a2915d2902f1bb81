//! A list of names that block hosts.

ghost use Rattle.std.specs.Prelude.{◌≡◌, not, map as list_map, IfOk, OnOk, OnErr};
ghost use Rattle.std.specs.Prelude.{IfSome, IfNone};
ghost use Rattle.std.specs.FinMap as map;
ghost use Rattle.std.specs.List.{flat_map};
ghost use Rattle.std.specs.Option.{option_map};
ghost use Rattle.prefixes_core.specs.Blocks.{Blocks, Passes, folded};
ghost use Rattle.prefixes_core.specs.Internal.Reversed.{key_of, name_of, host_key, AreKeysFound};

use crate::lines::without_end;
use patricia_tree::PatriciaSet;
use std::alloc::{AllocError, Global};
use std::marker::Model;

/// A set of host names, each of which blocks the host of that name and all below it.
///
/// Names are compared byte by byte: a caller that wants case or a dot at the end to have no
/// meaning passes names in lower case and without that dot.
///
/// # Examples
///
/// ```
/// let mut list = BlockList::new(rt.alloc());
/// list.add(b"tracker.net".as_slice())?;
/// let found = list.find(b"cdn.tracker.net".as_slice())?;
/// assert_eq!(rt; found, Some(b"tracker.net".as_slice()));
/// assert_eq!(rt; list.find(b"mytracker.net".as_slice())?, None);
/// ```
#[derive(Drop)]
pub struct BlockList {
    alloc: Global,
    keys: PatriciaSet,
}

impl Model for BlockList {
    ghost use Rattle.std.specs.Coded.{coded_ℕ, coded_list};
    ghost use Rattle.std.specs.FinSet.{code};
    ghost use Rattle.patricia_tree.specs.Sets.{KeySet};
    ghost use Rattle.prefixes_core.specs.Internal.Reversed.{names_of, AreKeysOfNames};

    ghost Value = { KeySet };

    ghost coded = { code (coded_list coded_ℕ) };

    ghost view = { λ list. names_of list.keys };

    ghost invariant = { λ list. AreKeysOfNames list.keys };
}

// Writes a host name as names are to be compared in place of another.
fn write_folded(name: &[u8], host: &mut Vec<u8>) -> Result<(), AllocError>
    ensures { OnOk result (host.new.items ≡ folded name.now) }
{
    host.clear();
    host.extend_from_slice(without_end(name, b'.'))?;
    host.make_ascii_lowercase();
    Ok(())
}

/// A host name as names are to be compared: in lower case, and without a dot at its end.
pub fn folded(alloc: Global, name: &[u8]) -> Result<Vec<u8>, AllocError>
    ensures { IfOk result (λ name_folded. name_folded.items ≡ folded name.now) }
{
    let mut folded = Vec::new(alloc);
    write_folded(name, &mut folded)?;
    Ok(folded)
}

// Writes the key of a name in place of another: the bytes of a dot and the name, from the last to
// the first. So a name covers a host exactly where its key begins that of the host.
fn write_key(name: &[u8], key: &mut Vec<u8>) -> Result<(), AllocError>
    ensures { OnOk result (key.new.items ≡ key_of name.now) }
{
    key.clear();
    key.reserve(name.len() + 1)?;
    key.extend_from_slice(name)?;
    key.reverse();
    key.push(b'.')?;
    Ok(())
}

// Returns the key of a name.
fn key_of(alloc: Global, name: &[u8]) -> Result<Vec<u8>, AllocError>
    ensures { IfOk result (λ key. key.items ≡ key_of name.now) }
{
    let mut key = Vec::new(alloc);
    write_key(name, &mut key)?;
    Ok(key)
}

/// Writes the name of a key in place of another.
pub(crate) fn write_name(key: &[u8], name: &mut Vec<u8>) -> Result<(), AllocError>
    ensures { OnOk result (name.new.items ≡ name_of key.now) }
{
    name.clear();
    name.extend_from_slice(without_end(key, b'.'))?;
    name.reverse();
    Ok(())
}

/// Returns the keys of hosts, as these are compared, one behind the other.
pub(crate) fn joined_keys(alloc: Global, hosts: &[&[u8]]) -> Result<Vec<u8>, AllocError>
    ensures { IfOk result (λ keys.
        keys.items ≡ flat_map (λ host. host_key host.now) hosts.now) }
{
    let mut folded = Vec::new(alloc);
    let mut key = Vec::new(alloc);
    let mut keys = Vec::new(alloc);
    for host in hosts {
        write_folded(host, &mut folded)?;
        write_key(&folded, &mut key)?;
        keys.extend_from_slice(&key)?;
    }
    Ok(keys)
}

/// Cuts such keys of hosts apart.
pub(crate) fn cut_keys<'k>(
    alloc: Global,
    hosts: &[&[u8]],
    keys: &'k [u8],
) -> Result<Vec<&'k [u8]>, AllocError>
    requires { keys.now ≡ flat_map (λ host. host_key host.now) hosts.now }
    ensures { IfOk result (λ cut. list_map (λ key. key.now) cut.items
        ≡ list_map (λ host. host_key host.now) hosts.now) }
{
    let mut cut = Vec::new(alloc);
    let mut rest = keys;
    for host in hosts {
        let len = without_end(host, b'.').len() + 1;
        let (key, later) = rest.split_at(len);
        cut.push(key)?;
        rest = later;
    }
    Ok(cut)
}

impl BlockList {
    /// Makes an empty list, which keeps the allocator. Does not allocate.
    ///
    /// # Examples
    ///
    /// ```
    /// let list = BlockList::new(rt.alloc());
    /// assert_eq!(rt; list.find(b"example.com".as_slice())?, None);
    /// ```
    pub fn new(alloc: Global) -> BlockList
        ensures { result ≡ map.empty }
    {
        BlockList {
            alloc,
            keys: PatriciaSet::new(alloc),
        }
    }

    /// Adds a name, and returns whether it is a new one.
    ///
    /// Takes a look-up, and time in proportion to the name.
    ///
    /// # Errors
    ///
    /// Out of memory: the list is unchanged.
    ///
    /// # Examples
    ///
    /// ```
    /// let mut list = BlockList::new(rt.alloc());
    /// assert!(rt; list.add(b"tracker.net".as_slice())?);
    /// assert!(rt; !list.add(b"tracker.net".as_slice())?);
    /// ```
    pub fn add(&mut self, name: &[u8]) -> Result<bool, AllocError>
        ensures is_new { IfOk result (λ b. b ≡ not (map.contains_key self.old name.now)) }
        ensures ok { OnOk result (self.new ≡ map.insert self.old name.now tt) }
        ensures unchanged { OnErr result (self.new ≡ self.old) }
    {
        let key = key_of(self.alloc, name)?;
        self.keys.insert(key.as_slice())
    }

    // The name whose key is the longest that begins the key of the host, as a part of the host.
    fn find_by_key<'a>(&self, key: &[u8], host: &'a [u8]) -> Option<&'a [u8]>
        requires { key.now ≡ key_of host.now }
        ensures blocked { IfSome result (λ name. Blocks self.now host.now name.now) }
        ensures passes { IfNone result (Passes self.now host.now) }
    {
        let front = self.keys.get_longest_common_prefix(key)?;
        let (_, name) = host.split_at(key.len() - front.len());
        Some(name)
    }

    /// Looks up the keys of hosts side by side, and returns for each the key of the longest name
    /// that covers the host.
    ///
    /// # Errors
    ///
    /// Out of memory for the list.
    pub(crate) fn find_keys<'k>(
        &self,
        keys: &[&'k [u8]],
    ) -> Result<Vec<Option<&'k [u8]>>, AllocError>
        ensures { IfOk result (λ found.
            AreKeysFound self.now (list_map (λ key. key.now) keys.now)
            (list_map (option_map (λ key. key.now)) found.items)) }
    {
        self.keys.longest_many(keys)
    }

    /// Returns the longest name of the list that is the host or that the host is below, or `None`
    /// where there is none. The name that is returned is a part of the host.
    ///
    /// Takes a look-up, and time in proportion to the host.
    ///
    /// # Errors
    ///
    /// Out of memory for a copy of the host.
    ///
    /// # Examples
    ///
    /// ```
    /// let mut list = BlockList::new(rt.alloc());
    /// list.add(b"net".as_slice())?;
    /// list.add(b"tracker.net".as_slice())?;
    /// let found = list.find(b"cdn.tracker.net".as_slice())?;
    /// assert_eq!(rt; found, Some(b"tracker.net".as_slice()));
    /// assert_eq!(rt; list.find(b"mytracker.org".as_slice())?, None);
    /// ```
    pub fn find<'a>(&self, host: &'a [u8]) -> Result<Option<&'a [u8]>, AllocError>
        ensures blocked { IfOk result (λ found.
            IfSome found (λ name. Blocks self.now host.now name.now)) }
        ensures passes { IfOk result (λ found. IfNone found (Passes self.now host.now)) }
    {
        let key = key_of(self.alloc, host)?;
        Ok(self.find_by_key(key.as_slice(), host))
    }
}
