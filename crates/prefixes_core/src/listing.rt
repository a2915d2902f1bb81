//! Lists: files of names with their values, a line for each, or packed.

ghost use Rattle.std.specs.Prelude.{◌≡◌, ◌≢◌, ◌<◌, ◌^◌, ℕ, List, length};
ghost use Rattle.std.specs.Prelude.{IfOk, OnOk, IfErr, IfSome};
ghost use Rattle.std.specs.FinMap as map;
ghost use Rattle.std.specs.List.{All};
ghost use Rattle.std.specs.Str.{IsUtf8, IsValidUpTo};
ghost use Rattle.prefixes_core.specs.Blocks.{folded as folded_name};
ghost use Rattle.prefixes_core.specs.Lists.{name_of, value_of, lines_of};
ghost use Rattle.prefixes_core.specs.Lists.{AddsEntries, AddsLine, AddsLines};
ghost use Rattle.prefixes_core.specs.Lists.{IsListLine, IsLineFault, IsListFault, IsEntryFault};
ghost use Rattle.prefixes_core.specs.Networks.{IsNetwork, AddsNetwork};
ghost use Rattle.prefixes_core.specs.Reads.{Reads, ReadsPacked};
ghost use Rattle.prefixes_core.specs.Sources.{OfBytes};

use crate::blocking::{BlockList, folded};
use crate::heads::{fill, read_after};
use crate::lines::{LineFormat, next_line, read_text, unmarked};
use crate::networks::{Network, NetworkError, Networks, network_key, parse_network};
use crate::packing::{HEAD, UnpackError, unpack};
use crate::value::Payload;
use memchr::memchr;
use patricia_tree::router::Router;
use patricia_tree::{StringPatriciaMap, StringPatriciaSet};
use std::alloc::{AllocError, AllocFailed, Global};
use std::io::{self, BufRead, Read, Write};
use std::str;
use thiserror::Error;

/// A list: names, each with its value.
pub type Listing = StringPatriciaMap<Payload>;

/// The names of a list, without their values.
pub type Names = StringPatriciaMap<()>;

/// The names of a list as a set.
pub type NameSet = StringPatriciaSet;

/// Why a list is not read. Lines are counted from 1.
#[derive(Debug, Drop, Error)]
pub enum ListError {
    #[error("{0}")]
    Read(io::Error),
    /// From this byte on, counted from 0.
    #[error("line {0}: not UTF-8 at byte {1}")]
    NotUtf8(u64, usize),
    #[error("line {0}: no tab between a name and its value")]
    NoTab(u64),
    #[error("line {0}: {1}")]
    Name(u64, NameError),
    #[error("{0}")]
    Packed(UnpackError),
    /// The name of an entry of a packed list.
    #[error("the name {0:?}: {1}")]
    PackedName(String, NameError),
    #[error("out of memory")]
    Memory,
}

impl From<io::Error> for ListError {
    ghost use Rattle.std.specs.Prelude.{◌≡◌};
    ghost use Rattle.prefixes_core.specs.declared.listing.ListError.TheVariants as Errors;

    ghost from_gives = { λ error e. e ≡ Errors.Read error };

    fn from(error: io::Error) -> ListError {
        ListError::Read(error)
    }
}

impl From<AllocError> for ListError {
    ghost use Rattle.std.specs.Prelude.{◌≡◌};
    ghost use Rattle.prefixes_core.specs.declared.listing.ListError.TheVariants.{Memory};

    ghost from_gives = { λ _ e. e ≡ Memory };

    fn from(_: AllocError) -> ListError {
        ListError::Memory
    }
}

/// Why a name is not taken.
#[derive(Clone, Copy, Debug, Drop, PartialEq, Eq, Error)]
pub enum NameError {
    #[error("{0}")]
    Network(NetworkError),
    #[error("the name lies too deep: it has more than 16711425 bytes")]
    TooLong,
}

/// Why an entry is not added.
#[derive(Clone, Copy, Debug, Drop, PartialEq, Eq)]
pub enum EntryError {
    Name(NameError),
    Memory,
}

impl From<AllocError> for EntryError {
    ghost use Rattle.std.specs.Prelude.{◌≡◌};
    ghost use Rattle.prefixes_core.specs.declared.listing.EntryError.TheVariants.{Memory};

    ghost from_gives = { λ _ e. e ≡ Memory };

    fn from(_: AllocError) -> EntryError {
        EntryError::Memory
    }
}

/// The most bytes of a name in tree bytes: 65,535 labels of 255 bytes lie below the root.
pub const MOST_PACKED: usize = 65_535 * 255;

/// Whether each line has a value.
#[derive(Clone, Copy, PartialEq, Eq)]
pub enum Values {
    Needed,
    Optional,
}

// The name and the value of a line, which are separated by the first byte 9.
fn fields(line: &[u8], number: u64, values: Values) -> Result<(&[u8], &[u8]), ListError>
    ensures name { IfOk result (λ fields. fields.0.now ≡ name_of line.now) }
    ensures value { IfOk result (λ fields. fields.1.now ≡ value_of line.now) }
    ensures tab { OnOk result (values ≡ Values.Needed → name_of line.now ≢ line.now) }
    ensures named { IfErr result (λ e. (e ≡ ListError.NoTab number)
        × (values ≡ Values.Needed) × (name_of line.now ≡ line.now)) }
{
    match (memchr(b'\t', line), values) {
        (Some(place), _) => Ok((&line[..place], &line[place + 1..])),
        (None, Values::Needed) => Err(ListError::NoTab(number)),
        (None, Values::Optional) => Ok((line, b"")),
    }
}

// The text of a name.
fn name_text(name: &[u8], number: u64) -> Result<&str, ListError>
    ensures text { IfOk result (λ text. text.now ≡ name.now) }
    ensures utf8 { OnOk result (IsUtf8 name.now) }
    ensures named { IfErr result (λ e. (at : ℕ) × (e ≡ ListError.NotUtf8 number at)
        × (IsUtf8 name.now → ⊥) × IsValidUpTo name.now at) }
{
    match str::from_utf8(name) {
        Ok(text) => Ok(text),
        Err(error) => Err(ListError::NotUtf8(number, error.valid_up_to())),
    }
}

// A name of a packed list is not added with its value.
fn packed_failure(alloc: Global, name: &str, error: EntryError) -> ListError {
    match (error, String::from_str(alloc, name)) {
        (EntryError::Name(fault), Ok(name)) => ListError::PackedName(name, fault),
        _ => ListError::Memory,
    }
}

/// What a list is read into.
pub trait Destination {
    // which names it takes
    ghost IsName: { List ℕ → Type 0 };

    // what it holds before and after a name is added with its value
    ghost Adds: { Self → List ℕ → List ℕ → Self → Type 0 };

    /// Adds a name with its value. Of two values for one name the later stays.
    ///
    /// # Errors
    ///
    /// The name is not one that is taken; or out of memory.
    fn add_entry(&mut self, alloc: Global, name: &str, value: &[u8]) -> Result<(), EntryError>
        ensures added { OnOk result (Adds self.old name.now value.now self.new) }
        ensures taken { OnOk result (IsName name.now) }
        ensures named { IfErr result (λ e. IsEntryFault IsName name.now e) };

    /// Adds the names of a list with their values. If there is a `progress`, it gets a line for
    /// each 100,000 of them.
    ///
    /// # Errors
    ///
    /// A name is not one that is taken, or out of memory: some of them are added.
    fn add_list<W: Write>(
        &mut self,
        alloc: Global,
        list: Listing,
        progress: &mut Option<W>,
    ) -> Result<(), ListError>
        ensures { OnOk result (AddsEntries Adds self.old (map.entries list) self.new) }
    {
        let mut number: u64 = 0;
        for entry in list {
            let (name, value) = entry?;
            if let Err(error) = self.add_entry(alloc, name.as_str(), value.as_bytes()) {
                return Err(packed_failure(alloc, name.as_str(), error));
            }
            number = number.saturating_add(1);
            tell(progress, number, "names");
        }
        Ok(())
    }
}

impl Destination for Listing {
    ghost IsName = { λ _. Unit {0} };

    ghost Adds = { λ old name value new. new ≡ map.insert old name value };

    fn add_entry(&mut self, alloc: Global, name: &str, value: &[u8]) -> Result<(), EntryError> {
        match self.insert(name, Payload::new(alloc, value)?) {
            Ok(_) => Ok(()),
            Err(_) => Err(EntryError::Memory),
        }
    }
}

impl Destination for Names {
    ghost IsName = { λ _. Unit {0} };

    ghost Adds = { λ old name _ new. new ≡ map.insert old name tt };

    fn add_entry(&mut self, _alloc: Global, name: &str, _value: &[u8]) -> Result<(), EntryError> {
        match self.insert(name, ()) {
            Ok(_) => Ok(()),
            Err(_) => Err(EntryError::Memory),
        }
    }
}

impl Destination for NameSet {
    ghost IsName = { λ _. Unit {0} };

    ghost Adds = { λ old name _ new. new ≡ map.insert old name tt };

    fn add_entry(&mut self, _alloc: Global, name: &str, _value: &[u8]) -> Result<(), EntryError> {
        self.insert(name)?;
        Ok(())
    }
}

impl Destination for Router<String, Payload> {
    ghost IsName = { λ _. Unit {0} };

    ghost Adds = { λ old name value new. new ≡ map.insert old name value };

    fn add_entry(&mut self, alloc: Global, name: &str, value: &[u8]) -> Result<(), EntryError> {
        match self.add(name, Payload::new(alloc, value)?) {
            Ok(_) => Ok(()),
            Err(_) => Err(EntryError::Memory),
        }
    }
}

impl Destination for BlockList {
    ghost IsName = { λ _. Unit {0} };

    ghost Adds = { λ old name _ new. new ≡ map.insert old (folded_name name) tt };

    fn add_entry(&mut self, alloc: Global, name: &str, _value: &[u8]) -> Result<(), EntryError> {
        let name = folded(alloc, name.as_bytes())?;
        self.add(&name)?;
        Ok(())
    }
}

impl Destination for Networks {
    ghost IsName = { IsNetwork };

    ghost Adds = { AddsNetwork };

    fn add_entry(&mut self, alloc: Global, name: &str, value: &[u8]) -> Result<(), EntryError> {
        let (address, count) = match parse_network(name) {
            Ok(network) => network,
            Err(fault) => return Err(EntryError::Name(NameError::Network(fault))),
        };
        let key = network_key(alloc, address, count)?;
        let text = Payload::new(alloc, name.as_bytes())?;
        let target = Payload::new(alloc, value)?;
        match self.add(key.as_slice(), Network { text, target }) {
            Ok(_) => Ok(()),
            Err(_) => Err(EntryError::Memory),
        }
    }
}

// Adds the name of a line with its value. An empty line has none.
fn add_line<S: Destination>(
    alloc: Global,
    destination: &mut S,
    line: &[u8],
    number: u64,
    values: Values,
) -> Result<(), ListError>
    ensures added { OnOk result (AddsLine S.Adds destination.old line.now destination.new) }
    ensures right { OnOk result (IsListLine S.IsName values line.now) }
    ensures named { IfErr result (λ e. IsLineFault S.IsName values number line.now e) }
{
    if line.is_empty() {
        return Ok(());
    }
    let (name, value) = match fields(line, number, values) {
        Ok(fields) => fields,
        Err(error) => return Err(error),
    };
    let name = match name_text(name, number) {
        Ok(name) => name,
        Err(error) => return Err(error),
    };
    match destination.add_entry(alloc, name, value) {
        Ok(()) => Ok(()),
        Err(EntryError::Name(fault)) => Err(ListError::Name(number, fault)),
        Err(EntryError::Memory) => Err(ListError::Memory),
    }
}

// Tells how far a long list is read.
fn tell<W: Write>(progress: &mut Option<W>, number: u64, unit: &str) {
    if number % 100_000 == 0
        && let Some(progress) = progress
    {
        let _ = writeln!(progress, "prefixes: {number} {unit} read");
    }
}

// Reads a line for each name. Of two lines with one name the later stays.
fn read_lines<R: BufRead, W: Write, S: Destination>(
    alloc: Global,
    reader: &mut R,
    values: Values,
    format: LineFormat,
    progress: &mut Option<W>,
    destination: &mut S,
) -> Result<(), ListError>
    ensures read { OnOk result (IfSome (R.remaining reader.old) (λ bytes. length bytes < 2 ^ 63
        → AddsLines S.Adds destination.old (lines_of format bytes) destination.new)) }
    ensures right { OnOk result (IfSome (R.remaining reader.old) (λ bytes. length bytes < 2 ^ 63
        → All (IsListLine S.IsName values) (lines_of format bytes))) }
    ensures named { IfErr result (λ e. IfSome (R.remaining reader.old) (λ bytes.
        IsListFault S.IsName values (lines_of format bytes) e)) }
{
    let mut line = Vec::new(alloc);
    for number in 1..u64::MAX {
        if !next_line(reader, format, &mut line)? {
            return Ok(());
        }
        let line = read_text(&line, format);
        match add_line(alloc, destination, line, number, values) {
            Ok(()) => tell(progress, number, "lines"),
            Err(error) => return Err(error),
        }
    }
    Ok(())
}

// Reads a packed list, and adds its entries.
fn read_packed<R: Read, W: Write, S: Destination>(
    alloc: Global,
    reader: &mut R,
    progress: &mut Option<W>,
    destination: &mut S,
) -> Result<(), ListError>
    ensures { OnOk result (IfSome (R.remaining reader.old) (λ bytes.
        ReadsPacked S.Adds bytes destination.old destination.new)) }
{
    let mut bytes = Vec::new(alloc);
    reader.read_to_end(&mut bytes)?;
    match unpack(alloc, &bytes) {
        Ok(list) => destination.add_list(alloc, list, progress),
        Err(UnpackError::Memory) => Err(ListError::Memory),
        Err(fault) => Err(ListError::Packed(fault)),
    }
}

/// Reads a list and adds its entries: packed, if it begins as packed lists do, and else with a line
/// for each name.
///
/// A line is a name, and after its first byte 9 the value. Empty lines are passed over. If there is
/// a `progress`, it gets a line for each 100,000 lines or packed names that are read. Takes memory
/// in proportion to the list and its longest line, and to the bytes of a packed list too.
///
/// # Errors
///
/// Which line is wrong, or what is wrong with a packed list; a failure to read; or out of memory.
pub fn read_list<R: Read + Drop, W: Write, S: Destination>(
    alloc: Global,
    mut file: R,
    values: Values,
    format: LineFormat,
    progress: &mut Option<W>,
    destination: &mut S,
) -> Result<(), ListError>
    ensures { OnOk result (OfBytes (λ bytes. R.remaining file ≡ Some bytes) (λ bytes.
        Reads S.IsName S.Adds format values bytes destination.old destination.new)) }
{
    let mut room = [0; 9];
    let len = fill(&mut file, &mut room)?;
    let head = &room[..len];
    if head == HEAD {
        let mut reader = read_after(alloc, head, file)?;
        return read_packed(alloc, &mut reader, progress, destination);
    }
    let mut reader = read_after(alloc, unmarked(head, format), file)?;
    read_lines(alloc, &mut reader, values, format, progress, destination)
}
