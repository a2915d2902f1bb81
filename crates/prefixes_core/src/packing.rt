//! Packed lists: a map of texts as bytes, which are read back without inserting each entry.

ghost use Rattle.std.specs.Prelude.{◌≡◌, ◌≢◌, ◌⊎◌, ◌+◌, ◌<◌, ◌^◌, ◌++◌, ℕ, List, length};
ghost use Rattle.std.specs.Prelude.{map as list_map, IfOk, OnOk, IfErr, IfSome, IfNone, Err, []};
ghost use Rattle.std.specs.Prelude.{replicate};
ghost use Rattle.std.specs.FinMap as map;
ghost use Rattle.std.specs.List.{concat};
ghost use Rattle.patricia_tree.specs.TextKind.{IsTextItem};
ghost use Rattle.patricia_tree.specs.Writings.{TooDeep};
ghost use Rattle.prefixes_core.specs.UnpackFaults.{IsUnpackFault, IsValueFault};
ghost use Rattle.prefixes_core.specs.Packings.{counted, packed, Packs, ArePackedBytes};
ghost use Rattle.prefixes_core.specs.Packings.{PacksOneList, without_values};

use crate::value::Payload;
use patricia_tree::wire::laws::{meant_is_never_refused, one_meaning, tree_bytes_are_keys};
use patricia_tree::{DecodeError, StringPatriciaMap, StringPatriciaSet, WireError};
use std::alloc::{AllocError, AllocFailed, Global};
use thiserror::Error;

/// Why a map is not packed.
#[derive(Clone, Copy, Debug, Drop, PartialEq, Eq, Error)]
pub enum PackError {
    /// A key has more than 65,535 bytes, and the tree of the keys is too deep for its bytes.
    #[error("a name lies too deep")]
    TooDeep,
    #[error("out of memory")]
    Memory,
}

/// Why bytes are no packed list. Offsets are those of all bytes.
#[derive(Clone, Copy, Debug, Drop, PartialEq, Eq, Error)]
pub enum UnpackError {
    #[error("no packed list: it does not begin as one")]
    Head,
    /// Fewer bytes are left than a length says, or too few for a length.
    #[error("a packed list that ends too early: what begins at byte {0} is not whole")]
    Truncated(usize),
    /// The tree bytes, which begin at this offset, have a fault.
    #[error("a packed list with damaged tree bytes, from byte {0} on: {1}")]
    Tree(usize, DecodeError),
    #[error("out of memory")]
    Memory,
}

impl From<AllocError> for PackError {
    ghost use Rattle.std.specs.Prelude.{◌≡◌};
    ghost use Rattle.prefixes_core.specs.declared.packing.PackError.TheVariants.{Memory};

    ghost from_gives = { λ _ e. e ≡ Memory };

    fn from(_: AllocError) -> PackError {
        PackError::Memory
    }
}

impl From<AllocError> for UnpackError {
    ghost use Rattle.std.specs.Prelude.{◌≡◌};
    ghost use Rattle.prefixes_core.specs.declared.packing.UnpackError.TheVariants.{Memory};

    ghost from_gives = { λ _ e. e ≡ Memory };

    fn from(_: AllocError) -> UnpackError {
        UnpackError::Memory
    }
}

impl<T: Drop> From<AllocFailed<T>> for UnpackError {
    ghost use Rattle.std.specs.Prelude.{◌≡◌};
    ghost use Rattle.prefixes_core.specs.declared.packing.UnpackError.TheVariants.{Memory};

    ghost from_gives = { λ _ e. e ≡ Memory };

    fn from(_: AllocFailed<T>) -> UnpackError {
        UnpackError::Memory
    }
}

// What each packed list begins with.
pub(crate) const HEAD: &[u8] = b"prefixes\x01";

// Writes bytes behind their number.
fn push_counted(out: &mut Vec<u8>, bytes: &[u8]) -> Result<(), AllocError>
    ensures { OnOk result (out.new.items ≡ out.old.items ++ counted bytes.now) }
{
    out.extend_from_slice(&(bytes.len() as u64).to_be_bytes())?;
    out.extend_from_slice(bytes)
}

// The tree bytes and the values of a list, packed.
fn with_values(
    alloc: Global,
    list: &StringPatriciaMap<Payload>,
    tree: &[u8],
) -> Result<Vec<u8>, AllocError>
    ensures { IfOk result (λ bytes. bytes.items ≡ packed tree.now (map.values list.now)) }
{
    let mut out = Vec::from_slice(alloc, HEAD)?;
    push_counted(&mut out, tree)?;
    for value in list.values() {
        push_counted(&mut out, value?.as_bytes())?;
    }
    Ok(out)
}

/// Packs a list: its tree bytes, and its values in the order of their names.
///
/// The same names and values are packed to the same bytes, whatever was inserted and removed
/// before. Takes time in proportion to the bytes.
///
/// # Errors
///
/// `TooDeep` where the tree of the names is too deep for tree bytes, which takes names of more
/// than 65,535 bytes; or out of memory.
///
/// # Examples
///
/// ```
/// let mut list = StringPatriciaMap::new(rt.alloc());
/// list.insert("foo", Payload::new(rt.alloc(), b"1".as_slice())?)?;
/// let bytes = pack(rt.alloc(), &list)?;
/// assert!(rt; bytes.starts_with(b"prefixes".as_slice()));
/// assert_eq!(rt; unpack(rt.alloc(), &bytes)?.len(), 1);
/// ```
pub fn pack(alloc: Global, list: &StringPatriciaMap<Payload>) -> Result<Vec<u8>, PackError>
    ensures ok { IfOk result (λ bytes. ArePackedBytes bytes.items (map.entries list.now)) }
    ensures too_deep { result ≡ Err PackError.TooDeep
        → TooDeep IsTextItem 2 (map.keys list.now) }
{
    let tree = match list.tree_bytes() {
        Ok(tree) => tree,
        Err(WireError::TooDeep) => return Err(PackError::TooDeep),
        Err(_) => return Err(PackError::Memory),
    };
    Ok(with_values(alloc, list, &tree)?)
}

// Tree bytes and so many empty values, packed.
fn with_empty_values(alloc: Global, count: usize, tree: &[u8]) -> Result<Vec<u8>, AllocError>
    ensures { IfOk result (λ bytes. bytes.items ≡ packed tree.now (replicate count [])) }
{
    let mut out = Vec::from_slice(alloc, HEAD)?;
    push_counted(&mut out, tree)?;
    for _ in 0..count {
        push_counted(&mut out, b"")?;
    }
    Ok(out)
}

/// Packs a set of names, each with the empty value.
///
/// The same names are packed to the same bytes. Takes time in proportion to the bytes.
///
/// # Errors
///
/// Those of `pack`.
///
/// # Examples
///
/// ```
/// let names = StringPatriciaSet::from_iter(rt.alloc(), ["foo", "bar"])?;
/// let list = unpack(rt.alloc(), &pack_names(rt.alloc(), &names)?)?;
/// assert!(rt; list.get("foo").is_some_and(|value| value.as_bytes().is_empty()));
/// ```
pub fn pack_names(alloc: Global, names: &StringPatriciaSet) -> Result<Vec<u8>, PackError>
    ensures ok { IfOk result (λ bytes.
        ArePackedBytes bytes.items (without_values (map.keys names.now))) }
    ensures too_deep { result ≡ Err PackError.TooDeep
        → TooDeep IsTextItem 2 (map.keys names.now) }
{
    let tree = match names.tree_bytes() {
        Ok(tree) => tree,
        Err(WireError::TooDeep) => return Err(PackError::TooDeep),
        Err(_) => return Err(PackError::Memory),
    };
    tree_bytes_are_keys::<String, (), Payload>();
    Ok(with_empty_values(alloc, names.len(), &tree)?)
}

// The bytes that stand behind their number at the front, and those after them; or `None` where too
// few bytes follow.
fn split_counted(bytes: &[u8]) -> Option<(&[u8], &[u8])>
    ensures some { IfSome result (λ parts. bytes.now ≡ counted parts.0.now ++ parts.1.now) }
    ensures none { IfNone result ((field rest : List ℕ) → bytes.now ≡ counted field ++ rest → ⊥) }
{
    let (number, rest) = bytes.split_first_chunk::<8>()?;
    let number = u64::from_be_bytes(*number);
    if number <= rest.len() as u64 {
        Some(rest.split_at(number as usize))
    } else {
        None
    }
}

// The values that stand behind their numbers, from this offset on.
fn split_values(alloc: Global, bytes: &[u8], at: usize) -> Result<Vec<Payload>, UnpackError>
    requires { at + length bytes.now < 2 ^ 64 }
    ensures ok { IfOk result (λ values. bytes.now ≡ concat (list_map counted values.items)) }
    ensures refused { IfErr result (λ e. e ≢ UnpackError.Memory → (values : List (List ℕ))
        → bytes.now ≡ concat (list_map counted values) → ⊥) }
    ensures named { IfErr result (λ e. IsValueFault bytes.now at e) }
{
    let mut values = Vec::new(alloc);
    let mut rest = bytes;
    while !rest.is_empty() {
        let Some((value, later)) = split_counted(rest) else {
            return Err(UnpackError::Truncated(at + (bytes.len() - rest.len())));
        };
        values.push(Payload::new(alloc, value)?)?;
        rest = later;
    }
    Ok(values)
}

// The fault of the tree bytes of a packed list.
fn tree_fault(fault: DecodeError) -> UnpackError
    ensures memory { fault ≡ DecodeError.Memory → result ≡ UnpackError.Memory }
    ensures either { (result ≡ UnpackError.Memory)
        ⊎ ((fault ≢ DecodeError.Memory) × (result ≡ UnpackError.Tree 17 fault)) }
{
    match fault {
        DecodeError::Memory => UnpackError::Memory,
        _ => UnpackError::Tree(HEAD.len() + 8, fault),
    }
}

/// Reads a packed list.
///
/// What `pack` gave is read to a map with the same names and values. Takes time in proportion to
/// the bytes.
///
/// # Errors
///
/// What is wrong with the bytes, and where; or out of memory. What `pack` gave is refused as out
/// of memory alone.
///
/// # Examples
///
/// ```
/// let cut = unpack(rt.alloc(), b"prefixes\x01\0\0".as_slice());
/// assert!(rt; matches!(cut, Err(UnpackError::Truncated(9))));
/// ```
pub fn unpack(alloc: Global, bytes: &[u8]) -> Result<StringPatriciaMap<Payload>, UnpackError>
    ensures ok { IfOk result (λ list. Packs bytes.now (map.entries list)) }
    ensures refused { IfErr result (λ e. e ≢ UnpackError.Memory
        → (entries : List (List ℕ × List ℕ)) → Packs bytes.now entries → ⊥) }
    ensures named { IfErr result (λ e. IsUnpackFault bytes.now e) }
{
    let Some(rest) = bytes.strip_prefix(HEAD) else {
        return Err(UnpackError::Head);
    };
    let Some((tree, rest)) = split_counted(rest) else {
        return Err(UnpackError::Truncated(HEAD.len()));
    };
    let values = match split_values(alloc, rest, bytes.len() - rest.len()) {
        Ok(values) => values,
        Err(error) => return Err(error),
    };
    meant_is_never_refused::<String, Payload>();
    match StringPatriciaMap::from_wire(alloc, tree, values) {
        Ok(list) => Ok(list),
        Err(fault) => Err(tree_fault(fault)),
    }
}

/// What a list is packed to is read to that list and to no other one, by `unpack`, which does not
/// refuse it. A law, which does nothing at run time.
pub fn packed_is_one_list()
    ensures { PacksOneList }
{
    one_meaning::<String, Payload>();
}
