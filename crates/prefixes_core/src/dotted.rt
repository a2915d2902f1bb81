//! Dotted names: a name and those below it.

ghost use Rattle.std.specs.Prelude.{◌≡◌, ◌≢◌, ◌⊎◌, [], ◌∷◌, ◌++◌, IfOk, OnOk, OnErr, false, true};
ghost use Rattle.std.specs.Prelude.{string_bytes, map as list_map};
ghost use Rattle.std.specs.FinMap as map;
ghost use Rattle.patricia_tree.specs.Prefixes.{under};
ghost use Rattle.prefixes_core.specs.Subtrees.{subtree, elsewhere};

use patricia_tree::{BorrowedBytes, StringPatriciaMap};
use std::alloc::{AllocError, Global};

// The name and a dot.
fn with_dot(alloc: Global, name: &str) -> Result<String, AllocError>
    ensures { IfOk result (λ dotted. string_bytes dotted ≡ name.now ++ 46 ∷ []) }
{
    let mut dotted = String::from_str(alloc, name)?;
    dotted.push('.')?;
    Ok(dotted)
}

// Whether a name begins with this one.
pub(crate) fn begins_some<V: Drop>(names: &StringPatriciaMap<V>, name: &str) -> bool
    ensures some { result ≡ true → under name.now (map.entries names.now) ≢ [] }
    ensures none { result ≡ false → under name.now (map.entries names.now) ≡ [] }
{
    if names.is_empty() {
        return false;
    }
    let bytes = BorrowedBytes::as_bytes(&name);
    names.longest_common_prefix_len(name) == bytes.len()
}

// Adds the entries that begin with a prefix, in key order.
fn add_under<'a, V: Drop>(
    names: &'a StringPatriciaMap<V>,
    prefix: &str,
    entries: &mut Vec<(String, &'a V)>,
) -> Result<(), AllocError>
    ensures { OnOk result (
        list_map (λ entry. (string_bytes entry.0, entry.1.now)) entries.new.items
        ≡ list_map (λ entry. (string_bytes entry.0, entry.1.now)) entries.old.items
        ++ under prefix.now (map.entries names.now)) }
{
    for entry in names.iter_prefix(prefix) {
        entries.push(entry?)?;
    }
    Ok(())
}

/// Returns the entry of a name and those below it, which are the ones that the name and a dot
/// begin, in key order.
///
/// Takes three look-ups, and time in proportion to the entries that are returned.
///
/// # Errors
///
/// Out of memory, never where no key begins with the name.
///
/// # Examples
///
/// ```
/// let entries = [("log", 1), ("log.level", 2), ("logs", 3)];
/// let names = StringPatriciaMap::from_iter(rt.alloc(), entries)?;
/// let entries = subtree(rt.alloc(), &names, "log")?;
/// assert_eq!(rt; entries.len(), 2);
/// assert_eq!(rt; entries[1].0.as_str(), "log.level");
/// ```
pub fn subtree<'a, V: Drop>(
    alloc: Global,
    names: &'a StringPatriciaMap<V>,
    name: &str,
) -> Result<Vec<(String, &'a V)>, AllocError>
    ensures entries { IfOk result (λ entries.
        list_map (λ entry. (string_bytes entry.0, entry.1.now)) entries.items
        ≡ subtree name.now (map.entries names.now)) }
    ensures err_only_if_begun { OnErr result (under name.now (map.entries names.now) ≢ []) }
{
    let mut entries = Vec::new(alloc);
    if !begins_some(names, name) {
        return Ok(entries);
    }
    let dotted = with_dot(alloc, name)?;
    if let Some(value) = names.get(name) {
        entries.push((String::from_str(alloc, name)?, value))?;
    }
    add_under(names, dotted.as_str(), &mut entries)?;
    Ok(entries)
}

/// Drops the entry of a name and those below it.
///
/// Takes three look-ups, and time in proportion to the entries that are dropped.
///
/// # Errors
///
/// Out of memory, never where no key begins with the name: either nothing is dropped, or the entry
/// of the name alone.
///
/// # Examples
///
/// ```
/// let entries = [("log", 1), ("log.level", 2), ("logs", 3)];
/// let mut names = StringPatriciaMap::from_iter(rt.alloc(), entries)?;
/// drop_subtree(rt.alloc(), &mut names, "log")?;
/// assert_eq!(rt; names.len(), 1);
/// ```
pub fn drop_subtree<V: Drop>(
    alloc: Global,
    names: &mut StringPatriciaMap<V>,
    name: &str,
) -> Result<(), AllocError>
    ensures ok { OnOk result (
        map.entries names.new ≡ elsewhere name.now (map.entries names.old)) }
    ensures err { OnErr result
        ((names.new ≡ names.old) ⊎ (names.new ≡ map.remove names.old name.now)) }
    ensures err_only_if_begun { OnErr result (under name.now (map.entries names.old) ≢ []) }
{
    if !begins_some(names, name) {
        return Ok(());
    }
    let dotted = with_dot(alloc, name)?;
    names.remove(name)?;
    names.split_by_prefix(dotted.as_str())?;
    Ok(())
}
