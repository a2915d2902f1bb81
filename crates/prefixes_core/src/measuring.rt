//! What a list takes, and how much its shared prefixes save.

ghost use Rattle.std.specs.Prelude.{◌≡◌, ℕ, List, length, max, sum_by, Some, Err, IfOk};
ghost use Rattle.std.specs.FinMap as map;
ghost use Rattle.patricia_tree.specs.TextKind.{IsTextItem};
ghost use Rattle.patricia_tree.specs.Writings.{TooDeep};
ghost use Rattle.prefixes_core.specs.Internal.Splits.{AreMeasured};
ghost use Rattle.prefixes_core.specs.Trees.{AreTreeCounts};

mod writing;

use crate::packing::PackError;
use crate::records::split_record;
use patricia_tree::map::ReadCursor;
use patricia_tree::{StringPatriciaMap, WireError};
use std::alloc::AllocError;
pub use writing::push_measures;

/// What a list of names takes, alone and as a tree. A label has at most 255 bytes, so a longer
/// part of a name counts as several nodes.
#[derive(Clone, Copy, Debug, Drop, PartialEq, Eq)]
pub struct Measures {
    /// How many names there are.
    pub names: usize,
    /// How many bytes the names have together.
    pub name_bytes: u128,
    /// How many nodes the tree has, with its root.
    pub nodes: usize,
    /// How many bytes the labels of the nodes have together.
    pub label_bytes: usize,
    /// How many bytes the tree is written in.
    pub tree_bytes: usize,
    /// How many nodes stand below the root on the way to the deepest one.
    pub depth: u16,
}

// What the records of tree bytes have.
#[derive(Clone, Copy)]
struct TreeMeasures {
    nodes: usize,
    label_bytes: usize,
    depth: u16,
}

fn greater(one: u16, other: u16) -> u16
    ensures { result ≡ max one other }
{
    if one < other { other } else { one }
}

fn measure_tree(tree: &[u8]) -> TreeMeasures
    ensures { AreMeasured tree.now result.nodes result.label_bytes result.depth }
{
    let mut measures = TreeMeasures {
        nodes: 0,
        label_bytes: 0,
        depth: 0,
    };
    let mut rest = tree;
    while let Some((record, later)) = split_record(rest) {
        measures.nodes += 1;
        measures.label_bytes += record.label.len();
        measures.depth = greater(measures.depth, record.level);
        rest = later;
    }
    measures
}

// How many bytes the name has at which a cursor stands.
pub(crate) fn len_at<V: Drop>(cursor: &ReadCursor<'_, String, V>) -> usize
    ensures { (entry : List ℕ × V) → cursor.now.at ≡ Some entry → result ≡ length entry.0 }
{
    match cursor.key() {
        Some(name) => name.len(),
        None => 0,
    }
}

// How many bytes the names have together.
fn name_bytes<V: Drop>(names: &StringPatriciaMap<V>) -> Result<u128, AllocError>
    ensures { IfOk result (λ bytes.
        bytes ≡ sum_by (λ e. length e.0) (map.entries names.now)) }
{
    let mut bytes: u128 = 0;
    let mut cursor = names.cursor();
    for _ in 0..names.len() {
        cursor.advance()?;
        bytes += len_at(&cursor) as u128;
    }
    Ok(bytes)
}

/// Counts what a list of names takes.
///
/// Takes time in proportion to the names, and memory in proportion to the tree bytes.
///
/// # Errors
///
/// `TooDeep` where the tree of the names is too deep for tree bytes, which takes names of more
/// than 65,535 bytes; or out of memory, even for a list without names.
///
/// # Examples
///
/// ```
/// let names = StringPatriciaMap::from_iter(rt.alloc(), [("bar", ()), ("baz", ()), ("foo", ())])?;
/// let measures = measure(&names)?;
/// assert_eq!(rt; (measures.names, measures.name_bytes), (3, 9));
/// assert_eq!(rt; (measures.nodes, measures.label_bytes), (5, 7));
/// assert_eq!(rt; (measures.tree_bytes, measures.depth), (27, 2));
/// ```
pub fn measure<V: Drop>(names: &StringPatriciaMap<V>) -> Result<Measures, PackError>
    ensures names { IfOk result (λ measures. measures.names ≡ length (map.entries names.now)) }
    ensures name_bytes { IfOk result (λ measures.
        measures.name_bytes ≡ sum_by (λ e. length e.0) (map.entries names.now)) }
    ensures tree { IfOk result (λ measures. AreTreeCounts (map.entries names.now)
        measures.tree_bytes measures.nodes measures.label_bytes measures.depth) }
    ensures too_deep { result ≡ Err PackError.TooDeep
        → TooDeep IsTextItem 2 (map.keys names.now) }
{
    let name_bytes = name_bytes(names)?;
    let tree = match names.tree_bytes() {
        Ok(tree) => tree,
        Err(WireError::TooDeep) => return Err(PackError::TooDeep),
        Err(_) => return Err(PackError::Memory),
    };
    let counts = measure_tree(&tree);
    Ok(Measures {
        names: names.len(),
        name_bytes,
        nodes: counts.nodes,
        label_bytes: counts.label_bytes,
        tree_bytes: tree.len(),
        depth: counts.depth,
    })
}
