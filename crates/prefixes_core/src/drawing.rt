//! The tree of the names that begin with a prefix, node by node.

ghost use Rattle.std.specs.Prelude.{◌≡◌, ◌++◌, Err, IfOk, OnOk, map as list_map};
ghost use Rattle.std.specs.FinMap as map;
ghost use Rattle.patricia_tree.specs.Prefixes.{under};
ghost use Rattle.patricia_tree.specs.Siblings.{keys_of};
ghost use Rattle.patricia_tree.specs.TextKind.{IsTextItem};
ghost use Rattle.patricia_tree.specs.Writings.{TooDeep};
ghost use Rattle.prefixes_core.specs.Drawings.{drawing};
ghost use Rattle.prefixes_core.specs.Internal.Splits.{AreRead};
ghost use Rattle.prefixes_core.specs.Trees.{AreNodes};

mod writing;

use crate::packing::PackError;
use crate::records::split_record;
use crate::value::Payload;
use patricia_tree::{StringPatriciaMap, WireError};
use std::alloc::{AllocError, Global};
use writing::{push_graph, push_lines};

/// A node of a tree: how many levels it lies below the root, its label, and whether a name ends
/// there.
#[derive(Drop)]
pub struct Node {
    pub level: u16,
    pub label: Payload,
    pub is_name: bool,
}

/// How a tree is drawn.
#[derive(Clone, Copy)]
pub enum Form {
    /// As lines, each indented by the level of its node.
    Lines,
    /// As a graph for Graphviz.
    Graph,
    /// As an object of JSON for each node, on a line.
    Json,
}

// The nodes that tree bytes spell.
fn nodes_of(alloc: Global, tree: &[u8]) -> Result<Vec<Node>, AllocError>
    ensures { IfOk result (λ nodes. AreRead tree.now
        (list_map (λ node. (node.level, (node.label, node.is_name))) nodes.items)) }
{
    let mut nodes = Vec::new(alloc);
    let mut rest = tree;
    while let Some((record, later)) = split_record(rest) {
        nodes.push(Node {
            level: record.level,
            label: Payload::new(alloc, record.label)?,
            is_name: record.is_name,
        })?;
        rest = later;
    }
    Ok(nodes)
}

// The nodes of the tree of names.
fn nodes_for<V: Drop>(alloc: Global, names: &StringPatriciaMap<V>) -> Result<Vec<Node>, PackError>
    ensures ok { IfOk result (λ nodes. AreNodes (map.entries names.now)
        (list_map (λ node. (node.level, (node.label, node.is_name))) nodes.items)) }
    ensures too_deep { result ≡ Err PackError.TooDeep
        → TooDeep IsTextItem 2 (keys_of (map.entries names.now)) }
{
    let tree = match names.tree_bytes() {
        Ok(tree) => tree,
        Err(WireError::TooDeep) => return Err(PackError::TooDeep),
        Err(_) => return Err(PackError::Memory),
    };
    Ok(nodes_of(alloc, &tree)?)
}

/// Returns the nodes of the tree of the names that begin with a prefix: each before those below it,
/// and those with one parent in the order of their labels.
///
/// The first is the root, whose label is empty. A label has at most 255 bytes, so a longer part of
/// a name is several nodes. They are the records of the names' tree bytes. Consumes the map. Takes
/// time in proportion to it.
///
/// # Errors
///
/// `TooDeep` where the tree is too deep for tree bytes, which takes names of more than 65,535
/// bytes; or out of memory, even if no name begins with the prefix.
///
/// # Examples
///
/// ```
/// let names = StringPatriciaMap::from_iter(rt.alloc(), [("bar", ()), ("baz", ()), ("foo", ())])?;
/// let nodes = draw(rt.alloc(), names, "b")?;
/// assert_eq!(rt; nodes.len(), 4);
/// assert_eq!(rt; nodes[1].label.as_bytes(), b"ba".as_slice());
/// assert!(rt; !nodes[1].is_name);
/// assert_eq!(rt; nodes[2].label.as_bytes(), b"r".as_slice());
/// assert_eq!(rt; (nodes[2].level, nodes[2].is_name), (2, true));
/// ```
pub fn draw<V: Drop>(
    alloc: Global,
    mut names: StringPatriciaMap<V>,
    prefix: &str,
) -> Result<Vec<Node>, PackError>
    ensures ok { IfOk result (λ nodes. AreNodes (under prefix.now (map.entries names))
        (list_map (λ node. (node.level, (node.label, node.is_name))) nodes.items)) }
    ensures too_deep { result ≡ Err PackError.TooDeep
        → TooDeep IsTextItem 2 (keys_of (under prefix.now (map.entries names))) }
{
    let names = names.split_by_prefix(prefix)?;
    nodes_for(alloc, &names)
}

/// Writes the nodes of a tree at the end of a text.
///
/// # Errors
///
/// Out of memory.
pub fn push_drawing(
    alloc: Global,
    nodes: &[Node],
    form: Form,
    out: &mut Vec<u8>,
) -> Result<(), AllocError>
    ensures { OnOk result (out.new.items ≡ out.old.items ++ drawing form
        (list_map (λ node. (node.level, (node.label, node.is_name))) nodes.now)) }
{
    match form {
        Form::Lines => push_lines(alloc, nodes, false, out),
        Form::Graph => push_graph(alloc, nodes, out),
        Form::Json => push_lines(alloc, nodes, true, out),
    }
}
