//! The texts that a tree is drawn as, written at the end of a text.

ghost use Rattle.std.specs.Prelude.{◌≡◌, ◌≤◌, ◌++◌, ◌*◌, ◌∷◌, [], length, replicate, codes};
ghost use Rattle.std.specs.Prelude.{OnOk, IfOk, map as list_map};
ghost use Rattle.std.specs.Bool.{then_some};
ghost use Rattle.std.specs.List.{concat, flat_map};
ghost use Rattle.prefixes_core.specs.Drawings.{shown, name_field, node_line, node_object};
ghost use Rattle.prefixes_core.specs.Drawings.{node_text, node_lines};
ghost use Rattle.prefixes_core.specs.Drawings.{graph_byte, graph_label, node_name, graph_node};
ghost use Rattle.prefixes_core.specs.Drawings.{borders, graph_edge, graph_line, graph_lines};
ghost use Rattle.prefixes_core.specs.Drawings.{graph_text};
ghost use Rattle.prefixes_core.specs.Objects.{bytes_text, member_text, option_text};

use super::Node;
use crate::json::{self, Bytes, push_member};
use itoa::Buffer;
use std::alloc::{AllocError, Global};

// A text in quotes, with what does not print escaped, as JSON has it.
fn quoted(alloc: Global, text: &[u8]) -> Result<Vec<u8>, AllocError>
    ensures text { IfOk result (λ quoted. quoted.items ≡ shown text.now) }
    ensures quotes { IfOk result (λ quoted. 2 ≤ length quoted.items) }
{
    let text = String::from_utf8_lossy(alloc, text)?;
    json::quoted(alloc, &text)
}

// Writes two spaces for each level.
fn push_indent(level: u16, out: &mut Vec<u8>) -> Result<(), AllocError>
    ensures { OnOk result (out.new.items ≡ out.old.items ++ replicate (2 * level) 32) }
{
    for _ in 0..level {
        out.extend_from_slice(b"  ")?;
    }
    Ok(())
}

// The name that some labels are together.
fn joined(alloc: Global, way: &[&[u8]]) -> Result<Vec<u8>, AllocError>
    ensures { IfOk result (λ name. name.items ≡ concat (list_map (λ label. label.now) way.now)) }
{
    let mut name = Vec::new(alloc);
    for label in way {
        name.extend_from_slice(label)?;
    }
    Ok(name)
}

// Writes the name that ends at a node, if one does, behind a tab.
fn push_name(
    alloc: Global,
    is_name: bool,
    way: &[&[u8]],
    out: &mut Vec<u8>,
) -> Result<(), AllocError>
    ensures { OnOk result (out.new.items
        ≡ out.old.items ++ name_field is_name (list_map (λ label. label.now) way.now)) }
{
    if is_name {
        out.push(b'\t')?;
        out.extend_from_slice(&quoted(alloc, &joined(alloc, way)?)?)?;
    }
    Ok(())
}

// Writes a node on a line: two spaces for each level, the label, and behind a tab the whole name
// where one ends.
fn push_line(alloc: Global, node: &Node, way: &[&[u8]], out: &mut Vec<u8>) -> Result<(), AllocError>
    ensures { OnOk result (out.new.items ≡ out.old.items ++ node_line
        (list_map (λ label. label.now) way.now)
        (node.now.level, (node.now.label, node.now.is_name))) }
{
    push_indent(node.level, out)?;
    out.extend_from_slice(&quoted(alloc, node.label.as_bytes())?)?;
    push_name(alloc, node.is_name, way, out)?;
    out.push(b'\n')?;
    Ok(())
}

// Writes the name that ends at a node as the last member of its object, or that none does.
fn push_name_member(
    alloc: Global,
    is_name: bool,
    way: &[&[u8]],
    out: &mut Vec<u8>,
) -> Result<(), AllocError>
    ensures { OnOk result (out.new.items ≡ out.old.items ++ 44 ∷ member_text (
      codes "name",
      option_text (then_some is_name
          (bytes_text (concat (list_map (λ label. label.now) way.now)))),
    )) }
{
    if is_name {
        let name = joined(alloc, way)?;
        return push_member(alloc, b',', "name", &Bytes(&name), out);
    }
    let none: Option<Bytes<'_>> = None;
    push_member(alloc, b',', "name", &none, out)
}

// Writes a node as an object of JSON on a line.
fn push_object(
    alloc: Global,
    node: &Node,
    way: &[&[u8]],
    out: &mut Vec<u8>,
) -> Result<(), AllocError>
    ensures { OnOk result (out.new.items ≡ out.old.items ++ node_object
        (list_map (λ label. label.now) way.now)
        (node.now.level, (node.now.label, node.now.is_name))) }
{
    push_member(alloc, b'{', "level", &u128::from(node.level), out)?;
    push_member(alloc, b',', "label", &Bytes(node.label.as_bytes()), out)?;
    push_name_member(alloc, node.is_name, way, out)?;
    out.extend_from_slice(b"}\n")?;
    Ok(())
}

// Writes a node on a line, as text or as an object of JSON.
fn push_node(
    alloc: Global,
    node: &Node,
    way: &[&[u8]],
    as_json: bool,
    out: &mut Vec<u8>,
) -> Result<(), AllocError>
    ensures { OnOk result (out.new.items ≡ out.old.items ++ node_text as_json
        (list_map (λ label. label.now) way.now)
        (node.now.level, (node.now.label, node.now.is_name))) }
{
    if as_json {
        push_object(alloc, node, way, out)
    } else {
        push_line(alloc, node, way, out)
    }
}

// Writes the nodes of a tree, each on a line.
pub(super) fn push_lines(
    alloc: Global,
    nodes: &[Node],
    as_json: bool,
    out: &mut Vec<u8>,
) -> Result<(), AllocError>
    ensures { OnOk result (out.new.items ≡ out.old.items ++ node_lines (node_text as_json) []
        (list_map (λ node. (node.level, (node.label, node.is_name))) nodes.now)) }
{
    let mut way: Vec<&[u8]> = Vec::new(alloc);
    for node in nodes {
        way.truncate(usize::from(node.level));
        way.push(node.label.as_bytes())?;
        push_node(alloc, node, &way, as_json, out)?;
    }
    Ok(())
}

// Writes a byte of a text in quotes as Graphviz reads it, where `&` begins an entity.
fn push_graph_byte(byte: u8, out: &mut Vec<u8>) -> Result<(), AllocError>
    ensures { OnOk result (out.new.items ≡ out.old.items ++ graph_byte byte) }
{
    match byte {
        b'&' => out.extend_from_slice(b"&amp;"),
        b'"' | b'\\' => out.extend_from_slice(&[b'\\', byte]),
        _ => {
            out.push(byte)?;
            Ok(())
        }
    }
}

fn push_graph_bytes(bytes: &[u8], out: &mut Vec<u8>) -> Result<(), AllocError>
    ensures { OnOk result (out.new.items ≡ out.old.items ++ flat_map graph_byte bytes.now) }
{
    for byte in bytes {
        push_graph_byte(*byte, out)?;
    }
    Ok(())
}

// Writes a label in quotes as Graphviz reads it, which shows what `quoted` has between its quotes.
fn push_label(alloc: Global, label: &[u8], out: &mut Vec<u8>) -> Result<(), AllocError>
    ensures { OnOk result (out.new.items ≡ out.old.items ++ graph_label label.now) }
{
    let quoted = quoted(alloc, label)?;
    out.push(b'"')?;
    push_graph_bytes(&quoted[1..quoted.len() - 1], out)?;
    out.push(b'"')?;
    Ok(())
}

// Writes what a graph calls the node at a place.
fn push_node_name(place: usize, out: &mut Vec<u8>) -> Result<(), AllocError>
    ensures { OnOk result (out.new.items ≡ out.old.items ++ node_name place) }
{
    out.push(b'n')?;
    out.extend_from_slice(Buffer::new().format(place).as_bytes())
}

// Writes that a node has two borders where a name ends.
fn push_borders(is_name: bool, out: &mut Vec<u8>) -> Result<(), AllocError>
    ensures { OnOk result (out.new.items ≡ out.old.items ++ borders is_name) }
{
    if is_name {
        out.extend_from_slice(b", peripheries=2")?;
    }
    Ok(())
}

// Writes a node of a graph. Where a name ends, it has two borders.
fn push_graph_node(
    alloc: Global,
    place: usize,
    node: &Node,
    out: &mut Vec<u8>,
) -> Result<(), AllocError>
    ensures { OnOk result (out.new.items ≡ out.old.items ++ graph_node place
        (node.now.level, (node.now.label, node.now.is_name))) }
{
    out.extend_from_slice(b"    ")?;
    push_node_name(place, out)?;
    out.extend_from_slice(b" [label=")?;
    push_label(alloc, node.label.as_bytes(), out)?;
    push_borders(node.is_name, out)?;
    out.extend_from_slice(b"];")
}

// Writes the edge of a graph that leads to a node from its parent, if it has one.
fn push_edge(parent: Option<usize>, place: usize, out: &mut Vec<u8>) -> Result<(), AllocError>
    ensures { OnOk result (out.new.items ≡ out.old.items ++ graph_edge parent place) }
{
    if let Some(parent) = parent {
        out.push(b' ')?;
        push_node_name(parent, out)?;
        out.extend_from_slice(b" -> ")?;
        push_node_name(place, out)?;
        out.push(b';')?;
    }
    Ok(())
}

// Writes a node of a graph on a line with the edge that leads to it from the last of its parents.
fn push_graph_line(
    alloc: Global,
    parents: &[usize],
    place: usize,
    node: &Node,
    out: &mut Vec<u8>,
) -> Result<(), AllocError>
    ensures { OnOk result (out.new.items ≡ out.old.items ++ graph_line parents.now place
        (node.now.level, (node.now.label, node.now.is_name))) }
{
    push_graph_node(alloc, place, node, out)?;
    push_edge(parents.last().copied(), place, out)?;
    out.push(b'\n')?;
    Ok(())
}

fn push_graph_lines(alloc: Global, nodes: &[Node], out: &mut Vec<u8>) -> Result<(), AllocError>
    ensures { OnOk result (out.new.items ≡ out.old.items ++ graph_lines [] 0
        (list_map (λ node. (node.level, (node.label, node.is_name))) nodes.now)) }
{
    let mut parents: Vec<usize> = Vec::new(alloc);
    for (place, node) in nodes.iter().enumerate() {
        parents.truncate(usize::from(node.level));
        push_graph_line(alloc, &parents, place, node, out)?;
        parents.push(place)?;
    }
    Ok(())
}

// Writes the nodes of a tree as a graph of Graphviz.
pub(super) fn push_graph(alloc: Global, nodes: &[Node], out: &mut Vec<u8>) -> Result<(), AllocError>
    ensures { OnOk result (out.new.items ≡ out.old.items ++ graph_text
        (list_map (λ node. (node.level, (node.label, node.is_name))) nodes.now)) }
{
    out.extend_from_slice(b"digraph prefixes {\n    node [shape=box];\n")?;
    push_graph_lines(alloc, nodes, out)?;
    out.extend_from_slice(b"}\n")?;
    Ok(())
}
