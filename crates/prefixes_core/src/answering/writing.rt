//! The lines or the JSON that answer a question, written at the end of a text.

ghost use Rattle.std.specs.Prelude.{◌≡◌, ◌++◌, ◌∷◌, [], OnOk, string_bytes};
ghost use Rattle.std.specs.Prelude.{map as list_map};
ghost use Rattle.std.specs.Fmt.{decimal};
ghost use Rattle.std.specs.List.{flat_map, join_by};
ghost use Rattle.std.specs.Option.{option_map};
ghost use Rattle.prefixes_core.specs.Answers.{fields_line, count_line, indent, value_line};
ghost use Rattle.prefixes_core.specs.Answers.{entry_line, route_text, complete_text, near_text};
ghost use Rattle.prefixes_core.specs.Answers.{block_text, first_text, tree_text, pieces_text};
ghost use Rattle.prefixes_core.specs.Answers.{network_text};

use super::Style;
use crate::completing::Completions;
use crate::nearing::{NearName, NearNames};
use crate::networks::Network;
use crate::objects::{
    push_block_object, push_first_object, push_names_object, push_network_object,
    push_pieces_object, push_route_object, push_tree_object,
};
use crate::value::Payload;
use itoa::Buffer;
use patricia_tree::BorrowedBytes;
use std::alloc::{AllocError, Global};

// Writes fields, each behind a tab.
fn push_others<Q: BorrowedBytes>(fields: &[Q], out: &mut Vec<u8>) -> Result<(), AllocError>
    ensures { OnOk result (out.new.items
        ≡ out.old.items ++ flat_map (λ field. 9 ∷ Q.key field) fields.now) }
{
    for field in fields {
        out.push(b'\t')?;
        out.extend_from_slice(BorrowedBytes::as_bytes(field))?;
    }
    Ok(())
}

// Writes fields with a tab between any two.
fn push_joined<Q: BorrowedBytes>(fields: &[Q], out: &mut Vec<u8>) -> Result<(), AllocError>
    ensures { OnOk result (out.new.items
        ≡ out.old.items ++ join_by Q.key (9 ∷ []) fields.now) }
{
    let Some((first, others)) = fields.split_first() else {
        return Ok(());
    };
    out.extend_from_slice(BorrowedBytes::as_bytes(first))?;
    push_others(others, out)
}

// Writes fields with a tab between any two, up to the end of their line.
fn push_fields<Q: BorrowedBytes>(fields: &[Q], end: u8, out: &mut Vec<u8>) -> Result<(), AllocError>
    ensures { OnOk result (out.new.items
        ≡ out.old.items ++ fields_line end (list_map Q.key fields.now)) }
{
    push_joined(fields, out)?;
    out.push(end)?;
    Ok(())
}

// Writes a line that was read, and how many names were found.
fn push_count(line: &str, count: usize, end: u8, out: &mut Vec<u8>) -> Result<(), AllocError>
    ensures { OnOk result (out.new.items ≡ out.old.items ++ count_line end line.now count) }
{
    let mut buffer = Buffer::new();
    push_fields(&[line, buffer.format(count)], end, out)
}

// Writes which prefix a line is routed by, and its target, if it is.
pub(super) fn push_route(
    alloc: Global,
    line: &str,
    found: Option<(&str, &Payload)>,
    style: Style,
    out: &mut Vec<u8>,
) -> Result<(), AllocError>
    ensures { OnOk result (out.new.items ≡ out.old.items ++ route_text style line.now
        (option_map (λ route. (route.0.now, route.1.now)) found.entry)) }
{
    match (style, found) {
        (Style::Lines(end), Some((prefix, target))) => {
            push_fields(&[prefix.as_bytes(), target.as_bytes()], end, out)
        }
        (Style::Lines(end), None) => push_fields(&["-"], end, out),
        (Style::Json, _) => push_route_object(alloc, line, found, out),
    }
}

// Writes which network an address is in, and its target, if it is in one.
pub(super) fn push_network(
    alloc: Global,
    line: &[u8],
    found: Option<&Network>,
    style: Style,
    out: &mut Vec<u8>,
) -> Result<(), AllocError>
    ensures { OnOk result (out.new.items ≡ out.old.items ++ network_text style line.now
        (option_map (λ network. network.now) found.entry)) }
{
    match (style, found) {
        (Style::Lines(end), Some(network)) => push_fields(
            &[network.text.as_bytes(), network.target.as_bytes()],
            end,
            out,
        ),
        (Style::Lines(end), None) => push_fields(&["-"], end, out),
        (Style::Json, _) => push_network_object(alloc, line, found, out),
    }
}

// Writes names that were found, each on a line behind a tab.
fn push_names(found: &[(String, &())], end: u8, out: &mut Vec<u8>) -> Result<(), AllocError>
    ensures { OnOk result (out.new.items ≡ out.old.items
        ++ flat_map (λ name. fields_line end ([] ∷ string_bytes name.0 ∷ [])) found.now) }
{
    for (name, _) in found {
        push_fields(&["", name.as_str()], end, out)?;
    }
    Ok(())
}

type Completed<'a> = Completions<'a, String, ()>;

pub(super) fn push_completed(
    alloc: Global,
    found: &Completed<'_>,
    line: &str,
    style: Style,
    out: &mut Vec<u8>,
) -> Result<(), AllocError>
    ensures { OnOk result (out.new.items ≡ out.old.items
        ++ complete_text style line.now found.now.count
        (list_map (λ name. (string_bytes name.0, name.1.now)) found.now.first.items)) }
{
    match style {
        Style::Lines(end) => {
            push_count(line, found.count, end, out)?;
            push_names(&found.first, end, out)
        }
        Style::Json => push_names_object(alloc, line, found.count, &found.first, out),
    }
}

pub(super) fn push_first(
    alloc: Global,
    found: &[(String, &())],
    line: &str,
    style: Style,
    out: &mut Vec<u8>,
) -> Result<(), AllocError>
    ensures { OnOk result (out.new.items ≡ out.old.items ++ first_text style line.now
        (list_map (λ name. (string_bytes name.0, name.1.now)) found.now)) }
{
    match style {
        Style::Lines(end) => {
            push_fields(&[line], end, out)?;
            push_names(found, end, out)
        }
        Style::Json => push_first_object(alloc, line, found, out),
    }
}

// Writes a name that is near, and how many edits away it is.
fn push_near_name(near: &NearName, end: u8, out: &mut Vec<u8>) -> Result<(), AllocError>
    ensures { OnOk result (out.new.items ≡ out.old.items
        ++ fields_line end ([] ∷ string_bytes near.now.name ∷ decimal near.now.edits ∷ [])) }
{
    let mut buffer = Buffer::new();
    push_fields(
        &["", near.name.as_str(), buffer.format(near.edits)],
        end,
        out,
    )
}

fn push_near_names(found: &[NearName], end: u8, out: &mut Vec<u8>) -> Result<(), AllocError>
    ensures { OnOk result (out.new.items ≡ out.old.items ++ flat_map
        (λ near. fields_line end ([] ∷ string_bytes near.name ∷ decimal near.edits ∷ []))
        found.now) }
{
    for near in found {
        push_near_name(near, end, out)?;
    }
    Ok(())
}

pub(super) fn push_near(
    alloc: Global,
    found: &NearNames,
    line: &str,
    style: Style,
    out: &mut Vec<u8>,
) -> Result<(), AllocError>
    ensures { OnOk result (out.new.items ≡ out.old.items
        ++ near_text style line.now found.now.count
        (list_map (λ near. (string_bytes near.name, near.edits)) found.now.first.items)) }
{
    match style {
        Style::Lines(end) => {
            push_count(line, found.count, end, out)?;
            push_near_names(&found.first, end, out)
        }
        Style::Json => push_names_object(alloc, line, found.count, &found.first, out),
    }
}

// Writes by which name a line is blocked, if it is.
pub(super) fn push_blocked(
    alloc: Global,
    line: &[u8],
    found: Option<&[u8]>,
    style: Style,
    out: &mut Vec<u8>,
) -> Result<(), AllocError>
    ensures { OnOk result (out.new.items ≡ out.old.items
        ++ block_text style line.now (option_map (λ name. name.now) found.entry)) }
{
    match (style, found) {
        (Style::Lines(end), Some(name)) => push_fields(&[b"blocked".as_slice(), name], end, out),
        (Style::Lines(end), None) => push_fields(&["passes"], end, out),
        (Style::Json, _) => push_block_object(alloc, line, found, out),
    }
}

// Writes two spaces for each dot.
fn push_indent(name: &[u8], out: &mut Vec<u8>) -> Result<(), AllocError>
    ensures { OnOk result (out.new.items ≡ out.old.items ++ indent name.now) }
{
    for b in name {
        if *b == b'.' {
            out.extend_from_slice(b"  ")?;
        }
    }
    Ok(())
}

// Writes a name, and its value where that is not empty.
fn push_value(name: &[u8], value: &[u8], end: u8, out: &mut Vec<u8>) -> Result<(), AllocError>
    ensures { OnOk result (out.new.items ≡ out.old.items ++ value_line end name.now value.now) }
{
    if value.is_empty() {
        push_fields(&[name], end, out)
    } else {
        push_fields(&[name, value], end, out)
    }
}

// An entry of a tree: two spaces for each dot that its name has behind that of the tree.
fn push_entry(
    name: &[u8],
    value: &[u8],
    root: &[u8],
    end: u8,
    out: &mut Vec<u8>,
) -> Result<(), AllocError>
    ensures { OnOk result (out.new.items
        ≡ out.old.items ++ entry_line end root.now (name.now, value.now)) }
{
    push_indent(&name[root.len().min(name.len())..], out)?;
    push_value(name, value, end, out)
}

fn push_entries(
    found: &[(String, &Payload)],
    root: &[u8],
    end: u8,
    out: &mut Vec<u8>,
) -> Result<(), AllocError>
    ensures { OnOk result (out.new.items ≡ out.old.items ++ flat_map
        (λ entry. entry_line end root.now (string_bytes entry.0, entry.1.now)) found.now) }
{
    for (name, value) in found {
        push_entry(name.as_bytes(), value.as_bytes(), root, end, out)?;
    }
    Ok(())
}

// Writes the entries of a tree, if there are any.
pub(super) fn push_tree(
    alloc: Global,
    found: &[(String, &Payload)],
    line: &str,
    style: Style,
    out: &mut Vec<u8>,
) -> Result<(), AllocError>
    ensures { OnOk result (out.new.items ≡ out.old.items ++ tree_text style line.now
        (list_map (λ entry. (string_bytes entry.0, entry.1.now)) found.now)) }
{
    match style {
        Style::Lines(end) if found.is_empty() => push_fields(&["-"], end, out),
        Style::Lines(end) => push_entries(found, line.as_bytes(), end, out),
        Style::Json => push_tree_object(alloc, line, found, out),
    }
}

// Writes the pieces that a line is cut into.
pub(super) fn push_pieces(
    alloc: Global,
    pieces: &[&str],
    line: &str,
    style: Style,
    out: &mut Vec<u8>,
) -> Result<(), AllocError>
    ensures { OnOk result (out.new.items ≡ out.old.items
        ++ pieces_text style line.now (list_map (λ piece. piece.now) pieces.now)) }
{
    match style {
        Style::Lines(end) => push_fields(pieces, end, out),
        Style::Json => push_pieces_object(alloc, line, pieces, out),
    }
}
