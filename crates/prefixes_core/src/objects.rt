//! Answers as objects of JSON, each on a line, written at the end of a text.

ghost use Rattle.std.specs.Prelude.{◌≡◌, ◌++◌, ◌∷◌, [], OnOk, codes, string_bytes};
ghost use Rattle.std.specs.Prelude.{map as list_map};
ghost use Rattle.std.specs.Option.{option_map};
ghost use Rattle.prefixes_core.specs.Answers.{route_object, names_object, near_object};
ghost use Rattle.prefixes_core.specs.Answers.{first_object};
ghost use Rattle.prefixes_core.specs.Answers.{block_object, entry_object, tree_object};
ghost use Rattle.prefixes_core.specs.Answers.{network_object, pieces_object};
ghost use Rattle.prefixes_core.specs.Objects.{string_text, bytes_text, array_text, object_line};

use crate::json::{Bytes, ToJson, push_member};
use crate::nearing::NearName;
use crate::networks::Network;
use crate::value::Payload;
use std::alloc::{AllocError, Global};

// A name that is found: a text.
impl<'a> ToJson for (String, &'a ()) {
    ghost text = { λ entry. string_text (string_bytes entry.0) };

    fn push_json(&self, alloc: Global, out: &mut Vec<u8>) -> Result<(), AllocError> {
        self.0.as_str().push_json(alloc, out)
    }
}

// An entry that is found: an object.
impl<'a> ToJson for (String, &'a Payload) {
    ghost text = { λ entry. entry_object (string_bytes entry.0, entry.1.now) };

    fn push_json(&self, alloc: Global, out: &mut Vec<u8>) -> Result<(), AllocError> {
        push_member(alloc, b'{', "name", &self.0.as_str(), out)?;
        push_member(alloc, b',', "value", &Bytes(self.1.as_bytes()), out)?;
        out.push(b'}')?;
        Ok(())
    }
}

impl ToJson for NearName {
    ghost text = { λ near. near_object (string_bytes near.name, near.edits) };

    fn push_json(&self, alloc: Global, out: &mut Vec<u8>) -> Result<(), AllocError> {
        push_member(alloc, b'{', "name", &self.name.as_str(), out)?;
        push_member(alloc, b',', "edits", &u128::from(self.edits), out)?;
        out.push(b'}')?;
        Ok(())
    }
}

// Bytes that may be missing.
fn bytes_of(bytes: Option<&[u8]>) -> Option<Bytes<'_>>
    ensures { option_map (λ b. bytes_text b.0.now) result
        ≡ option_map (λ b. bytes_text b.now) bytes.entry }
{
    match bytes {
        Some(bytes) => Some(Bytes(bytes)),
        None => None,
    }
}

// The prefix of a route and its target, where there is one.
fn parts_of<'a>(route: Option<(&'a str, &'a Payload)>) -> (Option<&'a str>, Option<Bytes<'a>>)
    ensures prefix { option_map (λ s. string_text s.now) result.0
        ≡ option_map (λ r. string_text r.0.now) route.entry }
    ensures target { option_map (λ b. bytes_text b.0.now) result.1
        ≡ option_map (λ r. bytes_text r.1.now) route.entry }
{
    match route {
        Some((prefix, target)) => (Some(prefix), Some(Bytes(target.as_bytes()))),
        None => (None, None),
    }
}

/// Writes by which prefix a line is routed, and to what, if it is.
pub fn push_route_object(
    alloc: Global,
    line: &str,
    route: Option<(&str, &Payload)>,
    out: &mut Vec<u8>,
) -> Result<(), AllocError>
    ensures { OnOk result (out.new.items ≡ out.old.items ++ route_object line.now
        (option_map (λ route. (route.0.now, route.1.now)) route.entry)) }
{
    let (prefix, target) = parts_of(route);
    push_member(alloc, b'{', "line", &line, out)?;
    push_member(alloc, b',', "prefix", &prefix, out)?;
    push_member(alloc, b',', "target", &target, out)?;
    out.extend_from_slice(b"}\n")?;
    Ok(())
}

// The text of a network and its target, if there is one.
fn parts_of_network(network: Option<&Network>) -> (Option<Bytes<'_>>, Option<Bytes<'_>>)
    ensures text { option_map (λ b. bytes_text b.0.now) result.0
        ≡ option_map (λ network. bytes_text network.now.text) network.entry }
    ensures target { option_map (λ b. bytes_text b.0.now) result.1
        ≡ option_map (λ network. bytes_text network.now.target) network.entry }
{
    match network {
        Some(network) => (
            Some(Bytes(network.text.as_bytes())),
            Some(Bytes(network.target.as_bytes())),
        ),
        None => (None, None),
    }
}

/// Writes which network an address is in, and its target, if it is in one.
pub fn push_network_object(
    alloc: Global,
    line: &[u8],
    network: Option<&Network>,
    out: &mut Vec<u8>,
) -> Result<(), AllocError>
    ensures { OnOk result (out.new.items ≡ out.old.items ++ network_object line.now
        (option_map (λ network. network.now) network.entry)) }
{
    let (text, target) = parts_of_network(network);
    push_member(alloc, b'{', "line", &Bytes(line), out)?;
    push_member(alloc, b',', "prefix", &text, out)?;
    push_member(alloc, b',', "target", &target, out)?;
    out.extend_from_slice(b"}\n")?;
    Ok(())
}

/// Writes how many names are found for a line, and some of them.
pub fn push_names_object<T: ToJson>(
    alloc: Global,
    line: &str,
    count: usize,
    names: &[T],
    out: &mut Vec<u8>,
) -> Result<(), AllocError>
    ensures { OnOk result (out.new.items
        ≡ out.old.items ++ names_object line.now count (list_map T.text names.now)) }
{
    push_member(alloc, b'{', "line", &line, out)?;
    push_member(alloc, b',', "count", &(count as u128), out)?;
    push_member(alloc, b',', "names", &names, out)?;
    out.extend_from_slice(b"}\n")?;
    Ok(())
}

/// Writes some names that begin with a line.
pub fn push_first_object<T: ToJson>(
    alloc: Global,
    line: &str,
    names: &[T],
    out: &mut Vec<u8>,
) -> Result<(), AllocError>
    ensures { OnOk result (out.new.items
        ≡ out.old.items ++ first_object line.now (list_map T.text names.now)) }
{
    push_values_object(alloc, line, "names", names, out)
}

/// Writes by which name a host is blocked, if it is.
pub fn push_block_object(
    alloc: Global,
    host: &[u8],
    name: Option<&[u8]>,
    out: &mut Vec<u8>,
) -> Result<(), AllocError>
    ensures { OnOk result (out.new.items ≡ out.old.items
        ++ block_object host.now (option_map (λ name. name.now) name.entry)) }
{
    let blocked = bytes_of(name);
    push_member(alloc, b'{', "line", &Bytes(host), out)?;
    push_member(alloc, b',', "blocked", &blocked, out)?;
    out.extend_from_slice(b"}\n")?;
    Ok(())
}

// Writes a line, and values behind a name.
fn push_values_object<T: ToJson>(
    alloc: Global,
    line: &str,
    name: &str,
    values: &[T],
    out: &mut Vec<u8>,
) -> Result<(), AllocError>
    ensures { OnOk result (out.new.items ≡ out.old.items
        ++ object_line ((codes "line", string_text line.now)
        ∷ (name.now, array_text (list_map T.text values.now)) ∷ [])) }
{
    push_member(alloc, b'{', "line", &line, out)?;
    push_member(alloc, b',', name, &values, out)?;
    out.extend_from_slice(b"}\n")?;
    Ok(())
}

/// Writes the entries of the tree of a name.
pub fn push_tree_object(
    alloc: Global,
    root: &str,
    entries: &[(String, &Payload)],
    out: &mut Vec<u8>,
) -> Result<(), AllocError>
    ensures { OnOk result (out.new.items ≡ out.old.items ++ tree_object root.now
        (list_map (λ entry. (string_bytes entry.0, entry.1.now)) entries.now)) }
{
    push_values_object(alloc, root, "entries", entries, out)
}

/// Writes the pieces that a line is cut into.
pub fn push_pieces_object(
    alloc: Global,
    line: &str,
    pieces: &[&str],
    out: &mut Vec<u8>,
) -> Result<(), AllocError>
    ensures { OnOk result (out.new.items ≡ out.old.items
        ++ pieces_object line.now (list_map (λ piece. piece.now) pieces.now)) }
{
    push_values_object(alloc, line, "pieces", pieces, out)
}
