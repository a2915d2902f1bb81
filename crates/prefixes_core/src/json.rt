//! Values as JSON, written at the end of a text.

ghost use Rattle.std.specs.Prelude.{◌≡◌, ◌++◌, ◌∷◌, ℕ, List, [], IfOk, OnOk, map as list_map};
ghost use Rattle.std.specs.Fmt.{decimal};
ghost use Rattle.std.specs.List.{flat_map, join_by};
ghost use Rattle.std.specs.Option.{option_map};
ghost use Rattle.prefixes_core.specs.Objects.{string_text, array_text, bytes_text, option_text};
ghost use Rattle.prefixes_core.specs.Objects.{member_text};

use itoa::Buffer;
use std::alloc::{AllocError, Global};
use std::str;

/// What is written as JSON.
pub trait ToJson {
    ghost text: { Self → List ℕ };

    /// Writes the value at the end of a text, or runs out of memory.
    fn push_json(&self, alloc: Global, out: &mut Vec<u8>) -> Result<(), AllocError>
        ensures { OnOk result (out.new.items ≡ out.old.items ++ text self.now) };
}

/// Returns a text in quotes and with escapes.
pub fn quoted(alloc: Global, text: &str) -> Result<Vec<u8>, AllocError>
    ensures { IfOk result (λ quoted. quoted.items ≡ string_text text.now) }
{
    // nothing but memory is refused to a text
    match serde_json::to_vec(alloc, &text) {
        Ok(quoted) => Ok(quoted),
        Err(_) => Err(AllocError),
    }
}

impl<'a> ToJson for &'a str {
    ghost text = { λ s. string_text s.now };

    fn push_json(&self, alloc: Global, out: &mut Vec<u8>) -> Result<(), AllocError> {
        out.extend_from_slice(&quoted(alloc, self)?)
    }
}

impl ToJson for u128 {
    ghost text = { decimal };

    fn push_json(&self, _: Global, out: &mut Vec<u8>) -> Result<(), AllocError> {
        out.extend_from_slice(Buffer::new().format(*self).as_bytes())
    }
}

impl ToJson for u8 {
    ghost text = { decimal };

    fn push_json(&self, _: Global, out: &mut Vec<u8>) -> Result<(), AllocError> {
        out.extend_from_slice(Buffer::new().format(*self).as_bytes())
    }
}

impl<T: ToJson> ToJson for Option<T> {
    ghost text = { λ value. option_text (option_map T.text value) };

    fn push_json(&self, alloc: Global, out: &mut Vec<u8>) -> Result<(), AllocError> {
        match self {
            Some(value) => value.push_json(alloc, out),
            None => out.extend_from_slice(b"null"),
        }
    }
}

// Writes values, each behind a comma.
fn push_others<T: ToJson>(alloc: Global, values: &[T], out: &mut Vec<u8>) -> Result<(), AllocError>
    ensures { OnOk result (out.new.items
        ≡ out.old.items ++ flat_map (λ value. 44 ∷ T.text value) values.now) }
{
    for value in values {
        out.push(b',')?;
        value.push_json(alloc, out)?;
    }
    Ok(())
}

// Writes values with a comma between any two.
fn push_joined<T: ToJson>(alloc: Global, values: &[T], out: &mut Vec<u8>) -> Result<(), AllocError>
    ensures { OnOk result (out.new.items
        ≡ out.old.items ++ join_by T.text (44 ∷ []) values.now) }
{
    let Some((first, others)) = values.split_first() else {
        return Ok(());
    };
    first.push_json(alloc, out)?;
    push_others(alloc, others, out)
}

/// Writes the array of some values.
pub fn push_array<T: ToJson>(
    alloc: Global,
    values: &[T],
    out: &mut Vec<u8>,
) -> Result<(), AllocError>
    ensures { OnOk result (out.new.items
        ≡ out.old.items ++ array_text (list_map T.text values.now)) }
{
    out.push(b'[')?;
    push_joined(alloc, values, out)?;
    out.push(b']')?;
    Ok(())
}

impl<'a, T: ToJson> ToJson for &'a [T] {
    ghost text = { λ values. array_text (list_map T.text values.now) };

    fn push_json(&self, alloc: Global, out: &mut Vec<u8>) -> Result<(), AllocError> {
        push_array(alloc, self, out)
    }
}

/// Bytes: a text where they are UTF-8, and else the array of their numbers.
#[derive(Clone, Copy)]
pub struct Bytes<'a>(pub &'a [u8]);

impl<'a> ToJson for Bytes<'a> {
    ghost text = { λ bytes. bytes_text bytes.0.now };

    fn push_json(&self, alloc: Global, out: &mut Vec<u8>) -> Result<(), AllocError> {
        match str::from_utf8(self.0) {
            Ok(text) => text.push_json(alloc, out),
            Err(_) => push_array(alloc, self.0, out),
        }
    }
}

/// Writes a member behind a byte that opens the object or parts it from the one before.
pub fn push_member<T: ToJson>(
    alloc: Global,
    before: u8,
    name: &str,
    value: &T,
    out: &mut Vec<u8>,
) -> Result<(), AllocError>
    ensures { OnOk result (out.new.items
        ≡ out.old.items ++ before ∷ member_text (name.now, T.text value.now)) }
{
    out.extend_from_slice(&[before, b'"'])?;
    out.extend_from_slice(name.as_bytes())?;
    out.extend_from_slice(b"\":")?;
    value.push_json(alloc, out)
}
