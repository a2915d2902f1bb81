//! The lines that are written for faults and replies.

ghost use Rattle.std.specs.Prelude.{◌≡◌, [], ◌∷◌, ◌++◌, OnOk, codes};
ghost use Rattle.std.specs.Fmt.{decimal};
ghost use Rattle.std.specs.List.{join_by};
ghost use Rattle.patricia_run.specs.Writing.{number_line, entry_line, entry_lines, fault_line};
ghost use Rattle.patricia_run.specs.Writing.{joined_or_dash, wire_line, reply_lines};

use crate::Reply;
use crate::key_format::KeyText;
use crate::reading::Fault;
use itoa::{Buffer, Integer};
use patricia_tree::Bytes;
use std::alloc::AllocError;

fn write_decimal<N: Integer>(out: &mut Vec<u8>, n: N) -> Result<(), AllocError>
    ensures { OnOk result (out.new.items ≡ out.old.items ++ N.text n) }
{
    out.extend_from_slice(Buffer::new().format(n).as_bytes())
}

// Ends a line with a space and a number.
fn write_number(out: &mut Vec<u8>, n: u64) -> Result<(), AllocError>
    ensures { OnOk result (out.new.items ≡ out.old.items ++ number_line [] n) }
{
    out.push(b' ')?;
    write_decimal(out, n)?;
    out.push(b'\n')?;
    Ok(())
}

// A text, a space and a number on a line.
fn write_line(out: &mut Vec<u8>, text: &[u8], n: u64) -> Result<(), AllocError>
    ensures { OnOk result (out.new.items ≡ out.old.items ++ number_line text.now n) }
{
    out.extend_from_slice(text)?;
    write_number(out, n)
}

// The length of a key that is there, and its value.
fn write_longest(out: &mut Vec<u8>, length: u64, value: u64) -> Result<(), AllocError>
    ensures { OnOk result (out.new.items
        ≡ out.old.items ++ number_line (codes "some" ++ 32 ∷ decimal length) value) }
{
    out.extend_from_slice(b"some ")?;
    write_decimal(out, length)?;
    write_number(out, value)
}

fn write_entry<'a, Q: KeyText<'a>>(
    out: &mut Vec<u8>,
    entry: &(Q::Owned, u64),
) -> Result<(), AllocError>
    ensures { OnOk result (out.new.items
        ≡ out.old.items ++ entry_line Q.key_format Q.Owned.key entry.now) }
{
    Q::print(entry.0.as_bytes(), out)?;
    write_number(out, entry.1)
}

fn write_entries<'a, Q: KeyText<'a>>(
    out: &mut Vec<u8>,
    entries: &[(Q::Owned, u64)],
) -> Result<(), AllocError>
    ensures { OnOk result (out.new.items
        ≡ out.old.items ++ entry_lines Q.key_format Q.Owned.key entries.now) }
{
    for entry in entries {
        write_entry::<Q>(out, entry)?;
    }
    Ok(())
}

fn write_joined<N: Integer>(out: &mut Vec<u8>, numbers: &[N]) -> Result<(), AllocError>
    ensures { OnOk result (out.new.items
        ≡ out.old.items ++ join_by N.text (codes ",") numbers.now) }
{
    let Some((first, others)) = numbers.split_first() else {
        return Ok(());
    };
    write_decimal(out, *first)?;
    for number in others {
        out.push(b',')?;
        write_decimal(out, *number)?;
    }
    Ok(())
}

fn write_joined_or_dash(out: &mut Vec<u8>, numbers: &[u64]) -> Result<(), AllocError>
    ensures { OnOk result (out.new.items ≡ out.old.items ++ joined_or_dash numbers.now) }
{
    if numbers.is_empty() {
        out.extend_from_slice(b"-")
    } else {
        write_joined(out, numbers)
    }
}

// The tree bytes, and the values.
fn write_wire(out: &mut Vec<u8>, bytes: &[u8], values: &[u64]) -> Result<(), AllocError>
    ensures { OnOk result (out.new.items ≡ out.old.items ++ wire_line bytes.now values.now) }
{
    out.extend_from_slice(b"wire ")?;
    write_joined(out, bytes)?;
    out.push(b' ')?;
    write_joined_or_dash(out, values)?;
    out.push(b'\n')?;
    Ok(())
}

/// Writes the line of a fault at the end of a text.
pub fn write_fault(out: &mut Vec<u8>, fault: Fault) -> Result<(), AllocError>
    ensures { OnOk result (out.new.items ≡ out.old.items ++ fault_line fault) }
{
    let number: u64 = match fault {
        Fault::UnknownWord => 1,
        Fault::FieldCount => 2,
        Fault::BadNumber => 3,
        Fault::BadKey => 4,
    };
    write_line(out, b"fault", number)
}

/// Writes the lines of a reply at the end of a text.
pub fn write_reply<'a, Q: KeyText<'a>>(
    out: &mut Vec<u8>,
    reply: &Reply<Q::Owned, u64>,
) -> Result<(), AllocError>
    ensures { OnOk result (out.new.items
        ≡ out.old.items ++ reply_lines Q.key_format Q.Owned.key reply.now) }
{
    match reply {
        Reply::None => out.extend_from_slice(b"none\n"),
        Reply::Some(value) => write_line(out, b"some", *value),
        Reply::Longest(length, value) => write_longest(out, *length as u64, *value),
        Reply::Count(n) => write_line(out, b"count", *n as u64),
        Reply::Rows(entries) => {
            write_line(out, b"rows", entries.len() as u64)?;
            write_entries::<Q>(out, entries)
        }
        Reply::Done => out.extend_from_slice(b"ok\n"),
        Reply::Wire(bytes, values) => write_wire(out, bytes, values),
        Reply::TooDeep => out.extend_from_slice(b"too deep\n"),
        Reply::NoMemory => out.extend_from_slice(b"no memory\n"),
    }
}
