//! What a list takes, written at the end of a text.

ghost use Rattle.std.specs.Prelude.{◌≡◌, ◌++◌, OnOk};
ghost use Rattle.prefixes_core.specs.Measures.{saved_percent, number_line, measure_lines};
ghost use Rattle.prefixes_core.specs.Measures.{measure_object, measures_text};

use super::Measures;
use crate::json::push_member;
use itoa::Buffer;
use std::alloc::{AllocError, Global};

// How many hundredths of the bytes of names their labels save, rounded down.
fn saved(measures: &Measures) -> u128
    ensures { result ≡ saved_percent measures.now.name_bytes measures.now.label_bytes }
{
    if measures.name_bytes == 0 {
        return 0;
    }
    // what is left is rounded up
    let left = (measures.label_bytes as u128 * 100).div_ceil(measures.name_bytes);
    100u128.saturating_sub(left)
}

// Writes the line of a number.
fn push_number(name: &str, number: u128, unit: &str, out: &mut Vec<u8>) -> Result<(), AllocError>
    ensures { OnOk result (out.new.items ≡ out.old.items ++ number_line name.now number unit.now) }
{
    out.extend_from_slice(name.as_bytes())?;
    out.push(b'\t')?;
    out.extend_from_slice(Buffer::new().format(number).as_bytes())?;
    out.extend_from_slice(unit.as_bytes())?;
    out.push(b'\n')?;
    Ok(())
}

// Writes what a list takes, a line for each number.
fn push_measure_lines(measures: &Measures, out: &mut Vec<u8>) -> Result<(), AllocError>
    ensures { OnOk result (out.new.items ≡ out.old.items ++ measure_lines measures.now) }
{
    push_number("names", measures.names as u128, "", out)?;
    push_number("name bytes", measures.name_bytes, "", out)?;
    push_number("nodes", measures.nodes as u128, "", out)?;
    push_number("label bytes", measures.label_bytes as u128, "", out)?;
    push_number("tree bytes", measures.tree_bytes as u128, "", out)?;
    push_number("depth", measures.depth as u128, "", out)?;
    push_number("saved", saved(measures), "%", out)
}

// Writes what a list takes as an object of JSON on a line.
fn push_measure_object(
    alloc: Global,
    measures: &Measures,
    out: &mut Vec<u8>,
) -> Result<(), AllocError>
    ensures { OnOk result (out.new.items ≡ out.old.items ++ measure_object measures.now) }
{
    push_member(alloc, b'{', "names", &(measures.names as u128), out)?;
    push_member(alloc, b',', "name_bytes", &measures.name_bytes, out)?;
    push_member(alloc, b',', "nodes", &(measures.nodes as u128), out)?;
    push_member(
        alloc,
        b',',
        "label_bytes",
        &(measures.label_bytes as u128),
        out,
    )?;
    push_member(
        alloc,
        b',',
        "tree_bytes",
        &(measures.tree_bytes as u128),
        out,
    )?;
    push_member(alloc, b',', "depth", &(measures.depth as u128), out)?;
    push_member(alloc, b',', "saved_percent", &saved(measures), out)?;
    out.extend_from_slice(b"}\n")?;
    Ok(())
}

/// Writes what a list takes at the end of a text, as JSON or in lines.
///
/// # Errors
///
/// Out of memory.
pub fn push_measures(
    alloc: Global,
    measures: &Measures,
    as_json: bool,
    out: &mut Vec<u8>,
) -> Result<(), AllocError>
    ensures { OnOk result (out.new.items ≡ out.old.items ++ measures_text as_json measures.now) }
{
    if as_json {
        push_measure_object(alloc, measures, out)
    } else {
        push_measure_lines(measures, out)
    }
}
