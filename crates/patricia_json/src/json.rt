//! Bytes and values to JSON and back.
ghost use Rattle.std.specs.Prelude.{◌≡◌, ◌≢◌, ◌<◌, ℕ, List, All, IfOk, IfErr, string_bytes};
ghost use Rattle.serde_json.specs.Data.{Items, array};
ghost use Rattle.serde_json.specs.Read.{read};
ghost use Rattle.serde_json.specs.View.{view, items_view};
ghost use Rattle.serde_json.specs.Written.{has_float, items_have_float};
ghost use Rattle.patricia_json.specs.Pairs.{numbers_of, two_arrays};
ghost use Rattle.patricia_json.specs.Pairs.{HaveNoFloat, IsTextOf, ReadsAs, IsReadBack, IsNoPair};

use serde_json::Value;
use std::alloc::{AllocError, Global};
use thiserror::Error;

/// Why a text was not read.
#[derive(Clone, Copy, Debug, PartialEq, Eq, Error)]
pub enum JsonError {
    /// Memory ran out.
    #[error("out of memory")]
    Memory,
    /// The text is no array of an array of bytes and an array of values, or a value in it has a
    /// floating-point number.
    #[error("not the JSON of a wire pair")]
    Json,
}

/// Writes an array of two arrays with no space, the bytes as numbers and then the values.
///
/// No value may have a floating-point number in it. Takes time in proportion to the text.
///
/// # Errors
///
/// Out of memory.
///
/// # Examples
///
/// ```
/// let (bytes, values) = pair_from_json(rt.alloc(), "[ [3, 0, 0, 0], [null] ]")?;
/// let text = pair_to_json(rt.alloc(), &bytes, values)?;
/// assert!(rt; text.as_str() == "[[3,0,0,0],[null]]");
/// ```
pub fn pair_to_json(alloc: Global, bytes: &[u8], values: Vec<Value>) -> Result<String, AllocError>
    requires { HaveNoFloat values.items }
    ensures text { IfOk result (λ s. IsTextOf (string_bytes s) bytes.now values.items) }
    ensures reads_back { IfOk result (λ s. IsReadBack (string_bytes s) bytes.now values.items) }
{
    let numbers = numbers_from(alloc, bytes)?;
    let pair = both(alloc, numbers, values)?;
    pair.to_string(alloc)
}

/// Reads an array of two arrays, the bytes and the values, with any spaces that JSON allows.
///
/// What a number is, `serde_json` says. A number with a point or an exponent is a floating-point
/// number even where its value is whole, as in `1.0` and `1e2`, and so is `-0` and an integer
/// outside of -2^63 to 2^64 - 1: each is refused, as a byte or in a value. A text in which arrays
/// and objects are nested more than 127 deep is refused too. Of two members of an object with the
/// same name the later stays. Takes time in proportion to the text.
///
/// # Errors
///
/// `Memory`, or `Json` for all else that is refused.
///
/// # Examples
///
/// ```
/// let (bytes, values) = pair_from_json(rt.alloc(), "[[12, 0, 0, 0, 3, 1, 0, 1, 97], [1]]")?;
/// assert!(rt; bytes.len() == 9 && values.len() == 1);
/// let float = pair_from_json(rt.alloc(), "[[3, 0, 0, 0], [1.0]]");
/// assert!(rt; matches!(float, Err(JsonError::Json)));
/// ```
pub fn pair_from_json(alloc: Global, text: &str) -> Result<(Vec<u8>, Vec<Value>), JsonError>
    ensures read { IfOk result (λ p. ReadsAs text.now p.0.items p.1.items) }
    ensures no_float { IfOk result (λ p. HaveNoFloat p.1.items) }
    ensures err { result ≡ Err JsonError.Json → IsNoPair text.now }
{
    let Value::Array(parts) = read_value(alloc, text)? else {
        return Err(JsonError::Json);
    };
    let (numbers, values) = two_of(parts)?;
    if any_holds_float(&values) {
        return Err(JsonError::Json);
    }
    let bytes = bytes_from(alloc, &numbers)?;
    Ok((bytes, values))
}

// The bytes as numbers.
fn numbers_from(alloc: Global, bytes: &[u8]) -> Result<Vec<Value>, AllocError>
    ensures { IfOk result (λ numbers. items_view numbers.items ≡ numbers_of bytes.now) }
{
    let mut numbers: Vec<Value> = Vec::with_capacity(alloc, bytes.len())?;
    for b in bytes {
        numbers.push(Value::from(*b))?;
    }
    Ok(numbers)
}

// The array of two arrays.
fn both(alloc: Global, numbers: Vec<Value>, values: Vec<Value>) -> Result<Value, AllocError>
    ensures { IfOk result (λ pair. view pair
        ≡ array (two_arrays (items_view numbers.items) (items_view values.items))) }
{
    let mut parts: Vec<Value> = Vec::with_capacity(alloc, 2)?;
    parts.push(Value::Array(numbers))?;
    parts.push(Value::Array(values))?;
    Ok(Value::Array(parts))
}

// The value that a text is.
fn read_value(alloc: Global, text: &str) -> Result<Value, JsonError>
    ensures ok { IfOk result (λ value. read text.now ≡ Some (view value)) }
    ensures err { result ≡ Err JsonError.Json → read text.now ≡ None }
{
    match Value::from_str(alloc, text) {
        Ok(value) => Ok(value),
        Err(error) if error.is_memory() => Err(JsonError::Memory),
        Err(_) => Err(JsonError::Json),
    }
}

// The two arrays in an array of just these.
fn two_of(mut parts: Vec<Value>) -> Result<(Vec<Value>, Vec<Value>), JsonError>
    ensures ok { IfOk result (λ p. items_view parts.items
        ≡ two_arrays (items_view p.0.items) (items_view p.1.items)) }
    ensures err { IfErr result (λ e. (e ≡ JsonError.Json)
        × ((first second : Items) → items_view parts.items ≢ two_arrays first second)) }
{
    if parts.len() != 2 {
        return Err(JsonError::Json);
    }
    let Value::Array(values) = parts.remove(1) else {
        return Err(JsonError::Json);
    };
    let Value::Array(numbers) = parts.remove(0) else {
        return Err(JsonError::Json);
    };
    Ok((numbers, values))
}

// Whether one of the values has a floating-point number in it.
fn any_holds_float(values: &[Value]) -> bool
    ensures { result ≡ items_have_float (items_view values.now) }
{
    for value in values {
        if holds_float(value) {
            return true;
        }
    }
    false
}

// Whether a value is a floating-point number or has one in it.
fn holds_float(value: &Value) -> bool
    ensures { result ≡ has_float (view value.now) }
{
    match value {
        Value::Number(n) => n.is_f64(),
        Value::Array(items) => {
            for item in items {
                if holds_float(item) {
                    return true;
                }
            }
            false
        }
        Value::Object(members) => {
            for member in members.values() {
                if holds_float(member) {
                    return true;
                }
            }
            false
        }
        _ => false,
    }
}

// The bytes that the numbers are, if each is one.
fn bytes_from(alloc: Global, numbers: &[Value]) -> Result<Vec<u8>, JsonError>
    ensures ok { IfOk result (λ bytes. items_view numbers.now ≡ numbers_of bytes.items) }
    ensures err { result ≡ Err JsonError.Json → (bytes : List ℕ) → All (λ b. b < 256) bytes
        → items_view numbers.now ≢ numbers_of bytes }
{
    let mut bytes = Vec::new(alloc);
    for value in numbers {
        let Some(n) = value.as_u64() else {
            return Err(JsonError::Json);
        };
        let Ok(b) = u8::try_from(n) else {
            return Err(JsonError::Json);
        };
        bytes.push(b).map_err(|_| JsonError::Memory)?;
    }
    Ok(bytes)
}
