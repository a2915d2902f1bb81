//! The JSON of tree bytes and a value, in the words that `patricia_tree` re-exports.
ghost use Rattle.std.specs.Prelude.{◌≡◌, Some, IfOk, string_bytes};
ghost use Rattle.patricia_tree.specs.Pairs.{pair_data};
ghost use Rattle.serde_json.specs.Data.{Items, number, unsigned, item, no_items};
ghost use Rattle.serde_json.specs.Read.{read};
ghost use Rattle.serde_json.specs.View.{items_view};
ghost use Rattle.serde_json.specs.Written.{compact_text};

use patricia_tree::wire::pair_to_json;
use serde_json::Value;
use std::alloc::{AllocError, Global};

/// A list of one number.
pub fn one_number(alloc: Global, n: u64) -> Result<Vec<Value>, AllocError>
    ensures { IfOk result (λ values.
        items_view values.items ≡ item (number (unsigned n)) no_items) }
{
    let mut values = Vec::new(alloc);
    values.push(Value::from(n))?;
    Ok(values)
}

/// The JSON of tree bytes beside one number, which is read as these bytes and this number.
pub fn number_to_json(alloc: Global, bytes: &[u8], n: u64) -> Result<String, AllocError>
    ensures text { IfOk result (λ s.
        string_bytes s ≡ compact_text (pair_data bytes.now (item (number (unsigned n)) no_items))) }
    ensures reads { IfOk result (λ s.
        read (string_bytes s) ≡ Some (pair_data bytes.now (item (number (unsigned n)) no_items))) }
{
    let values = one_number(alloc, n)?;
    pair_to_json(alloc, bytes, values)
}
