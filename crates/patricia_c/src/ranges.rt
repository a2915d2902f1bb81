//! Cursors over the entries from a key on, up to another one.
ghost use Rattle.std.specs.Prelude.{◌≡◌, ◌⊎◌, ℕ, List, [], Some, IfOk};
ghost use Rattle.patricia_tree.specs.Ranges.{before, from};
ghost use Rattle.patricia_c.specs.Cursors.{ahead_of, end_of, prefix_of};

use crate::codes::{DONE, NO_MEMORY};
use crate::cursor_place::CursorPlace;
use crate::cursor_pointer::Position;
use std::alloc::{AllocError, Global};

// Where a cursor stands that has the entries from a key on ahead, up to another one.
#[tactic(auto, using(patricia_model::proofs::PrefixLemmas::under_empty))]
fn at_range(alloc: Global, start: &[u8], end: &[u8]) -> Result<Box<Position>, AllocError>
    ensures ahead { IfOk result (λ b. (entries : List (List ℕ × ℕ)) →
        ahead_of (Some b.value) entries ≡ before end.now (from start.now entries)) }
    ensures prefix { IfOk result (λ b. prefix_of (Some b.value) ≡ []) }
    ensures end_key { IfOk result (λ b. end_of (Some b.value) ≡ Some end.now) }
{
    let position = Position {
        key: Vec::from_slice(alloc, start)?,
        common: 0,
        passed: false,
        end: Some(Vec::from_slice(alloc, end)?),
    };
    Ok(Box::new(alloc, position)?)
}

/// Sets the cursor before the first entry whose key is `start` or comes after it, among those whose
/// key comes before `end`. Returns `DONE`; or `NO_MEMORY` where memory ran out: the cursor stands
/// where it stood.
#[unsafe(no_mangle)]
pub extern "C" fn patricia_cursor_seek_range(
    alloc: Global,
    cursor: &mut CursorPlace,
    start: &[u8],
    end: &[u8],
) -> u32
    ensures ahead { result ≡ 0 → (entries : List (List ℕ × ℕ)) →
        ahead_of cursor.new.pointer.stored entries ≡ before end.now (from start.now entries) }
    ensures prefix { result ≡ 0 → prefix_of cursor.new.pointer.stored ≡ [] }
    ensures end_key { result ≡ 0 → end_of cursor.new.pointer.stored ≡ Some end.now }
    ensures refused { result ≡ 2 → cursor.new.pointer.stored ≡ cursor.old.pointer.stored }
    ensures codes { (result ≡ 0) ⊎ (result ≡ 2) }
{
    match at_range(alloc, start, end) {
        Ok(stored) => {
            cursor.put(stored);
            DONE
        }
        Err(_) => NO_MEMORY,
    }
}
