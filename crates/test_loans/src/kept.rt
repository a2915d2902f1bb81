//! Loans that are over in time. Each comment that begins with `refused:` has a line that would
//! break the rules of borrows: `tests/must_fail.py` puts each in turn into a copy, which must not
//! compile.
ghost use Rattle.std.specs.Prelude.{◌≡◌, ◌⊎◌, true, false};
ghost use Rattle.std.specs.FinMap as map;

use patricia_tree::{BorrowedBytes, Bytes, GenericPatriciaMap};
use std::alloc::AllocError;

/// A value that `get_mut` lends is not written after the next insert.
pub fn past_insert<Q: BorrowedBytes>(m: &mut GenericPatriciaMap<Q::Owned, u32>, key: Q, other: Q)
    ensures absent { map.contains_key m.old (Q.key key) ≡ false → m.new ≡ m.old }
    ensures there { map.contains_key m.old (Q.key key) ≡ true
        → (m.new ≡ map.insert (map.insert m.old (Q.key key) 1) (Q.key other) 2)
        ⊎ (m.new ≡ map.insert m.old (Q.key key) 1) }
{
    let Some(place) = m.get_mut(key) else {
        return;
    };
    *place = 1;
    drop(m.insert(other, 2));
    // refused: *place = 3;
}

/// A value that `next` of a cursor lends is not written after the next step.
pub fn past_next<K: Bytes>(map: &mut GenericPatriciaMap<K, u32>) -> Result<(), AllocError> {
    let mut cursor = map.values_mut();
    let Some(place) = cursor.next()? else {
        return Ok(());
    };
    *place = 1;
    cursor.advance()?;
    // refused: *place = 3;
    Ok(())
}

/// A map is not changed while a cursor over it lives.
pub fn under_cursor<K: Bytes>(m: &mut GenericPatriciaMap<K, u32>) -> Result<(), AllocError>
    ensures { m.new ≡ m.old }
{
    let mut cursor = m.values_mut();
    // refused: m.clear();
    cursor.advance()?;
    Ok(())
}
