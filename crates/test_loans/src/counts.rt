//! How many steps look-ups take, known from the maps' contracts and the laws alone: in maps of the
//! same keys as many, whatever the order in which these were inserted.
ghost use Rattle.std.specs.Prelude.{◌≡◌, ◌+◌, ◌<◌, [], IfOk};
ghost use Rattle.std.specs.FinMap as finite;
ghost use Rattle.patricia_core.specs.ThreeKeys.{three_keys, baz, foo, aaa};

use patricia_core::laws;
use patricia_tree::{PatriciaMap, Steps};
use std::alloc::{AllocError, Global};
use std::sync::ledger::Ledger;

/// The map with this key inserted.
pub fn with(
    mut map: PatriciaMap<u32>,
    key: &[u8],
    value: u32,
) -> Result<PatriciaMap<u32>, AllocError>
    ensures { IfOk result (λ m. m ≡ finite.insert map key.now value) }
{
    match map.insert(key, value) {
        Ok(_) => Ok(map),
        Err(_) => Err(AllocError),
    }
}

/// The keys foo, bar and baz, inserted in this order.
pub fn foo_first(alloc: Global) -> Result<PatriciaMap<u32>, AllocError>
    ensures { IfOk result (λ m. finite.keys m ≡ three_keys) }
{
    let one = with(PatriciaMap::new(alloc), b"foo", 1)?;
    let two = with(one, b"bar", 2)?;
    with(two, b"baz", 3)
}

/// The same keys, inserted in another order.
pub fn baz_first(alloc: Global) -> Result<PatriciaMap<u32>, AllocError>
    ensures { IfOk result (λ m. finite.keys m ≡ three_keys) }
{
    let one = with(PatriciaMap::new(alloc), b"baz", 3)?;
    let two = with(one, b"bar", 2)?;
    with(two, b"foo", 1)
}

/// Whether the key is there. How many steps that takes depends on the keys of the map alone.
pub fn looks_up<L: Ledger>(map: &PatriciaMap<u32>, key: &[u8], steps: &mut Steps<L>) -> bool
    requires keys { finite.keys map.now ≡ three_keys }
    ensures through { key.now ≡ baz → steps.new ≡ steps.old + 4 }
    ensures beside { key.now ≡ foo → steps.new ≡ steps.old + 3 }
    ensures before { key.now ≡ aaa → steps.new ≡ steps.old + 2 }
    ensures root { key.now ≡ [] → steps.new ≡ steps.old + 1 }
{
    laws::one_visit_count::<Vec<u8>>();
    laws::three_keys_visits();
    map.get_counted(key, steps).is_some()
}

/// Looks baz up in two maps of the same keys: four steps in each.
pub fn looks_up_in_both<L: Ledger>(alloc: Global, steps: &mut Steps<L>) -> Result<bool, AllocError>
    ensures { IfOk result (λ _. steps.new ≡ steps.old + 8) }
{
    let first = foo_first(alloc)?;
    let second = baz_first(alloc)?;
    let is_in_first = looks_up(&first, b"baz", steps);
    Ok(looks_up(&second, b"baz", steps) && is_in_first)
}
