//! Many look-ups at once in maps that handles share.
ghost use Rattle.std.specs.Prelude.{◌≡◌};
ghost use Rattle.std.specs.FinMap as map;
ghost use Rattle.patricia_c.specs.Many.{AnswersLongest, AnswersMany};
ghost use Rattle.patricia_c.specs.Shared.{shared_of};

use crate::many::{get_many, longest_prefix_many};
use crate::shared_place::SharedPlace;

/// Answers as `patricia_get_many` does.
#[unsafe(no_mangle)]
pub extern "C" fn patricia_shared_get_many(
    shared: &mut SharedPlace,
    keys: &[u8],
    lens: &[usize],
    values: &mut [u64],
    found: &mut [u8],
) -> u32
    ensures same { shared.new ≡ shared.old }
    ensures answers { AnswersMany (map.get (shared_of shared.old.pointer.stored)) keys.now lens.now
        result values.old found.old values.new found.new }
{
    get_many(shared.stored(), keys, lens, values, found)
}

/// Answers as `patricia_longest_prefix_many` does.
#[unsafe(no_mangle)]
pub extern "C" fn patricia_shared_longest_prefix_many(
    shared: &mut SharedPlace,
    keys: &[u8],
    lens: &[usize],
    prefix_lens: &mut [usize],
    values: &mut [u64],
    found: &mut [u8],
) -> u32
    ensures same { shared.new ≡ shared.old }
    ensures answers { AnswersLongest (map.entries (shared_of shared.old.pointer.stored))
        keys.now lens.now result prefix_lens.old values.old found.old
        prefix_lens.new values.new found.new }
{
    longest_prefix_many(shared.stored(), keys, lens, prefix_lens, values, found)
}
