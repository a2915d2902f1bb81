//! The calls on maps that handles share which ask which keys and a key begin alike.
ghost use Rattle.std.specs.Prelude.{◌≡◌, ◌+◌, ◌<◌, length, Any};
ghost use Rattle.std.specs.FinMap as map;
ghost use Rattle.patricia_tree.specs.ByteKind.{IsByteItem};
ghost use Rattle.patricia_tree.specs.Prefixes.{IsReach, longest, under};
ghost use Rattle.patricia_c.specs.Maps.{WritesCount, WritesLength};
ghost use Rattle.patricia_c.specs.Shared.{shared_of};

use crate::prefixes::{count_to, longest_to, reach_of};
use crate::shared_place::SharedPlace;

/// Answers as `patricia_longest_prefix` does.
#[unsafe(no_mangle)]
pub extern "C" fn patricia_shared_longest_prefix(
    shared: &mut SharedPlace,
    key: &[u8],
    len: &mut usize,
    value: &mut u64,
) -> bool
    ensures same { shared.new ≡ shared.old }
    ensures longest { WritesLength
        (longest key.now (map.entries (shared_of shared.old.pointer.stored)))
        result len.old value.old len.new value.new }
{
    longest_to(shared.stored(), key, len, value)
}

/// Answers as `patricia_longest_common_prefix_len` does.
#[unsafe(no_mangle)]
pub extern "C" fn patricia_shared_longest_common_prefix_len(
    shared: &mut SharedPlace,
    key: &[u8],
) -> usize
    ensures same { shared.new ≡ shared.old }
    ensures reach { IsReach IsByteItem (map.keys (shared_of shared.old.pointer.stored))
        key.now result }
{
    reach_of(shared.stored(), key)
}

/// Answers as `patricia_count_prefix` does.
#[unsafe(no_mangle)]
pub extern "C" fn patricia_shared_count_prefix(
    shared: &mut SharedPlace,
    prefix: &[u8],
    count: &mut usize,
) -> u32
    ensures same { shared.new ≡ shared.old }
    ensures count { WritesCount
        (under prefix.now (map.entries (shared_of shared.old.pointer.stored)))
        result count.old count.new }
    ensures refused_only_long { result ≡ 2 → Any (λ e. length prefix.now + 64 < length e.0)
        (under prefix.now (map.entries (shared_of shared.old.pointer.stored))) }
{
    count_to(shared.stored(), prefix, count)
}
