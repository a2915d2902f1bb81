//! Items that are laid in another order where they are, most of which are in that order already.
//!
//! Those that are not, the strays, go to the room behind the items. The others are moved together,
//! and then all are put to their places from the last one on. So only strays are read out of order.
ghost use Rattle.std.specs.Prelude.{◌≡◌, ℕ, ◌+◌, ◌^◌, ◌≤◌, List, length};
ghost use Rattle.patricia_store.specs.Internal.Permutations.{AreNumbers, Gathers, strays};
ghost use Rattle.patricia_store.specs.Internal.Permutations.{ArePutOut, AreTogether};

use crate::memory::give_back;

/// How many numbers of an order are strays: those that do not rise above the ones before that are
/// none, or are no less than `settled`.
pub fn count_strays(order: &[u32], settled: usize) -> usize
    ensures { result ≡ strays settled 0 order.now }
{
    let mut next = 0;
    let mut count = 0;
    let mut i = 0;
    while i < order.len() {
        let id = order[i] as usize;
        if next <= id && id < settled {
            next = id + 1;
        } else {
            count += 1;
        }
        i += 1;
    }
    count
}

// Puts strays behind the first `n` items, and notes in the order where they are.
fn put_out<T>(items: &mut [T], order: &mut Vec<u32>, n: usize, settled: usize)
    requires numbers { AreNumbers n order.old.items }
    requires room { n + strays settled 0 order.old.items ≤ length items.old }
    requires few { length items.old ≤ 2 ^ 32 }
    ensures { ArePutOut n order.old.items items.old order.new.items items.new }
{
    let mut next = 0;
    let mut to = n;
    let mut i = 0;
    while i < order.len() {
        let id = order[i] as usize;
        if next <= id && id < settled {
            next = id + 1;
        } else {
            items.swap(id, to);
            order[i] = to as u32;
            to += 1;
        }
        i += 1;
    }
}

// Moves those that are no strays together at the front, and notes where they are.
fn move_together<T>(items: &mut [T], order: &mut Vec<u32>, n: usize)
    requires out { (start : List ℕ) × (old : List T)
        × ArePutOut n start old order.old.items items.old }
    ensures { (start : List ℕ) → (old : List T) → ArePutOut n start old order.old.items items.old
        → AreTogether n start old order.new.items items.new }
{
    let mut to = 0;
    let mut i = 0;
    while i < order.len() {
        let at = order[i] as usize;
        if at < n {
            items.swap(at, to);
            order[i] = to as u32;
            to += 1;
        }
        i += 1;
    }
}

/// Puts items in this order at the front. The numbers are below `n`, and behind that there is room
/// for the strays. What stands behind the items is of no use afterwards. Does not allocate.
pub fn interleave<T>(items: &mut [T], mut order: Vec<u32>, n: usize, settled: usize)
    requires numbers { AreNumbers n order.items }
    requires short { length order.items ≤ n }
    requires room { n + strays settled 0 order.items ≤ length items.old }
    requires few { length items.old ≤ 2 ^ 32 }
    ensures { Gathers order.items items.old items.new }
{
    put_out(items, &mut order, n, settled);
    move_together(items, &mut order, n);
    let mut i = order.len();
    while i > 0 {
        i -= 1;
        items.swap(order[i] as usize, i);
    }
    give_back(order);
}
