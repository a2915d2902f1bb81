//! The siblings that wait while a walk is below a node beside which they stand.
ghost use Rattle.std.specs.Prelude.{◌≡◌, OnOk, OnErr};
ghost use Rattle.patricia_walks.specs.Internal.Positions.{with_siblings};

use patricia_nodes::link::Link;
use std::alloc::AllocError;

// For how many there is room at first, which is for all of most trees.
const ROOM: usize = 16;

/// Lets siblings wait behind so many bytes of the path, where there are any.
#[inline(always)]
pub fn push_siblings(
    stack: &mut Vec<(usize, Link)>,
    front: usize,
    siblings: Link,
) -> Result<(), AllocError>
    ensures items { OnOk result (stack.new.items ≡ with_siblings stack.old.items front siblings) }
    ensures same { OnErr result (stack.new.items ≡ stack.old.items) }
{
    if siblings.get().is_none() {
        return Ok(());
    }
    if stack.capacity() == 0 {
        stack.reserve(ROOM)?;
    }
    stack.push((front, siblings))?;
    Ok(())
}
