//! The first entry.
ghost use Rattle.std.specs.Prelude.{◌≡◌, ◌≢◌, ◌++◌, [], Some, IfOk, OnOk, OnErr, slice_get};
ghost use Rattle.std.specs.Option.{option_copied, option_map};
ghost use Rattle.patricia_keys.specs.Keys.{IsValid};
ghost use Rattle.patricia_model.specs.Siblings.{own, prefixed, entries, IsCanonical};
ghost use Rattle.patricia_nodes.specs.Internal.Plans.{IsWellFormed, siblings_of, entries_of};
ghost use Rattle.patricia_nodes.specs.Internal.Plans.{siblings_at};
ghost use Rattle.patricia_walks.specs.Internal.Lowers.{AreSiblingsAt};

use patricia_keys::Bytes;
use patricia_nodes::arena::NodeArena;
use patricia_nodes::link::NodeId;
use patricia_nodes::path::{extend_by_label, new_path};
use std::alloc::{AllocError, Global};

// The first value of siblings and of what is below them, whose key is then the path: that of the
// first node with a value, along first children.
fn first_below<'a, K: Bytes, V>(
    arena: &'a NodeArena<V>,
    path: &mut Vec<u8>,
    top: NodeId,
) -> Result<&'a V, AllocError>
    requires siblings { AreSiblingsAt K.item arena.now.nodes.items (Some top) }
    requires valid { IsValid K.item path.old.items }
    ensures first { IfOk result (λ v.
        slice_get (prefixed path.old.items
        (entries (siblings_at arena.now.nodes.items (Some top)))) 0
        ≡ Some (path.new.items, v.now)) }
    ensures valid { OnOk result (IsValid K.item path.new.items) }
{
    let mut id = top;
    loop {
        extend_by_label::<K, V>(path, &arena.nodes, id)?;
        if let Some(value) = arena.nodes.value(id) {
            return Ok(value);
        }
        match arena.nodes.child(id).get() {
            Some(child) => id = child,
            None => unreachable!(),
        }
    }
}

/// The first entry. The error is out of memory, and never comes where there is none.
///
/// One descent, along first children.
pub fn first<'a, K: Bytes, V>(
    alloc: Global,
    pending: Option<&'a V>,
    arena: &'a NodeArena<V>,
) -> Result<Option<(K, &'a V)>, AllocError>
    requires whole { IsWellFormed arena.now }
    requires siblings { IsCanonical K.item (siblings_of arena.now) }
    ensures entry { IfOk result (λ entry. option_map (λ e. (K.key e.0, e.1.now)) entry
        ≡ slice_get (own (option_copied pending.entry) ++ entries_of arena.now) 0) }
    ensures err_only_nonempty { OnErr result
        (own (option_copied pending.entry) ++ entries_of arena.now ≢ []) }
{
    if let Some(value) = pending {
        return Ok(Some((K::from_bytes(alloc, &[])?, value)));
    }
    let Some(top) = arena.root.get() else {
        return Ok(None);
    };
    let mut path = new_path(alloc)?;
    let value = first_below::<K, V>(arena, &mut path, top)?;
    Ok(Some((K::from_bytes(alloc, &path)?, value)))
}
