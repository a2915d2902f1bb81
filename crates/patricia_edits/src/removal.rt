//! Taking a key out.
ghost use Rattle.std.specs.Prelude.{◌≡◌, ◌≢◌, [], IfOk, IfSome, OnOk, OnErr};
ghost use Rattle.std.specs.FinMap.{find};
ghost use Rattle.patricia_keys.specs.Keys.{key_cmp};
ghost use Rattle.patricia_model.specs.Points.{Joins};
ghost use Rattle.patricia_model.specs.Internal.Removals.{others};
ghost use Rattle.patricia_model.specs.Siblings.{IsCanonical, keys_of};
ghost use Rattle.patricia_nodes.specs.Internal.Plans.{IsWellFormed, siblings_of, entries_of};
ghost use Rattle.patricia_nodes.specs.Internal.Trails.{IsTrail};
ghost use Rattle.patricia_nodes.specs.Internal.Writes.{Stays};
ghost use Rattle.patricia_edits.specs.Internal.Removes.{IsLeaf, IsValued, HasValue, ReadyAt};
ghost use Rattle.patricia_edits.specs.Internal.Removes.{RemovesAt, JoinsAt, KeepsAboveAt};
ghost use Rattle.patricia_edits.specs.Internal.Removes.{IsCutBefore, LeavesAboveAt};

use patricia_keys::{BorrowedBytes, Bytes};
use patricia_nodes::arena::NodeArena;
use patricia_nodes::arena::seek::LinkRef;
use patricia_nodes::link::NodeId;
use std::alloc::AllocError;

// A node, and where its number stands.
#[derive(Clone, Copy)]
pub struct Linked {
    pub link_ref: LinkRef,
    pub id: NodeId,
}

// What a removal took out, and whether the node above has taken in its other child.
#[derive(Drop)]
pub struct Removed<V> {
    pub value: Option<V>,
    pub joined_above: bool,
}

// Takes a leaf out. The node above takes in its other child, where that would be alone.
fn remove_leaf<K: Bytes, V: Drop>(
    arena: &mut NodeArena<V>,
    at: &Linked,
) -> Result<Removed<V>, AllocError>
    requires ready { ReadyAt K.item arena.old at.now.link_ref at.now.id }
    requires leaf { IsLeaf arena.old at.now.id }
    requires valued { IsValued arena.old at.now.id }
    ensures ok { OnOk result (RemovesAt K.item arena.old arena.new at.now.link_ref at.now.id) }
    ensures value { IfOk result (λ removed. HasValue arena.old at.now.id removed.value) }
    ensures unchanged { OnErr result (Stays arena.old arena.new) }
    ensures joins { OnErr result (JoinsAt K.item arena.old at.now.link_ref at.now.id) }
    ensures around { IfOk result (λ removed. LeavesAboveAt K.item arena.old arena.new
        at.now.link_ref at.now.id removed.joined_above) }
{
    let Some(alone) = arena.would_merge::<K>(at.link_ref, at.id) else {
        return Ok(Removed {
            value: arena.unlink(at.link_ref, at.id),
            joined_above: false,
        });
    };
    arena.reserve_joined(alone.0, alone.1)?;
    let taken = arena.unlink(at.link_ref, at.id);
    let _none = arena.merge_only_child(alone.0, alone.1);
    Ok(Removed {
        value: taken,
        joined_above: true,
    })
}

// Takes the value out of the node of a key, which is linked so. There is room for the joined label
// before anything is changed.
pub fn remove_linked<K: Bytes, V: Drop>(
    arena: &mut NodeArena<V>,
    at: &Linked,
) -> Result<Removed<V>, AllocError>
    requires ready { ReadyAt K.item arena.old at.now.link_ref at.now.id }
    ensures ok { OnOk result (RemovesAt K.item arena.old arena.new at.now.link_ref at.now.id) }
    ensures value { IfOk result (λ removed. HasValue arena.old at.now.id removed.value) }
    ensures unchanged { OnErr result (Stays arena.old arena.new) }
    ensures joins { OnErr result (JoinsAt K.item arena.old at.now.link_ref at.now.id) }
    ensures around { IfOk result (λ removed. LeavesAboveAt K.item arena.old arena.new
        at.now.link_ref at.now.id removed.joined_above) }
{
    if arena.nodes.value(at.id).is_none() {
        return Ok(Removed {
            value: None,
            joined_above: false,
        });
    }
    let Some(child) = arena.nodes.child(at.id).get() else {
        return remove_leaf::<K, V>(arena, at);
    };
    if arena.nodes.sibling(child).get().is_some() {
        return Ok(Removed {
            value: arena.nodes.replace_value(at.id, None),
            joined_above: false,
        });
    }
    arena.reserve_joined(at.id, child)?;
    Ok(Removed {
        value: arena.merge_only_child(at.id, child),
        joined_above: false,
    })
}

// The same, and returns the value alone.
pub fn remove_at<K: Bytes, V: Drop>(
    arena: &mut NodeArena<V>,
    at: &Linked,
) -> Result<Option<V>, AllocError>
    requires ready { ReadyAt K.item arena.old at.now.link_ref at.now.id }
    ensures ok { OnOk result (RemovesAt K.item arena.old arena.new at.now.link_ref at.now.id) }
    ensures value { IfOk result (λ taken. HasValue arena.old at.now.id taken) }
    ensures unchanged { OnErr result (Stays arena.old arena.new) }
    ensures joins { OnErr result (JoinsAt K.item arena.old at.now.link_ref at.now.id) }
    ensures around { OnOk result
        (KeepsAboveAt K.item arena.old arena.new at.now.link_ref at.now.id) }
{
    let removed = remove_linked::<K, V>(arena, at)?;
    Ok(removed.value)
}

/// Takes the value out at a nonempty key, or returns `None`.
pub fn remove<V: Drop, Q: BorrowedBytes>(
    arena: &mut NodeArena<V>,
    key: Q,
) -> Result<Option<V>, AllocError>
    requires whole { IsWellFormed arena.old }
    requires siblings { IsCanonical Q.Owned.item (siblings_of arena.old) }
    requires nonempty { Q.key key ≢ [] }
    ensures whole { IsWellFormed arena.new }
    ensures siblings { IsCanonical Q.Owned.item (siblings_of arena.new) }
    ensures old { IfOk result (λ old. old ≡ find key_cmp (Q.key key) (entries_of arena.old)) }
    ensures ok { OnOk result (entries_of arena.new ≡ others (Q.key key) (entries_of arena.old)) }
    ensures unchanged { OnErr result (siblings_of arena.new ≡ siblings_of arena.old) }
    ensures joins { OnErr result (
        Joins Q.Owned.item (keys_of (entries_of arena.old)) (Q.key key)) }
{
    let place = arena.seek(key);
    match place.here() {
        Some(id) => {
            let at = Linked {
                link_ref: place.link_ref,
                id,
            };
            remove_at::<Q::Owned, V>(arena, &at)
        }
        None => Ok(None),
    }
}

// Keeps of a trail the places whose paths end before so many bytes.
fn cut_before(trail: &mut Vec<(LinkRef, usize)>, len: usize)
    ensures { IsCutBefore len trail.old.items trail.new.items }
{
    while let Some((_, end)) = trail.last() {
        if *end < len {
            return;
        }
        trail.pop();
    }
}

/// Takes the value out at a nonempty key, or returns `None`. The look-up goes on from the trail of
/// the last key, and the trail is that of this key then. Where a leaf goes, the trail ends above
/// its parent, which may have taken in its other child.
pub fn remove_along<V: Drop, Q: BorrowedBytes>(
    arena: &mut NodeArena<V>,
    trail: &mut Vec<(LinkRef, usize)>,
    last: Option<Q>,
    key: Q,
) -> Result<Option<V>, AllocError>
    requires whole { IsWellFormed arena.old }
    requires siblings { IsCanonical Q.Owned.item (siblings_of arena.old) }
    requires nonempty { Q.key key ≢ [] }
    requires trail { IfSome last (λ last.
        IsTrail Q.Owned.item arena.old (Q.key last) trail.old.items) }
    ensures whole { IsWellFormed arena.new }
    ensures siblings { IsCanonical Q.Owned.item (siblings_of arena.new) }
    ensures old { IfOk result (λ old. old ≡ find key_cmp (Q.key key) (entries_of arena.old)) }
    ensures ok { OnOk result (entries_of arena.new ≡ others (Q.key key) (entries_of arena.old)) }
    ensures unchanged { OnErr result (siblings_of arena.new ≡ siblings_of arena.old) }
    ensures joins { OnErr result (
        Joins Q.Owned.item (keys_of (entries_of arena.old)) (Q.key key)) }
    ensures trail { IsTrail Q.Owned.item arena.new (Q.key key) trail.new.items }
{
    let place = arena.seek_along(trail, last, key);
    let Some(id) = place.here() else {
        return Ok(None);
    };
    let at = Linked {
        link_ref: place.link_ref,
        id,
    };
    let child = arena.nodes.child(id).get();
    let passed = key.as_bytes().len() - place.rest.as_bytes().len();
    let taken = remove_at::<Q::Owned, V>(arena, &at)?;
    if child.is_some() {
        return Ok(taken);
    }
    cut_before(trail, passed);
    Ok(taken)
}
