//! Taking the first or the last entry out.
ghost use Rattle.std.specs.Prelude.{◌≡◌, ◌≢◌, ℕ, List, [], Some, IfOk, OnOk, OnErr};
ghost use Rattle.std.specs.FinMap.{find};
ghost use Rattle.std.specs.Map.Iter.{TakesFirst, TakesLast};
ghost use Rattle.std.specs.Option.{option_map};
ghost use Rattle.patricia_keys.specs.Keys.{key_cmp, IsValid};
ghost use Rattle.patricia_model.specs.Points.{Joins};
ghost use Rattle.patricia_model.specs.Siblings.{IsCanonical, keys_of};
ghost use Rattle.patricia_nodes.specs.Internal.Plans.{IsWellFormed, siblings_of, entries_of};
ghost use Rattle.patricia_nodes.specs.Internal.Writes.{Stays};
ghost use Rattle.patricia_edits.specs.Internal.Ends.{IsFirstKey, IsLastKey};
ghost use Rattle.patricia_edits.specs.Internal.Removes.{IsPlaceOf, Removes};

use crate::removal::{Linked, remove_at};
use patricia_keys::Bytes;
use patricia_nodes::arena::NodeArena;
use patricia_nodes::arena::seek::LinkRef;
use patricia_nodes::link::NodeId;
use patricia_nodes::path::{extend_by_label, new_path};
use std::alloc::{AllocError, Global};

// The node of the first entry, whose key is then the path: the first node with a value, along first
// children.
fn find_first<K: Bytes, V>(
    arena: &NodeArena<V>,
    path: &mut Vec<u8>,
    first: NodeId,
) -> Result<Linked, AllocError>
    requires whole { IsWellFormed arena.now }
    requires siblings { IsCanonical K.item (siblings_of arena.now) }
    requires root { arena.now.root ≡ Some first }
    requires empty { path.old.items ≡ [] }
    ensures place { IfOk result (λ at.
        IsPlaceOf K.item arena.now path.new.items at.link_ref at.id) }
    ensures valid { OnOk result (IsValid K.item path.new.items) }
    ensures first { OnOk result (IsFirstKey (entries_of arena.now) path.new.items) }
{
    let mut at = Linked {
        link_ref: LinkRef::Root,
        id: first,
    };
    loop {
        extend_by_label::<K, V>(path, &arena.nodes, at.id)?;
        if arena.nodes.value(at.id).is_some() {
            return Ok(at);
        }
        match arena.nodes.child(at.id).get() {
            Some(child) => {
                at = Linked {
                    link_ref: LinkRef::Child(at.id),
                    id: child,
                };
            }
            None => unreachable!(),
        }
    }
}

// The node of the last entry, whose key is then the path: a node without children, along last
// siblings. Those that lie behind one another are passed by their heads alone.
fn find_last<K: Bytes, V>(
    arena: &NodeArena<V>,
    path: &mut Vec<u8>,
    first: NodeId,
) -> Result<Linked, AllocError>
    requires whole { IsWellFormed arena.now }
    requires siblings { IsCanonical K.item (siblings_of arena.now) }
    requires root { arena.now.root ≡ Some first }
    requires empty { path.old.items ≡ [] }
    ensures place { IfOk result (λ last.
        IsPlaceOf K.item arena.now path.new.items last.link_ref last.id) }
    ensures valid { OnOk result (IsValid K.item path.new.items) }
    ensures last { OnOk result (IsLastKey (entries_of arena.now) path.new.items) }
{
    let mut last = Linked {
        link_ref: LinkRef::Root,
        id: first,
    };
    loop {
        let id = arena.nodes.run(last.id, u8::MAX);
        let link_ref = last.link_ref.behind(last.id, id);
        if let Some(next) = arena.nodes.sibling(id).get() {
            last = Linked {
                link_ref: LinkRef::Sibling(id, link_ref.above()),
                id: next,
            };
            continue;
        }
        extend_by_label::<K, V>(path, &arena.nodes, id)?;
        match arena.nodes.child(id).get() {
            Some(child) => {
                last = Linked {
                    link_ref: LinkRef::Child(id),
                    id: child,
                };
            }
            None => return Ok(Linked { link_ref, id }),
        }
    }
}

// Takes the entry of a key out, whose node is linked so. The error is out of memory for a joined
// label.
fn take_at<K: Bytes, V: Drop>(
    arena: &mut NodeArena<V>,
    key: K,
    at: &Linked,
) -> Result<Option<(K, V)>, AllocError>
    requires whole { IsWellFormed arena.old }
    requires siblings { IsCanonical K.item (siblings_of arena.old) }
    requires place { IsPlaceOf K.item arena.old (K.key key) at.now.link_ref at.now.id }
    ensures entry { IfOk result (λ entry. option_map (λ e. (K.key e.0, e.1)) entry
        ≡ option_map {U = List ℕ × V} (λ v. (K.key key, v))
        (find key_cmp (K.key key) (entries_of arena.old))) }
    ensures left { OnOk result (Removes K.item arena.old arena.new (K.key key)) }
    ensures unchanged { OnErr result (Stays arena.old arena.new) }
    ensures joins { OnErr result (Joins K.item (keys_of (entries_of arena.old)) (K.key key)) }
{
    match remove_at::<K, V>(arena, at)? {
        Some(value) => Ok(Some((key, value))),
        None => Ok(None),
    }
}

/// Takes the first entry out, or returns `None` where there is none. The error is out of memory for
/// the key, or for a joined label.
///
/// One descent.
pub fn remove_first<K: Bytes, V: Drop>(
    arena: &mut NodeArena<V>,
    alloc: Global,
) -> Result<Option<(K, V)>, AllocError>
    requires whole { IsWellFormed arena.old }
    requires siblings { IsCanonical K.item (siblings_of arena.old) }
    ensures whole { IsWellFormed arena.new }
    ensures siblings { IsCanonical K.item (siblings_of arena.new) }
    ensures taken { IfOk result (λ entry. TakesFirst (λ e. (K.key e.0, e.1))
        (entries_of arena.old) entry (entries_of arena.new)) }
    ensures unchanged { OnErr result (siblings_of arena.new ≡ siblings_of arena.old) }
    ensures err_only_nonempty { OnErr result (entries_of arena.old ≢ []) }
{
    let Some(first) = arena.root.get() else {
        return Ok(None);
    };
    let mut path = new_path(alloc)?;
    let at = find_first::<K, V>(arena, &mut path, first)?;
    let key = K::from_bytes(alloc, &path)?;
    take_at(arena, key, &at)
}

/// Takes the last entry out, or returns `None` where there is none. The error is out of memory for
/// the key, or for a joined label.
///
/// One descent, along last siblings.
pub fn remove_last<K: Bytes, V: Drop>(
    arena: &mut NodeArena<V>,
    alloc: Global,
) -> Result<Option<(K, V)>, AllocError>
    requires whole { IsWellFormed arena.old }
    requires siblings { IsCanonical K.item (siblings_of arena.old) }
    ensures whole { IsWellFormed arena.new }
    ensures siblings { IsCanonical K.item (siblings_of arena.new) }
    ensures taken { IfOk result (λ entry. TakesLast (λ e. (K.key e.0, e.1))
        (entries_of arena.old) entry (entries_of arena.new)) }
    ensures unchanged { OnErr result (siblings_of arena.new ≡ siblings_of arena.old) }
    ensures err_only_nonempty { OnErr result (entries_of arena.old ≢ []) }
{
    let Some(first) = arena.root.get() else {
        return Ok(None);
    };
    let mut path = new_path(alloc)?;
    let at = find_last::<K, V>(arena, &mut path, first)?;
    let key = K::from_bytes(alloc, &path)?;
    take_at(arena, key, &at)
}
