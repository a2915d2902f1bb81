//! Putting a value in at a key.
ghost use Rattle.std.specs.Prelude.{◌≡◌, ◌≢◌, ◌≤◌, ◌<◌, ◌+◌, ℕ, List, [], Some, None, drop};
ghost use Rattle.std.specs.Prelude.{IfOk, OnOk, IfErr, IfSome, OnErr, length};
ghost use Rattle.std.specs.FinMap.{find};
ghost use Rattle.patricia_keys.specs.Keys.{key_cmp};
ghost use Rattle.patricia_model.specs.Siblings.{IsCanonical};
ghost use Rattle.patricia_nodes.specs.declared.arena.seek.LinkRef.{LinkRef};
ghost use Rattle.patricia_nodes.specs.declared.arena.seek.LinkRef.TheVariants.{Child, Sibling};
ghost use Rattle.patricia_nodes.specs.declared.arena.seek.Match.TheVariants.{Absent, InsideLabel};
ghost use Rattle.patricia_store.specs.Internal.Labels.{label_room, cut_room};
ghost use Rattle.patricia_nodes.specs.Internal.Loans.{HasValueNode, with_value};
ghost use Rattle.patricia_nodes.specs.Internal.NodeVecs.{ReadsNode};
ghost use Rattle.patricia_nodes.specs.Internal.Plans.{linked, IsWellFormed, siblings_of};
ghost use Rattle.patricia_nodes.specs.Internal.Plans.{entries_of};
ghost use Rattle.patricia_nodes.specs.Internal.Places.{node_of, IsSeekResult};
ghost use Rattle.patricia_nodes.specs.Internal.Trails.{IsTrail, IsPlaceBehind};
ghost use Rattle.patricia_nodes.specs.Internal.Writes.{HasRoomFor, Reuses, HasLinkRef, Ready};
ghost use Rattle.patricia_nodes.specs.Internal.Writes.{IsPut, IsWithin};
ghost use Rattle.patricia_edits.specs.Internal.Inserts.{MakesNode, AddsNode, AddsLeaf, HasCell};
ghost use Rattle.patricia_edits.specs.Internal.Inserts.{SplitsNode, FindsAt, PutsAt};
ghost use Rattle.patricia_edits.specs.Internal.Inserts.{HasRoomToPut};

use patricia_keys::{BorrowedBytes, Bytes};
use patricia_nodes::arena::seek::{LinkRef, Match, SeekResult};
use patricia_nodes::arena::{NodeArena, Refused};
use patricia_nodes::link::{Link, NodeId};
use std::alloc::Global;
use std::cmp::Ordering;

/// What follows the first bytes.
pub fn behind(bytes: &[u8], n: usize) -> &[u8]
    requires { n ≤ length bytes.now }
    ensures { result.now ≡ drop n bytes.now }
{
    &bytes[n..]
}

// How many bytes of labels there is to be room for, where so many bytes of a key become the label
// of a leaf beside a label that is cut: the bytes, 12 for their note, and 24 for those of the
// label's parts. `None` where that is more than a number can say.
fn needed_bytes(rest: usize) -> Option<usize>
    ensures { IfSome result (λ bytes.
        (n : ℕ) → label_room rest + cut_room n ≤ bytes) }
{
    rest.checked_add(36)
}

// Puts a node into a free slot, or behind the last.
fn make<V: Drop>(
    arena: &mut NodeArena<V>,
    label: &[u8],
    value: Option<V>,
    child: Link,
    sibling: Link,
) -> NodeId
    requires room { HasRoomFor arena.old 1 (label_room (length label.now)) }
    requires child { IsWithin child (length arena.old.nodes.items) }
    requires sibling { IsWithin sibling (length arena.old.nodes.items) }
    ensures makes { MakesNode arena.old arena.new (linked label.now value child sibling) result }
    ensures reuses { Reuses arena.old arena.new }
    ensures within { result < length arena.new.nodes.items }
    ensures keeps { length arena.old.nodes.items ≤ length arena.new.nodes.items }
    ensures capacity { arena.new.nodes.capacity ≡ arena.old.nodes.capacity }
    ensures bytes { arena.old.nodes.room
        ≤ arena.new.nodes.room + label_room (length label.now) }
{
    arena.edits = arena.edits.saturating_add(1);
    match arena.free.get() {
        None => {
            let id = NodeId::new(arena.nodes.len());
            arena.nodes.push_reserved(label, value, child, sibling);
            id
        }
        Some(id) => {
            arena.free = arena.nodes.sibling(id);
            let _none = arena.nodes.replace_contents(id, label, child, value);
            arena.nodes.set_sibling(id, sibling);
            id
        }
    }
}

// Links a new leaf in. Its sibling is the node to which the link led.
fn add<V: Drop>(
    arena: &mut NodeArena<V>,
    link_ref: LinkRef,
    label: &[u8],
    value: V,
    sibling: Link,
) -> NodeId
    requires room { HasRoomFor arena.old 1 (label_room (length label.now)) }
    requires link_ref { HasLinkRef arena.old link_ref }
    requires sibling { IsWithin sibling (length arena.old.nodes.items) }
    ensures adds { AddsNode arena.old arena.new link_ref
        (linked label.now (Some value) None sibling) result }
    ensures reuses { Reuses arena.old arena.new }
{
    let id = make(arena, label, Some(value), Link::none(), sibling);
    // for the proof alone: there are no more nodes than links can say
    let _few = arena.nodes.len();
    arena.relink(link_ref, Link::some(id));
    id
}

// Cuts the label of a node. The rest of it, its value and its children go to a new node below it.
fn split<V: Drop>(arena: &mut NodeArena<V>, id: NodeId, n: usize, value: Option<V>) -> NodeId
    requires room { ReadsNode arena.old.nodes id
        (λ a. HasRoomFor arena.old 1 (cut_room (length a.label))) }
    requires cell { HasCell arena.old id }
    ensures splits { SplitsNode arena.old arena.new id n value result }
    ensures reuses { Reuses arena.old arena.new }
    ensures within { result < length arena.new.nodes.items }
{
    let tail = make(arena, &[], None, Link::none(), Link::none());
    let _none = arena.nodes.split_label(id, n, tail, value);
    tail
}

// Puts a leaf in below a node: before its only child, or behind it.
fn add_leaf<V: Drop>(
    arena: &mut NodeArena<V>,
    upper: NodeId,
    lower: NodeId,
    order: Ordering,
    label: &[u8],
    value: V,
) -> NodeId
    requires room { HasRoomFor arena.old 1 (label_room (length label.now)) }
    requires within { lower < length arena.old.nodes.items }
    requires before { HasLinkRef arena.old (Child upper) }
    requires behind { HasLinkRef arena.old (Sibling lower (Some upper)) }
    ensures adds { AddsLeaf arena.old arena.new upper lower order label.now value result }
    ensures reuses { Reuses arena.old arena.new }
{
    // for the proof alone: there are no more nodes than links can say
    let _few = arena.nodes.len();
    match order {
        Ordering::Less => add(
            arena,
            LinkRef::Child(upper),
            label,
            value,
            Link::some(lower),
        ),
        _ => {
            let behind = LinkRef::Sibling(lower, Some(upper));
            add(arena, behind, label, value, Link::none())
        }
    }
}

// Inserts a key that comes between two nodes, or where there is none.
fn insert_first<V: Drop, Q: BorrowedBytes>(
    arena: &mut NodeArena<V>,
    place: &SeekResult<Q>,
    value: V,
)
    requires ready { Ready Q.Owned.item Q.key arena.old place.now }
    requires gap { place.now.matched ≡ Absent }
    requires room { HasRoomToPut arena.old (Q.key place.now.rest) }
    ensures puts { PutsAt Q.Owned.item Q.key arena.old arena.new place.now value }
    ensures reuses { Reuses arena.old arena.new }
{
    add(
        arena,
        place.link_ref,
        place.rest.as_bytes(),
        value,
        place.at,
    );
}

// Inserts a key that ends within the label of a node, or leaves it there.
fn insert_within<V: Drop, Q: BorrowedBytes>(
    arena: &mut NodeArena<V>,
    place: &SeekResult<Q>,
    id: NodeId,
    n: usize,
    value: V,
)
    requires ready { Ready Q.Owned.item Q.key arena.old place.now }
    requires within { place.now.matched ≡ InsideLabel id n }
    requires room { HasRoomToPut arena.old (Q.key place.now.rest) }
    ensures puts { PutsAt Q.Owned.item Q.key arena.old arena.new place.now value }
    ensures reuses { Reuses arena.old arena.new }
{
    // for the proof alone: the rest of the key is a valid key
    let _valid = place.rest.as_bytes();
    let more = place.rest.strip_n_prefix(n);
    if more.is_empty() {
        split(arena, id, n, Some(value));
        return;
    }
    let order = more.cmp_first_item(behind(arena.nodes.label(id), n));
    let lower = split(arena, id, n, None);
    add_leaf(arena, id, lower, order, more.as_bytes(), value);
}

// Puts the value in at the place of a key, and gives the old one.
fn insert_at<V: Drop, Q: BorrowedBytes>(
    arena: &mut NodeArena<V>,
    place: &SeekResult<Q>,
    value: V,
) -> Option<V>
    requires ready { Ready Q.Owned.item Q.key arena.old place.now }
    requires room { node_of place.now.matched ≡ None
        → HasRoomToPut arena.old (Q.key place.now.rest) }
    ensures old { FindsAt Q.Owned.item Q.key arena.old place.now result }
    ensures puts { PutsAt Q.Owned.item Q.key arena.old arena.new place.now value }
    ensures reuses { Reuses arena.old arena.new }
{
    match place.matched {
        Match::Exact(id) => return arena.nodes.replace_value(id, Some(value)),
        Match::Absent => insert_first(arena, place, value),
        Match::InsideLabel(id, n) => insert_within(arena, place, id, n, value),
    }
    None
}

/// Puts the value in at a nonempty key, and gives the old one. Free nodes are used first.
pub fn insert<V: Drop, Q: BorrowedBytes>(
    arena: &mut NodeArena<V>,
    alloc: Global,
    key: Q,
    value: V,
) -> Result<Option<V>, Refused<V>>
    requires whole { IsWellFormed arena.old }
    requires siblings { IsCanonical Q.Owned.item (siblings_of arena.old) }
    requires nonempty { Q.key key ≢ [] }
    ensures whole { IsWellFormed arena.new }
    ensures siblings { IsCanonical Q.Owned.item (siblings_of arena.new) }
    ensures old { IfOk result (λ old. old ≡ find key_cmp (Q.key key) (entries_of arena.old)) }
    ensures ok { OnOk result (IsPut arena.old arena.new (Q.key key) value) }
    ensures refused { IfErr result (λ r. r.value ≡ value) }
    ensures unchanged { OnErr result (siblings_of arena.new ≡ siblings_of arena.old) }
    ensures only_new { OnErr result (find key_cmp (Q.key key) (entries_of arena.old) ≡ None) }
    ensures reuses { Reuses arena.old arena.new }
{
    let place = arena.seek(key);
    if place.here().is_some() {
        return Ok(insert_at(arena, &place, value));
    }
    let Some(bytes) = needed_bytes(key.as_bytes().len()) else {
        return Err(Refused { value });
    };
    if arena.is_ready(bytes) {
        return Ok(insert_at(arena, &place, value));
    }
    if arena.reserve_two(alloc, bytes).is_err() {
        return Err(Refused { value });
    }
    let place = arena.seek(key);
    Ok(insert_at(arena, &place, value))
}

// Puts the value in at the place of a nonempty key, where no node is.
fn insert_missing<V: Drop, Q: BorrowedBytes>(
    arena: &mut NodeArena<V>,
    place: &SeekResult<Q>,
    key: Q,
    value: V,
) -> Result<(), Refused<V>>
    requires whole { IsWellFormed arena.old }
    requires siblings { IsCanonical Q.Owned.item (siblings_of arena.old) }
    requires place { IsSeekResult Q.Owned.item Q.key arena.old (Q.key key) place.now }
    requires missing { node_of place.now.matched ≡ None }
    ensures whole { IsWellFormed arena.new }
    ensures siblings { IsCanonical Q.Owned.item (siblings_of arena.new) }
    ensures ok { OnOk result (IsPut arena.old arena.new (Q.key key) value) }
    ensures refused { IfErr result (λ r. r.value ≡ value) }
    ensures unchanged { OnErr result (siblings_of arena.new ≡ siblings_of arena.old) }
    ensures trail { (trail : List (LinkRef × ℕ))
        → IsPlaceBehind Q.Owned.item Q.key arena.old (Q.key key) place.now trail
        → IsTrail Q.Owned.item arena.new (Q.key key) trail }
{
    let Some(bytes) = needed_bytes(key.as_bytes().len()) else {
        return Err(Refused { value });
    };
    if !arena.has_room(bytes) && arena.extend(bytes).is_err() {
        return Err(Refused { value });
    }
    let _none = insert_at(arena, place, value);
    Ok(())
}

/// Puts the value in at a nonempty key, and gives the old one. The look-up goes on from the trail
/// of the last key, and the trail is that of this key then. Free nodes are used first, and each
/// node stays where it is.
pub fn insert_along<V: Drop, Q: BorrowedBytes>(
    arena: &mut NodeArena<V>,
    trail: &mut Vec<(LinkRef, usize)>,
    last: Option<Q>,
    key: Q,
    value: V,
) -> Result<Option<V>, Refused<V>>
    requires whole { IsWellFormed arena.old }
    requires siblings { IsCanonical Q.Owned.item (siblings_of arena.old) }
    requires nonempty { Q.key key ≢ [] }
    requires trail { IfSome last (λ last.
        IsTrail Q.Owned.item arena.old (Q.key last) trail.old.items) }
    ensures whole { IsWellFormed arena.new }
    ensures siblings { IsCanonical Q.Owned.item (siblings_of arena.new) }
    ensures old { IfOk result (λ old. old ≡ find key_cmp (Q.key key) (entries_of arena.old)) }
    ensures ok { OnOk result (IsPut arena.old arena.new (Q.key key) value) }
    ensures refused { IfErr result (λ r. r.value ≡ value) }
    ensures unchanged { OnErr result (siblings_of arena.new ≡ siblings_of arena.old) }
    ensures only_new { OnErr result (find key_cmp (Q.key key) (entries_of arena.old) ≡ None) }
    ensures trail { IsTrail Q.Owned.item arena.new (Q.key key) trail.new.items }
{
    let place = arena.seek_along(trail, last, key);
    if place.here().is_some() {
        return Ok(insert_at(arena, &place, value));
    }
    match insert_missing(arena, &place, key, value) {
        Ok(()) => Ok(None),
        Err(refused) => Err(refused),
    }
}

/// Puts the value in at a nonempty key that has none. Where the key has one, nothing changes, and
/// the node that has it is returned with the value that was to be put in. The look-up goes on from
/// the trail of the last key, and the trail is that of this key then, also once the value there is
/// another one. Free nodes are used first, and each node stays where it is.
pub fn insert_new_along<V: Drop, Q: BorrowedBytes>(
    arena: &mut NodeArena<V>,
    trail: &mut Vec<(LinkRef, usize)>,
    last: Option<Q>,
    key: Q,
    value: V,
) -> Result<Option<(NodeId, V)>, Refused<V>>
    requires whole { IsWellFormed arena.old }
    requires siblings { IsCanonical Q.Owned.item (siblings_of arena.old) }
    requires nonempty { Q.key key ≢ [] }
    requires trail { IfSome last (λ last.
        IsTrail Q.Owned.item arena.old (Q.key last) trail.old.items) }
    ensures whole { IsWellFormed arena.new }
    ensures siblings { IsCanonical Q.Owned.item (siblings_of arena.new) }
    ensures inserted { IfOk result (λ there. there ≡ None
        → (find key_cmp (Q.key key) (entries_of arena.old) ≡ None)
        × IsPut arena.old arena.new (Q.key key) value) }
    ensures occupied { IfOk result (λ there. IfSome there (λ there. (there.1 ≡ value)
        × (arena.new ≡ arena.old)
        × HasValueNode Q.Owned.item arena.new (Q.key key) there.0)) }
    ensures refused { IfErr result (λ r. r.value ≡ value) }
    ensures unchanged { OnErr result (siblings_of arena.new ≡ siblings_of arena.old) }
    ensures only_new { OnErr result (find key_cmp (Q.key key) (entries_of arena.old) ≡ None) }
    ensures trail { IsTrail Q.Owned.item arena.new (Q.key key) trail.new.items }
    ensures written { IfOk result (λ there. IfSome there (λ there. (w : V)
        → IsTrail Q.Owned.item (with_value arena.new there.0 w) (Q.key key) trail.new.items)) }
{
    let found = arena.seek_along(trail, last, key);
    if let Some(id) = found.here() {
        if arena.nodes.value(id).is_some() {
            return Ok(Some((id, value)));
        }
        let _none = insert_at(arena, &found, value);
        return Ok(None);
    }
    match insert_missing(arena, &found, key, value) {
        Ok(()) => Ok(None),
        Err(refused) => Err(refused),
    }
}
