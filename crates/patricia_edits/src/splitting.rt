//! Taking out the nodes under a prefix.
ghost use Rattle.std.specs.Prelude.{◌≡◌, ◌≢◌, ◌+◌, ◌≤◌, [], Some, None, IfOk, OnOk, OnErr, length};
ghost use Rattle.std.specs.Option.{option_copied};
ghost use Rattle.patricia_model.specs.Prefixes.{under};
ghost use Rattle.patricia_model.specs.Siblings.{own, IsCanonical};
ghost use Rattle.patricia_store.specs.Internal.Labels.{joined_room};
ghost use Rattle.patricia_nodes.specs.Internal.NodeVecs.{ReadsNode};
ghost use Rattle.patricia_nodes.specs.Internal.Plans.{Plan, IsPlan, IsWellFormed, siblings_of};
ghost use Rattle.patricia_nodes.specs.Internal.Plans.{entries_of, size};
ghost use Rattle.patricia_nodes.specs.Internal.Growth.{bytes};
ghost use Rattle.patricia_nodes.specs.Internal.Places.{IsSeekResult, node_under};
ghost use Rattle.patricia_nodes.specs.Internal.Writes.{Stays};
ghost use Rattle.patricia_edits.specs.Internal.Splits.{values, HasSplitNode, HasTreeAt, CountsTree};
ghost use Rattle.patricia_edits.specs.Internal.Splits.{FitsTree, MovesOut, SplitsOff};

use crate::insertion::behind;
use patricia_keys::{BorrowedBytes, Bytes};
use patricia_nodes::arena::NodeArena;
use patricia_nodes::arena::node_vec::NodeVec;
use patricia_nodes::arena::seek::{LinkRef, SeekResult};
use patricia_nodes::link::{Link, NodeId};
use patricia_nodes::parts::TreeParts;
use std::alloc::{AllocError, Global};

// How many nodes there are, how many of them have a value, and how many bytes their labels take.
#[derive(Clone, Copy)]
struct Size {
    nodes: usize,
    values: usize,
    bytes: usize,
}

// One value, or none.
fn how_many<V>(value: Option<&V>) -> usize
    ensures { result ≡ length (own (option_copied value.entry)) }
{
    match value {
        Some(_) => 1,
        None => 0,
    }
}

// The sum of two counts of bytes. More bytes than a number can say are refused.
fn sum(a: usize, b: usize) -> Result<usize, AllocError>
    ensures { IfOk result (λ s. s ≡ a + b) }
{
    a.checked_add(b).ok_or(AllocError)
}

// Counts siblings and the nodes below them.
fn measure<V: Drop>(arena: &NodeArena<V>, alloc: Global, first: Link) -> Result<Size, AllocError>
    requires { (p : Plan V) × IsPlan arena.now.nodes.items first p }
    ensures { IfOk result (λ s. (p : Plan V) → IsPlan arena.now.nodes.items first p
        → (s.nodes ≡ size p) × (s.values ≡ values p) × (s.bytes ≡ bytes p)) }
{
    // for the proof alone: there are no more nodes than links can say
    let _few = arena.nodes.len();
    let mut size = Size {
        nodes: 0,
        values: 0,
        bytes: 0,
    };
    let mut waiting = Vec::new(alloc);
    let mut at = first;
    loop {
        match at.get() {
            Some(id) => {
                size.nodes += 1;
                size.values += how_many(arena.nodes.value(id));
                size.bytes = sum(size.bytes, arena.nodes.label_room(id))?;
                waiting.push(arena.nodes.sibling(id))?;
                at = arena.nodes.child(id);
            }
            None => match waiting.pop() {
                Some(next) => at = next,
                None => return Ok(size),
            },
        }
    }
}

// How many bytes a label of two parts takes at most.
fn joined_bytes(upper: &[u8], lower: &[u8]) -> Result<usize, AllocError>
    ensures { IfOk result (λ n.
        joined_room (length upper.now) (length lower.now) ≤ n) }
{
    // 12 for the note of a long label
    sum(sum(upper.len(), lower.len())?, 12)
}

// Room for a node and those below it, and how many of them have a value. The node's label is to be
// the prefix, and what its own has past so many bytes.
fn room_for<V: Drop>(
    arena: &NodeArena<V>,
    alloc: Global,
    id: NodeId,
    prefix: &[u8],
    passed: usize,
) -> Result<(NodeVec<V>, usize), AllocError>
    requires node { HasSplitNode arena.now id }
    requires passed { ReadsNode arena.now.nodes id (λ n. passed ≤ length n.label) }
    ensures empty { IfOk result (λ r. r.0.items ≡ []) }
    ensures counted { IfOk result (λ r. CountsTree arena.now id r.0.capacity r.1) }
    ensures bytes { IfOk result (λ r. FitsTree arena.now id prefix.now passed r.0.room) }
{
    // for the proof alone: there are no more nodes than links can say
    let _few = arena.nodes.len();
    let below = measure(arena, alloc, arena.nodes.child(id))?;
    let top = joined_bytes(prefix, behind(arena.nodes.label(id), passed))?;
    let bytes = sum(top, below.bytes)?;
    let room = NodeVec::with_capacity(alloc, below.nodes + 1, bytes)?;
    Ok((room, below.values + how_many(arena.nodes.value(id))))
}

// Moves a node and those below it into a vector with room for them, and unlinks it. The node's
// label there is the prefix, and what its own has past so many bytes.
fn move_out<V: Drop>(
    arena: &mut NodeArena<V>,
    link_ref: LinkRef,
    id: NodeId,
    prefix: &[u8],
    passed: usize,
    room: NodeVec<V>,
) -> NodeArena<V>
    requires empty { room.items ≡ [] }
    requires tree { HasTreeAt arena.old link_ref id room.capacity }
    requires passed { ReadsNode arena.old.nodes id (λ n. passed ≤ length n.label) }
    requires bytes { FitsTree arena.old id prefix.now passed room.room }
    ensures moves { MovesOut arena.old arena.new link_ref id prefix.now passed result }
    ensures room { arena.old.nodes.room ≤ arena.new.nodes.room }
{
    let mut nodes = room;
    let child = arena.nodes.child(id);
    let value = arena.nodes.take_contents(id);
    let rest = behind(arena.nodes.label(id), passed);
    nodes.push_joined(prefix, rest, value, child, Link::none());
    arena.relocate_descendants(&mut nodes);
    let _none = arena.unlink(link_ref, id);
    NodeArena {
        nodes,
        root: Link::some(NodeId::new(0)),
        free: Link::none(),
        edits: 0,
    }
}

// Removes the nodes at a place and below it. All memory is there before anything is changed.
fn split_at<V: Drop, Q: BorrowedBytes>(
    arena: &mut NodeArena<V>,
    alloc: Global,
    prefix: Q,
    place: &SeekResult<Q>,
    id: NodeId,
) -> Result<TreeParts<V>, AllocError>
    requires whole { IsWellFormed arena.old }
    requires siblings { IsCanonical Q.Owned.item (siblings_of arena.old) }
    requires place { IsSeekResult Q.Owned.item Q.key arena.old (Q.key prefix) place.now }
    requires under { node_under (Q.key place.now.rest) place.now.matched ≡ Some id }
    ensures ok { IfOk result (λ t.
        SplitsOff Q.Owned.item arena.old arena.new (Q.key prefix) t.arena t.count) }
    ensures no_value { IfOk result (λ t. t.value ≡ None) }
    ensures unchanged { OnErr result (Stays arena.old arena.new) }
    ensures begun { OnErr result (under (Q.key prefix) (entries_of arena.old) ≢ []) }
{
    let front = prefix.as_bytes();
    let passed = place.rest.as_bytes().len();
    let (room, count) = room_for(arena, alloc, id, front, passed)?;
    let Some(alone) = arena.would_merge::<Q::Owned>(place.link_ref, id) else {
        let arena = move_out(arena, place.link_ref, id, front, passed, room);
        return Ok(TreeParts {
            alloc,
            value: None,
            arena,
            count,
        });
    };
    arena.reserve_joined(alone.0, alone.1)?;
    let taken = move_out(arena, place.link_ref, id, front, passed, room);
    let _none = arena.merge_only_child(alone.0, alone.1);
    Ok(TreeParts {
        alloc,
        value: None,
        arena: taken,
        count,
    })
}

/// Removes what is under a prefix that is not empty, and returns it as a tree.
pub fn split<V: Drop, Q: BorrowedBytes>(
    arena: &mut NodeArena<V>,
    alloc: Global,
    prefix: Q,
) -> Result<TreeParts<V>, AllocError>
    requires whole { IsWellFormed arena.old }
    requires siblings { IsCanonical Q.Owned.item (siblings_of arena.old) }
    requires nonempty { Q.key prefix ≢ [] }
    ensures ok { IfOk result (λ t.
        SplitsOff Q.Owned.item arena.old arena.new (Q.key prefix) t.arena t.count) }
    ensures no_value { IfOk result (λ t. t.value ≡ None) }
    ensures unchanged { OnErr result (Stays arena.old arena.new) }
    ensures begun { OnErr result (under (Q.key prefix) (entries_of arena.old) ≢ []) }
{
    let place = arena.seek(prefix);
    // for the proof alone: the rest of the key is a valid key
    let _valid = place.rest.as_bytes();
    match place.under() {
        Some(id) => split_at(arena, alloc, prefix, &place, id),
        None => Ok(TreeParts {
            alloc,
            value: None,
            arena: NodeArena::new(alloc),
            count: 0,
        }),
    }
}
