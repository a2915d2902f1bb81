//! The last entry, and the last one before a key.
ghost use Rattle.std.specs.Prelude.{◌≡◌, ◌≢◌, ◌≤◌, ◌++◌, ℕ, List, [], Some, None, take, IfOk, OnOk};
ghost use Rattle.std.specs.Prelude.{OnErr};
ghost use Rattle.std.specs.List.{last_or};
ghost use Rattle.std.specs.Option.{option_copied, option_map};
ghost use Rattle.patricia_keys.specs.Keys.{IsValid};
ghost use Rattle.patricia_model.specs.Internal.WalkStates.{steps_in};
ghost use Rattle.patricia_model.specs.Ranges.{before};
ghost use Rattle.patricia_model.specs.Siblings.{own, prefixed, entries, IsCanonical};
ghost use Rattle.patricia_nodes.specs.Internal.Plans.{IsWellFormed, siblings_of, entries_of};
ghost use Rattle.patricia_nodes.specs.Internal.Plans.{siblings_at};
ghost use Rattle.patricia_walks.specs.Internal.Lowers.{AreSiblingsAt, IsLower, IsLowerDescent};
ghost use Rattle.patricia_walks.specs.Internal.Lowers.{LowerMoves, LowerPasses, IsFront};
ghost use Rattle.patricia_walks.specs.Internal.Lowers.{lower_entry};
ghost use Rattle.patricia_store.specs.Internal.Nodes.{Node};
ghost use Rattle.patricia_nodes.specs.Internal.Places.{entries_below};

use patricia_keys::{BorrowedBytes, Bytes};
use patricia_nodes::arena::NodeArena;
use patricia_nodes::link::{Link, NodeId};
use patricia_nodes::path::{extend_by_label, new_path};
use std::alloc::{AllocError, Global};
use std::cmp::Ordering;

// Where the last entry before a key stands.
#[derive(Drop)]
enum Lower<'a, V> {
    Nowhere,
    // the value behind so many bytes of the key
    Value(usize, &'a V),
    // below this node, behind so many bytes of the key
    Below(usize, NodeId),
}

// How far a descent to the last entry before a key has come.
#[derive(Drop)]
struct LowerDescent<'a, V> {
    arena: &'a NodeArena<V>,
    // how many bytes of the key are passed
    len: usize,
    // the siblings behind them
    next: Link,
    // the last entry before the key among those that are passed
    lower: Lower<'a, V>,
}

// Puts the value behind so many bytes of the key in the place of what was found before it, where
// there is a value.
fn put_value<'a, K: Bytes, V>(lower: &mut Lower<'a, V>, len: usize, value: Option<&'a V>)
    ensures entry { (key : List ℕ) → (nodes : List (Node V)) → lower_entry key nodes lower.new
        ≡ last_or (lower_entry key nodes lower.old)
        (prefixed (take len key) (own (option_copied value.entry))) }
    ensures found { (key : List ℕ) → (nodes : List (Node V)) → IsFront K.item key len
        → IsLower K.item key nodes lower.old → IsLower K.item key nodes lower.new }
{
    if let Some(value) = value {
        *lower = Lower::Value(len, value);
    }
}

impl<'a, V> LowerDescent<'a, V> {
    // Passes the siblings from a node on that lie behind one another and begin with a lesser byte
    // than what is left of the key, by their heads alone.
    fn pass_run<K: Bytes>(&mut self, first: NodeId, key: &[u8]) -> NodeId
        requires descent { IsLowerDescent K.item key.now self.old }
        requires next { self.old.next ≡ Some first }
        ensures passes { LowerPasses K.item key.now self.old self.new }
        ensures next { self.new.next ≡ Some result }
    {
        let rest = &key[self.len..];
        if rest.is_empty() {
            return first;
        }
        let id = self.arena.nodes.run(first, rest[0]);
        if first.index() == id.index() {
            return first;
        }
        self.lower = Lower::Below(self.len, NodeId::new(id.index() - 1));
        self.next = Link::some(id);
        id
    }

    // Goes on at a node: to its children where its label begins what is left of the key, to its
    // sibling where the label comes before that, and else to the end.
    fn pass<K: Bytes>(&mut self, first: NodeId, key: &[u8])
        requires descent { IsLowerDescent K.item key.now self.old }
        requires next { self.old.next ≡ Some first }
        ensures { LowerMoves K.item key.now self.old self.new }
    {
        let id = self.pass_run::<K>(first, key);
        let rest = &key[self.len..];
        let nodes = &self.arena.nodes;
        let label = nodes.label(id);
        if rest.cmp(label) != Ordering::Greater {
            self.next = Link::none();
        } else if rest.starts_with(label) {
            self.len += label.len();
            put_value::<K, V>(&mut self.lower, self.len, nodes.value(id));
            self.next = nodes.child(id);
        } else {
            self.lower = Lower::Below(self.len, id);
            self.next = nodes.sibling(id);
        }
    }
}

// Where the last entry before a key stands. Does not allocate.
fn find_lower<'a, K: Bytes, V>(
    pending: Option<&'a V>,
    arena: &'a NodeArena<V>,
    key: &[u8],
) -> Lower<'a, V>
    requires whole { IsWellFormed arena.now }
    requires siblings { IsCanonical K.item (siblings_of arena.now) }
    ensures lower { IsLower K.item key.now arena.now.nodes.items result }
    ensures entry { lower_entry key.now arena.now.nodes.items result
        ≡ last_or None
        (before key.now (own (option_copied pending.entry) ++ entries_of arena.now)) }
{
    let mut lower = Lower::Nowhere;
    if key.is_empty() {
        return lower;
    }
    put_value::<K, V>(&mut lower, 0, pending);
    let mut descent = LowerDescent {
        arena,
        len: 0,
        next: arena.root,
        lower,
    };
    while let Some(id) = descent.next.get() {
        descent.pass::<K>(id, key);
    }
    descent.lower
}

// The last of the siblings. Those that lie behind one another are passed by their heads alone.
fn last_sibling<K: Bytes, V>(arena: &NodeArena<V>, first: NodeId) -> NodeId
    requires { AreSiblingsAt K.item arena.now.nodes.items (Some first) }
    ensures siblings { AreSiblingsAt K.item arena.now.nodes.items (Some result) }
    ensures last { (front : List ℕ)
        → last_or None (prefixed front (entries (siblings_at arena.now.nodes.items (Some first))))
        ≡ last_or None (entries_below front (siblings_at arena.now.nodes.items (Some result))) }
    ensures fewer { steps_in (siblings_at arena.now.nodes.items (Some result))
        ≤ steps_in (siblings_at arena.now.nodes.items (Some first)) }
{
    let mut id = arena.nodes.run(first, u8::MAX);
    while let Some(next) = arena.nodes.sibling(id).get() {
        id = arena.nodes.run(next, u8::MAX);
    }
    id
}

// The last value below a node, whose key is then the path.
fn last_below<'a, K: Bytes, V>(
    arena: &'a NodeArena<V>,
    path: &mut Vec<u8>,
    top: NodeId,
) -> Result<&'a V, AllocError>
    requires siblings { AreSiblingsAt K.item arena.now.nodes.items (Some top) }
    requires valid { IsValid K.item path.old.items }
    ensures last { IfOk result (λ v.
        last_or None (entries_below path.old.items (siblings_at arena.now.nodes.items (Some top)))
        ≡ Some (path.new.items, v.now)) }
    ensures valid { OnOk result (IsValid K.item path.new.items) }
{
    let mut id = top;
    loop {
        extend_by_label::<K, V>(path, &arena.nodes, id)?;
        match arena.nodes.child(id).get() {
            Some(child) => id = last_sibling::<K, V>(arena, child),
            None => match arena.nodes.value(id) {
                Some(value) => return Ok(value),
                None => unreachable!(),
            },
        }
    }
}

// The entry that stands there, behind the key's bytes.
fn entry_at<'a, K: Bytes, V>(
    alloc: Global,
    arena: &'a NodeArena<V>,
    key: &[u8],
    lower: Lower<'a, V>,
) -> Result<Option<(K, &'a V)>, AllocError>
    requires { IsLower K.item key.now arena.now.nodes.items lower }
    ensures entry { IfOk result (λ entry. option_map (λ e. (K.key e.0, e.1.now)) entry
        ≡ lower_entry key.now arena.now.nodes.items lower.entry) }
    ensures err_only_there { OnErr result
        (lower_entry key.now arena.now.nodes.items lower.entry ≢ None) }
{
    match lower {
        Lower::Nowhere => Ok(None),
        Lower::Value(len, value) => Ok(Some((K::from_bytes(alloc, &key[..len])?, value))),
        Lower::Below(len, top) => {
            let mut path = new_path(alloc)?;
            path.extend_from_slice(&key[..len])?;
            let value = last_below::<K, V>(arena, &mut path, top)?;
            Ok(Some((K::from_bytes(alloc, &path)?, value)))
        }
    }
}

/// The last entry before a key. The error is out of memory, and never comes where there is none.
///
/// One descent along the key, and one along last siblings.
pub fn last_before<'a, Q: BorrowedBytes, V>(
    alloc: Global,
    pending: Option<&'a V>,
    arena: &'a NodeArena<V>,
    key: Q,
) -> Result<Option<(Q::Owned, &'a V)>, AllocError>
    requires whole { IsWellFormed arena.now }
    requires siblings { IsCanonical Q.Owned.item (siblings_of arena.now) }
    ensures entry { IfOk result (λ entry. option_map (λ e. (Q.Owned.key e.0, e.1.now)) entry
        ≡ last_or None (before (Q.key key)
        (own (option_copied pending.entry) ++ entries_of arena.now))) }
    ensures err_only_before { OnErr result
        (before (Q.key key) (own (option_copied pending.entry) ++ entries_of arena.now) ≢ []) }
{
    let bytes = key.as_bytes();
    let lower = find_lower::<Q::Owned, V>(pending, arena, bytes);
    entry_at::<Q::Owned, V>(alloc, arena, bytes, lower)
}

/// The last entry. The error is out of memory, and never comes where there is none.
pub fn last<'a, K: Bytes, V>(
    alloc: Global,
    pending: Option<&'a V>,
    arena: &'a NodeArena<V>,
) -> Result<Option<(K, &'a V)>, AllocError>
    requires whole { IsWellFormed arena.now }
    requires siblings { IsCanonical K.item (siblings_of arena.now) }
    ensures entry { IfOk result (λ entry. option_map (λ e. (K.key e.0, e.1.now)) entry
        ≡ last_or None (own (option_copied pending.entry) ++ entries_of arena.now)) }
    ensures err_only_nonempty { OnErr result
        (own (option_copied pending.entry) ++ entries_of arena.now ≢ []) }
{
    match arena.root.get() {
        Some(first) => {
            let top = last_sibling::<K, V>(arena, first);
            entry_at::<K, V>(alloc, arena, &[], Lower::Below(0, top))
        }
        None => {
            let mut lower = Lower::Nowhere;
            put_value::<K, V>(&mut lower, 0, pending);
            entry_at::<K, V>(alloc, arena, &[], lower)
        }
    }
}
