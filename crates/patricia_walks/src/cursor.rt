//! Cursors: each owns a tree, and lends its values one at a time, in key order.
ghost use Rattle.std.specs.Prelude.{◌≡◌, ◌≢◌, [], None, IfOk, OnOk, OnErr};
ghost use Rattle.std.specs.Borrow.{sem};
ghost use Rattle.std.specs.Option.{option_copied_mut, option_map};
ghost use Rattle.patricia_model.specs.Cursors.{last_value, next_key, stepped};
ghost use Rattle.patricia_model.specs.Siblings.{IsCanonical};
ghost use Rattle.patricia_model.specs.Trees.{map_of, IsTree};
ghost use Rattle.patricia_nodes.specs.Internal.Plans.{IsWellFormed, siblings_of};
ghost use Rattle.patricia_walks.specs.Internal.HeldTrees.{standing};
ghost use Rattle.patricia_walks.specs.Internal.CursorStates.{IsCursorState, IsPrefixCursor};

use crate::cursor_state::{CursorState, Start, find_start};
use patricia_keys::{BorrowedBytes, Bytes};
use patricia_nodes::parts::TreeParts;
use std::alloc::AllocError;
use std::marker::{Model, PhantomData};

/// A cursor over all entries.
#[derive(Drop)]
pub struct Cursor<K: Bytes, V> {
    state: CursorState<V>,
    kind: PhantomData<K>,
}

impl<K: Bytes, V> Model for Cursor<K, V> {
    ghost use Rattle.std.specs.Prelude.{[]};
    ghost use Rattle.patricia_model.specs.Cursors.{CursorView};
    ghost use Rattle.patricia_model.specs.Internal.Codes.{cursor_view_code};
    ghost use Rattle.patricia_walks.specs.Internal.HeldTrees.{standing};
    ghost use Rattle.patricia_walks.specs.Internal.CursorStates.{IsCursorState};

    ghost Value = { CursorView V };

    ghost coded = { cursor_view_code V.code };

    ghost view = { λ c. standing c.state.tree [] };

    ghost invariant = { λ c. IsCursorState K.item c.state [] };
}

impl<K: Bytes, V: Drop> Cursor<K, V> {
    ghost use Rattle.patricia_walks.specs.Internal.Lends.{cursor_lends_last};

    /// Makes a cursor over a tree. Does not allocate.
    pub fn new(parts: TreeParts<V>) -> Self
        requires whole { IsWellFormed parts.arena }
        requires tree { IsTree K.item (siblings_of parts.arena) parts.count }
        ensures { result ≡ record {
          map = map_of parts.value (siblings_of parts.arena);
          prefix = [];
          last = None;
        } }
    {
        Cursor {
            state: CursorState::new::<K>(parts),
            kind: PhantomData,
        }
    }

    /// Advances to the next entry, and returns its key. The error is out of memory.
    pub fn advance(&mut self) -> Result<Option<K>, AllocError>
        ensures key { IfOk result (λ key. option_map K.key key ≡ next_key self.old) }
        ensures stepped { OnOk result (self.new ≡ stepped self.old) }
        ensures unchanged { OnErr result (self.new ≡ self.old) }
        ensures err_only_if_left { OnErr result (next_key self.old ≢ None) }
    {
        self.state.advance::<K>()
    }

    /// Lends the value that it advanced to last, or returns `None` where it has not advanced yet.
    pub fn value(&mut self) -> Option<&mut V>
        ensures* writes { sem 𝓛 (cursor_lends_last K.row V.row K.Bytes self.entry result) }
        ensures value { option_copied_mut result ≡ last_value self.old }
    {
        self.state.tree.value::<K>()
    }
}

/// The tree that a cursor walked over: a function, so that no method of a cursor names nodes.
pub fn into_parts<K: Bytes, V: Drop>(cursor: Cursor<K, V>) -> TreeParts<V>
    ensures whole { IsWellFormed result.arena }
    ensures tree { IsTree K.item (siblings_of result.arena) result.count }
    ensures map { map_of result.value (siblings_of result.arena) ≡ cursor.map }
{
    let Cursor { state, .. } = cursor;
    state.tree.parts
}

// Begins a walk under a prefix, where it has not begun.
fn start_at<Q: BorrowedBytes, V>(
    prefix: Q,
    start: &mut Option<Start>,
    state: &mut CursorState<V>,
) -> Result<(), AllocError>
    requires { IsPrefixCursor Q.Owned.item state.old (Q.key prefix) start.old }
    ensures begun { OnOk result (start.new ≡ None) }
    ensures state { OnOk result (IsCursorState Q.Owned.item state.new (Q.key prefix)) }
    ensures stands { standing state.new.tree (Q.key prefix)
        ≡ standing state.old.tree (Q.key prefix) }
    ensures ahead { OnErr result (IsPrefixCursor Q.Owned.item state.new (Q.key prefix) start.new) }
    ensures err_only_if_left { OnErr result
        (next_key (standing state.old.tree (Q.key prefix)) ≢ None) }
{
    let Some(at) = *start else {
        return Ok(());
    };
    let front = &prefix.as_bytes()[..at.front];
    state.start_at::<Q::Owned>(front, at.top)?;
    *start = None;
    Ok(())
}

/// A cursor over the entries whose key begins with a prefix.
#[derive(Drop)]
pub struct PrefixCursor<Q: BorrowedBytes, V> {
    prefix: Q,
    // where the walk begins, until it has begun
    start: Option<Start>,
    state: CursorState<V>,
}

impl<Q: BorrowedBytes, V> Model for PrefixCursor<Q, V> {
    ghost use Rattle.patricia_model.specs.Cursors.{CursorView};
    ghost use Rattle.patricia_model.specs.Internal.Codes.{cursor_view_code};
    ghost use Rattle.patricia_walks.specs.Internal.HeldTrees.{standing};
    ghost use Rattle.patricia_walks.specs.Internal.CursorStates.{IsPrefixCursor};

    ghost Value = { CursorView V };

    ghost coded = { cursor_view_code V.code };

    ghost view = { λ c. standing c.state.tree (Q.key c.prefix) };

    ghost invariant = { λ c. IsPrefixCursor Q.Owned.item c.state (Q.key c.prefix) c.start };
}

impl<Q: BorrowedBytes, V: Drop> PrefixCursor<Q, V> {
    ghost use Rattle.patricia_walks.specs.Internal.Lends.{lends_last_under};

    /// Makes a cursor over a tree. Does not allocate.
    pub fn new(parts: TreeParts<V>, prefix: Q) -> Self
        requires whole { IsWellFormed parts.arena }
        requires tree { IsTree Q.Owned.item (siblings_of parts.arena) parts.count }
        ensures { result ≡ record {
          map = map_of parts.value (siblings_of parts.arena);
          prefix = Q.key prefix;
          last = None;
        } }
    {
        if prefix.is_empty() {
            return PrefixCursor {
                prefix,
                start: None,
                state: CursorState::new::<Q::Owned>(parts),
            };
        }
        PrefixCursor {
            prefix,
            start: find_start(&parts.arena, prefix),
            state: CursorState::ended::<Q::Owned>(parts),
        }
    }

    /// Advances to the next entry, and returns its key. The error is out of memory.
    pub fn advance(&mut self) -> Result<Option<Q::Owned>, AllocError>
        ensures key { IfOk result (λ key. option_map Q.Owned.key key ≡ next_key self.old) }
        ensures stepped { OnOk result (self.new ≡ stepped self.old) }
        ensures unchanged { OnErr result (self.new ≡ self.old) }
        ensures err_only_if_left { OnErr result (next_key self.old ≢ None) }
    {
        start_at(self.prefix, &mut self.start, &mut self.state)?;
        self.state.advance()
    }

    /// Lends the value that it advanced to last, or returns `None` where it has not advanced yet.
    pub fn value(&mut self) -> Option<&mut V>
        ensures* writes { sem 𝓛 (lends_last_under Q.row V.row Q.Owned.row Q.BorrowedBytes
            Q.Owned.Bytes self.entry result) }
        ensures value { option_copied_mut result ≡ last_value self.old }
    {
        self.state.tree.value::<Q::Owned>()
    }
}

/// The tree that such a cursor walked over.
pub fn prefix_into_parts<Q: BorrowedBytes, V: Drop>(cursor: PrefixCursor<Q, V>) -> TreeParts<V>
    ensures whole { IsWellFormed result.arena }
    ensures tree { IsTree Q.Owned.item (siblings_of result.arena) result.count }
    ensures map { map_of result.value (siblings_of result.arena) ≡ cursor.map }
{
    let PrefixCursor { state, .. } = cursor;
    state.tree.parts
}
