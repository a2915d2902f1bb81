//! Nodes that removals and splits free are used again, so that the vector of nodes grows no
//! further.

use crate::tests::asserts::{done, holds, same};
use patricia_core::keys::BorrowedBytes;
use patricia_core::tree::Tree;
use std::alloc::AllocError;
use std::process::Abort;

// Inserts a key, and returns whether it is new.
fn is_put<Q: BorrowedBytes>(
    tree: &mut Tree<Q::Owned, usize>,
    key: Q,
    value: usize,
) -> Result<bool, AllocError> {
    match tree.insert(key, value) {
        Ok(old) => Ok(old.is_none()),
        Err(_) => Err(AllocError),
    }
}

// Puts keys in, each with its place as its value.
fn put_all<Q: BorrowedBytes>(
    rt: &impl Abort,
    tree: &mut Tree<Q::Owned, usize>,
    keys: &[Q],
) -> Result<(), AllocError> {
    for (n, key) in keys.iter().enumerate() {
        holds!(rt; is_put(tree, *key, n)?);
    }
    Ok(())
}

// Takes these keys out.
fn remove_all<Q: BorrowedBytes>(
    rt: &impl Abort,
    tree: &mut Tree<Q::Owned, usize>,
    keys: &[Q],
) -> Result<(), AllocError> {
    for (n, key) in keys.iter().enumerate() {
        same!(rt; tree.remove(*key)?, Some(n));
    }
    Ok(())
}

// Inserts keys and removes them.
fn put_and_remove<Q: BorrowedBytes>(
    rt: &impl Abort,
    tree: &mut Tree<Q::Owned, usize>,
    keys: &[Q],
) -> Result<(), AllocError> {
    put_all(rt, tree, keys)?;
    holds!(rt; tree.len() == keys.len());
    remove_all(rt, tree, keys)
}

// Inserts keys and removes them, so often. After each round the vector has so many nodes.
fn repeat<Q: BorrowedBytes>(
    rt: &impl Abort,
    tree: &mut Tree<Q::Owned, usize>,
    keys: &[Q],
    rounds: usize,
    slots: usize,
) -> Result<(), AllocError> {
    for _ in 0..rounds {
        put_and_remove(rt, tree, keys)?;
        holds!(rt; tree.is_empty() & (tree.slots() == slots));
    }
    Ok(())
}

#[test]
fn one_node(rt: HostRuntime) {
    let mut tree = Tree::new(rt.alloc());
    same!(rt; tree.slots(), 0);
    done(&rt, repeat(&rt, &mut tree, &[b"foo".as_slice()], 10_000, 1));
}

// Takes those under a prefix out at once, and answers into how many nodes.
fn split_slots<Q: BorrowedBytes>(
    tree: &mut Tree<Q::Owned, usize>,
    prefix: Q,
) -> Result<usize, AllocError> {
    let part = tree.split(prefix)?;
    Ok(part.slots())
}

// Puts keys in, and takes those under a prefix out at once, into so many nodes.
fn split_out<Q: BorrowedBytes>(
    rt: &impl Abort,
    tree: &mut Tree<Q::Owned, usize>,
    keys: &[Q],
    prefix: Q,
    slots: usize,
) -> Result<(), AllocError> {
    put_all(rt, tree, keys)?;
    holds!(rt; split_slots(tree, prefix)? == slots);
    Ok(())
}

// The prefix takes all keys but the first, which is removed.
fn split_and_remove<Q: BorrowedBytes>(
    rt: &impl Abort,
    tree: &mut Tree<Q::Owned, usize>,
    keys: &[Q],
    prefix: Q,
) -> Result<(), AllocError> {
    let first = keys.get(..1).unwrap_or(keys);
    for _ in 0..1_000 {
        split_out(rt, tree, keys, prefix, 3)?;
        remove_all(rt, tree, first)?;
        holds!(rt; tree.is_empty());
    }
    Ok(())
}

// The prefix takes all keys but the first, which is cleared away.
fn split_and_clear<Q: BorrowedBytes>(
    rt: &impl Abort,
    tree: &mut Tree<Q::Owned, usize>,
    keys: &[Q],
    prefix: Q,
) -> Result<(), AllocError> {
    for _ in 0..1_000 {
        split_out(rt, tree, keys, prefix, 3)?;
        tree.clear();
    }
    Ok(())
}

fn split_often<Q: BorrowedBytes>(
    rt: &impl Abort,
    tree: &mut Tree<Q::Owned, usize>,
    keys: &[Q],
    prefix: Q,
) -> Result<(), AllocError> {
    split_and_remove(rt, tree, keys, prefix)?;
    holds!(rt; tree.slots() == 4);
    split_and_clear(rt, tree, keys, prefix)?;
    holds!(rt; tree.slots() <= 4);
    Ok(())
}

#[test]
fn split_nodes(rt: HostRuntime) {
    let mut tree = Tree::new(rt.alloc());
    done(&rt, split_often(&rt, &mut tree, &["x", "abc", "abd"], "ab"));
}
