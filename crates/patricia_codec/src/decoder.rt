//! From tree bytes and values to nodes.
ghost use Rattle.std.specs.Prelude.{◌≡◌, ◌+◌, ◌≤◌, ◌++◌, length, IfOk, IfErr};
ghost use Rattle.patricia_model.specs.Siblings.{own};
ghost use Rattle.patricia_model.specs.Trees.{IsTree};
ghost use Rattle.patricia_nodes.specs.Internal.Plans.{IsWellFormed, siblings_of, entries_of};
ghost use Rattle.patricia_wire.specs.Writings.{Means};
ghost use Rattle.patricia_wire.specs.Faults.{IsRefusal};
ghost use Rattle.patricia_codec.specs.Internal.Placing.{IsNew};

use crate::builder::Builder;
use crate::counts::count_children;
use crate::reader::Reader;
use crate::spare::link_empty;
use crate::width::Width;
use patricia_keys::Bytes;
use patricia_nodes::arena::NodeArena;
use patricia_nodes::parts::TreeParts;
use patricia_wire::DecodeError;
use std::alloc::{AllocError, Global};
use std::vec::IntoIter;

// How many of so many values are not that of the empty key.
fn others<V>(given: usize, value: &Option<V>) -> usize
    requires { length (own value.now) ≤ given }
    ensures { given ≡ result + length (own value.now) }
{
    match value {
        Some(_) => given - 1,
        None => given,
    }
}

// Nothing is read, and there is room for as many nodes as there are records, and for all that is no
// head of a record. The numbers are those of the children of each record.
fn start<W: Width, V: Drop>(
    alloc: Global,
    bytes: &[u8],
) -> Result<(Builder<V>, IntoIter<u32>), AllocError>
    ensures { IfOk result (λ r. IsNew r.0) }
{
    let counts = count_children::<W>(alloc, bytes)?;
    let heads = W::head().saturating_mul(counts.len());
    let labels = bytes.len().saturating_sub(heads);
    let builder = Builder::new(alloc, counts.len(), labels)?;
    Ok((builder, counts.into_iter()))
}

/// Reads a tree from its bytes and its values. Where they are refused the values are dropped.
pub fn decode<K: Bytes, W: Width, V: Drop>(
    alloc: Global,
    bytes: &[u8],
    values: Vec<V>,
) -> Result<TreeParts<V>, DecodeError>
    ensures whole { IfOk result (λ d. IsWellFormed d.arena) }
    ensures tree { IfOk result (λ d. IsTree K.item (siblings_of d.arena) d.count) }
    ensures means { IfOk result (λ d.
        Means K.item W.width bytes.now values.items (own d.value ++ entries_of d.arena)) }
    ensures first_fault { IfErr result (λ e.
        IsRefusal K.item W.width bytes.now (length values.items) e) }
{
    let given = values.len();
    let mut values = values.into_iter();
    let mut reader = Reader::new(alloc, bytes)?;
    let (mut builder, mut counts) = start::<W, V>(alloc, bytes)?;
    while let Some(record) = reader.next::<K, W>(values.len())? {
        let value = if record.value { values.next() } else { None };
        let children = counts.next().unwrap_or(0);
        builder.add::<K>(&record, value, children)?;
    }
    reader.finish::<K, W>(values.len())?;
    let free = link_empty(&mut builder.nodes);
    let count = others(given, &builder.value);
    Ok(TreeParts {
        alloc,
        value: builder.value,
        count,
        arena: NodeArena {
            nodes: builder.nodes,
            root: builder.root,
            free,
            edits: 0,
        },
    })
}
