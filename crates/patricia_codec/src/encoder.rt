//! Tree bytes.
ghost use Rattle.std.specs.Prelude.{◌≡◌, ◌++◌, IfOk};
ghost use Rattle.patricia_model.specs.Siblings.{own, keys_of, IsCanonical};
ghost use Rattle.patricia_nodes.specs.Internal.Plans.{IsWellFormed, siblings_of, entries_of};
ghost use Rattle.patricia_wire.specs.TreeBytes.{AreTreeBytes};
ghost use Rattle.patricia_wire.specs.Writings.{TooDeep};

use crate::record::{LONGEST, Record};
use crate::records::Records;
use crate::width::Width;
use patricia_keys::Bytes;
use patricia_nodes::arena::NodeArena;
use patricia_nodes::link::NodeId;
use std::alloc::{AllocError, Global};
use thiserror::Error;

/// Why a tree was not written.
#[derive(Clone, Copy, Debug, PartialEq, Eq, Error)]
pub enum WireError {
    /// Memory ran out.
    #[error("out of memory")]
    Memory,
    /// A record would lie deeper than two bytes can tell.
    #[error("tree deeper than level 65535")]
    TooDeep,
    /// A record would lie deeper than four bytes can tell.
    #[error("tree deeper than level 4294967295")]
    TooDeepWide,
}

impl From<AllocError> for WireError {
    ghost use Rattle.std.specs.Prelude.{◌≡◌};
    ghost use Rattle.patricia_codec.specs.declared.encoder.WireError.TheVariants.{Memory};

    ghost from_gives = { λ _ e. e ≡ Memory };

    fn from(_: AllocError) -> WireError {
        WireError::Memory
    }
}

/// Why nodes were not written, whatever the width of levels.
#[derive(Clone, Copy)]
pub enum EncodeError {
    /// Memory ran out.
    Memory,
    /// A record would lie deeper than the bytes of a level can tell.
    TooDeep,
}

impl From<AllocError> for EncodeError {
    ghost use Rattle.std.specs.Prelude.{◌≡◌};
    ghost use Rattle.patricia_codec.specs.declared.encoder.EncodeError.TheVariants.{Memory};

    ghost from_gives = { λ _ e. e ≡ Memory };

    fn from(_: AllocError) -> EncodeError {
        EncodeError::Memory
    }
}

// Of bytes, texts and units a part of a label that others follow has at least so many bytes: as
// many whole items as fit.
const LEAST_PART: usize = LONGEST - 3;

// About how many bytes the encoding has, of these kinds no fewer. Reads the nodes as they lie.
fn size<W: Width, V>(arena: &NodeArena<V>) -> usize {
    let nodes = &arena.nodes;
    let mut size = W::head();
    for i in 0..nodes.len() {
        let len = nodes.label_len(NodeId::new(i));
        // the label of a free node is empty
        if len > 0 {
            let heads = (len / LEAST_PART + 1).saturating_mul(W::head());
            size = size.saturating_add(heads).saturating_add(len);
        }
    }
    size
}

/// The tree bytes of the empty key's value and the nodes.
pub fn encode<K: Bytes, W: Width, V>(
    alloc: Global,
    value: &Option<V>,
    arena: &NodeArena<V>,
) -> Result<Vec<u8>, EncodeError>
    requires whole { IsWellFormed arena.now }
    requires siblings { IsCanonical K.item (siblings_of arena.now) }
    ensures ok { IfOk result (λ b.
        AreTreeBytes K.item W.width b.items (own value.now ++ entries_of arena.now)) }
    ensures too_deep { result ≡ Err EncodeError.TooDeep
        → TooDeep K.item W.width (keys_of (own value.now ++ entries_of arena.now)) }
{
    let root = Record {
        level: 0,
        label: &[],
        value: value.is_some(),
        child: arena.root.get().is_some(),
        sibling: false,
    };
    let mut out = Vec::with_capacity(alloc, size::<W, V>(arena))?;
    root.write::<W>(&mut out)?;
    let mut records = Records::new(alloc, arena);
    while let Some(record) = records.next::<K, W>()? {
        record.write::<W>(&mut out)?;
    }
    Ok(out)
}
