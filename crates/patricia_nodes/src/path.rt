//! The bytes of a key that are passed on the way to its node.
ghost use Rattle.std.specs.Prelude.{◌≡◌, ◌<◌, ◌≤◌, ◌++◌, [], length, take};
ghost use Rattle.std.specs.Prelude.{IfOk, OnOk, OnErr};
ghost use Rattle.patricia_keys.specs.Keys.{IsValid};
ghost use Rattle.patricia_nodes.specs.Internal.NodeVecs.{ReadsNode};

use crate::arena::node_vec::NodeVec;
use crate::link::NodeId;
use patricia_keys::Bytes;
use std::alloc::{AllocError, Global};

/// How many bytes there is room for at first.
pub const ROOM: usize = 64;

/// No bytes, with room for those of most keys, so that a descent asks for memory once.
pub fn new_path(alloc: Global) -> Result<Vec<u8>, AllocError>
    ensures { IfOk result (λ path. path.items ≡ []) }
{
    Vec::with_capacity(alloc, ROOM)
}

// Makes room for the bytes of most keys, where there is none yet.
#[inline(always)]
fn make_room(path: &mut Vec<u8>) -> Result<(), AllocError>
    ensures { path.new.items ≡ path.old.items }
{
    if path.capacity() == 0 {
        path.reserve(ROOM)?;
    }
    Ok(())
}

// How many bytes a copy has that needs no call, since their number is known.
const WIDE: usize = 32;

// Adds the first bytes of a list. Where few are asked for, the list goes on and there is room, it
// adds `WIDE` bytes and cuts off what is too much.
#[inline(always)]
fn extend_by_first(path: &mut Vec<u8>, bytes: &[u8], len: usize) -> Result<(), AllocError>
    requires within { len ≤ length bytes.now }
    ensures ok { OnOk result (path.new.items ≡ path.old.items ++ take len bytes.now) }
    ensures same { OnErr result (path.new.items ≡ path.old.items) }
{
    let end = path.len();
    if len <= WIDE && WIDE <= bytes.len() && WIDE <= path.capacity() - end {
        path.extend_from_slice(&bytes[..WIDE])?;
        path.truncate(end + len);
        return Ok(());
    }
    path.extend_from_slice(&bytes[..len])
}

/// Adds the label of a node. Where it has one byte, the node's head alone is read. Where there is
/// no room yet, it makes room for the bytes of most keys.
#[inline(always)]
pub fn extend_by_label<K: Bytes, V>(
    path: &mut Vec<u8>,
    nodes: &NodeVec<V>,
    id: NodeId,
) -> Result<(), AllocError>
    requires within { id < length nodes.now.items }
    requires valid { ReadsNode nodes.now id (λ n. IsValid K.item n.label) }
    ensures label { ReadsNode nodes.now id
        (λ n. OnOk result (path.new.items ≡ path.old.items ++ n.label)) }
    ensures same { OnErr result (path.new.items ≡ path.old.items) }
{
    make_room(path)?;
    if nodes.short_len(id) == 1 {
        path.push(nodes.first_byte(id))?;
        return Ok(());
    }
    let (bytes, len) = nodes.label_onwards(id);
    extend_by_first(path, bytes, len)
}
