//! How a key meets a label.
ghost use Rattle.std.specs.Prelude.{◌≢◌, []};
ghost use Rattle.patricia_keys.specs.Keys.{IsValid};
ghost use Rattle.patricia_model.specs.Internal.LabelCmp.{ComparesLabel};

use patricia_keys::{BorrowedBytes, Bytes};
use std::cmp::Ordering;

/// Where a key goes at a label.
#[derive(Clone, Copy)]
pub enum LabelCmp<Q> {
    // before it: the key's first item is less
    Before,
    // past it: the label's first item is less
    After,
    // into it: this many bytes are common, and not all of the label
    Partial(usize),
    // through it: what is left of the key
    Full(Q),
}

/// How a key meets a label. Where their first bytes differ, these decide.
pub fn compare_label<Q: BorrowedBytes>(key: Q, label: &[u8]) -> LabelCmp<Q>
    requires valid { IsValid Q.Owned.item label.now }
    requires nonempty { label.now ≢ [] }
    requires key_filled { Q.key key ≢ [] }
    ensures { ComparesLabel Q.Owned.item Q.key (Q.key key) label.now result }
{
    // first bytes that differ order the first items
    let first = key.as_bytes()[0];
    if first < label[0] {
        return LabelCmp::Before;
    }
    if label[0] < first {
        return LabelCmp::After;
    }
    let (rest, n) = key.strip_common_prefix_and_len(label);
    if n == label.len() {
        return LabelCmp::Full(rest);
    }
    if n > 0 {
        return LabelCmp::Partial(n);
    }
    // two items may begin with the same byte
    match key.cmp_first_item(label) {
        Ordering::Less => LabelCmp::Before,
        Ordering::Greater => LabelCmp::After,
        Ordering::Equal => LabelCmp::Partial(n),
    }
}
