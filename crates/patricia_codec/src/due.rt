//! What is due while records are read, and the rules that the next record must keep.
ghost use Rattle.std.specs.Prelude.{ℕ, false, ◌≡◌, ◌≢◌, ◌≤◌, [], IfSome, None, Some, IfErr, OnOk};
ghost use Rattle.std.specs.Prelude.{IsTrue, ◌↔◌};
ghost use Rattle.std.specs.declared.cmp.Ordering.TheVariants.{Less};
ghost use Rattle.patricia_keys.specs.Keys.{IsValid, IsFirstItem, ComparesFirst};
ghost use Rattle.patricia_wire.specs.Internal.Readings.{IsAfter, BreaksNoneBelow};
ghost use Rattle.patricia_codec.specs.Internal.Steps.{IsInOrder, IsOutOfOrder, KeepsLabel};
ghost use Rattle.patricia_codec.specs.Internal.Steps.{BreaksLabel, IsAccepted, NamesFirst};

use crate::record::Record;
use patricia_keys::Bytes;
use patricia_wire::DecodeError;
use std::marker::Model;

/// A record that is due.
#[derive(Drop)]
pub struct Due<'a> {
    pub level: u64,
    // the label of the sibling before it, if there is one
    pub after: Option<&'a [u8]>,
}

impl<'a> Model for Due<'a> {
    ghost use Rattle.std.specs.Option.{option_copied};
    ghost use Rattle.patricia_wire.specs.Internal.Readings as readings;

    ghost Value = { readings.Due };

    ghost view = { λ d. record { level = d.level; after = option_copied d.after } };
}

// The first item of a label: the fewest bytes at its front that are valid.
fn first_item<K: Bytes>(label: &[u8]) -> &[u8]
    requires valid { IsValid K.item label.now }
    requires nonempty { label.now ≢ [] }
    ensures { IsFirstItem K.item label.now result.now }
{
    let mut n = 1;
    while !K::is_valid_bytes(&label[..n]) {
        n += 1;
    }
    &label[..n]
}

// Whether the first item of a label comes before that of another.
fn comes_before<K: Bytes>(label: &[u8], other: &[u8]) -> bool
    requires valid { IsValid K.item label.now }
    requires nonempty { label.now ≢ [] }
    requires other_valid { IsValid K.item other.now }
    requires other_filled { other.now ≢ [] }
    ensures { IsTrue result ↔ ComparesFirst K.item label.now other.now Less }
{
    first_item::<K>(label).cmp(first_item::<K>(other)).is_lt()
}

impl<'a> Due<'a> {
    // Whether a valid label breaks the order of siblings.
    fn is_out_of_order<K: Bytes>(&self, label: &[u8]) -> bool
        requires after { IsAfter K.item self.now }
        requires valid { IsValid K.item label.now }
        requires nonempty { self.now.level ≢ 0 → label.now ≢ [] }
        ensures out { IsTrue result ↔ IsOutOfOrder K.item self.now label.now }
        ensures in_order { result ≡ false → IsInOrder K.item self.now label.now }
    {
        match self.after {
            Some(before) => !comes_before::<K>(before, label),
            None => false,
        }
    }

    // Whether the record lies where it is due, and is labelled as the root or another record is.
    fn check_place<K: Bytes>(&self, record: &Record<'_>, offset: usize) -> Result<(), DecodeError>
        ensures kept { OnOk result
            ((left : ℕ) → BreaksNoneBelow K.item self.now left record.now 7) }
        ensures broken { IfErr result (λ e.
            (left : ℕ) → NamesFirst K.item self.now left record.now offset e) }
    {
        let root = self.level == 0;
        if record.level as u64 != self.level {
            return Err(DecodeError::Level(offset));
        }
        if root & !record.label.is_empty() {
            return Err(DecodeError::RootLabel(offset));
        }
        if root & record.sibling {
            return Err(DecodeError::RootSibling(offset));
        }
        if !root & record.label.is_empty() {
            return Err(DecodeError::EmptyLabel(offset));
        }
        Ok(())
    }

    // Whether the label is valid and in order.
    fn check_label<K: Bytes>(&self, label: &[u8], offset: usize) -> Result<(), DecodeError>
        requires after { IsAfter K.item self.now }
        requires nonempty { self.now.level ≢ 0 → label.now ≢ [] }
        ensures kept { OnOk result (KeepsLabel K.item self.now label.now) }
        ensures broken { IfErr result (λ e. BreaksLabel K.item self.now label.now offset e) }
    {
        if !K::is_valid_bytes(label) {
            return Err(DecodeError::InvalidLabel(offset));
        }
        if self.is_out_of_order::<K>(label) {
            return Err(DecodeError::SiblingOrder(offset));
        }
        Ok(())
    }

    /// Looks at the record that comes, where this one is due and so many values are left. The
    /// rules are tried in the order of their numbers.
    pub fn check<K: Bytes>(
        &self,
        record: &Record<'_>,
        left: usize,
        offset: usize,
    ) -> Result<(), DecodeError>
        requires after { IsAfter K.item self.now }
        ensures kept { OnOk result (IsAccepted K.item self.now left record.now) }
        ensures broken { IfErr result (λ e.
            NamesFirst K.item self.now left record.now offset e) }
    {
        self.check_place::<K>(record, offset)?;
        self.check_label::<K>(record.label, offset)?;
        if (self.level != 0) & !record.value & !record.child {
            return Err(DecodeError::NoValueNoChild(offset));
        }
        if record.value & (left == 0) {
            return Err(DecodeError::TooFewValues(offset));
        }
        Ok(())
    }
}
