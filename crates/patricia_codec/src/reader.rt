//! Records, read one after the other until one breaks a rule.
ghost use Rattle.std.specs.Prelude.{◌≡◌, ◌++◌, ◌+◌, ◌<◌, ◌≤◌, ℕ, List, [], drop, length, IfOk};
ghost use Rattle.std.specs.Prelude.{IfErr, OnOk};
ghost use Rattle.patricia_wire.specs.Records.{Record};
ghost use Rattle.patricia_wire.specs.Faults.{IsRefusal, value_marks};
ghost use Rattle.patricia_wire.specs.Internal.Readings.{Due};
ghost use Rattle.patricia_codec.specs.Internal.Steps.{IsReading, IsReaderStart, HasRead, ReadsOn};
ghost use Rattle.patricia_codec.specs.Internal.Steps.{ReadIsRefused, IsRefusedAfter};
ghost use Rattle.patricia_codec.specs.Internal.Steps.{sibling_then_child};

use crate::due::Due;
use crate::record::Record;
use crate::width::Width;
use patricia_keys::Bytes;
use patricia_wire::DecodeError;
use std::alloc::{AllocError, Global};

/// How far bytes are read.
#[derive(Drop)]
pub struct Reader<'a> {
    bytes: &'a [u8],
    // where the record that comes begins
    offset: usize,
    // the records that are due, the one that comes last
    due: Vec<Due<'a>>,
}

impl<'a> Reader<'a> {
    /// The root is due.
    pub fn new(alloc: Global, bytes: &'a [u8]) -> Result<Self, AllocError>
        ensures start { IfOk result IsReaderStart }
        ensures bytes { IfOk result (λ r. r.bytes.now ≡ bytes.now) }
    {
        let mut due = Vec::new(alloc);
        due.push(Due {
            level: 0,
            after: None,
        })?;
        Ok(Reader {
            bytes,
            offset: 0,
            due,
        })
    }

    // What is due behind a record: its sibling, and before that its child.
    fn expect(&mut self, record: &Record<'a>) -> Result<(), AllocError>
        ensures due { OnOk result (
            self.new.due.items ≡ self.old.due.items ++ sibling_then_child record.now) }
        ensures bytes { self.new.bytes ≡ self.old.bytes }
        ensures offset { self.new.offset ≡ self.old.offset }
    {
        let level = record.level as u64;
        if record.sibling {
            self.due.push(Due {
                level,
                after: Some(record.label),
            })?;
        }
        if record.child {
            self.due.push(Due {
                level: level + 1,
                after: None,
            })?;
        }
        Ok(())
    }

    /// The record that comes, where so many values are left, or `None` where no record is due.
    pub fn next<K: Bytes, W: Width>(
        &mut self,
        left: usize,
    ) -> Result<Option<Record<'a>>, DecodeError>
        requires { HasRead K.item W.width self.old left }
        ensures ok { IfOk result (λ found. ReadsOn K.item W.width left self.old found self.new) }
        ensures refused { IfErr result (λ e. ReadIsRefused K.item W.width left self.old e) }
        ensures bytes { self.new.bytes ≡ self.old.bytes }
    {
        let Some(due) = self.due.pop() else {
            return Ok(None);
        };
        let Some(record) = Record::read::<W>(&self.bytes[self.offset..]) else {
            return Err(DecodeError::Truncated(self.offset));
        };
        due.check::<K>(&record, left, self.offset)?;
        self.offset += W::head() + record.label.len();
        self.expect(&record)?;
        Ok(Some(record))
    }

    /// Looks at what is left behind the last record, where so many values are left.
    pub fn finish<K: Bytes, W: Width>(&self, left: usize) -> Result<(), DecodeError>
        requires { HasRead K.item W.width self.now left }
        ensures whole { OnOk result ((self.now.offset ≡ length self.now.bytes.now) × (left ≡ 0)) }
        ensures refused { IfErr result (λ e. IsRefusedAfter K.item W.width left self.now e) }
    {
        if self.offset < self.bytes.len() {
            return Err(DecodeError::TrailingBytes(self.offset));
        }
        if left > 0 {
            return Err(DecodeError::TooManyValues);
        }
        Ok(())
    }
}
