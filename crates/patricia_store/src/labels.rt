//! The bytes of labels in one vector.
//!
//! A label is a part of the vector. What stands there stays until all labels are relocated, so a
//! label can be cut in two with no byte moved.
ghost use Rattle.std.specs.Prelude.{◌≡◌, ◌+◌, ◌-◌, ◌<◌, ◌≤◌, ◌++◌, [], take, drop, length};
ghost use Rattle.std.specs.Prelude.{IfOk, OnOk, OnErr, IsOk, vec_len, vec_capacity};
ghost use Rattle.patricia_store.specs.Internal.Packing.{most};
ghost use Rattle.patricia_store.specs.Internal.Labels.{number_at, start_in, len_in, label_in};
ghost use Rattle.patricia_store.specs.Internal.Labels.{IsSpan, Extends, note_room, six_bytes};
ghost use Rattle.patricia_store.specs.Internal.Labels.{label_room, joined_room, cut_room};

use crate::memory::give_back;
use crate::packed::{MOST, Packed};
use std::alloc::{AllocError, Global};
use std::marker::Model;

/// Where a label is: its length and where it begins. A length of 255 says that 12 bytes are there,
/// with the number of the first byte of the label and its length, in six bytes each.
#[derive(Clone, Copy)]
pub struct Span {
    pub len: u8,
    pub offset: Packed,
}

// A label of this length or more has a note.
const LONG: usize = 255;

// How many bytes a note takes.
const NOTE: usize = 12;

/// The bytes of labels.
#[derive(Drop)]
pub struct Labels {
    bytes: Vec<u8>,
}

impl Model for Labels {
    ghost use Rattle.std.specs.Prelude.{◌≤◌, ◌-◌, min, vec_len, vec_capacity};
    ghost use Rattle.patricia_store.specs.Internal.Labels.{Bytes};
    ghost use Rattle.patricia_store.specs.Internal.Packing.{most};

    ghost Value = { Bytes };

    ghost view = { λ l. record {
      items = l.bytes.items;
      room = min (vec_capacity l.bytes) most - vec_len l.bytes;
    } };

    ghost invariant = { λ l. vec_len l.bytes ≤ most };
}

// The number in six bytes.
fn read_number(bytes: &[u8], at: usize) -> usize
    requires { at + 6 ≤ length bytes.now }
    ensures { result ≡ number_at bytes.now at }
{
    let number = bytes[at] as u64
        + 256 * bytes[at + 1] as u64
        + 65536 * bytes[at + 2] as u64
        + 16777216 * bytes[at + 3] as u64
        + 4294967296 * bytes[at + 4] as u64
        + 1099511627776 * bytes[at + 5] as u64;
    number as usize
}

// The first byte and the length of a label.
fn bounds(bytes: &[u8], span: Span) -> (usize, usize)
    requires { IsSpan bytes.now span }
    ensures start { result.0 ≡ start_in bytes.now span }
    ensures len { result.1 ≡ len_in bytes.now span }
    ensures label { take result.1 (drop result.0 bytes.now) ≡ label_in bytes.now span }
    ensures within { result.0 + result.1 ≤ length bytes.now }
{
    let offset = span.offset.get();
    if (span.len as usize) < LONG {
        (offset, span.len as usize)
    } else {
        (read_number(bytes, offset), read_number(bytes, offset + 6))
    }
}

// Adds bytes. Does not allocate.
fn add(bytes: &mut Vec<u8>, more: &[u8])
    requires { vec_len bytes.old + length more.now ≤ vec_capacity bytes.old }
    ensures items { bytes.new.items ≡ bytes.old.items ++ more.now }
    ensures length { vec_len bytes.new ≡ vec_len bytes.old + length more.now }
    ensures capacity { vec_capacity bytes.old ≤ vec_capacity bytes.new }
{
    // there is room
    let _added = bytes.extend_from_slice(more);
}

// Adds a part of the bytes behind them again. Does not allocate.
fn repeat(bytes: &mut Vec<u8>, start: usize, len: usize)
    requires within { start + len ≤ vec_len bytes.old }
    requires room { vec_len bytes.old + len ≤ vec_capacity bytes.old }
    ensures items { bytes.new.items ≡ bytes.old.items ++ take len (drop start bytes.old.items) }
    ensures length { vec_len bytes.new ≡ vec_len bytes.old + len }
    ensures capacity { vec_capacity bytes.old ≤ vec_capacity bytes.new }
{
    // there is room
    let _added = bytes.extend_from_within(start..start + len);
}

// Where a part of the bytes is that begins with one part and ends with another. Both are added
// behind all bytes, but where the second stands right behind the first. Does not allocate.
fn place_joined(bytes: &mut Vec<u8>, first: usize, n: usize, second: usize, m: usize) -> usize
    requires first { first + n ≤ vec_len bytes.old }
    requires second { second + m ≤ vec_len bytes.old }
    requires room { vec_len bytes.old + (n + m) ≤ vec_capacity bytes.old }
    ensures extends { Extends bytes.old.items bytes.new.items }
    ensures label { take (n + m) (drop result bytes.new.items)
        ≡ take n (drop first bytes.old.items) ++ take m (drop second bytes.old.items) }
    ensures within { result + (n + m) ≤ vec_len bytes.new }
    ensures length { vec_len bytes.new ≤ vec_len bytes.old + (n + m) }
    ensures capacity { vec_capacity bytes.old ≤ vec_capacity bytes.new }
{
    let end = first + n;
    if end == second {
        return first;
    }
    let start = bytes.len();
    repeat(bytes, first, n);
    repeat(bytes, second, m);
    start
}

// Adds a number in six bytes. Does not allocate.
fn push_number(bytes: &mut Vec<u8>, n: usize)
    requires small { n < most + 1 }
    requires room { vec_len bytes.old + 6 ≤ vec_capacity bytes.old }
    ensures items { bytes.new.items ≡ bytes.old.items ++ six_bytes n }
    ensures capacity { vec_capacity bytes.new ≡ vec_capacity bytes.old }
{
    bytes.push_reserved((n % 256) as u8);
    bytes.push_reserved((n / 256 % 256) as u8);
    bytes.push_reserved((n / 65536 % 256) as u8);
    bytes.push_reserved((n / 16777216 % 256) as u8);
    bytes.push_reserved((n as u64 / 4294967296 % 256) as u8);
    bytes.push_reserved((n as u64 / 1099511627776) as u8);
}

// Where this part of the bytes is. One of 255 bytes or more gets a note. Does not allocate.
fn note(bytes: &mut Vec<u8>, start: usize, len: usize) -> Span
    requires within { start + len ≤ vec_len bytes.old }
    requires small { vec_len bytes.old + note_room len ≤ most }
    requires room { vec_len bytes.old + note_room len ≤ vec_capacity bytes.old }
    ensures extends { Extends bytes.old.items bytes.new.items }
    ensures span { IsSpan bytes.new.items result }
    ensures label { label_in bytes.new.items result ≡ take len (drop start bytes.old.items) }
    ensures length { vec_len bytes.new ≡ vec_len bytes.old + note_room len }
    ensures capacity { vec_capacity bytes.new ≡ vec_capacity bytes.old }
{
    if len < LONG {
        return Span {
            len: len as u8,
            offset: Packed::new(start),
        };
    }
    let offset = bytes.len();
    push_number(bytes, start);
    push_number(bytes, len);
    Span {
        len: 255,
        offset: Packed::new(offset),
    }
}

/// How many bytes a label of this length takes.
pub fn label_room(len: usize) -> usize
    requires { len ≤ 18446744073709551603 }
    ensures { result ≡ label_room len }
{
    if len < LONG { len } else { len + NOTE }
}

/// How many bytes the notes take of the two parts of a label of this length.
pub fn cut_room(len: usize) -> usize
    ensures { result ≡ cut_room len }
{
    if len < LONG { 0 } else { 2 * NOTE }
}

impl Labels {
    /// No byte. Does not allocate.
    pub fn new(alloc: Global) -> Labels
        ensures { result.items ≡ [] }
    {
        Labels {
            bytes: Vec::new(alloc),
        }
    }

    /// The label that is there.
    pub fn get(&self, span: Span) -> &[u8]
        requires { IsSpan self.now.items span }
        ensures label { result.now ≡ label_in self.now.items span }
        ensures short { length result.now ≤ most }
    {
        let (start, len) = bounds(self.bytes.as_slice(), span);
        &self.bytes[start..start + len]
    }

    /// The bytes from the label on that is there, and how many of them it has.
    pub fn get_onwards(&self, span: Span) -> (&[u8], usize)
        requires { IsSpan self.now.items span }
        ensures label { take result.1 result.0.now ≡ label_in self.now.items span }
        ensures within { result.1 ≤ length result.0.now }
    {
        let (start, len) = bounds(self.bytes.as_slice(), span);
        (&self.bytes[start..], len)
    }

    /// Adds a label. Does not allocate.
    pub fn push(&mut self, label: &[u8]) -> Span
        requires { label_room (length label.now) ≤ self.old.room }
        ensures extends { Extends self.old.items self.new.items }
        ensures span { IsSpan self.new.items result }
        ensures label { label_in self.new.items result ≡ label.now }
        ensures length { length self.new.items
            ≡ length self.old.items + label_room (length label.now) }
        ensures room { self.old.room ≤ self.new.room + label_room (length label.now) }
    {
        if label.is_empty() {
            return Span {
                len: 0,
                offset: Packed::new(0),
            };
        }
        let start = self.bytes.len();
        add(&mut self.bytes, label);
        note(&mut self.bytes, start, label.len())
    }

    /// Adds the label that begins with `upper` and ends with `lower`. Does not allocate.
    pub fn push_joined(&mut self, upper: &[u8], lower: &[u8]) -> Span
        requires { joined_room (length upper.now) (length lower.now) ≤ self.old.room }
        ensures extends { Extends self.old.items self.new.items }
        ensures span { IsSpan self.new.items result }
        ensures label { label_in self.new.items result ≡ upper.now ++ lower.now }
        ensures room { self.old.room
            ≤ self.new.room + joined_room (length upper.now) (length lower.now) }
    {
        let start = self.bytes.len();
        add(&mut self.bytes, upper);
        add(&mut self.bytes, lower);
        note(&mut self.bytes, start, upper.len() + lower.len())
    }

    /// The label that begins with one and ends with another. Adds no byte of it where the second
    /// stands right behind the first. Does not allocate.
    pub fn join(&mut self, upper: Span, lower: Span) -> Span
        requires upper { IsSpan self.old.items upper }
        requires lower { IsSpan self.old.items lower }
        requires room { joined_room (len_in self.old.items upper) (len_in self.old.items lower)
            ≤ self.old.room }
        ensures extends { Extends self.old.items self.new.items }
        ensures span { IsSpan self.new.items result }
        ensures label { label_in self.new.items result
            ≡ label_in self.old.items upper ++ label_in self.old.items lower }
        ensures room { self.old.room ≤ self.new.room
            + joined_room (len_in self.old.items upper) (len_in self.old.items lower) }
    {
        let (first, n) = bounds(self.bytes.as_slice(), upper);
        let (second, m) = bounds(self.bytes.as_slice(), lower);
        let start = place_joined(&mut self.bytes, first, n, second, m);
        note(&mut self.bytes, start, n + m)
    }

    /// The first `n` bytes of a label, or all where there are fewer, and the others. Does not
    /// allocate, and copies no byte of it.
    pub fn cut(&mut self, span: Span, n: usize) -> (Span, Span)
        requires span { IsSpan self.old.items span }
        requires room { cut_room (len_in self.old.items span) ≤ self.old.room }
        ensures extends { Extends self.old.items self.new.items }
        ensures first { IsSpan self.new.items result.0 }
        ensures last { IsSpan self.new.items result.1 }
        ensures front { label_in self.new.items result.0
            ≡ take n (label_in self.old.items span) }
        ensures back { label_in self.new.items result.1 ≡ drop n (label_in self.old.items span) }
        ensures room { self.old.room
            ≤ self.new.room + cut_room (len_in self.old.items span) }
    {
        let (start, len) = bounds(self.bytes.as_slice(), span);
        let n = n.min(len);
        let front = note(&mut self.bytes, start, n);
        let back = note(&mut self.bytes, start + n, len - n);
        (front, back)
    }
}

impl Labels {
    /// No byte, with room for some.
    pub fn with_capacity(alloc: Global, capacity: usize) -> Result<Labels, AllocError>
        ensures items { IfOk result (λ l. l.items ≡ []) }
        ensures room { IfOk result (λ l. capacity ≤ l.room) }
        ensures succeeds { capacity ≡ 0 → IsOk result }
    {
        if capacity > MOST {
            return Err(AllocError);
        }
        let bytes = Vec::with_capacity(alloc, capacity)?;
        Ok(Labels { bytes })
    }

    /// The same bytes in a vector of their own, which is reserved once.
    pub fn try_clone(&self, alloc: Global) -> Result<Labels, AllocError>
        ensures { IfOk result (λ l. l.items ≡ self.now.items) }
    {
        Ok(Labels {
            bytes: Vec::from_slice(alloc, self.bytes.as_slice())?,
        })
    }

    /// How many bytes there are.
    pub fn len(&self) -> usize
        ensures value { result ≡ length self.now.items }
        ensures small { result ≤ most }
    {
        self.bytes.len()
    }

    /// How many more bytes there is room for.
    pub fn room(&self) -> usize
        ensures value { result ≡ self.now.room }
        ensures few { length self.now.items + result ≤ most }
    {
        self.bytes.capacity().min(MOST) - self.bytes.len()
    }

    /// Makes room for so many bytes more.
    pub fn reserve(&mut self, more: usize) -> Result<(), AllocError>
        ensures items { self.new.items ≡ self.old.items }
        ensures room { OnOk result (more ≤ self.new.room) }
        ensures kept { self.old.room ≤ self.new.room }
        ensures same { more ≤ self.old.room → self.new.room ≡ self.old.room }
        ensures refused { OnErr result (self.new.room ≡ self.old.room) }
        ensures succeeds { more ≤ self.old.room → IsOk result }
    {
        let len = self.bytes.len();
        if more > MOST - len {
            return Err(AllocError);
        }
        if more <= self.bytes.capacity() - len {
            return Ok(());
        }
        let growth = more.max(len / 4).max(64);
        self.bytes.reserve_exact(growth)
    }

    /// Gives the bytes back.
    pub fn give_back(self) {
        give_back(self.bytes);
    }

    /// Drops all bytes.
    pub fn clear(&mut self)
        ensures items { self.new.items ≡ [] }
        ensures room { self.old.room ≤ self.new.room }
    {
        self.bytes.clear();
    }
}
