//! What a look-up reads of a node first.
ghost use Rattle.std.specs.Prelude.{◌≡◌, ◌+◌, ◌<◌, ◌*◌, ◌/◌, ◌%◌, IfSome, nat_lt};
ghost use Rattle.patricia_store.specs.Internal.Packing.{most};
ghost use Rattle.patricia_store.specs.Internal.Heads.{apart_bit_of, leaf_bit_of, label_bits_of};
ghost use Rattle.patricia_store.specs.Internal.Heads.{link_of, next_of, head_of};
ghost use Rattle.patricia_store.specs.Internal.Heads.{child_in, sibling_in, offset_in};
ghost use Rattle.patricia_store.specs.Internal.Heads.{with_child, with_sibling};

use crate::packed::{MOST, Packed};
use std::mem;

/// The links of a node, and the first byte and the length of its label.
// From its highest bit on, `word` has a bit that says that the sibling is not the next node of the
// vector, the first byte of the label, a bit for a node without children, and in six bits the
// length of the label, `LONG` where it is no less. So `word` is less than `FIRST * b` where the
// sibling is the next node and the first byte is less than b.
//
// `link` is the number of the first child, and of a node without children says where the label is.
// `next` is the number of the sibling, or `NONE`.
#[derive(Clone, Copy)]
pub struct Head {
    word: u16,
    link: Packed,
    next: Packed,
}

const APART: u16 = 32768;

const FIRST: u16 = 128;

const LEAF: u16 = 64;

/// A length that a head notes is that of the label where it is less.
pub const LONG: usize = 63;

const NONE: usize = MOST;

const _: () = prove!(mem::size_of::<Head>() == 14);

// The bits of a label: its first byte, 0 where there is none, and its length.
fn label_bits(label: &[u8]) -> u16
    ensures value { result ≡ label_bits_of label.now }
    ensures small { result < APART }
{
    let first = if label.is_empty() { 0 } else { label[0] };
    let len = if label.len() < LONG {
        label.len()
    } else {
        LONG
    };
    FIRST * first as u16 + len as u16
}

// The bit of a node without this child.
fn leaf_bit(child: Option<usize>) -> u16
    ensures { result ≡ leaf_bit_of child }
{
    if child.is_none() { LEAF } else { 0 }
}

// The bit of a node before this number, whose sibling may be there.
fn apart_bit(next: usize, sibling: Option<usize>) -> u16
    ensures { result ≡ apart_bit_of next sibling }
{
    match sibling {
        Some(id) if id == next => 0,
        _ => APART,
    }
}

// The first child, or where the label is of a node without one.
fn link(child: Option<usize>, offset: Packed) -> Packed
    requires { IfSome child (λ n. n < most + 1) }
    ensures { result ≡ link_of child offset }
{
    match child {
        None => offset,
        Some(id) => Packed::new(id),
    }
}

// The sibling, or `NONE`.
fn next(sibling: Option<usize>) -> Packed
    requires { IfSome sibling (λ n. n < most + 1) }
    ensures { result ≡ next_of sibling }
{
    match sibling {
        None => Packed::new(NONE),
        Some(id) => Packed::new(id),
    }
}

impl Head {
    /// The head of a node before the one with the number `next`, whose label is at `offset`.
    pub fn new(
        next_id: usize,
        child: Option<usize>,
        sibling: Option<usize>,
        label: &[u8],
        offset: Packed,
    ) -> Head
        requires child { IfSome child (λ n. n < most + 1) }
        requires sibling { IfSome sibling (λ n. n < most + 1) }
        ensures { result ≡ head_of next_id child sibling label.now offset }
    {
        let bits = leaf_bit(child) + label_bits(label);
        Head {
            word: apart_bit(next_id, sibling) + bits,
            link: link(child, offset),
            next: next(sibling),
        }
    }

    /// The first byte of the label, 0 where there is none.
    pub fn first_byte(self) -> u8
        ensures { result ≡ self.word / 128 % 256 }
    {
        (self.word / FIRST % 256) as u8
    }

    /// The length of the label, or 63 where it is no less.
    pub fn short_len(self) -> usize
        ensures { result ≡ self.word % 64 }
    {
        (self.word % LEAF) as usize
    }

    /// Whether the sibling is the next node and the first byte is less than `b`.
    pub fn is_before(self, b: u8) -> bool
        ensures { result ≡ nat_lt self.word (128 * b) }
    {
        self.word < FIRST * b as u16
    }

    /// Where the label is of a node without children.
    pub fn leaf_offset(self) -> Option<Packed>
        ensures { result ≡ offset_in self }
    {
        if self.word / LEAF % 2 == 1 {
            Some(self.link)
        } else {
            None
        }
    }

    /// The first child.
    pub fn child(self) -> Option<usize>
        ensures value { result ≡ child_in self }
        ensures small { IfSome result (λ n. n < most + 1) }
    {
        if self.word / LEAF % 2 == 1 {
            None
        } else {
            Some(self.link.get())
        }
    }

    /// The sibling.
    pub fn sibling(self) -> Option<usize>
        ensures value { result ≡ sibling_in self }
        ensures small { IfSome result (λ n. n < most) }
    {
        let next = self.next.get();
        if next == NONE { None } else { Some(next) }
    }

    /// Puts another number for the first child, where the label is at `offset`.
    pub fn set_child(&mut self, child: Option<usize>, offset: Packed)
        requires { IfSome child (λ n. n < most + 1) }
        ensures { self.new ≡ with_child child offset self.old }
    {
        self.word = self.word / FIRST * FIRST + (leaf_bit(child) + self.word % LEAF);
        self.link = link(child, offset);
    }

    /// Puts another number for the sibling of a node before the one with the number `next_id`.
    pub fn set_sibling(&mut self, next_id: usize, sibling: Option<usize>)
        requires { IfSome sibling (λ n. n < most + 1) }
        ensures { self.new ≡ with_sibling next_id sibling self.old }
    {
        self.word = apart_bit(next_id, sibling) + self.word % APART;
        self.next = next(sibling);
    }

    /// Puts other numbers for the links, of which there are as many, of a node that comes before
    /// the one with the number `next_id`.
    pub fn move_links(&mut self, next_id: usize, child: Option<usize>, sibling: Option<usize>)
        requires child { IfSome child (λ n. n < most + 1) }
        requires sibling { IfSome sibling (λ n. n < most + 1) }
        ensures { self.new
            ≡ with_sibling next_id sibling (with_child child self.old.link self.old) }
    {
        let offset = self.link;
        self.set_child(child, offset);
        self.set_sibling(next_id, sibling);
    }
}
