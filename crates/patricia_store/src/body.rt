//! What a node has beside its head.
ghost use Rattle.std.specs.Prelude.{◌≡◌, IfOk, IfSome};
ghost use Rattle.std.specs.Borrow.{sem};
ghost use Rattle.std.specs.Option.{option_copied, option_copied_mut};
ghost use Rattle.patricia_model.specs.Clones.{CloneIsSame};
ghost use Rattle.patricia_store.specs.Internal.Bodies.{span_in, value_in, body_of};
ghost use Rattle.patricia_store.specs.Internal.Bodies.{lends_value_in};

use crate::labels::Span;
use crate::packed::Packed;
use std::alloc::AllocError;
use std::mem;

/// Where the label of a node is, and the value.
// The parts of the label's span stand in the variants, so that the variant's own byte and they are
// eight bytes together.
#[derive(Drop)]
pub enum Body<V> {
    Plain { len: u8, offset: Packed },
    Valued { len: u8, offset: Packed, value: V },
}

const _: () = prove!(mem::size_of::<Body<()>>() == 8);

const _: () = prove!(mem::size_of::<Body<u32>>() == 12);

const _: () = prove!(mem::size_of::<Body<u64>>() == 16);

impl<V> Body<V> {
    /// The body with this label and value.
    pub fn new(span: Span, value: Option<V>) -> Body<V>
        ensures { result ≡ body_of span value }
    {
        let Span { len, offset } = span;
        match value {
            None => Body::Plain { len, offset },
            Some(value) => Body::Valued { len, offset, value },
        }
    }

    /// Where the label is.
    pub fn span(&self) -> Span
        ensures { result ≡ span_in self.now }
    {
        match self {
            Body::Plain { len, offset } => Span {
                len: *len,
                offset: *offset,
            },
            Body::Valued { len, offset, .. } => Span {
                len: *len,
                offset: *offset,
            },
        }
    }

    /// The value, where there is one.
    pub fn value(&self) -> Option<&V>
        ensures { option_copied result ≡ value_in self.now }
    {
        match self {
            Body::Plain { .. } => None,
            Body::Valued { value, .. } => Some(value),
        }
    }

    /// Lends the value.
    pub fn value_mut(&mut self) -> Option<&mut V>
        ensures* writes { sem 𝓛 (lends_value_in V.row self.entry result) }
        ensures value { option_copied_mut result ≡ value_in self.old }
    {
        match self {
            Body::Plain { .. } => None,
            Body::Valued { value, .. } => Some(value),
        }
    }

    // The value alone.
    fn into_value(self) -> Option<V>
        ensures { result ≡ value_in self }
    {
        match self {
            Body::Plain { .. } => None,
            Body::Valued { value, .. } => Some(value),
        }
    }

    /// Puts another label and value, or none, and returns the value that was there.
    pub fn replace(&mut self, span: Span, value: Option<V>) -> Option<V>
        ensures new { self.new ≡ body_of span value }
        ensures old { result ≡ value_in self.old }
    {
        mem::replace(self, Body::new(span, value)).into_value()
    }

    /// Puts another label.
    pub fn set_span(&mut self, span: Span)
        ensures { self.new ≡ body_of span (value_in self.old) }
    {
        match self {
            Body::Plain { len, offset } => {
                *len = span.len;
                *offset = span.offset;
            }
            Body::Valued { len, offset, .. } => {
                *len = span.len;
                *offset = span.offset;
            }
        }
    }
}

impl<V: Clone> Body<V> {
    /// The same label, and a copy of the value where there is one.
    pub fn try_clone(&self) -> Result<Body<V>, AllocError>
        requires { IfSome (value_in self.now) (CloneIsSame V.is_clone) }
        ensures { IfOk result (λ b. b ≡ self.now) }
    {
        match self {
            Body::Plain { len, offset } => Ok(Body::Plain {
                len: *len,
                offset: *offset,
            }),
            Body::Valued { len, offset, value } => Ok(Body::Valued {
                len: *len,
                offset: *offset,
                value: value.clone()?,
            }),
        }
    }
}
