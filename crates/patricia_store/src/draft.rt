//! A node as it is to be written, and where its label is.
ghost use Rattle.std.specs.Prelude.{◌≡◌, ◌+◌, ◌<◌, ℕ, List, Some, None, length};
ghost use Rattle.std.specs.Prelude.{IfSome, vec_len, vec_capacity, slice_get, ◌++◌, ◌∷◌, []};
ghost use Rattle.std.specs.Vec.{with_item};
ghost use Rattle.patricia_store.specs.Internal.Packing.{most, packed};
ghost use Rattle.patricia_store.specs.Internal.Heads.{head_of};
ghost use Rattle.patricia_store.specs.Internal.Labels.{label_in, IsSpan};
ghost use Rattle.patricia_store.specs.Internal.Bodies.{span_in, value_in, body_of};
ghost use Rattle.patricia_store.specs.Internal.Stores.{IsSound};

use crate::body::Body;
use crate::head::{Head, LONG};
use crate::labels::{Labels, Span};
use crate::packed::Packed;

/// Where the label is of a node with this head and this body.
pub fn span_of<V>(head: Head, body: &Body<V>) -> Span
    ensures { (next : ℕ) (bytes : List ℕ) → IsSound next head body.now bytes
        → result ≡ span_in body.now }
{
    match head.leaf_offset() {
        Some(offset) if head.short_len() < LONG => Span {
            len: head.short_len() as u8,
            offset,
        },
        _ => body.span(),
    }
}

/// The length of the label of a node with this body.
pub fn label_len<V>(body: &Body<V>, labels: &Labels) -> usize
    requires { IsSpan labels.now.items (span_in body.now) }
    ensures { result ≡ length (label_in labels.now.items (span_in body.now)) }
{
    labels.get(body.span()).len()
}

/// Where the label is of a node with this body, if it is to have no child.
pub fn offset_of<V>(child: Option<usize>, body: &Body<V>) -> Packed
    ensures { child ≡ None → result ≡ (span_in body.now).offset }
{
    match child {
        None => body.span().offset,
        Some(_) => Packed::new(0),
    }
}

/// What a node is to be.
pub struct Draft<V> {
    pub span: Span,
    pub child: Option<usize>,
    pub sibling: Option<usize>,
    pub value: Option<V>,
}

/// Puts another node at a number, and returns the value of the one that was there.
pub fn write<V>(
    heads: &mut Vec<Head>,
    bodies: &mut Vec<Body<V>>,
    labels: &Labels,
    id: usize,
    node: Draft<V>,
) -> Option<V>
    requires in_heads { id < vec_len heads.old }
    requires in_bodies { id < vec_len bodies.old }
    requires span { IsSpan labels.now.items node.span }
    requires child { IfSome node.child (λ n. n < most + 1) }
    requires sibling { IfSome node.sibling (λ n. n < most + 1) }
    ensures heads { heads.new ≡ with_item heads.old id (head_of (id + 1) node.child node.sibling
        (label_in labels.now.items node.span) node.span.offset) }
    ensures bodies { bodies.new ≡ with_item bodies.old id (body_of node.span node.value) }
    ensures value { (b : Body V) → slice_get bodies.old.items id ≡ Some b
        → result ≡ value_in b }
{
    let Draft {
        span,
        child,
        sibling,
        value,
    } = node;
    let label = labels.get(span);
    heads[id] = Head::new(id + 1, child, sibling, label, span.offset);
    bodies[id].replace(span, value)
}

/// Adds a node behind the last. Does not allocate.
pub fn push<V>(heads: &mut Vec<Head>, bodies: &mut Vec<Body<V>>, labels: &Labels, node: Draft<V>)
    requires in_heads { vec_len heads.old < vec_capacity heads.old }
    requires in_bodies { vec_len bodies.old < vec_capacity bodies.old }
    requires span { IsSpan labels.now.items node.span }
    requires child { IfSome node.child (λ n. n < most + 1) }
    requires sibling { IfSome node.sibling (λ n. n < most + 1) }
    ensures heads { heads.new.items ≡ heads.old.items ++ head_of (vec_len heads.old + 1) node.child
        node.sibling (label_in labels.now.items node.span) node.span.offset ∷ [] }
    ensures bodies { bodies.new.items ≡ bodies.old.items ++ body_of node.span node.value ∷ [] }
    ensures heads_capacity { vec_capacity heads.new ≡ vec_capacity heads.old }
    ensures bodies_capacity { vec_capacity bodies.new ≡ vec_capacity bodies.old }
{
    let Draft {
        span,
        child,
        sibling,
        value,
    } = node;
    let label = labels.get(span);
    let next = heads.len() + 1;
    heads.push_reserved(Head::new(next, child, sibling, label, span.offset));
    bodies.push_reserved(Body::new(span, value));
}

/// Adds a node without label, value and links behind the last. Does not allocate.
pub fn push_blank<V>(heads: &mut Vec<Head>, bodies: &mut Vec<Body<V>>)
    requires in_heads { vec_len heads.old < vec_capacity heads.old }
    requires in_bodies { vec_len bodies.old < vec_capacity bodies.old }
    ensures heads { heads.new.items
        ≡ heads.old.items ++ head_of (vec_len heads.old + 1) None None [] (packed 0) ∷ [] }
    ensures bodies { bodies.new.items
        ≡ bodies.old.items ++ body_of (record { len = 0; offset = packed 0 }) None ∷ [] }
    ensures heads_capacity { vec_capacity heads.new ≡ vec_capacity heads.old }
    ensures bodies_capacity { vec_capacity bodies.new ≡ vec_capacity bodies.old }
{
    let offset = Packed::new(0);
    heads.push_reserved(Head::new(heads.len() + 1, None, None, &[], offset));
    bodies.push_reserved(Body::new(Span { len: 0, offset }, None));
}
