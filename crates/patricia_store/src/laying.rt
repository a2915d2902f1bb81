//! Labels that are laid one behind another in the order of their nodes.
ghost use Rattle.std.specs.Prelude.{◌≡◌, ◌+◌, ◌<◌, ◌≤◌, length, vec_capacity, IfSome, IfNone};
ghost use Rattle.patricia_store.specs.Internal.Packing.{most};
ghost use Rattle.patricia_store.specs.Internal.Heads.{child_in, with_child};
ghost use Rattle.patricia_store.specs.Internal.Bodies.{span_in, value_in, body_of};
ghost use Rattle.patricia_store.specs.Internal.Labels.{label_in, label_room, IsSpan, Extends};
ghost use Rattle.patricia_store.specs.Internal.Stores.{nodes_of, AreSound, AreSpans, spans_room};

use crate::body::Body;
use crate::head::Head;
use crate::labels::{Labels, Span, label_room};

/// How many bytes the labels of all nodes take, where that is no more than `limit`.
pub fn needed_bytes<V>(bodies: &Vec<Body<V>>, labels: &Labels, limit: usize) -> Option<usize>
    requires spans { AreSpans labels.now.items bodies.now.items }
    requires small { limit ≤ most }
    ensures value { IfSome result (λ n. n ≡ spans_room labels.now.items bodies.now.items) }
    ensures fits { IfSome result (λ n. n ≤ limit) }
    ensures more { IfNone result (limit < spans_room labels.now.items bodies.now.items) }
{
    let mut total = 0;
    let mut id = 0;
    while id < bodies.len() {
        total += label_room(labels.get(bodies[id].span()).len());
        if total > limit {
            return None;
        }
        id += 1;
    }
    Some(total)
}

// Adds the label of a node to a list of labels, where the node has it from then on. Returns where
// it is. Does not allocate.
fn lay_label<V>(head: &mut Head, body: &mut Body<V>, labels: &Labels, laid: &mut Labels) -> Span
    requires span { IsSpan labels.now.items (span_in body.old) }
    requires room { label_room (length (label_in labels.now.items (span_in body.old)))
        ≤ laid.old.room }
    ensures head { head.new ≡ with_child (child_in head.old) result.offset head.old }
    ensures body { body.new ≡ body_of result (value_in body.old) }
    ensures extends { Extends laid.old.items laid.new.items }
    ensures span { IsSpan laid.new.items result }
    ensures label { label_in laid.new.items result
        ≡ label_in labels.now.items (span_in body.old) }
    ensures length { length laid.new.items ≡ length laid.old.items
        + label_room (length (label_in labels.now.items (span_in body.old))) }
    ensures room { laid.old.room ≤ laid.new.room
        + label_room (length (label_in labels.now.items (span_in body.old))) }
{
    let span = laid.push(labels.get(body.span()));
    head.set_child(head.child(), span.offset);
    body.set_span(span);
    span
}

/// Adds the labels of all nodes to a list of labels, in the order of the nodes, which have them
/// there from then on. Does not allocate.
pub fn lay<V>(heads: &mut Vec<Head>, bodies: &mut Vec<Body<V>>, labels: &Labels, laid: &mut Labels)
    requires sound { AreSound heads.old.items bodies.old.items labels.now.items }
    requires room { spans_room labels.now.items bodies.old.items ≤ laid.old.room }
    ensures sound { AreSound heads.new.items bodies.new.items laid.new.items }
    ensures nodes { nodes_of heads.new.items bodies.new.items laid.new.items
        ≡ nodes_of heads.old.items bodies.old.items labels.now.items }
    ensures length { length laid.new.items
        ≡ length laid.old.items + spans_room labels.now.items bodies.old.items }
    ensures room { laid.old.room
        ≤ laid.new.room + spans_room labels.now.items bodies.old.items }
    ensures heads_capacity { vec_capacity heads.new ≡ vec_capacity heads.old }
    ensures bodies_capacity { vec_capacity bodies.new ≡ vec_capacity bodies.old }
{
    let mut id = 0;
    while id < heads.len() {
        let _span = lay_label(&mut heads[id], &mut bodies[id], labels, laid);
        id += 1;
    }
}
