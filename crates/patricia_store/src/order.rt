//! Nodes that are laid in another order where they are.
//!
//! An order is a list of numbers: the node with the first number comes first. Beside it stands its
//! inverse, which says of each node at which place it comes.
ghost use Rattle.std.specs.Prelude.{◌≡◌, ◌<◌, ◌≤◌, ℕ, length, IfSome};
ghost use Rattle.std.specs.Prelude.{vec_len, vec_capacity};
ghost use Rattle.patricia_store.specs.Internal.Permutations.{AreInverse, Gathers};
ghost use Rattle.patricia_store.specs.Internal.Permutations.{KeepsGathered, StartsWith};
ghost use Rattle.patricia_store.specs.Internal.Renumbering.{place_of, moved};
ghost use Rattle.patricia_store.specs.Internal.Renumbering.{RenumbersHeads};

use crate::body::Body;
use crate::head::Head;
use crate::interleave::{count_strays, interleave};
use crate::memory::give_back;
use crate::packed::Packed;

// The number that a node gets.
fn place(places: &[u32], id: usize) -> usize
    ensures value { result ≡ place_of places.now id }
    ensures small { (n : ℕ) → 4294967296 ≤ n → id < n → result < n }
{
    match places.get(id) {
        Some(&place) => place as usize,
        None => id,
    }
}

/// The link to the same node, where each number has the place that is listed for it.
pub fn moved_link(places: &[u32], link: Option<usize>) -> Option<usize>
    ensures value { result ≡ moved places.now link }
    ensures small { (n : ℕ) → 4294967296 ≤ n → IfSome link (λ id. id < n)
        → IfSome result (λ id. id < n) }
{
    match link {
        Some(id) => Some(place(places, id)),
        None => None,
    }
}

/// Links heads by the new numbers of children and siblings, each as at its new place.
pub fn renumber(heads: &mut Vec<Head>, places: &[u32])
    requires { length places.now ≡ vec_len heads.old }
    ensures items { RenumbersHeads places.now heads.old.items heads.new.items }
    ensures capacity { vec_capacity heads.new ≡ vec_capacity heads.old }
{
    let mut id = 0;
    while id < heads.len() {
        let head = &mut heads[id];
        let next = place(places, id) + 1;
        let child = moved_link(places, head.child());
        let sibling = moved_link(places, head.sibling());
        head.move_links(next, child, sibling);
        id += 1;
    }
}

// Puts heads and bodies in this order. Does not allocate.
fn permute<V>(
    heads: &mut Vec<Head>,
    bodies: &mut Vec<Body<V>>,
    mut order: Vec<u32>,
    mut places: Vec<u32>,
)
    requires inverse { AreInverse order.items places.items }
    requires heads { length order.items ≡ vec_len heads.old }
    requires bodies { length order.items ≡ vec_len bodies.old }
    ensures heads { Gathers order.items heads.old.items heads.new.items }
    ensures bodies { Gathers order.items bodies.old.items bodies.new.items }
    ensures heads_capacity { vec_capacity heads.new ≡ vec_capacity heads.old }
    ensures bodies_capacity { vec_capacity bodies.new ≡ vec_capacity bodies.old }
{
    let mut i = 0;
    while i < heads.len() {
        // what belongs here changes places with what is here
        let from = order[i];
        let to = places[i];
        heads.swap(i, from as usize);
        bodies.swap(i, from as usize);
        order[to as usize] = from;
        places[from as usize] = to;
        i += 1;
    }
    give_back(order);
    give_back(places);
}

// Adds heads and bodies of nodes without label, value and links, until there are `n` of them. Does
// not allocate.
fn fill<V>(heads: &mut Vec<Head>, bodies: &mut Vec<Body<V>>, n: usize)
    requires same { vec_len bodies.old ≡ vec_len heads.old }
    requires more { vec_len heads.old ≤ n }
    requires in_heads { n ≤ vec_capacity heads.old }
    requires in_bodies { n ≤ vec_capacity bodies.old }
    ensures heads { StartsWith heads.new.items heads.old.items }
    ensures bodies { StartsWith bodies.new.items bodies.old.items }
    ensures heads_len { vec_len heads.new ≡ n }
    ensures bodies_len { vec_len bodies.new ≡ n }
    ensures heads_capacity { vec_capacity heads.new ≡ vec_capacity heads.old }
    ensures bodies_capacity { vec_capacity bodies.new ≡ vec_capacity bodies.old }
{
    while heads.len() < n {
        let offset = Packed::new(0);
        heads.push_reserved(Head::new(0, None, None, &[], offset));
        bodies.push_reserved(Body::Plain { len: 0, offset });
    }
}

/// Puts heads and bodies in this order, and keeps the first `used` of them. Those with numbers
/// below `settled` are quickest where they are in that order already: without room behind the nodes
/// for the others, all change places one by one. Does not allocate.
pub fn arrange<V: Drop>(
    heads: &mut Vec<Head>,
    bodies: &mut Vec<Body<V>>,
    mut order: Vec<u32>,
    mut places: Vec<u32>,
    used: usize,
    settled: usize,
)
    requires inverse { AreInverse order.items places.items }
    requires heads { length order.items ≡ vec_len heads.old }
    requires bodies { length order.items ≡ vec_len bodies.old }
    ensures heads { KeepsGathered used order.items heads.old.items heads.new.items }
    ensures bodies { KeepsGathered used order.items bodies.old.items bodies.new.items }
    ensures heads_capacity { vec_capacity heads.new ≡ vec_capacity heads.old }
    ensures bodies_capacity { vec_capacity bodies.new ≡ vec_capacity bodies.old }
{
    let len = heads.len();
    let first = used.min(len);
    let strays = count_strays(&order[..first], settled);
    let room = heads
        .capacity()
        .min(bodies.capacity())
        .min(u32::MAX as usize);
    if room < len || room - len < strays {
        permute(heads, bodies, order, places);
    } else {
        order.truncate(first);
        // the numbers of both lists are used up as items are put to their places
        places.truncate(first);
        places.copy_from_slice(order.as_slice());
        fill(heads, bodies, len + strays);
        interleave(heads.as_mut_slice(), order, len, settled);
        interleave(bodies.as_mut_slice(), places, len, settled);
    }
    heads.truncate(first);
    bodies.truncate(first);
}
