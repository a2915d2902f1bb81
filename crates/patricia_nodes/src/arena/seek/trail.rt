//! Look-ups of keys that are near one another: each goes on from a finger, the places that the one
//! before has passed.
ghost use Rattle.std.specs.Prelude.{◌≡◌, ◌≢◌, ◌+◌, ◌≤◌, [], IfSome, length};
ghost use Rattle.patricia_model.specs.Siblings.{IsCanonical};
ghost use Rattle.patricia_nodes.specs.Internal.Plans.{IsWellFormed, siblings_of};
ghost use Rattle.patricia_nodes.specs.Internal.Trails.{HasCome, IsCutTo, IsPlaceBehind};
ghost use Rattle.patricia_nodes.specs.Internal.Trails.{IsTrail, MayKeep};

use super::{LinkRef, Match, SeekResult};
use crate::arena::NodeArena;
use crate::link::Link;
use patricia_keys::{BorrowedBytes, Bytes};
use patricia_model::label_cmp::LabelCmp;
use std::cmp::Ordering;

// Keeps of a trail the places whose paths end within the first bytes.
fn cut_to(trail: &mut Vec<(LinkRef, usize)>, len: usize)
    ensures { IsCutTo len trail.old.items trail.new.items }
{
    while let Some((_, end)) = trail.last() {
        if *end <= len {
            return;
        }
        trail.pop();
    }
}

// Puts a place behind a trail, where memory is there for it. Else the trail has one place less.
fn keep(trail: &mut Vec<(LinkRef, usize)>, link_ref: &LinkRef, end: usize)
    ensures { MayKeep trail.old.items (link_ref.now, end) trail.new.items }
{
    let _kept = trail.push((*link_ref, end));
}

// How many bytes of the key the look-up has passed, where these are left.
fn passed<Q: BorrowedBytes>(key: Q, rest: Q) -> usize
    requires { length (Q.key rest) ≤ length (Q.key key) }
    ensures { result + length (Q.key rest) ≡ length (Q.key key) }
{
    key.as_bytes().len() - rest.as_bytes().len()
}

impl<V> NodeArena<V> {
    // Makes the trail of the last key one of this key: the places that both pass, where this key
    // comes after that one, and none where it does not.
    fn cut_trail<Q: BorrowedBytes>(
        &self,
        trail: &mut Vec<(LinkRef, usize)>,
        last: Option<Q>,
        key: Q,
    )
        requires siblings { IsCanonical Q.Owned.item (siblings_of self.now) }
        requires trail { IfSome last (λ last.
            IsTrail Q.Owned.item self.now (Q.key last) trail.old.items) }
        requires nonempty { Q.key key ≢ [] }
        ensures { IsTrail Q.Owned.item self.now (Q.key key) trail.new.items }
    {
        let Some(last) = last else {
            trail.clear();
            return;
        };
        let bytes = last.as_bytes();
        let (rest, common) = key.strip_common_prefix_and_len(bytes);
        match rest.cmp_first_item(&bytes[common..]) {
            Ordering::Greater => cut_to(trail, common),
            _ => trail.clear(),
        }
    }

    // Where the look-up of a key goes on: at the last place of its trail, which is taken from that,
    // or at the top.
    fn resume<Q: BorrowedBytes>(
        &self,
        trail: &mut Vec<(LinkRef, usize)>,
        key: Q,
    ) -> (LinkRef, Link, Q)
        requires whole { IsWellFormed self.now }
        requires siblings { IsCanonical Q.Owned.item (siblings_of self.now) }
        requires trail { IsTrail Q.Owned.item self.now (Q.key key) trail.old.items }
        requires nonempty { Q.key key ≢ [] }
        ensures { HasCome Q.Owned.item self.now (Q.key key) result.0 result.1 (Q.key result.2)
            trail.new.items }
    {
        match trail.pop() {
            None => (LinkRef::Root, self.root, key),
            Some((link_ref, end)) => {
                let at = self.linked_at(&link_ref);
                let rest = key.strip_n_prefix(end);
                (link_ref, at, rest)
            }
        }
    }

    /// The place of a nonempty key. Where it comes after the last key, the look-up goes on at the
    /// last place that both pass, as the trail of that says, and else at the top. The trail is that
    /// of this key then: the places that it passes, as far as memory is there for them.
    pub fn seek_along<Q: BorrowedBytes>(
        &self,
        trail: &mut Vec<(LinkRef, usize)>,
        last: Option<Q>,
        key: Q,
    ) -> SeekResult<Q>
        requires whole { IsWellFormed self.now }
        requires siblings { IsCanonical Q.Owned.item (siblings_of self.now) }
        requires trail { IfSome last (λ last.
            IsTrail Q.Owned.item self.now (Q.key last) trail.old.items) }
        requires nonempty { Q.key key ≢ [] }
        ensures { IsPlaceBehind Q.Owned.item Q.key self.now (Q.key key) result trail.new.items }
    {
        self.cut_trail(trail, last, key);
        let (mut link_ref, mut at, mut rest) = self.resume(trail, key);
        let matched = loop {
            let Some(first) = at.get() else {
                break Match::Absent;
            };
            let id = self.nodes.run(first, rest.as_bytes()[0]);
            link_ref = link_ref.behind(first, id);
            at = Link::some(id);
            match self.compare(id, rest) {
                LabelCmp::Before => break Match::Absent,
                LabelCmp::After => {
                    link_ref = LinkRef::Sibling(id, link_ref.above());
                    at = self.nodes.sibling(id);
                }
                LabelCmp::Partial(n) => break Match::InsideLabel(id, n),
                LabelCmp::Full(left) => {
                    if left.is_empty() {
                        break Match::Exact(id);
                    }
                    let end = passed(key, rest);
                    keep(trail, &link_ref, end);
                    link_ref = LinkRef::Child(id);
                    at = self.nodes.child(id);
                    rest = left;
                }
            }
        };
        let end = passed(key, rest);
        keep(trail, &link_ref, end);
        SeekResult::new(link_ref, at, rest, matched)
    }
}
