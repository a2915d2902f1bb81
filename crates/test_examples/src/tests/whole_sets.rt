//! The examples of sets compared and made of two, as the documentation has them.

use crate::tests::asserts::{done, holds, same, set_of};
use patricia_tree::{LoadError, StringPatriciaSet};
use std::alloc::AllocError;

#[test]
fn equals(rt: HostRuntime) {
    // example: set equals
    let set = set_of(&rt, rt.alloc(), &["foo", "bar"]);
    let same = set_of(&rt, rt.alloc(), &["bar", "foo"]);
    let other = set_of(&rt, rt.alloc(), &["bar", "baz"]);
    holds!(rt; done(&rt, set.equals(&same)));
    holds!(rt; !done(&rt, set.equals(&other)));
    // end
}

#[test]
fn is_subset(rt: HostRuntime) {
    // example: set is_subset
    let set = set_of(&rt, rt.alloc(), &["foo", "bar"]);
    let more = set_of(&rt, rt.alloc(), &["bar", "baz", "foo"]);
    holds!(rt; done(&rt, set.is_subset(&more)));
    holds!(rt; !done(&rt, more.is_subset(&set)));
    // end
}

#[test]
fn is_disjoint(rt: HostRuntime) {
    // example: set is_disjoint
    let set = set_of(&rt, rt.alloc(), &["foo", "bar"]);
    let others = set_of(&rt, rt.alloc(), &["baz", "fo"]);
    holds!(rt; done(&rt, set.is_disjoint(&others)));
    holds!(rt; !done(&rt, set.is_disjoint(&set)));
    // end
}

#[test]
fn union(rt: HostRuntime) {
    // example: set union
    let set = set_of(&rt, rt.alloc(), &["foo", "bar"]);
    let other = set_of(&rt, rt.alloc(), &["bar", "baz"]);
    let all = done(&rt, set.union(&other));
    same!(rt; all.len(), 3);
    holds!(rt; all.contains("baz"));
    // end
}

#[test]
fn intersection(rt: HostRuntime) {
    // example: set intersection
    let set = set_of(&rt, rt.alloc(), &["foo", "bar"]);
    let other = set_of(&rt, rt.alloc(), &["bar", "baz"]);
    let both = done(&rt, set.intersection(&other));
    same!(rt; both.len(), 1);
    holds!(rt; both.contains("bar"));
    // end
}

#[test]
fn difference(rt: HostRuntime) {
    // example: set difference
    let set = set_of(&rt, rt.alloc(), &["foo", "bar"]);
    let other = set_of(&rt, rt.alloc(), &["bar", "baz"]);
    let rest = done(&rt, set.difference(&other));
    same!(rt; rest.len(), 1);
    holds!(rt; rest.contains("foo"));
    // end
}

#[test]
fn retain(rt: HostRuntime) {
    // example: set retain
    let mut set = set_of(&rt, rt.alloc(), &["foo", "bar", "quux"]);
    done(&rt, set.retain(|element| element.len() > 3));
    same!(rt; set.len(), 1);
    holds!(rt; set.contains("quux"));
    // end
}

#[test]
fn for_each(rt: HostRuntime) {
    // example: set for_each
    let set = set_of(&rt, rt.alloc(), &["quux", "foo"]);
    let mut longest = 0;
    done(
        &rt,
        set.for_each(&mut |element| longest = longest.max(element.len())),
    );
    same!(rt; longest, 4);
    // end
}

#[test]
fn for_each_prefix(rt: HostRuntime) {
    // example: set for_each_prefix
    let set = set_of(&rt, rt.alloc(), &["quux", "bar", "baz"]);
    let mut longest = 0;
    done(
        &rt,
        set.for_each_prefix("ba", &mut |element| longest = longest.max(element.len())),
    );
    same!(rt; longest, 3);
    // end
}

#[test]
fn sorted_load(rt: HostRuntime) {
    // example: set sorted_load
    let mut set = StringPatriciaSet::new(rt.alloc());
    same!(rt; set.sorted_load(["bar", "foo"]), Ok(()));
    same!(rt; set.sorted_load(["quux", "baz"]), Err(LoadError::NotInOrder));
    same!(rt; set.len(), 3);
    // end
}
