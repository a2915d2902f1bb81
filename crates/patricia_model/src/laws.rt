//! Laws that hold for every key kind, as contracts of functions that do nothing.
ghost use Rattle.std.specs.Prelude.{[]};
ghost use Rattle.patricia_keys.specs.ByteKind.{IsByteItem};
ghost use Rattle.patricia_model.specs.Laws.{TestsBeginnings, UnderIsFiltered, AlongIsFiltered};
ghost use Rattle.patricia_model.specs.Laws.{LastIsLongest, HasOneReach};
ghost use Rattle.patricia_model.specs.Laws.{HoldTogether, HaveNoKeyInCommon};
ghost use Rattle.patricia_model.specs.Laws.{CommonIsFloor, HasOneParent, HasOneVisitCount};
ghost use Rattle.patricia_model.specs.Laws.{HasOneTree, TreeStandsAtPoints, HasOneShape};
ghost use Rattle.patricia_model.specs.Laws.{SiblingsStandAtPoints};
ghost use Rattle.patricia_model.specs.Points.{IsVisitCount};
ghost use Rattle.patricia_model.specs.Internal.ThreeKeys.{three_keys, baz, foo, aaa};

use patricia_keys::Bytes;

/// The common length of a key and any bytes is the floor boundary of the bytes that they share.
pub fn common_is_floor<K: Bytes>()
    ensures { CommonIsFloor K.item }
{}

/// Trees that stand for one finite map are the same tree, whatever made them.
pub fn one_tree<K: Bytes, V>()
    ensures { HasOneTree K.item V }
{}

/// The nodes of a tree stand at the points of the keys of its map, one node at each.
pub fn points_of_tree<K: Bytes, V>()
    ensures { TreeStandsAtPoints K.item V }
{}

/// Siblings that keep the invariant under one limit and have the same entries are the same
/// siblings.
pub fn one_shape<K: Bytes, V>()
    ensures { HasOneShape K.item V }
{}

/// Siblings and the nodes below them stand at the points of their keys, one node at each.
pub fn points_of_siblings<K: Bytes, V>()
    ensures { SiblingsStandAtPoints K.item V }
{}

/// There is one number of visits for a set of keys and a key.
pub fn one_visit_count<K: Bytes>()
    ensures { HasOneVisitCount K.item }
{}

/// A point has one parent.
pub fn one_parent<K: Bytes>()
    ensures { HasOneParent K.item }
{}

/// There is one common length for a set of keys and a key.
pub fn one_reach<K: Bytes>()
    ensures { HasOneReach K.item }
{}

/// Under a prefix are those entries whose key it begins, and the common prefixes of a key are those
/// whose key begins it.
pub fn prefixes_filter<V>()
    ensures test { TestsBeginnings }
    ensures under { UnderIsFiltered V }
    ensures along { AlongIsFiltered V }
{}

/// The entries under a prefix and those outside it have no key in common, and are all entries
/// together.
pub fn split_parts<V>()
    ensures together { HoldTogether V }
    ensures apart { HaveNoKeyInCommon V }
{}

/// The last of the common prefixes of a key has the longest key of them.
pub fn last_is_longest<V>()
    ensures { LastIsLongest V }
{}

/// How many visits look-ups make with the keys bar, baz and foo.
pub fn three_keys_visits()
    ensures through { IsVisitCount IsByteItem three_keys baz 4 }
    ensures beside { IsVisitCount IsByteItem three_keys foo 3 }
    ensures before { IsVisitCount IsByteItem three_keys aaa 2 }
    ensures root { IsVisitCount IsByteItem three_keys [] 1 }
{}
