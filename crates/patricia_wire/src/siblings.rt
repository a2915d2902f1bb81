//! How trees of records and siblings go together, for the proofs of the encoder and the decoder, as
//! contracts of functions that do nothing.
ghost use Rattle.patricia_wire.specs.Internal.SiblingsLaws.{HasTreeOfMap, HasRecords};
ghost use Rattle.patricia_wire.specs.Internal.SiblingsLaws.{HasWritableSiblings};
ghost use Rattle.patricia_wire.specs.Internal.SiblingsLaws.{IsTightWithin, HasCutSiblings};
ghost use Rattle.patricia_wire.specs.Internal.SiblingsLaws.{HasJoinedSiblings};

use patricia_keys::Bytes;

/// Each finite map with valid keys is the map of a tree in memory.
pub fn tree_of_map<K: Bytes, V>()
    ensures { HasTreeOfMap K.item V }
{}

/// The records of writable siblings are a tree with their keys, tight exactly where the siblings
/// keep the invariant with labels of at most 255 bytes; and each tree is the records of writable
/// siblings.
pub fn trees_are_siblings<K: Bytes, V>()
    ensures tree { HasRecords K.item V }
    ensures tight { IsTightWithin K.item V }
    ensures siblings { HasWritableSiblings K.item }
{}

/// Siblings in memory have the entries of siblings whose labels have at most 255 bytes.
pub fn cut_siblings<K: Bytes, V>()
    ensures { HasCutSiblings K.item V }
{}

/// Writable siblings have the entries of siblings in memory.
pub fn joined_siblings<K: Bytes, V>()
    ensures { HasJoinedSiblings K.item V }
{}
