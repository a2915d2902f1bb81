//! Laws of the wire form that hold for every key kind and every width of levels, as contracts of
//! functions that do nothing.
ghost use Rattle.patricia_keys.specs.ByteKind.{IsByteItem};
ghost use Rattle.patricia_keys.specs.TextKind.{IsTextItem};
ghost use Rattle.patricia_wire.specs.WireLaws.{HasOneWriting, HasOneKeySet, HasOneMeaning};
ghost use Rattle.patricia_wire.specs.WireLaws.{MeansMap, WritingMeansEntries, IsWrittenOrTooDeep};
ghost use Rattle.patricia_wire.specs.WireLaws.{IsNeverBoth};
ghost use Rattle.patricia_wire.specs.WireLaws.{CountsFronts, CountsPoints, HasFewRecords};
ghost use Rattle.patricia_wire.specs.WireLaws.{HasOneTightTree, HasOneKeyList, HoldsKeysOfMap};
ghost use Rattle.patricia_wire.specs.WireLaws.{HasOneFirstFault, HasNoFaultWhereMeant};
ghost use Rattle.patricia_wire.specs.WireLaws.{HasNoFirstFaultWhereMeant, RefusesNothingMeant};
ghost use Rattle.patricia_wire.specs.WireLaws.{TellsValid, MeansOrHasFirstFault, NeverLacksBoth};
ghost use Rattle.patricia_wire.specs.WireLaws.{ReadsBack, TellsKeySets, DependsOnKeysAlone};

use patricia_keys::Bytes;

/// A set of keys has one encoding.
pub fn one_writing<K: Bytes>()
    ensures { HasOneWriting K.item }
{}

/// Bytes are the encoding of one set of keys.
pub fn one_key_set<K: Bytes>()
    ensures { HasOneKeySet K.item }
{}

/// Bytes and values mean one list of entries, which is that of a finite map with valid keys.
pub fn one_meaning<K: Bytes, V>()
    ensures one { HasOneMeaning K.item V }
    ensures map { MeansMap K.item V }
{}

/// The encoding of the keys of entries, with their values in turn, means these entries.
pub fn writing_means_entries<K: Bytes, V>()
    ensures { WritingMeansEntries K.item V }
{}

/// The keys of a finite map, if they are valid, have an encoding or lie too deep for one, and never
/// both.
pub fn written_or_too_deep<K: Bytes, V>()
    ensures one { IsWrittenOrTooDeep K.item V }
    ensures never_both { IsNeverBoth K.item }
{}

/// The labels of a tight tree of byte keys have a byte for each front of its keys.
pub fn labels_are_fronts<K: Bytes>()
    ensures { CountsFronts K.item }
{}

/// A tight tree of short keys has a record for each point of its keys and one for the root, and at
/// most two for each key.
pub fn records_are_points<K: Bytes>()
    ensures points { CountsPoints K.item }
    ensures few { HasFewRecords K.item }
{}

/// Two tight trees with the same keys are the same list of records.
pub fn one_tight_tree<K: Bytes>()
    ensures { HasOneTightTree K.item }
{}

/// A list of records holds one list of keys, which are the keys of a finite map, and valid.
pub fn one_key_list<K: Bytes>()
    ensures one { HasOneKeyList K.item }
    ensures keys { HoldsKeysOfMap K.item }
{}

/// An input has one first fault, and none where it means entries.
pub fn one_first_fault<K: Bytes, V>()
    ensures one { HasOneFirstFault K.item }
    ensures none { HasNoFaultWhereMeant K.item V }
{}

/// Two maps or sets have equal tree bytes exactly where they have the same keys, whatever their
/// values and histories are.
pub fn tree_bytes_are_keys<K: Bytes, V, W>()
    ensures equal { TellsKeySets K.item V W }
    ensures values { DependsOnKeysAlone K.item V W }
{}

/// What is decoded from tree bytes and the values that belong to them, in key order, is the entries
/// that were written: the same keys with the same values.
pub fn tree_bytes_read_back<K: Bytes, V>()
    ensures { ReadsBack K.item V }
{}

/// Bytes and values that mean entries have no first fault.
pub fn meant_is_never_faulty<K: Bytes, V>()
    ensures { HasNoFirstFaultWhereMeant K.item V }
{}

/// Bytes and values that mean entries are refused where memory runs out, and by no other error.
pub fn meant_is_never_refused<K: Bytes, V>()
    ensures { RefusesNothingMeant K.item V }
{}

/// Whatever bytes and values are given, they mean entries or have a first fault: none lack both.
/// Where it can be told whether a label is valid, it can be told which of the two it is.
pub fn meant_or_faulty<K: Bytes, V>()
    ensures never_neither { NeverLacksBoth K.item V }
    ensures told { TellsValid K.item → MeansOrHasFirstFault K.item V }
{}

/// For the keys of byte strings bytes and values mean entries or have a first fault.
pub fn meant_or_faulty_bytes<V>()
    ensures { MeansOrHasFirstFault IsByteItem V }
{}

/// For the keys of texts bytes and values mean entries or have a first fault.
pub fn meant_or_faulty_texts<V>()
    ensures { MeansOrHasFirstFault IsTextItem V }
{}
