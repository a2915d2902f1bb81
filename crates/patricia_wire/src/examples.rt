//! Worked encodings and first faults, as contracts of functions that do nothing. Levels are written
//! in two bytes, but for one in four.
ghost use Rattle.std.specs.Prelude.{◌≡◌, ℕ, List, [], ◌∷◌};
ghost use Rattle.patricia_keys.specs.ByteKind.{IsByteItem};
ghost use Rattle.patricia_keys.specs.TextKind.{IsTextItem};
ghost use Rattle.patricia_model.specs.Internal.ThreeKeys.{three_keys};
ghost use Rattle.patricia_model.specs.Points.{IsPoint};
ghost use Rattle.patricia_wire.specs.Counts.{IsCount, IsFront};
ghost use Rattle.patricia_wire.specs.Writings.{Canon, Means};
ghost use Rattle.patricia_wire.specs.Faults.{IsFirst, Stands};
ghost use Rattle.patricia_wire.specs.declared.error.DecodeError.TheVariants.{Truncated, Level};
ghost use Rattle.patricia_wire.specs.declared.error.DecodeError.TheVariants.{RootLabel};
ghost use Rattle.patricia_wire.specs.declared.error.DecodeError.TheVariants.{RootSibling};
ghost use Rattle.patricia_wire.specs.declared.error.DecodeError.TheVariants.{EmptyLabel};
ghost use Rattle.patricia_wire.specs.declared.error.DecodeError.TheVariants.{InvalidLabel};
ghost use Rattle.patricia_wire.specs.declared.error.DecodeError.TheVariants.{SiblingOrder};
ghost use Rattle.patricia_wire.specs.declared.error.DecodeError.TheVariants.{NoValueNoChild};
ghost use Rattle.patricia_wire.specs.declared.error.DecodeError.TheVariants.{TooFewValues};
ghost use Rattle.patricia_wire.specs.declared.error.DecodeError.TheVariants.{TrailingBytes};
ghost use Rattle.patricia_wire.specs.declared.error.DecodeError.TheVariants.{TooManyValues};
ghost use Rattle.patricia_wire.specs.Internal.Examples.{nothing_written, three_keys_written};
ghost use Rattle.patricia_wire.specs.Internal.Examples.{three_keys_written_wide, empty_key_and_a};
ghost use Rattle.patricia_wire.specs.Internal.Examples.{empty_key_and_a_written, lone_key};
ghost use Rattle.patricia_wire.specs.Internal.Examples.{lone_key_written};
ghost use Rattle.patricia_wire.specs.Internal.Examples.{long_text_and_b, long_text_and_b_written};
ghost use Rattle.patricia_wire.specs.Internal.Examples.{long_text_and_b_written_as_bytes};
ghost use Rattle.patricia_wire.specs.Internal.Examples.{two_texts, two_texts_written};
ghost use Rattle.patricia_wire.specs.Internal.Examples.{two_texts_written_as_bytes, long_key};
ghost use Rattle.patricia_wire.specs.Internal.Examples.{long_key_written, ab, ab_in_two};
ghost use Rattle.patricia_wire.specs.Internal.Examples.{ab_written, a_in_other_bits, a_written};
ghost use Rattle.patricia_wire.specs.Internal.Examples.{falling_siblings};
ghost use Rattle.patricia_wire.specs.Internal.Examples.{behind_root, half_written};
ghost use Rattle.patricia_wire.specs.Internal.Examples.{hollow_then_deep};

/// No keys are written as a root alone.
pub fn no_keys()
    ensures { Canon IsByteItem 2 nothing_written [] }
{}

/// The keys bar, baz and foo, with levels in two bytes and in four. They have seven fronts: b, ba,
/// bar, baz, f, fo and foo, and the labels have seven bytes. They have four points: ba, bar, baz
/// and foo, and the tree has five records.
pub fn shared_front()
    ensures narrow { Canon IsByteItem 2 three_keys_written three_keys }
    ensures wide { Canon IsByteItem 4 three_keys_written_wide three_keys }
    ensures fronts { IsCount (IsFront three_keys) 7 }
    ensures points { IsCount (IsPoint IsByteItem three_keys) 4 }
{}

/// The value of the empty key is the root's.
pub fn empty_key()
    ensures { Canon IsByteItem 2 empty_key_and_a_written empty_key_and_a }
{}

/// A key alone is one label.
pub fn one_key()
    ensures { Canon IsByteItem 2 lone_key_written (lone_key ∷ []) }
{}

/// Keys that begin alike are cut behind the items that they share, which are characters in texts
/// and bytes in byte strings.
pub fn texts_and_bytes()
    ensures texts { Canon IsTextItem 2 two_texts_written two_texts }
    ensures bytes { Canon IsByteItem 2 two_texts_written_as_bytes two_texts }
{}

/// A label of more than 255 bytes is cut.
pub fn long_label()
    ensures { Canon IsByteItem 2 long_key_written (long_key ∷ []) }
{}

/// It is cut between items, so a label of a text may end before its 255th byte.
pub fn long_text()
    ensures texts { Canon IsTextItem 2 long_text_and_b_written long_text_and_b }
    ensures bytes { Canon IsByteItem 2 long_text_and_b_written_as_bytes long_text_and_b }
{}

/// An encoding that is not tight means its entries all the same, and is no key set's encoding.
pub fn not_tight()
    ensures meant { Means IsByteItem {V = ℕ} 2 ab_in_two (7 ∷ []) ((ab, 7) ∷ []) }
    ensures loose { (S : List (List ℕ)) → Canon IsByteItem 2 ab_in_two S → ⊥ }
    ensures tight { Canon IsByteItem 2 ab_written (ab ∷ []) }
{}

/// Only the three marks of the flags are read, and in an encoding they decide the other bits too.
pub fn other_bits()
    ensures meant { Means IsByteItem {V = ℕ} 2 a_in_other_bits (5 ∷ []) ((97 ∷ [], 5) ∷ []) }
    ensures other { (S : List (List ℕ)) → Canon IsByteItem 2 a_in_other_bits S → ⊥ }
    ensures clean { Canon IsByteItem 2 a_written ((97 ∷ []) ∷ []) }
{}

/// The first faults of inputs that are one record, a part of one or little more.
pub fn short_inputs()
    ensures empty { IsFirst IsByteItem 2 [] 0 (Truncated 0) }
    ensures level { IsFirst IsByteItem 2 (0 ∷ 0 ∷ 0 ∷ 1 ∷ []) 0 (Level 0) }
    ensures label { IsFirst IsByteItem 2 (2 ∷ 1 ∷ 0 ∷ 0 ∷ 97 ∷ []) 1 (RootLabel 0) }
    ensures sibling { IsFirst IsByteItem 2 (32 ∷ 0 ∷ 0 ∷ 0 ∷ []) 0 (RootSibling 0) }
    ensures few { IsFirst IsByteItem 2 (3 ∷ 0 ∷ 0 ∷ 0 ∷ []) 0 (TooFewValues 0) }
    ensures trailing { IsFirst IsByteItem 2 (0 ∷ 0 ∷ 0 ∷ 0 ∷ 0 ∷ []) 0 (TrailingBytes 4) }
    ensures many { IsFirst IsByteItem 2 (0 ∷ 0 ∷ 0 ∷ 0 ∷ []) 1 TooManyValues }
{}

/// Behind a root with a child the input ends at once, or within a label.
pub fn cut_inputs()
    ensures at_once { IsFirst IsByteItem 2 (behind_root []) 0 (Truncated 4) }
    ensures in_label { IsFirst IsByteItem 2 (behind_root (3 ∷ 2 ∷ 0 ∷ 1 ∷ 97 ∷ [])) 1
        (Truncated 4) }
{}

/// A child lies one level below its parent.
pub fn skipped_level()
    ensures { IsFirst IsByteItem 2 (behind_root (3 ∷ 1 ∷ 0 ∷ 2 ∷ 97 ∷ [])) 1 (Level 4) }
{}

/// Only the root has an empty label.
pub fn empty_label()
    ensures { IsFirst IsByteItem 2 (behind_root (0 ∷ 0 ∷ 0 ∷ 1 ∷ [])) 0 (EmptyLabel 4) }
{}

/// Half a character is no label of a text, and it is one of a byte string.
pub fn cut_character()
    ensures texts { IsFirst IsTextItem 2 half_written 1 (InvalidLabel 4) }
    ensures bytes { Canon IsByteItem 2 half_written ((240 ∷ 159 ∷ []) ∷ []) }
{}

/// Siblings that fall, b and then a, are out of order at the second.
pub fn sibling_order()
    ensures { IsFirst IsByteItem 2 falling_siblings 2 (SiblingOrder 9) }
{}

/// Only the root may have neither a value nor a child.
pub fn bare_leaf()
    ensures { IsFirst IsByteItem 2 (behind_root (0 ∷ 1 ∷ 0 ∷ 1 ∷ 97 ∷ [])) 0 (NoValueNoChild 4) }
{}

/// A value mark takes a value.
pub fn missing_value()
    ensures { IsFirst IsByteItem 2 (behind_root (3 ∷ 1 ∷ 0 ∷ 1 ∷ 97 ∷ [])) 0 (TooFewValues 4) }
{}

/// Of two faults at one place the lower number comes first: a wrong level before an empty label,
/// the root's label before its sibling, and bytes left before values left.
pub fn two_faults()
    ensures level { IsFirst IsByteItem 2 (behind_root (0 ∷ 0 ∷ 0 ∷ 2 ∷ [])) 0 (Level 4) }
    ensures label { IsFirst IsByteItem 2 (32 ∷ 1 ∷ 0 ∷ 0 ∷ 97 ∷ []) 0 (RootLabel 0) }
    ensures trailing { IsFirst IsByteItem 2 (0 ∷ 0 ∷ 0 ∷ 0 ∷ 0 ∷ []) 1 (TrailingBytes 4) }
{}

/// Of faults at two places the earlier comes first, whatever their numbers: here a record has an
/// empty label, and the one behind it a wrong level.
pub fn later_fault()
    ensures first { IsFirst IsByteItem 2 hollow_then_deep 1 (EmptyLabel 4) }
    ensures later { Stands IsByteItem 2 hollow_then_deep 1 3 8 (Level 8) }
{}
