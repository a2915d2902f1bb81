//! Worked rows of what is packed, as contracts of functions that do nothing.
ghost use Rattle.std.specs.Prelude.{◌≡◌, ◌+◌, ◌*◌, Some, None, [], ◌∷◌, ◌++◌, replicate};
ghost use Rattle.patricia_store.specs.Internal.Packing.{number, packed};
ghost use Rattle.patricia_store.specs.Internal.Heads.{word_of, head_of, child_in, sibling_in};
ghost use Rattle.patricia_store.specs.Internal.Heads.{offset_in};
ghost use Rattle.patricia_store.specs.Internal.Nodes.{Splits, Joins, IsRun, EndsRun, labels_room};
ghost use Rattle.patricia_store.specs.Internal.Renumbering.{KeepsRearranged};
ghost use Rattle.patricia_store.specs.Internal.Examples.{some_nodes, whole_label, cut_label};
ghost use Rattle.patricia_store.specs.Internal.Examples.{joined_label, child_behind};
ghost use Rattle.patricia_store.specs.Internal.Examples.{child_before, siblings};
ghost use Rattle.patricia_store.specs.Internal.Labels.{label_in, label_room, cut_room, six_bytes};
ghost use Rattle.patricia_store.specs.Internal.Labels.{joined_room};

/// Numbers where a part of 16 bits is full, and the greatest.
pub fn parts_of_numbers()
    ensures full { packed 65535 ≡ record { low = 65535; middle = 0; high = 0 } }
    ensures second { packed 65536 ≡ record { low = 0; middle = 1; high = 0 } }
    ensures third { packed 4294967296 ≡ record { low = 0; middle = 0; high = 1 } }
    ensures greatest { packed 281474976710655
        ≡ record { low = 65535; middle = 65535; high = 65535 } }
    ensures back { number (packed 281474976710655) ≡ 281474976710655 }
{}

/// The bits of a node with the label `a`, before the node 7: alone, with the next node for its
/// sibling, and with another one and a child.
pub fn words()
    ensures alone { word_of 7 None None (97 ∷ []) ≡ 32768 + (128 * 97 + (64 + 1)) }
    ensures followed { word_of 7 None (Some 7) (97 ∷ []) ≡ 128 * 97 + (64 + 1) }
    ensures inner { word_of 7 (Some 9) (Some 8) (97 ∷ []) ≡ 32768 + (128 * 97 + 1) }
{}

/// Six bits have the length of a label of 62 bytes, and 63 for any longer one.
pub fn lengths()
    ensures none { word_of 7 (Some 9) (Some 7) [] ≡ 0 }
    ensures noted { word_of 7 (Some 9) (Some 7) (replicate 62 1) ≡ 128 + 62 }
    ensures least { word_of 7 (Some 9) (Some 7) (replicate 63 1) ≡ 128 + 63 }
    ensures longer { word_of 7 (Some 9) (Some 7) (replicate 64 1) ≡ 128 + 63 }
{}

/// The greatest number of a node is a link, and a node without a child has the place of its label
/// in the place of that link.
pub fn links()
    ensures child { child_in (head_of 7 (Some 281474976710654) None [] (packed 5))
        ≡ Some 281474976710654 }
    ensures sibling { sibling_in (head_of 7 None (Some 281474976710654) [] (packed 5))
        ≡ Some 281474976710654 }
    ensures first { sibling_in (head_of 7 None (Some 0) [] (packed 5)) ≡ Some 0 }
    ensures none { sibling_in (head_of 7 None None [] (packed 5)) ≡ None }
    ensures leaf { child_in (head_of 7 None None [] (packed 5)) ≡ None }
    ensures place { offset_in (head_of 7 None None [] (packed 5)) ≡ Some (packed 5) }
    ensures no_place { offset_in (head_of 7 (Some 0) None [] (packed 5)) ≡ None }
{}

/// A label is a part of the bytes, and one of 255 bytes or more has a note of twelve bytes.
pub fn labels()
    ensures part { label_in (7 ∷ 8 ∷ 9 ∷ 10 ∷ []) (record { len = 2; offset = packed 1 })
        ≡ 8 ∷ 9 ∷ [] }
    ensures longest { label_in (replicate 254 7) (record { len = 254; offset = packed 0 })
        ≡ replicate 254 7 }
    ensures noted { label_in (replicate 255 7 ++ (six_bytes 0 ++ six_bytes 255))
        (record { len = 255; offset = packed 255 }) ≡ replicate 255 7 }
    ensures short_room { label_room 254 ≡ 254 }
    ensures long_room { label_room 255 ≡ 267 }
    ensures joined { joined_room 200 54 ≡ 254 }
    ensures joined_long { joined_room 200 55 ≡ 267 }
    ensures cut { cut_room 254 ≡ 0 }
    ensures cut_long { cut_room 255 ≡ 24 }
    ensures together { labels_room cut_label ≡ 3 }
{}

/// A cut label, and what joins the two parts again.
pub fn cut_and_joined()
    ensures cut { Splits (some_nodes whole_label) (some_nodes cut_label) 0 1 1 (Some 2) None }
    ensures joined { Joins (some_nodes cut_label) (some_nodes joined_label) 0 1 (Some 7) (Some 1)
        (Some 2) }
{}

/// Two nodes that change places are linked by their new numbers.
pub fn rearranged()
    ensures { KeepsRearranged 2 (1 ∷ 0 ∷ []) (1 ∷ 0 ∷ []) child_behind child_before }
{}

/// A run up to c passes a and b, and one up to z ends at c too, whose sibling does not come next.
pub fn runs()
    ensures before { IsRun (some_nodes siblings) 99 0 2 }
    ensures last { IsRun (some_nodes siblings) 122 0 2 }
    ensures none { IsRun (some_nodes siblings) 97 0 0 }
    ensures at_once { EndsRun (some_nodes siblings) 97 0 }
    ensures elsewhere { EndsRun (some_nodes siblings) 122 2 }
{}
