//! Laws of the wire form, for every key kind, as contracts of functions that do nothing.

pub use patricia_core::wire_laws::{
    labels_are_fronts, meant_is_never_faulty, meant_is_never_refused, meant_or_faulty,
    meant_or_faulty_bytes, meant_or_faulty_texts, one_first_fault, one_key_list, one_key_set,
    one_meaning, one_tight_tree, one_writing, records_are_points, tree_bytes_are_keys,
    tree_bytes_read_back, writing_means_entries, written_or_too_deep,
};
