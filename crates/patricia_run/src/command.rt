//! Commands and replies.

/// What a bench is told to do.
#[derive(Clone, Copy, Debug)]
pub enum Command<Q, V> {
    Insert(Q, V),
    Get(Q),
    Remove(Q),
    Len,
    List,
    Under(Q),
    Along(Q),
    Longest(Q),
    Reach(Q),
    Split(Q),
    Swap,
    Copy,
    Clear,
    Wire,
    Reload,
    Wide,
    ReloadWide,
}

/// What a bench replies.
#[derive(Drop)]
pub enum Reply<K, V> {
    None,
    Some(V),
    /// The length in bytes of a key that is there, and its value.
    Longest(usize, V),
    Count(usize),
    Rows(Vec<(K, V)>),
    Done,
    /// The tree bytes, and the values in key order.
    Wire(Vec<u8>, Vec<V>),
    /// The tree is deeper than the levels of tree bytes go.
    TooDeep,
    NoMemory,
}
