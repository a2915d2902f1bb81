//! A new map that pairs are put in.
ghost use Rattle.std.specs.Prelude.{◌≡◌, ◌≢◌, [], None, IfOk, OnErr};
ghost use Rattle.std.specs.FinMap as map;
ghost use Rattle.patricia_tree.specs.Internal.Fillings.{filled};

use crate::map::GenericPatriciaMap;
use crate::map::sorted::comes_before;
use patricia_core::keys::BorrowedBytes;
use patricia_core::tree::{Loader, Tree};
use std::alloc::{AllocError, Global};

// The entries so far: while each key comes after the one before it, they are put in as by
// `sorted_load`, and then as by `insert`.
#[derive(Drop)]
pub(crate) enum Filling<Q: BorrowedBytes, V: Drop> {
    // each key came after the one before it, and this one last
    Rising(Loader<Q, V>, Option<Q>),
    Any(GenericPatriciaMap<Q::Owned, V>),
}

// Inserts a pair whose key does not come after the last one.
fn insert_into<Q: BorrowedBytes, V: Drop>(
    mut entries: GenericPatriciaMap<Q::Owned, V>,
    key: Q,
    value: V,
) -> Result<Filling<Q, V>, AllocError>
    ensures ok { IfOk result (λ filling. filled filling ≡ map.insert entries (Q.key key) value) }
    ensures err_only_nonempty { OnErr result (Q.key key ≢ []) }
    ensures only_new { OnErr result (map.get entries (Q.key key) ≡ None) }
{
    match entries.insert(key, value) {
        Ok(_) => Ok(Filling::Any(entries)),
        Err(_) => Err(AllocError),
    }
}

impl<Q: BorrowedBytes, V: Drop> Filling<Q, V> {
    // Without a pair.
    pub(crate) fn new(alloc: Global) -> Self
        ensures { filled result ≡ map.empty }
    {
        Filling::Rising(Loader::new(Tree::new(alloc)), None)
    }

    // Puts a pair in: of two values for one key the later stays. The error is out of memory, and
    // all pairs are dropped then.
    pub(crate) fn put(self, key: Q, value: V) -> Result<Self, AllocError>
        ensures ok { IfOk result (λ filling.
            filled filling ≡ map.insert (filled self) (Q.key key) value) }
        ensures err_only_nonempty { OnErr result (Q.key key ≢ []) }
        ensures only_new { OnErr result (map.get (filled self) (Q.key key) ≡ None) }
    {
        match self {
            Filling::Rising(mut loader, last) => {
                let rises = match last {
                    Some(last) => comes_before(last.as_bytes(), key.as_bytes()),
                    None => true,
                };
                if rises {
                    return match loader.insert(key, value) {
                        Ok(_) => Ok(Filling::Rising(loader, Some(key))),
                        Err(_) => Err(AllocError),
                    };
                }
                let entries = GenericPatriciaMap {
                    tree: loader.into_tree(),
                };
                insert_into(entries, key, value)
            }
            Filling::Any(entries) => insert_into(entries, key, value),
        }
    }

    // The map with all pairs, whose nodes are relocated if memory is there for it.
    pub(crate) fn into_map(self) -> GenericPatriciaMap<Q::Owned, V>
        ensures { result ≡ filled self }
    {
        match self {
            Filling::Rising(loader, _) => {
                let mut map = GenericPatriciaMap {
                    tree: loader.into_tree(),
                };
                map.settle_nodes_since(0);
                map
            }
            Filling::Any(mut map) => {
                map.settle_since(0);
                map
            }
        }
    }
}
