//! Look-ups of many keys at once.
ghost use Rattle.std.specs.Prelude.{◌≡◌, length, map as list_map};
ghost use Rattle.std.specs.Option.{option_copied, option_map};
ghost use Rattle.std.specs.FinMap as map;
ghost use Rattle.patricia_model.specs.Prefixes.{longest};

use super::Tree;
use patricia_keys::{BorrowedBytes, Bytes};
use patricia_many::many::{contains_many, get_many, longest_keys, longest_many};

impl<K: Bytes, V> Tree<K, V> {
    /// Writes the value at each key to the place of the key. Does not allocate.
    pub fn get_many<'a, Q: BorrowedBytes<Owned = K>>(
        &'a self,
        keys: &[Q],
        found: &mut [Option<&'a V>],
    )
        requires { length keys.now ≡ length found.old }
        ensures { list_map option_copied found.new
            ≡ list_map (λ key. map.get self.now (Q.key key)) keys.now }
    {
        get_many(&self.parts.arena, keys, self.parts.value.as_ref(), found);
    }

    /// Writes whether each key is there to the place of the key. Does not allocate.
    pub fn contains_many<Q: BorrowedBytes<Owned = K>>(&self, keys: &[Q], found: &mut [bool])
        requires { length keys.now ≡ length found.old }
        ensures { found.new
            ≡ list_map (λ key. map.contains_key self.now (Q.key key)) keys.now }
    {
        contains_many(&self.parts.arena, keys, self.parts.value.as_ref(), found);
    }

    /// Writes the longest prefix of each key, with its value, to the place of the key. Does not
    /// allocate.
    pub fn longest_many<'a, Q: BorrowedBytes<Owned = K>>(
        &'a self,
        keys: &[Q],
        found: &mut [Option<(Q, &'a V)>],
    )
        requires { length keys.now ≡ length found.old }
        ensures { list_map (option_map (λ e. (Q.key e.0, e.1.now))) found.new
            ≡ list_map (λ key. longest (Q.key key) (map.entries self.now)) keys.now }
    {
        longest_many(&self.parts.arena, keys, self.parts.value.as_ref(), found);
    }

    /// Writes the longest prefix of each key, without its value, to the place of the key. Does not
    /// allocate.
    pub fn longest_keys<Q: BorrowedBytes<Owned = K>>(&self, keys: &[Q], found: &mut [Option<Q>])
        requires { length keys.now ≡ length found.old }
        ensures { list_map (option_map Q.key) found.new ≡ list_map
            (λ key. option_map (λ e. e.0) (longest (Q.key key) (map.entries self.now))) keys.now }
    {
        longest_keys(&self.parts.arena, keys, self.parts.value.as_ref(), found);
    }
}
