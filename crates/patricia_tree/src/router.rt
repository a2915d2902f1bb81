//! A router: a table of routes, and for each key the route of its longest prefix in the table.
ghost use Rattle.std.specs.Prelude.{◌≡◌, ◌≢◌, ◌↔◌, [], length, None, IsTrue, IfSome, IfOk, OnOk};
ghost use Rattle.std.specs.Prelude.{IfErr, OnErr, map as list_map};
ghost use Rattle.std.specs.Option.{option_map};
ghost use Rattle.std.specs.FinMap as map;
ghost use Rattle.patricia_core.specs.Keys.{Begins};
ghost use Rattle.patricia_core.specs.Prefixes.{longest, outside, under};

use crate::map::{GenericPatriciaMap, Refused};
use patricia_core::keys::{BorrowedBytes, Bytes};
use std::alloc::{AllocError, Global};
use std::marker::Model;

/// A table of routes: prefixes, each with its target.
///
/// A key is routed by a longest-prefix match: by the longest prefix in the table that it begins
/// with, as a path is by a web server and an address by a routing table. A router keeps the
/// allocator that it was made with.
///
/// # Examples
///
/// ```
/// let mut router = Router::new(rt.alloc());
/// router.add("/", 1)?;
/// router.add("/api/", 2)?;
/// assert_eq!(rt; router.route("/api/users"), Some(("/api/", &2)));
/// assert_eq!(rt; router.drop_prefix("/api")?, 1);
/// assert_eq!(rt; router.route("/api/users"), Some(("/", &1)));
/// ```
#[derive(Drop)]
pub struct Router<K: Bytes, V> {
    routes: GenericPatriciaMap<K, V>,
}

impl<K: Bytes, V> Model for Router<K, V> {
    ghost use Rattle.std.specs.FinMap as map;
    ghost use Rattle.std.specs.Coded.{coded_ℕ, coded_list};
    ghost use Rattle.patricia_core.specs.Keys.{key_cmp};

    ghost Value = { map.FinMap key_cmp V };

    ghost coded = { map.code (coded_list coded_ℕ) V.code };

    ghost view = { λ r. r.routes };
}

impl<K: Bytes, V: Drop> Router<K, V> {
    /// Makes a router without routes, which keeps the allocator. Does not allocate.
    ///
    /// # Examples
    ///
    /// ```
    /// let mut router = Router::new(rt.alloc());
    /// assert!(rt; router.is_empty());
    /// router.add("/", 1)?;
    /// assert_eq!(rt; router.len(), 1);
    /// ```
    pub fn new(alloc: Global) -> Self
        ensures { result ≡ map.empty }
    {
        Router {
            routes: GenericPatriciaMap::new(alloc),
        }
    }

    /// Returns the number of routes, in constant time.
    ///
    /// # Examples
    ///
    /// ```
    /// let mut router = Router::new(rt.alloc());
    /// assert!(rt; router.is_empty());
    /// router.add("/", 1)?;
    /// assert_eq!(rt; router.len(), 1);
    /// ```
    pub fn len(&self) -> usize
        ensures { result ≡ map.len self.now }
    {
        self.routes.len()
    }

    /// Returns whether there is no route, in constant time.
    ///
    /// # Examples
    ///
    /// ```
    /// let mut router = Router::new(rt.alloc());
    /// assert!(rt; router.is_empty());
    /// router.add("/", 1)?;
    /// assert_eq!(rt; router.len(), 1);
    /// ```
    pub fn is_empty(&self) -> bool
        ensures { IsTrue result ↔ (map.len self.now ≡ 0) }
    {
        self.routes.is_empty()
    }

    /// Adds a route, and returns the target that the prefix had, or `None` for a new prefix.
    ///
    /// # Errors
    ///
    /// Out of memory, at a new nonempty prefix alone: the table is unchanged, and `Refused` has the
    /// target.
    ///
    /// # Examples
    ///
    /// ```
    /// let mut router = Router::new(rt.alloc());
    /// assert_eq!(rt; router.add("/api/", 1)?, None);
    /// assert_eq!(rt; router.add("/api/", 2)?, Some(1));
    /// ```
    pub fn add<Q: BorrowedBytes<Owned = K>>(
        &mut self,
        prefix: Q,
        target: V,
    ) -> Result<Option<V>, Refused<V>>
        ensures old { IfOk result (λ old. old ≡ map.get self.old (Q.key prefix)) }
        ensures ok { OnOk result (self.new ≡ map.insert self.old (Q.key prefix) target) }
        ensures refused { IfErr result (λ r. r.value ≡ target) }
        ensures unchanged { OnErr result (self.new ≡ self.old) }
        ensures err_only_nonempty { OnErr result (Q.key prefix ≢ []) }
        ensures only_new { OnErr result (map.get self.old (Q.key prefix) ≡ None) }
    {
        self.routes.insert(prefix, target)
    }

    /// Drops the routes whose prefix begins with this one, and returns how many they were.
    ///
    /// # Errors
    ///
    /// Out of memory: the table is unchanged. Never for the empty prefix, which drops all routes,
    /// nor where none begins with the prefix.
    ///
    /// # Examples
    ///
    /// ```
    /// let mut router = Router::new(rt.alloc());
    /// router.add("/", 1)?;
    /// router.add("/api/", 2)?;
    /// assert_eq!(rt; router.drop_prefix("/api")?, 1);
    /// assert_eq!(rt; router.len(), 1);
    /// ```
    pub fn drop_prefix<Q: BorrowedBytes<Owned = K>>(
        &mut self,
        prefix: Q,
    ) -> Result<usize, AllocError>
        ensures count { IfOk result (λ n.
            n ≡ length (under (Q.key prefix) (map.entries self.old))) }
        ensures left { OnOk result (
            map.entries self.new ≡ outside (Q.key prefix) (map.entries self.old)) }
        ensures unchanged { OnErr result (self.new ≡ self.old) }
        ensures err_only_nonempty { OnErr result (Q.key prefix ≢ []) }
        ensures err_only_if_matched { OnErr result
            (under (Q.key prefix) (map.entries self.old) ≢ []) }
    {
        self.routes.remove_prefix(prefix)
    }

    /// Returns the route of a key: that of the longest prefix that the key begins with, or `None`
    /// where there is none. Does not allocate.
    ///
    /// The prefix that is returned is a part of the key that is passed, and does not borrow the
    /// router.
    ///
    /// # Examples
    ///
    /// ```
    /// let mut router = Router::new(rt.alloc());
    /// router.add("/", 1)?;
    /// router.add("/api/", 2)?;
    /// assert_eq!(rt; router.route("/api/users"), Some(("/api/", &2)));
    /// assert_eq!(rt; router.route("/help"), Some(("/", &1)));
    /// assert_eq!(rt; router.route("help"), None);
    /// ```
    pub fn route<Q: BorrowedBytes<Owned = K>>(&self, key: Q) -> Option<(Q, &V)>
        ensures entry { option_map (λ e. (Q.key e.0, e.1.now)) result
            ≡ longest (Q.key key) (map.entries self.now) }
        ensures part { IfSome result (λ e. Begins (Q.key e.0) (Q.key key)) }
    {
        self.routes.get_longest_common_prefix(key)
    }

    /// Returns the route of each key, in the order of the keys. Up to 32 look-ups go on side by
    /// side, so that they wait for memory together.
    ///
    /// # Errors
    ///
    /// Out of memory for the list, which is reserved before the first key is routed; never for no
    /// keys.
    ///
    /// # Examples
    ///
    /// ```
    /// let mut router = Router::new(rt.alloc());
    /// router.add("/api/", 2)?;
    /// let routes = router.route_all(&["/api/users", "/help"])?;
    /// assert_eq!(rt; routes.as_slice(), [Some(("/api/", &2)), None].as_slice());
    /// ```
    pub fn route_all<Q: BorrowedBytes<Owned = K>>(
        &self,
        keys: &[Q],
    ) -> Result<Vec<Option<(Q, &V)>>, AllocError>
        ensures entries { IfOk result (λ routes.
            list_map (option_map (λ e. (Q.key e.0, e.1.now))) routes.items
            ≡ list_map (λ key. longest (Q.key key) (map.entries self.now)) keys.now) }
        ensures err_only_nonempty { OnErr result (keys.now ≢ []) }
    {
        self.routes.longest_many(keys)
    }
}
