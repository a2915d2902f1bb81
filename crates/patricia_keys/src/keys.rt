//! Key kinds: what an owned and a borrowed key can do.
//!
//! A key is a list of items: single bytes in byte strings, characters in texts, two bytes in keys
//! of 16-bit units. Labels and prefixes are cut between items only. Each length is a number of
//! bytes.
ghost use Rattle.std.specs.Prelude.{◌≡◌, ℕ, ◌≤◌, List, [], length, take, drop, IsTrue, ◌↔◌, IfOk};
ghost use Rattle.patricia_keys.specs.Keys.{IsKeyKind, IsValid, IsCommon, DropsCommon, IsFloor};
ghost use Rattle.patricia_keys.specs.Keys.{ComparesFirst};

mod any;
mod byte;
mod text;
mod units;

pub use any::{KeyBytes, first_item_len};
pub use byte::shared_len;
use std::alloc::{AllocError, Global};
use std::cmp::Ordering;
pub use text::text_of;
pub use units::{UnitKey, Units};

/// An owned key.
///
/// An implementation gives its items and proves that they are a key kind. Everything else that is
/// said of keys is said for every such kind.
pub trait Bytes: Drop {
    // whether a byte list is an item of this kind
    ghost item: { List ℕ → Type 0 };

    // the bytes of a key
    ghost key: { Self → List ℕ };

    /// Whether the bytes are a list of whole items.
    ///
    /// # Examples
    ///
    /// ```
    /// // a text of two characters, whose second is cut
    /// let bytes = [97, 227, 129];
    /// assert!(rt; !String::is_valid_bytes(&bytes));
    /// assert_eq!(rt; String::floor_boundary(&bytes), 1);
    /// ```
    fn is_valid_bytes(bytes: &[u8]) -> bool
        ensures { IsTrue result ↔ IsValid item bytes.now };

    /// Makes a key of bytes that are valid. The error is out of memory.
    ///
    /// # Examples
    ///
    /// ```
    /// let borrowed = "foo";
    /// let key = String::from_bytes(rt.alloc(), BorrowedBytes::as_bytes(&borrowed))?;
    /// assert_eq!(rt; Bytes::as_bytes(&key), b"foo".as_slice());
    /// assert!(rt; !BorrowedBytes::is_empty(&borrowed));
    /// ```
    fn from_bytes(alloc: Global, bytes: &[u8]) -> Result<Self, AllocError>
        requires { IsValid item bytes.now }
        ensures { IfOk result (λ k. key k ≡ bytes.now) };

    /// The bytes of the key, which are always valid.
    ///
    /// # Examples
    ///
    /// ```
    /// let borrowed = "foo";
    /// let key = String::from_bytes(rt.alloc(), BorrowedBytes::as_bytes(&borrowed))?;
    /// assert_eq!(rt; Bytes::as_bytes(&key), b"foo".as_slice());
    /// assert!(rt; !BorrowedBytes::is_empty(&borrowed));
    /// ```
    fn as_bytes(&self) -> &[u8]
        ensures value { result.now ≡ key self.now }
        ensures valid { IsValid item (key self.now) };

    /// How many bytes at the front are whole items, for any bytes.
    ///
    /// The bytes may end inside an item, or hold bytes that no key has.
    ///
    /// # Examples
    ///
    /// ```
    /// // a text of two characters, whose second is cut
    /// let bytes = [97, 227, 129];
    /// assert!(rt; !String::is_valid_bytes(&bytes));
    /// assert_eq!(rt; String::floor_boundary(&bytes), 1);
    /// ```
    fn floor_boundary(bytes: &[u8]) -> usize
        ensures { IsFloor item bytes.now result };

    ghost lawful: { IsKeyKind item };
}

/// A borrowed key, which is passed by value.
pub trait BorrowedBytes: Copy {
    type Owned: Bytes;

    // the bytes of a key
    ghost key: { Self → List ℕ };

    /// The bytes of the key, which are always valid.
    ///
    /// # Examples
    ///
    /// ```
    /// let borrowed = "foo";
    /// let key = String::from_bytes(rt.alloc(), BorrowedBytes::as_bytes(&borrowed))?;
    /// assert_eq!(rt; Bytes::as_bytes(&key), b"foo".as_slice());
    /// assert!(rt; !BorrowedBytes::is_empty(&borrowed));
    /// ```
    fn as_bytes(&self) -> &[u8]
        ensures value { result.now ≡ key self.now }
        ensures valid { IsValid Self.Owned.item (key self.now) };

    /// Whether the key has no byte.
    ///
    /// # Examples
    ///
    /// ```
    /// let borrowed = "foo";
    /// let key = String::from_bytes(rt.alloc(), BorrowedBytes::as_bytes(&borrowed))?;
    /// assert_eq!(rt; Bytes::as_bytes(&key), b"foo".as_slice());
    /// assert!(rt; !BorrowedBytes::is_empty(&borrowed));
    /// ```
    fn is_empty(&self) -> bool
        ensures { IsTrue result ↔ (key self.now ≡ []) }
    {
        self.as_bytes().is_empty()
    }

    /// The key without the whole items that it has in common with the front of the bytes.
    ///
    /// # Examples
    ///
    /// ```
    /// assert_eq!(rt; "foobar".strip_common_prefix(b"foxes"), "obar");
    /// assert_eq!(rt; "foobar".strip_common_prefix_and_len(b"foxes"), ("obar", 2));
    /// // two characters that begin with the same byte have none in common
    /// assert_eq!(rt; "あ".strip_common_prefix("い".as_bytes()), "あ");
    /// ```
    fn strip_common_prefix(self, bytes: &[u8]) -> Self
        ensures { DropsCommon Self.Owned.item (key self) bytes.now (key result) };

    /// The same, and how many bytes were taken off.
    ///
    /// # Examples
    ///
    /// ```
    /// assert_eq!(rt; "foobar".strip_common_prefix(b"foxes"), "obar");
    /// assert_eq!(rt; "foobar".strip_common_prefix_and_len(b"foxes"), ("obar", 2));
    /// // two characters that begin with the same byte have none in common
    /// assert_eq!(rt; "あ".strip_common_prefix("い".as_bytes()), "あ");
    /// ```
    fn strip_common_prefix_and_len(self, bytes: &[u8]) -> (Self, usize)
        ensures common { IsCommon Self.Owned.item (key self) bytes.now result.1 }
        ensures rest { key result.0 ≡ drop result.1 (key self) }
    {
        let rest = self.strip_common_prefix(bytes);
        let len = self.as_bytes().len() - rest.as_bytes().len();
        (rest, len)
    }

    /// Compares the first items. No item comes before any item.
    ///
    /// # Examples
    ///
    /// ```
    /// let other = "bar";
    /// let order = "foo".cmp_first_item(BorrowedBytes::as_bytes(&other));
    /// assert_eq!(rt; order, Ordering::Greater);
    /// ```
    fn cmp_first_item(self, bytes: &[u8]) -> Ordering
        requires { IsValid Self.Owned.item bytes.now }
        ensures { ComparesFirst Self.Owned.item (key self) bytes.now result };

    /// The key without its first `n` bytes, which are whole items.
    ///
    /// # Examples
    ///
    /// ```
    /// // The first bytes of a key and the others, where the first are whole items.
    /// fn halves<Q: BorrowedBytes>(key: Q, n: usize) -> Option<(Q, Q)> {
    ///     let Some(front) = key.as_bytes().get(..n) else {
    ///         return None;
    ///     };
    ///     if !Q::Owned::is_valid_bytes(front) {
    ///         return None;
    ///     }
    ///     Some((key.keep_n_prefix(n), key.strip_n_prefix(n)))
    /// }
    /// ```
    fn strip_n_prefix(self, n: usize) -> Self
        requires within { n ≤ length (key self) }
        requires valid { IsValid Self.Owned.item (take n (key self)) }
        ensures { key result ≡ drop n (key self) };

    /// The first `n` bytes of the key, which are whole items.
    ///
    /// # Examples
    ///
    /// ```
    /// // The first bytes of a key and the others, where the first are whole items.
    /// fn halves<Q: BorrowedBytes>(key: Q, n: usize) -> Option<(Q, Q)> {
    ///     let Some(front) = key.as_bytes().get(..n) else {
    ///         return None;
    ///     };
    ///     if !Q::Owned::is_valid_bytes(front) {
    ///         return None;
    ///     }
    ///     Some((key.keep_n_prefix(n), key.strip_n_prefix(n)))
    /// }
    /// ```
    fn keep_n_prefix(self, n: usize) -> Self
        requires within { n ≤ length (key self) }
        requires valid { IsValid Self.Owned.item (take n (key self)) }
        ensures { key result ≡ take n (key self) };
}
