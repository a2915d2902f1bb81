//! A look-up on its way, which goes on a node at a time.
ghost use Rattle.std.specs.Prelude.{◌≡◌, ℕ, ◌<◌, ◌≤◌, ◌≢◌, ◌↔◌, [], None, Some, IfSome, vec_len};
ghost use Rattle.std.specs.Prelude.{◌++◌, IsTrue, drop, false, length, slice_index_or, take, true};
ghost use Rattle.std.specs.Option.{option_copied, option_map};
ghost use Rattle.std.specs.FinMap.{find};
ghost use Rattle.patricia_keys.specs.Keys.{key_cmp, IsValid};
ghost use Rattle.patricia_model.specs.Prefixes.{longest};
ghost use Rattle.patricia_model.specs.Siblings.{own, IsCanonical};
ghost use Rattle.patricia_model.specs.Internal.LabelCmp.{ComparesLabel};
ghost use Rattle.patricia_nodes.specs.Internal.NodeVecs.{IsRun, ReadsNode};
ghost use Rattle.patricia_nodes.specs.Internal.Plans.{IsWellFormed, siblings_of, entries_of};
ghost use Rattle.patricia_many.specs.Internal.Lookups.{IsFind, IsLookup, KeepsBest, nodes_ahead};

use patricia_keys::{BorrowedBytes, Bytes};
use patricia_model::label_cmp::LabelCmp;
use patricia_nodes::arena::NodeArena;
use patricia_nodes::link::{Link, NodeId};

// So many rows are passed at once where a look-up begins: these are read so often that no read
// waits for memory.
const TOP_ROWS: usize = 2;

// How what is left of a key meets the label of a node, where the head of the node says so. The
// first byte of the key is given.
#[inline(always)]
fn compare_head<Q: BorrowedBytes, V>(
    arena: &NodeArena<V>,
    id: NodeId,
    key: Q,
    first: u8,
) -> Option<LabelCmp<Q>>
    requires within { id < length arena.now.nodes.items }
    requires valid { ReadsNode arena.now.nodes id (λ n. IsValid Q.Owned.item n.label) }
    requires nonempty { ReadsNode arena.now.nodes id (λ n. n.label ≢ []) }
    requires key_valid { IsValid Q.Owned.item (Q.key key) }
    requires key_filled { Q.key key ≢ [] }
    requires first { first ≡ slice_index_or (Q.key key) 0 0 }
    ensures { IfSome result (λ met. ReadsNode arena.now.nodes id
        (λ n. ComparesLabel Q.Owned.item Q.key (Q.key key) n.label met)) }
{
    let other = arena.nodes.first_byte(id);
    if first < other {
        return Some(LabelCmp::Before);
    }
    if other < first {
        return Some(LabelCmp::After);
    }
    let len = arena.nodes.short_len(id);
    if len == 1 {
        return Some(LabelCmp::Full(key.strip_n_prefix(1)));
    }
    None
}

/// A look-up on its way, or at its end.
#[derive(Clone, Copy)]
pub struct Lookup {
    // the first of the siblings where it goes on, none at its end
    at: Link,
    // how many bytes of the key the nodes above them have
    passed: usize,
    // what was last read ahead: of the node there the first byte of its label
    first: u8,
    // at its end the node of the key, where there is one
    end: Link,
    // where the longest prefix is looked for, its node among those that were passed, if it is not
    // the empty key, and how many bytes it has
    best: Link,
    best_len: usize,
}

impl Lookup {
    /// A look-up of no key, at its end.
    pub fn new() -> Lookup {
        Lookup {
            at: Link::none(),
            passed: 0,
            first: 0,
            end: Link::none(),
            best: Link::none(),
            best_len: 0,
        }
    }

    /// Reads both ends of the key that is to be looked up. A key of usual length has no other line
    /// of memory.
    #[inline(always)]
    pub fn read_key<Q: BorrowedBytes>(&mut self, key: Q)
        ensures { self.new ≡ record self.old { first = self.new.first } }
    {
        let bytes = key.as_bytes();
        if !bytes.is_empty() {
            self.first = bytes[0] ^ bytes[bytes.len() - 1];
        }
    }

    /// Begins the look-up of a key, and of its longest prefix where that is asked for, at the top.
    pub fn start<Q: BorrowedBytes, V>(&mut self, arena: &NodeArena<V>, key: Q, by_prefix: bool)
        requires whole { IsWellFormed arena.now }
        requires siblings { IsCanonical Q.Owned.item (siblings_of arena.now) }
        ensures { IsLookup Q.Owned.item arena.now by_prefix (Q.key key) self.new }
    {
        self.passed = 0;
        self.best = Link::none();
        if key.is_empty() {
            self.end_at(Link::none());
        } else {
            self.go_to(arena.root);
            self.pass_top(arena, key, by_prefix);
        }
    }

    /// Whether it is not yet at its end.
    pub fn goes_on(&self) -> bool
        ensures { IsTrue result ↔ (self.now.at ≢ None) }
    {
        self.at.get().is_some()
    }

    /// Whether it is not yet at its end and does not wait for a label. Whether it waits is given.
    #[inline(always)]
    pub fn goes_on_at_once(&self, waits: bool) -> bool
        ensures { waits ≡ true → result ≡ false }
    {
        !waits && self.goes_on()
    }

    // Goes to these siblings.
    #[inline(always)]
    fn go_to(&mut self, at: Link)
        ensures { self.new ≡ record self.old { at = at; end = None } }
    {
        self.at = at;
        self.end = Link::none();
    }

    // Ends at this node.
    fn end_at(&mut self, end: Link)
        ensures { self.new ≡ record self.old { at = None; end = end } }
    {
        self.at = Link::none();
        self.end = end;
    }

    /// Reads the head of the node there.
    #[inline(always)]
    pub fn read_head<V>(&mut self, arena: &NodeArena<V>)
        requires { IfSome self.old.at (λ id. id < length arena.now.nodes.items) }
        ensures { self.new ≡ record self.old { first = self.new.first } }
    {
        if let Some(id) = self.at.get() {
            self.first = arena.nodes.first_byte(id);
        }
    }

    /// Reads the label of the node there.
    #[inline(always)]
    pub fn read_label<V>(&mut self, arena: &NodeArena<V>)
        requires { IfSome self.old.at (λ id. id < length arena.now.nodes.items) }
        ensures { self.new ≡ record self.old { first = self.new.first } }
    {
        if let Some(id) = self.at.get() {
            let label = arena.nodes.label(id);
            if !label.is_empty() {
                self.first = label[0];
            }
        }
    }

    // What is left of the key.
    #[inline(always)]
    fn rest<Q: BorrowedBytes>(&self, key: Q) -> Q
        requires within { self.now.passed ≤ length (Q.key key) }
        requires valid { IsValid Q.Owned.item (take self.now.passed (Q.key key)) }
        ensures { Q.key result ≡ drop self.now.passed (Q.key key) }
    {
        key.strip_n_prefix(self.passed)
    }

    // The first node from this one on, along siblings that lie behind one another, that does not
    // come before the next byte of the key, or the last of them. The head of this one was read.
    #[inline(always)]
    fn past_siblings<V>(&self, arena: &NodeArena<V>, from: NodeId, b: u8) -> NodeId
        requires { (to : ℕ) → IsRun arena.now.nodes b from to
            → to < length arena.now.nodes.items }
        ensures { IsRun arena.now.nodes b from result }
    {
        if self.first < b {
            arena.nodes.run(from, b)
        } else {
            from
        }
    }

    // Keeps a node that was passed as that of the longest prefix so far, where that is asked for
    // and the node has a value. So many bytes of the key end there.
    #[inline(always)]
    fn keep<V>(&mut self, arena: &NodeArena<V>, id: NodeId, len: usize, by_prefix: bool)
        requires { id < length arena.now.nodes.items }
        ensures others { self.new
            ≡ record self.old { best = self.new.best; best_len = self.new.best_len } }
        ensures best { by_prefix ≡ true → ReadsNode arena.now.nodes id
            (λ n. KeepsBest n.value id len self.old self.new) }
    {
        if by_prefix && arena.nodes.value(id).is_some() {
            // for the proof alone: there are no more nodes than links can say
            let _few = arena.nodes.len();
            self.best = Link::some(id);
            self.best_len = len;
        }
    }

    // Goes from a node to its sibling, to its children, or to the end. How what is left of the key
    // meets the label of the node is given.
    #[inline(always)]
    fn step<Q: BorrowedBytes, V>(
        &mut self,
        arena: &NodeArena<V>,
        key: Q,
        id: NodeId,
        met: LabelCmp<Q>,
        by_prefix: bool,
    )
        requires whole { IsWellFormed arena.now }
        requires siblings { IsCanonical Q.Owned.item (siblings_of arena.now) }
        requires met { ReadsNode arena.now.nodes id (λ n. ComparesLabel Q.Owned.item
            Q.key (drop self.old.passed (Q.key key)) n.label met) }
        requires key { IsLookup Q.Owned.item arena.now by_prefix (Q.key key)
            (record self.old { at = Some id }) }
        ensures key { IsLookup Q.Owned.item arena.now by_prefix (Q.key key) self.new }
        ensures ahead { nodes_ahead arena.now self.new.at < nodes_ahead arena.now (Some id) }
    {
        match met {
            LabelCmp::Before => self.end_at(Link::none()),
            LabelCmp::After => self.go_to(arena.nodes.sibling(id)),
            LabelCmp::Partial(_) => self.end_at(Link::none()),
            LabelCmp::Full(left) => {
                let passed = key.as_bytes().len() - left.as_bytes().len();
                self.keep(arena, id, passed, by_prefix);
                if left.is_empty() {
                    // for the proof alone: there are no more nodes than links can say
                    let _few = arena.nodes.len();
                    self.end_at(Link::some(id));
                } else {
                    self.passed = passed;
                    self.go_to(arena.nodes.child(id));
                }
            }
        }
    }

    /// Goes on, but where the look-up waits for a label then, and returns whether it does. The head
    /// of the node there was read.
    #[inline(always)]
    pub fn go<Q: BorrowedBytes, V>(&mut self, arena: &NodeArena<V>, key: Q, by_prefix: bool) -> bool
        requires whole { IsWellFormed arena.now }
        requires siblings { IsCanonical Q.Owned.item (siblings_of arena.now) }
        requires key { IsLookup Q.Owned.item arena.now by_prefix (Q.key key) self.old }
        ensures { IsLookup Q.Owned.item arena.now by_prefix (Q.key key) self.new }
    {
        let Some(from) = self.at.get() else {
            return false;
        };
        let left = self.rest(key);
        let b = left.as_bytes()[0];
        let id = self.past_siblings(arena, from, b);
        match compare_head(arena, id, left, b) {
            Some(met) => {
                self.step(arena, key, id, met, by_prefix);
                false
            }
            None => {
                // for the proof alone: there are no more nodes than links can say
                let _few = arena.nodes.len();
                self.at = Link::some(id);
                true
            }
        }
    }

    /// Goes on by a node. Its head was read, or its label.
    #[inline(always)]
    pub fn advance<Q: BorrowedBytes, V>(&mut self, arena: &NodeArena<V>, key: Q, by_prefix: bool)
        requires whole { IsWellFormed arena.now }
        requires siblings { IsCanonical Q.Owned.item (siblings_of arena.now) }
        requires key { IsLookup Q.Owned.item arena.now by_prefix (Q.key key) self.old }
        ensures key { IsLookup Q.Owned.item arena.now by_prefix (Q.key key) self.new }
        ensures ahead { self.old.at ≢ None
            → nodes_ahead arena.now self.new.at < nodes_ahead arena.now self.old.at }
    {
        let Some(from) = self.at.get() else {
            return;
        };
        let left = self.rest(key);
        let b = left.as_bytes()[0];
        let to = self.past_siblings(arena, from, b);
        let met = arena.compare(to, left);
        self.step(arena, key, to, met, by_prefix);
    }

    // Passes the rows at the top.
    fn pass_top<Q: BorrowedBytes, V>(&mut self, arena: &NodeArena<V>, key: Q, by_prefix: bool)
        requires whole { IsWellFormed arena.now }
        requires siblings { IsCanonical Q.Owned.item (siblings_of arena.now) }
        requires key { IsLookup Q.Owned.item arena.now by_prefix (Q.key key) self.old }
        ensures { IsLookup Q.Owned.item arena.now by_prefix (Q.key key) self.new }
    {
        let mut rows = 0;
        while rows < TOP_ROWS && self.goes_on() {
            self.read_head(arena);
            self.advance(arena, key, by_prefix);
            rows += 1;
        }
    }

    /// Goes on to its end.
    pub fn finish<Q: BorrowedBytes, V>(&mut self, arena: &NodeArena<V>, key: Q, by_prefix: bool)
        requires whole { IsWellFormed arena.now }
        requires siblings { IsCanonical Q.Owned.item (siblings_of arena.now) }
        requires key { IsLookup Q.Owned.item arena.now by_prefix (Q.key key) self.old }
        ensures key { IsLookup Q.Owned.item arena.now by_prefix (Q.key key) self.new }
        ensures ended { self.new.at ≡ None }
    {
        while self.goes_on() {
            self.read_head(arena);
            self.advance(arena, key, by_prefix);
        }
    }

    /// The value at the key, where the look-up is at its end. That of the empty key is given.
    pub fn value<'b, Q: BorrowedBytes, V>(
        &self,
        arena: &'b NodeArena<V>,
        top: Option<&'b V>,
        key: Q,
    ) -> Option<&'b V>
        requires siblings { IsCanonical Q.Owned.item (siblings_of arena.now) }
        requires key { IsFind Q.Owned.item arena.now (Q.key key) self.now }
        requires ended { self.now.at ≡ None }
        ensures { option_copied result
            ≡ find key_cmp (Q.key key) (own (option_copied top.entry) ++ entries_of arena.now) }
    {
        if key.is_empty() {
            return top;
        }
        match self.end.get() {
            Some(id) => arena.nodes.value(id),
            None => None,
        }
    }

    /// The longest prefix of the key and the value there, where this was looked for and the look-up
    /// is at its end. The value at the empty key is given.
    pub fn prefix<'b, Q: BorrowedBytes, V>(
        &self,
        arena: &'b NodeArena<V>,
        top: Option<&'b V>,
        key: Q,
    ) -> Option<(Q, &'b V)>
        requires key { IsLookup Q.Owned.item arena.now true (Q.key key) self.now }
        requires ended { self.now.at ≡ None }
        ensures { option_map (λ e. (Q.key e.0, e.1.now)) result
            ≡ longest (Q.key key) (own (option_copied top.entry) ++ entries_of arena.now) }
    {
        match self.best.get() {
            None => match top {
                Some(value) => Some((key.keep_n_prefix(0), value)),
                None => None,
            },
            Some(id) => match arena.nodes.value(id) {
                Some(value) => Some((key.keep_n_prefix(self.best_len), value)),
                None => None,
            },
        }
    }

    /// The longest prefix of the key as `prefix` has it, without the value there.
    pub fn prefix_key<Q: BorrowedBytes, V>(
        &self,
        arena: &NodeArena<V>,
        top: Option<&V>,
        key: Q,
    ) -> Option<Q>
        requires key { IsLookup Q.Owned.item arena.now true (Q.key key) self.now }
        requires ended { self.now.at ≡ None }
        ensures { option_map Q.key result ≡ option_map (λ e. e.0)
            (longest (Q.key key) (own (option_copied top.entry) ++ entries_of arena.now)) }
    {
        match self.prefix(arena, top, key) {
            Some(entry) => Some(entry.0),
            None => None,
        }
    }
}
