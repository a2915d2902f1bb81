//! Numbers of nodes, and links: such a number, or none, in the bytes of one number.
ghost use Rattle.std.specs.Prelude.{◌≡◌, ◌<◌, Some, None};

use std::marker::Model;

/// The number of a node.
#[derive(Clone, Copy)]
pub struct NodeId(usize);

impl Model for NodeId {
    ghost use Rattle.std.specs.Prelude.{ℕ};

    ghost Value = { ℕ };

    ghost view = { λ n. n.0 };

    ghost inverse = { λ n. record { 0 = n } };
}

impl NodeId {
    /// The node at this index of the vector.
    pub fn new(index: usize) -> NodeId
        ensures { result ≡ index }
    {
        NodeId(index)
    }

    /// Its index in the vector.
    pub fn index(self) -> usize
        ensures { result ≡ self }
    {
        self.0
    }
}

/// The number of a node, or none.
// Inside it is 0 for none, and else one more than the number.
#[derive(Clone, Copy)]
pub struct Link(usize);

impl Model for Link {
    ghost use Rattle.std.specs.Prelude.{ℕ, Option};

    ghost Value = { Option ℕ };

    ghost use Rattle.patricia_nodes.specs.Internal.Links.{link_view, kept, kept-link-view};

    ghost view = { link_view };

    ghost inverse = { kept };

    ghost inverse_ok = { λ a h. kept-link-view a };
}

impl Link {
    /// No number.
    pub fn none() -> Link
        ensures { result ≡ None }
    {
        Link(0)
    }

    /// This number.
    pub fn some(id: NodeId) -> Link
        requires { id < 18446744073709551615 }
        ensures { result ≡ Some id }
    {
        Link(id.0 + 1)
    }

    /// The number, if there is one.
    pub fn get(self) -> Option<NodeId>
        ensures { result ≡ self }
    {
        if self.0 == 0 {
            None
        } else {
            Some(NodeId(self.0 - 1))
        }
    }
}
