//! Copies of a store.
ghost use Rattle.std.specs.Prelude.{◌≡◌, ◌≢◌, ℕ, Some, [], slice_get, IfSome, IfOk, OnErr};
ghost use Rattle.patricia_model.specs.Clones.{CloneIsSame};
ghost use Rattle.patricia_store.specs.Internal.Bodies.{value_in};
ghost use Rattle.patricia_store.specs.Internal.Nodes.{ReadsNode};

use super::Store;
use crate::body::Body;
use std::alloc::{AllocError, Global};

// The same bodies in a vector of their own, which is reserved once.
fn clone_bodies<V: Clone>(alloc: Global, from: &Vec<Body<V>>) -> Result<Vec<Body<V>>, AllocError>
    requires { (i : ℕ) (b : Body V) → slice_get from.now.items i ≡ Some b
        → IfSome (value_in b) (CloneIsSame V.is_clone) }
    ensures { IfOk result (λ to. to.items ≡ from.now.items) }
{
    let mut to = Vec::with_capacity(alloc, from.len())?;
    for i in 0..from.len() {
        to.push_reserved(from[i].try_clone()?);
    }
    Ok(to)
}

impl<V: Clone> Store<V> {
    /// The same nodes in vectors of their own, each of which is reserved once, for as many items as
    /// there are. The bytes of labels are copied as a whole, with those that no node has. Asks for
    /// nothing where there is no node.
    pub fn try_clone(&self, alloc: Global) -> Result<Store<V>, AllocError>
        requires { (i : ℕ) → ReadsNode self.now i
            (λ n. IfSome n.value (CloneIsSame V.is_clone)) }
        ensures same { IfOk result (λ s. s.items ≡ self.now.items) }
        ensures nonempty { OnErr result (self.now.items ≢ []) }
    {
        if self.heads.is_empty() {
            return Ok(Store::new(alloc));
        }
        Ok(Store {
            heads: Vec::from_slice(alloc, self.heads.as_slice())?,
            bodies: clone_bodies(alloc, &self.bodies)?,
            labels: self.labels.try_clone(alloc)?,
            dead: self.dead,
            alloc,
        })
    }
}
