//! The calls of a router.

use crate::answering::{Answering, Listed};
use crate::answers::Answers;
use crate::calls;
use crate::kinds::Readable;
use patricia_tree::{BorrowedBytes, Bytes, Router};
use std::alloc::{AllocError, Global};

/// A router that answers calls. Its routes are not listed: their number stands for them.
#[derive(Drop)]
pub(super) struct RouterCalls<K: Bytes> {
    router: Router<K, u64>,
}

impl<K: Bytes> Listed for RouterCalls<K> {
    fn empty(alloc: Global) -> Self {
        RouterCalls {
            router: Router::new(alloc),
        }
    }

    fn add_walked(&self, out: &mut String) -> Result<(), AllocError> {
        out.add_number(self.router.len() as u64)
    }
}

impl<'a, Q: Readable<'a>> Answering<'a, Q> for RouterCalls<Q::Owned> {
    fn answer(
        &mut self,
        alloc: Global,
        call: &str,
        arguments: &'a [Vec<u8>],
        out: &mut String,
    ) -> Result<(), AllocError> {
        match call {
            "add" => add_routes::<Q>(&mut self.router, arguments, out),
            "drop_prefix" => drop_prefixes::<Q>(&mut self.router, arguments, out),
            "route" => add_each::<Q>(&self.router, arguments, out),
            "route_all" => add_all::<Q>(alloc, &self.router, arguments, out),
            "len" => out.add_number(self.router.len() as u64),
            "empty" => out.add_bool(self.router.is_empty()),
            _ => out.add("unknown"),
        }
    }
}

// Adds routes, each with the target after it.
fn add_routes<'a, Q: Readable<'a>>(
    router: &mut Router<Q::Owned, u64>,
    arguments: &'a [Vec<u8>],
    out: &mut String,
) -> Result<(), AllocError> {
    for pair in arguments.chunks(2) {
        if let [prefix, target] = pair
            && let Some(prefix) = Q::read(prefix)
        {
            add_route(router, prefix, calls::number(target) as u64, out)?;
        }
    }
    Ok(())
}

// A refusal gives the target back, and the same target is then added.
fn add_route<Q: BorrowedBytes>(
    router: &mut Router<Q::Owned, u64>,
    prefix: Q,
    target: u64,
    out: &mut String,
) -> Result<(), AllocError> {
    match router.add(prefix, target) {
        Ok(old) => out.add_value(old),
        Err(refused) => {
            out.add("refused")?;
            out.add_number(router.len() as u64)?;
            out.add("again")?;
            add_last_route(router, prefix, refused.value, out)
        }
    }
}

fn add_last_route<Q: BorrowedBytes>(
    router: &mut Router<Q::Owned, u64>,
    prefix: Q,
    target: u64,
    out: &mut String,
) -> Result<(), AllocError> {
    match router.add(prefix, target) {
        Ok(old) => out.add_value(old),
        Err(_) => Err(AllocError),
    }
}

fn drop_prefixes<'a, Q: Readable<'a>>(
    router: &mut Router<Q::Owned, u64>,
    arguments: &'a [Vec<u8>],
    out: &mut String,
) -> Result<(), AllocError> {
    for prefix in arguments {
        if let Some(prefix) = Q::read(prefix) {
            out.add_number(router.drop_prefix(prefix)? as u64)?;
        }
    }
    Ok(())
}

fn add_found<Q: BorrowedBytes>(
    route: Option<(Q, &u64)>,
    out: &mut String,
) -> Result<(), AllocError> {
    match route {
        Some((prefix, target)) => out.add_pair(prefix.as_bytes(), *target),
        None => out.add("none"),
    }
}

// The route of each key.
fn add_each<'a, Q: Readable<'a>>(
    router: &Router<Q::Owned, u64>,
    keys: &'a [Vec<u8>],
    out: &mut String,
) -> Result<(), AllocError> {
    for key in keys {
        if let Some(key) = Q::read(key) {
            add_found(router.route(key), out)?;
        }
    }
    Ok(())
}

fn keys<'a, Q: Readable<'a>>(
    alloc: Global,
    arguments: &'a [Vec<u8>],
) -> Result<Vec<Q>, AllocError> {
    let mut keys = Vec::new(alloc);
    for key in arguments {
        if let Some(key) = Q::read(key) {
            keys.push(key)?;
        }
    }
    Ok(keys)
}

// The routes of all keys at once.
fn add_all<'a, Q: Readable<'a>>(
    alloc: Global,
    router: &Router<Q::Owned, u64>,
    arguments: &'a [Vec<u8>],
    out: &mut String,
) -> Result<(), AllocError> {
    let keys = keys::<Q>(alloc, arguments)?;
    for route in router.route_all(&keys)? {
        add_found(route, out)?;
    }
    Ok(())
}
