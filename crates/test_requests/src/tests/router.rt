//! A router over each kind of keys: calls that may be refused, and calls that do not allocate.

use crate::tests::asserts::{done, holds, same};
use patricia_tree::{BorrowedBytes, Router};
use std::alloc::Global;
use std::process::Abort;

/// Routes, and to which targets keys are routed among them, 0 where to none.
#[derive(Clone, Copy)]
struct Table<'a, Q> {
    routes: &'a [(Q, u32)],
    keys: &'a [Q],
    targets: &'a [u32],
    /// no route begins with it
    absent: Q,
    /// two routes begin with it
    inner: Q,
    /// each route begins with it
    empty: Q,
}

// Adds a route. A refusal hands the target back and changes nothing, and the next try is done.
fn add<Q: BorrowedBytes>(
    rt: &impl Abort,
    router: &mut Router<Q::Owned, u32>,
    prefix: Q,
    target: u32,
) {
    let len = router.len();
    if let Err(refused) = router.add(prefix, target) {
        holds!(rt; (refused.value == target) & (router.len() == len));
        holds!(rt; router.add(prefix, target).ok() == Some(None));
    }
}

// The router of these routes.
fn router_of<Q: BorrowedBytes>(
    rt: &impl Abort,
    alloc: Global,
    routes: &[(Q, u32)],
) -> Router<Q::Owned, u32> {
    let mut router = Router::new(alloc);
    for (prefix, target) in routes {
        add(rt, &mut router, *prefix, *target);
    }
    same!(rt; router.len(), routes.len());
    router
}

fn target<Q: BorrowedBytes>(route: Option<(Q, &u32)>) -> u32 {
    match route {
        Some((_, target)) => *target,
        None => 0,
    }
}

// Asserts what keys are routed to one by one.
fn check_each<Q: BorrowedBytes>(
    rt: &impl Abort,
    router: &Router<Q::Owned, u32>,
    keys: &[Q],
    targets: &[u32],
) {
    for (key, wanted) in keys.iter().zip(targets) {
        holds!(rt; target(router.route(*key)) == *wanted);
    }
}

// Asserts what keys are routed to as a list. A refusal is tried once more.
fn check_list<Q: BorrowedBytes>(
    rt: &impl Abort,
    router: &Router<Q::Owned, u32>,
    keys: &[Q],
    targets: &[u32],
) {
    let routes = match router.route_all(keys) {
        Ok(routes) => routes,
        Err(_) => done(rt, router.route_all(keys)),
    };
    same!(rt; routes.len(), targets.len());
    for (route, wanted) in routes.into_iter().zip(targets) {
        holds!(rt; target(route) == *wanted);
    }
}

// Drops routes. A refusal changes nothing, and the next try is done.
fn drop_prefix<Q: BorrowedBytes>(
    rt: &impl Abort,
    router: &mut Router<Q::Owned, u32>,
    prefix: Q,
    count: usize,
) {
    let len = router.len();
    if let Ok(dropped) = router.drop_prefix(prefix) {
        same!(rt; dropped, count);
    } else {
        same!(rt; router.len(), len);
        holds!(rt; router.drop_prefix(prefix).ok() == Some(count));
    }
    same!(rt; router.len(), len.saturating_sub(count));
}

// Makes the calls that may be refused.
fn check_refused<Q: BorrowedBytes>(rt: &impl Abort, alloc: Global, table: Table<'_, Q>) {
    let mut router = router_of(rt, alloc, table.routes);
    check_list(rt, &router, table.keys, table.targets);
    drop_prefix(rt, &mut router, table.inner, 2);
    drop_prefix(rt, &mut router, table.absent, 0);
    drop_prefix(rt, &mut router, table.empty, 2);
}

// Makes the calls that do not allocate.
fn call_free<Q: BorrowedBytes>(
    rt: &impl Abort,
    router: &mut Router<Q::Owned, u32>,
    table: Table<'_, Q>,
) {
    check_each(rt, router, table.keys, table.targets);
    for (prefix, target) in table.routes {
        holds!(rt; router.add(*prefix, *target).ok() == Some(Some(*target)));
    }
    holds!(rt; router.drop_prefix(table.absent).ok() == Some(0));
    holds!(rt; router.drop_prefix(table.empty).ok() == Some(table.routes.len()));
}

// Makes a router, and then the calls that do not allocate where that is asked.
fn check_free<Q: BorrowedBytes>(
    rt: &impl Abort,
    alloc: Global,
    table: Table<'_, Q>,
    is_called: bool,
) {
    let mut router = router_of(rt, alloc, table.routes);
    if is_called {
        call_free(rt, &mut router, table);
    }
}

const TARGETS: [u32; 4] = [3, 2, 1, 0];

// The last prefix takes memory of its own.
const BYTES: Table<'static, &[u8]> = Table {
    routes: &[
        (b"/", 1),
        (b"/api/", 2),
        (b"/api/users", 3),
        (b"/long/long/long/long/long/long/long/long", 4),
    ],
    keys: &[b"/api/users/7", b"/api/u", b"/x", b"api"],
    targets: &TARGETS,
    absent: b"/zzz",
    inner: b"/api/",
    empty: b"",
};

const TEXTS: Table<'static, &str> = Table {
    routes: &[
        ("/", 1),
        ("/api/", 2),
        ("/api/users", 3),
        ("/long/long/long/long/long/long/long/long", 4),
    ],
    keys: &["/api/users/7", "/api/u", "/x", "api"],
    targets: &TARGETS,
    absent: "/zzz",
    inner: "/api/",
    empty: "",
};

#[test]
fn bytes_refused_in_turn(rt: HostRuntime) {
    check_refused(&rt, rt.alloc(), BYTES);
}

#[test]
fn texts_refused_in_turn(rt: HostRuntime) {
    check_refused(&rt, rt.alloc(), TEXTS);
}

#[test]
fn bytes_made(rt: HostRuntime) {
    check_free(&rt, rt.alloc(), BYTES, false);
}

#[test]
fn bytes_called(rt: HostRuntime) {
    check_free(&rt, rt.alloc(), BYTES, true);
}

#[test]
fn texts_made(rt: HostRuntime) {
    check_free(&rt, rt.alloc(), TEXTS, false);
}

#[test]
fn texts_called(rt: HostRuntime) {
    check_free(&rt, rt.alloc(), TEXTS, true);
}
