//! The examples of routers, as the documentation has them.

use crate::tests::asserts::{done, holds, same};
use patricia_tree::Router;

#[test]
fn new(rt: HostRuntime) {
    // example: router new len is_empty
    let mut router = Router::new(rt.alloc());
    holds!(rt; router.is_empty());
    done(&rt, router.add("/", 1));
    same!(rt; router.len(), 1);
    // end
}

#[test]
fn add(rt: HostRuntime) {
    // example: router add
    let mut router = Router::new(rt.alloc());
    same!(rt; done(&rt, router.add("/api/", 1)), None);
    same!(rt; done(&rt, router.add("/api/", 2)), Some(1));
    // end
}

#[test]
fn drop_prefix(rt: HostRuntime) {
    // example: router drop_prefix
    let mut router = Router::new(rt.alloc());
    done(&rt, router.add("/", 1));
    done(&rt, router.add("/api/", 2));
    same!(rt; done(&rt, router.drop_prefix("/api")), 1);
    same!(rt; router.len(), 1);
    // end
}

#[test]
fn route(rt: HostRuntime) {
    // example: router route
    let mut router = Router::new(rt.alloc());
    done(&rt, router.add("/", 1));
    done(&rt, router.add("/api/", 2));
    assert_eq!(rt; router.route("/api/users"), Some(("/api/", &2)));
    assert_eq!(rt; router.route("/help"), Some(("/", &1)));
    same!(rt; router.route("help"), None);
    // end
}

#[test]
fn route_all(rt: HostRuntime) {
    // example: router route_all
    let mut router = Router::new(rt.alloc());
    done(&rt, router.add("/api/", 2));
    let routes = done(&rt, router.route_all(&["/api/users", "/help"]));
    same!(rt; routes.as_slice(), [Some(("/api/", &2)), None].as_slice());
    // end
}
