//! The README's block list: is a host, or a domain that it belongs to, on the list?
#![tactic(auto)]

use patricia_tree::StringPatriciaSet;
use std::alloc::{AllocError, Global};
use std::io;

const LISTED: [&str; 4] = [
    "ads.example.com",
    "example.org",
    "tracker.net",
    "example.ads",
];

const HOSTS: [&str; 6] = [
    "ads.example.com",
    "eu.ads.example.com",
    "www.example.com",
    "adsense.example.com",
    "cdn.eu.tracker.net",
    "org",
];

// The parts of a domain from the last to the first, with a dot after each. So a domain is a
// prefix of all that belong to it, and of no other.
fn reversed(alloc: Global, domain: &str) -> Result<String, AllocError> {
    let mut name = String::new(alloc);
    for part in domain.rsplit('.') {
        name.push_str(part)?;
        name.push('.')?;
    }
    Ok(name)
}

fn list_all(alloc: Global, listed: &mut StringPatriciaSet) -> Result<(), AllocError> {
    for domain in LISTED {
        let name = reversed(alloc, domain)?;
        listed.insert(name.as_str())?;
    }
    Ok(())
}

fn answer(rt: &impl Print, listed: &StringPatriciaSet, host: &str, name: &str) -> io::Result<()> {
    match listed.get_longest_common_prefix(name) {
        Some(entry) => println!(rt; "{host}: blocked by {entry}"),
        None => println!(rt; "{host}: passes"),
    }
}

fn answer_all(rt: &(impl AllocGlobal + Print), listed: &StringPatriciaSet) -> anyhow::Result<()> {
    println!(rt; "{listed:?}")?;
    for host in HOSTS {
        let name = reversed(rt.alloc(), host)?;
        answer(rt, listed, host, name.as_str())?;
    }
    Ok(())
}

fn main(rt: HostRuntime) -> anyhow::Result<()> {
    let mut listed = StringPatriciaSet::new(rt.alloc());
    list_all(rt.alloc(), &mut listed)?;
    answer_all(&rt, &listed)
}
