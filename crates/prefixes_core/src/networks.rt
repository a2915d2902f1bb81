//! Networks of IPv4 and IPv6 addresses, and tables of them.

ghost use Rattle.std.specs.Prelude.{◌≡◌, ◌++◌, ◌∷◌, ℕ, IfOk, OnOk, IfErr, IfSome, IfNone};
ghost use Rattle.std.specs.List.{flat_map};
ghost use Rattle.std.specs.Net.Grammar.{IsIpText};
ghost use Rattle.std.specs.Option.{option_map};
ghost use Rattle.std.specs.declared.net.ip_addr.IpAddr.{IpAddr};
ghost use Rattle.prefixes_core.specs.Networks.{bits_of, address_key, width, network_key};
ghost use Rattle.prefixes_core.specs.Networks.{address_part, IsLengthText, FixesBits};
ghost use Rattle.prefixes_core.specs.Networks.{IsNetworkFault, network_of};
ghost use Rattle.prefixes_core.specs.declared.networks.NetworkError.TheVariants as Faults;

use crate::value::Payload;
use patricia_tree::router::Router;
use std::alloc::{AllocError, Global};
use std::net::IpAddr;
use thiserror::Error;

/// Why a name is no network.
#[derive(Clone, Copy, Debug, Drop, PartialEq, Eq, Error)]
pub enum NetworkError {
    #[error("not an IPv4 or IPv6 address")]
    NoAddress,
    #[error("no prefix length from 0 to 32 (IPv4) or 128 (IPv6)")]
    NoLength,
}

/// A network of a table.
#[derive(Debug, Drop)]
pub struct Network {
    /// The network as it is written in the table.
    pub text: Payload,
    pub target: Payload,
}

/// A table of networks. The key of a network is the version of its addresses and then a byte, 0 or
/// 1, for each bit that the network fixes.
pub type Networks = Router<Vec<u8>, Network>;

// How many bits an address has.
fn width(address: IpAddr) -> u8
    ensures { result ≡ width address }
{
    match address {
        IpAddr::V4(_) => 32,
        IpAddr::V6(_) => 128,
    }
}

// Writes the bits of a byte, the highest first.
fn push_bits(byte: u8, key: &mut Vec<u8>) -> Result<(), AllocError>
    ensures { OnOk result (key.new.items ≡ key.old.items ++ bits_of byte) }
{
    key.extend_from_slice(&[
        byte / 128 % 2,
        byte / 64 % 2,
        byte / 32 % 2,
        byte / 16 % 2,
        byte / 8 % 2,
        byte / 4 % 2,
        byte / 2 % 2,
        byte % 2,
    ])
}

// A version and the bits of some bytes.
fn key_of(alloc: Global, version: u8, octets: &[u8]) -> Result<Vec<u8>, AllocError>
    ensures { IfOk result (λ key. key.items ≡ version ∷ flat_map bits_of octets.now) }
{
    let mut key = Vec::new(alloc);
    key.push(version)?;
    for octet in octets {
        push_bits(*octet, &mut key)?;
    }
    Ok(key)
}

// The key of an address.
fn address_key(alloc: Global, address: IpAddr) -> Result<Vec<u8>, AllocError>
    ensures { IfOk result (λ key. key.items ≡ address_key address) }
{
    match address {
        IpAddr::V4(address) => key_of(alloc, 4, &address.octets()),
        IpAddr::V6(address) => key_of(alloc, 6, &address.octets()),
    }
}

/// The key of the network that fixes so many bits of an address.
pub(crate) fn network_key(alloc: Global, address: IpAddr, count: u8) -> Result<Vec<u8>, AllocError>
    ensures { IfOk result (λ key. key.items ≡ network_key address count) }
{
    let mut key = address_key(alloc, address)?;
    key.truncate(1 + usize::from(count));
    Ok(key)
}

// The address that a text writes.
fn address_of(text: &str) -> Result<IpAddr, NetworkError>
    ensures ok { IfOk result (λ address. IsIpText text.now address) }
    ensures err { IfErr result (λ e. (e ≡ Faults.NoAddress)
        × ((address : IpAddr) → IsIpText text.now address → ⊥)) }
{
    match IpAddr::parse_ascii(text.as_bytes()) {
        Ok(address) => Ok(address),
        Err(_) => Err(NetworkError::NoAddress),
    }
}

// The prefix length that a text writes, which is `most` at most.
fn length_of(text: &str, most: u8) -> Option<u8>
    ensures some { IfSome result (λ count. IsLengthText most text.now count) }
    ensures none { IfNone result ((count : ℕ) → IsLengthText most text.now count → ⊥) }
{
    if text.len() > 3 || text.as_bytes().first() == Some(&b'+') {
        return None;
    }
    match text.parse::<u8>() {
        Ok(count) if count <= most => Some(count),
        _ => None,
    }
}

/// Returns an address of the network that a text writes, and how many of its bits the network
/// fixes.
///
/// The text is an address, or an address, a slash and one to three decimal digits. Without a slash
/// the network has that address alone.
///
/// # Errors
///
/// What is before the slash is no address, or what is after it is no number from 0 to 32, or 128
/// for IPv6.
///
/// # Examples
///
/// ```
/// let address = IpAddr::V4(Ipv4Addr::new(10, 1, 2, 3));
/// assert_eq!(rt; parse_network("10.1.2.3/8"), Ok((address, 8)));
/// assert_eq!(rt; parse_network("10.1.2.3"), Ok((address, 32)));
/// assert_eq!(rt; parse_network("10.1.2.3/33"), Err(NetworkError::NoLength));
/// ```
pub fn parse_network(name: &str) -> Result<(IpAddr, u8), NetworkError>
    ensures ok { IfOk result (λ network. IsIpText (address_part name.now) network.0
        × FixesBits name.now network.0 network.1) }
    ensures err { IfErr result (λ e. IsNetworkFault name.now e) }
{
    let Some((front, length)) = name.split_once('/') else {
        let address = match address_of(name) {
            Ok(address) => address,
            Err(error) => return Err(error),
        };
        return Ok((address, width(address)));
    };
    let address = match address_of(front) {
        Ok(address) => address,
        Err(error) => return Err(error),
    };
    match length_of(length, width(address)) {
        Some(count) => Ok((address, count)),
        None => Err(NetworkError::NoLength),
    }
}

/// Returns the longest network of a table that an address is in.
///
/// # Errors
///
/// Out of memory for the key of the address.
///
/// # Examples
///
/// ```
/// let mut table = Networks::new(rt.alloc());
/// table.add_entry(rt.alloc(), "10.0.0.0/8", b"ten".as_slice())?;
/// table.add_entry(rt.alloc(), "::/0", b"six".as_slice())?;
/// let address = IpAddr::V4(Ipv4Addr::new(10, 1, 2, 3));
/// let found = network_of(rt.alloc(), &table, address)?;
/// assert!(rt; found.is_some_and(|network| network.target.as_bytes() == b"ten".as_slice()));
/// ```
pub fn network_of(
    alloc: Global,
    table: &Networks,
    address: IpAddr,
) -> Result<Option<&Network>, AllocError>
    ensures { IfOk result (λ found.
        option_map (λ network. network.now) found ≡ network_of table.now address) }
{
    let key = address_key(alloc, address)?;
    match table.route(key.as_slice()) {
        Some((_, network)) => Ok(Some(network)),
        None => Ok(None),
    }
}
