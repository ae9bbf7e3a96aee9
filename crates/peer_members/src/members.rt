//! The servers of a ring, and which of them there may be.

ghost use Rattle.std.specs.Prelude.{◌≡◌, ◌==◌, ◌↔◌, ◌+◌, ◌*◌, ◌≤◌, IfOk, IsTrue};
ghost use Rattle.std.specs.List.{AllByRecursion, list_all, list_any};
ghost use Rattle.peer_members.specs.Members.{AreRising, IsMembers, MayBe, digest_of, is_address, is_visible};

use crate::limits::{
    MAX_ADDRESS_BYTES, MAX_RING_VNODES, MAX_SERVERS, MAX_VNODES, MIN_ADDRESS_BYTES,
};
use crate::writing::push_list;
use sha2::{Digest, Sha256};
use std::alloc::{AllocError, Global};

/// A server of a ring.
#[derive(Drop)]
pub struct Server {
    /// Its number, of 0 to 59, which no other has.
    pub number: u8,
    /// Where it listens to other servers, as text: a host, a colon and a port.
    pub address: Vec<u8>,
}

/// The servers of a ring.
#[derive(Drop)]
pub struct Members {
    /// How many vnodes each server has, 1 to 16. On the ring the first one of a server has the index that is its number times this.
    pub vnodes: u8,
    /// The servers, in the order of their numbers.
    pub servers: Vec<Server>,
    /// The number of the one whose list this is.
    pub here: u8,
    /// What they share and nobody else knows.
    pub secret: [u8; 32],
}

impl Members {
    /// The SHA-256 of what all servers of a ring have to have alike: the lines `vnodes` and `server`.
    pub fn digest(&self, alloc: Global) -> Result<[u8; 32], AllocError>
        ensures { IfOk result (λ digest. digest ≡ digest_of self.now) }
    {
        let mut text = Vec::new(alloc);
        push_list(&mut text, self)?;
        Ok(Sha256::digest(text.as_slice()))
    }

    /// Whether there may be such servers.
    pub(crate) fn are_right(&self) -> bool
        ensures { IsTrue result → IsMembers self.now }
    {
        1 <= self.vnodes
            && self.vnodes <= MAX_VNODES
            && may_be(self.vnodes, &self.servers)
            && are_rising(&self.servers)
            && has_number(&self.servers, self.here)
    }
}

/// Whether each of these may be a server of a ring with so many vnodes each.
fn may_be(vnodes: u8, servers: &[Server]) -> bool
    ensures { IsTrue result → AllByRecursion (MayBe vnodes) servers.now }
{
    for server in servers {
        if !is_server(vnodes, server) {
            return false;
        }
    }
    true
}

/// Whether this may be one.
fn is_server(vnodes: u8, server: &Server) -> bool
    ensures { IsTrue result → MayBe vnodes server.now }
{
    server.number < MAX_SERVERS && fits(vnodes, server.number) && is_address(&server.address)
}

/// Whether the vnodes of the server of this number have indexes on the ring.
pub(crate) fn fits(vnodes: u8, number: u8) -> bool
    ensures { IsTrue result ↔ ((number + 1) * vnodes ≤ 254) }
{
    (u32::from(number) + 1) * u32::from(vnodes) <= MAX_RING_VNODES
}

/// Whether numbers rise.
fn are_rising(servers: &[Server]) -> bool
    ensures { IsTrue result → AreRising 0 servers.now }
{
    let mut least = 0;
    for server in servers {
        if u32::from(server.number) < least {
            return false;
        }
        least = u32::from(server.number) + 1;
    }
    true
}

/// Whether one of these has a number.
pub(crate) fn has_number(servers: &[Server], number: u8) -> bool
    ensures { result ≡ list_any (λ server. server.number == number) servers.now }
{
    servers.iter().any(|server| server.number == number)
}

/// Whether this is the text of an address.
pub(crate) fn is_address(text: &[u8]) -> bool
    ensures { result ≡ is_address text.now }
{
    MIN_ADDRESS_BYTES <= text.len()
        && text.len() <= MAX_ADDRESS_BYTES
        && are_visible(text)
        && has_colon(text)
}

/// Whether these are visible characters of ASCII.
fn are_visible(text: &[u8]) -> bool
    ensures { result ≡ list_all is_visible text.now }
{
    text.iter().all(|byte| is_visible(*byte))
}

/// Whether a colon is among these.
fn has_colon(text: &[u8]) -> bool
    ensures { result ≡ list_any (λ byte. byte == 58) text.now }
{
    text.iter().any(|byte| *byte == b':')
}

/// Whether this is a visible character of ASCII.
fn is_visible(byte: u8) -> bool
    ensures { result ≡ is_visible byte }
{
    33 <= byte && byte <= 126
}
