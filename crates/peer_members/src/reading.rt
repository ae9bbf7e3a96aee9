//! Reading the file `cluster`.

ghost use Rattle.std.specs.Prelude.{◌≡◌, ◌↔◌, IfOk, IsTrue};
ghost use Rattle.peer_members.specs.Members.{IsMembers, spelling};

use crate::fault::{MembersFault, Wrong};
use crate::limits::{MAX_SERVERS, MAX_VNODES};
use crate::members::{Members, Server, fits, has_number, is_address};
use crate::writing::spelling;
use hex::FromHex;
use script_lines::{first_line, number};
use std::alloc::Global;

/// The servers that the bytes of a file `cluster` list, which are their one spelling; or the first line that is wrong.
pub fn read(alloc: Global, bytes: &[u8]) -> Result<Members, MembersFault>
    ensures { IfOk result (λ members. IsMembers members × (bytes.now ≡ spelling members)) }
{
    let members = members_in(alloc, bytes)?;
    let text = spelling(alloc, &members)?;
    if !is_same(&text, bytes) || !members.are_right() {
        return Err(MembersFault::Line {
            line: first_differing(&text, bytes),
            wrong: Wrong::Spelling,
        });
    }
    Ok(members)
}

/// Whether texts are the same.
fn is_same(one: &[u8], other: &[u8]) -> bool
    ensures { IsTrue result ↔ (one.now ≡ other.now) }
{
    one == other
}

/// The number of the first line in which texts differ.
fn first_differing(one: &[u8], other: &[u8]) -> usize {
    let mut line: usize = 1;
    for (a, b) in one.iter().zip(other) {
        if a != b {
            return line;
        }
        if *a == b'\n' {
            line = line.saturating_add(1);
        }
    }
    line
}

/// Lines that are still to be read.
#[derive(Clone, Copy)]
struct Lines<'a> {
    left: &'a [u8],
    /// The number of the first of them.
    line: usize,
}

impl<'a> Lines<'a> {
    /// The next line without its end; nothing where there is none.
    fn peek(&self) -> &'a [u8] {
        match first_line(self.left) {
            Some((line, _)) => line.strip_suffix(b"\n").unwrap_or(line),
            None => &[],
        }
    }

    /// What stands behind a word in the next line.
    fn behind(&self, word: &[u8]) -> Option<&'a [u8]> {
        self.peek().strip_prefix(word)
    }

    /// The number that stands behind a word in the next line, and alone there.
    fn number_behind(&self, word: &[u8]) -> Option<u8> {
        number_in(self.behind(word)?)
    }

    /// Goes to the line behind the next one.
    fn pass(&mut self) {
        if let Some((_, rest)) = first_line(self.left) {
            self.left = rest;
            self.line = self.line.saturating_add(1);
        }
    }

    /// Says what is wrong with the next line.
    fn fault(&self, wrong: Wrong) -> MembersFault {
        MembersFault::Line {
            line: self.line,
            wrong,
        }
    }
}

/// The servers that bytes list, if they are spelled as they have to be.
fn members_in(alloc: Global, bytes: &[u8]) -> Result<Members, MembersFault> {
    let mut lines = Lines {
        left: bytes,
        line: 1,
    };
    let vnodes = vnodes_in(&mut lines)?;
    let servers = servers_in(alloc, &mut lines, vnodes)?;
    let here = here_in(&mut lines, &servers)?;
    let secret = secret_in(&mut lines)?;
    if !lines.left.is_empty() {
        return Err(lines.fault(Wrong::Behind));
    }
    Ok(Members {
        vnodes,
        servers,
        here,
        secret,
    })
}

/// How many vnodes each server has.
fn vnodes_in(lines: &mut Lines<'_>) -> Result<u8, MembersFault> {
    match lines.number_behind(b"vnodes ") {
        Some(vnodes) if 1 <= vnodes && vnodes <= MAX_VNODES => {
            lines.pass();
            Ok(vnodes)
        }
        _ => Err(lines.fault(Wrong::NoVnodes)),
    }
}

/// The servers, as many as there are: one or more.
fn servers_in(
    alloc: Global,
    lines: &mut Lines<'_>,
    vnodes: u8,
) -> Result<Vec<Server>, MembersFault> {
    let mut servers = Vec::new(alloc);
    let mut least = 0;
    for _ in 0..MAX_SERVERS {
        let Some(text) = lines.behind(b"server ") else {
            break;
        };
        let server = server_in(alloc, lines, text)?;
        if server.number < least || server.number >= MAX_SERVERS {
            return Err(lines.fault(Wrong::NotRising));
        }
        if !fits(vnodes, server.number) {
            return Err(lines.fault(Wrong::TooManyVnodes));
        }
        least = server.number.saturating_add(1);
        servers.push(server)?;
        lines.pass();
    }
    if servers.is_empty() {
        return Err(lines.fault(Wrong::NoServer));
    }
    Ok(servers)
}

/// The server whose number and address stand behind the word of the next line.
fn server_in(alloc: Global, lines: &Lines<'_>, text: &[u8]) -> Result<Server, MembersFault> {
    let Some(space) = text.iter().position(|byte| *byte == b' ') else {
        return Err(lines.fault(Wrong::NoAddress));
    };
    let Some(number) = number_in(&text[..space]) else {
        return Err(lines.fault(Wrong::NoServer));
    };
    let address = &text[space + 1..];
    if !is_address(address) {
        return Err(lines.fault(Wrong::NoAddress));
    }
    Ok(Server {
        number,
        address: address.to_vec(alloc)?,
    })
}

/// Which of the servers is here.
fn here_in(lines: &mut Lines<'_>, servers: &[Server]) -> Result<u8, MembersFault> {
    let Some(here) = lines.number_behind(b"here ") else {
        return Err(lines.fault(Wrong::NoServer));
    };
    if !has_number(servers, here) {
        return Err(lines.fault(Wrong::NotHere));
    }
    lines.pass();
    Ok(here)
}

/// The secret that they share.
fn secret_in(lines: &mut Lines<'_>) -> Result<[u8; 32], MembersFault> {
    let Some(digits) = lines.behind(b"secret ") else {
        return Err(lines.fault(Wrong::NoSecret));
    };
    match <[u8; 32] as FromHex>::from_hex(digits) {
        Ok(secret) => {
            lines.pass();
            Ok(secret)
        }
        Err(_) => Err(lines.fault(Wrong::NoSecret)),
    }
}

/// The number of 0 to 255 that a decimal spells.
fn number_in(word: &[u8]) -> Option<u8> {
    u8::try_from(number(word)?).ok()
}
