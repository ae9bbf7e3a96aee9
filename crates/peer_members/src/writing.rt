//! How the servers of a ring are spelled.

ghost use Rattle.std.specs.Prelude.{◌≡◌, ◌++◌, IfOk, OnOk, decimal};
ghost use Rattle.std.specs.List.{flat_map};
ghost use Rattle.peer_members.specs.Members.{here_text, list_text, secret_text, server_text, spelling, vnodes_text};

use crate::members::{Members, Server};
use std::alloc::{AllocError, Global};

/// The one spelling of a file that lists these servers.
pub(crate) fn spelling(alloc: Global, members: &Members) -> Result<Vec<u8>, AllocError>
    ensures { IfOk result (λ text. text.items ≡ spelling members.now) }
{
    let mut text = Vec::new(alloc);
    push_list(&mut text, members)?;
    push_here(&mut text, members.here)?;
    push_secret(&mut text, &members.secret)?;
    Ok(text)
}

/// Appends the lines that all servers have to have alike.
pub(crate) fn push_list(out: &mut Vec<u8>, members: &Members) -> Result<(), AllocError>
    ensures { OnOk result (out.new.items ≡ out.old.items ++ list_text members.now) }
{
    push_vnodes(out, members.vnodes)?;
    push_servers(out, &members.servers)
}

/// Appends the first line.
fn push_vnodes(out: &mut Vec<u8>, vnodes: u8) -> Result<(), AllocError>
    ensures { OnOk result (out.new.items ≡ out.old.items ++ vnodes_text vnodes) }
{
    out.extend_from_slice(b"vnodes ")?;
    push_number(out, vnodes)?;
    out.extend_from_slice(b"\n")
}

/// Appends the lines of servers.
fn push_servers(out: &mut Vec<u8>, servers: &[Server]) -> Result<(), AllocError>
    ensures { OnOk result (out.new.items ≡ out.old.items ++ flat_map server_text servers.now) }
{
    for server in servers {
        push_server(out, server)?;
    }
    Ok(())
}

/// Appends the line of a server.
fn push_server(out: &mut Vec<u8>, server: &Server) -> Result<(), AllocError>
    ensures { OnOk result (out.new.items ≡ out.old.items ++ server_text server.now) }
{
    out.extend_from_slice(b"server ")?;
    push_number(out, server.number)?;
    out.extend_from_slice(b" ")?;
    out.extend_from_slice(&server.address)?;
    out.extend_from_slice(b"\n")
}

/// Appends the line that says which server is here.
fn push_here(out: &mut Vec<u8>, here: u8) -> Result<(), AllocError>
    ensures { OnOk result (out.new.items ≡ out.old.items ++ here_text here) }
{
    out.extend_from_slice(b"here ")?;
    push_number(out, here)?;
    out.extend_from_slice(b"\n")
}

/// Appends the line of the secret.
fn push_secret(out: &mut Vec<u8>, secret: &[u8; 32]) -> Result<(), AllocError>
    ensures { OnOk result (out.new.items ≡ out.old.items ++ secret_text secret.now) }
{
    let digits = hex::encode(*out.allocator(), secret)?;
    out.extend_from_slice(b"secret ")?;
    out.extend_from_slice(digits.as_bytes())?;
    out.extend_from_slice(b"\n")
}

/// Appends a decimal.
fn push_number(out: &mut Vec<u8>, number: u8) -> Result<(), AllocError>
    ensures { OnOk result (out.new.items ≡ out.old.items ++ decimal number) }
{
    let digits = format!(in *out.allocator(); "{number}")?;
    out.extend_from_slice(digits.as_bytes())
}
