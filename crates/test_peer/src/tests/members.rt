//! Files `cluster` that are read, and some that aren't.

use peer_members::read;
use std::alloc::Global;
use std::test::Fail;

/// Three servers, of which the second is here. The secret's digits are those of the bytes 0 to 31.
const THREE: &[u8] =
    b"vnodes 4\nserver 0 10.0.0.1:8099\nserver 1 b.example:8099\nserver 59 [::1]:8099\nhere 1\nsecret 000102030405060708090a0b0c0d0e0f101112131415161718191a1b1c1d1e1f\n";

/// The SHA-256 of its first four lines.
const THREE_DIGEST: [u8; 32] =
    *b"\xff\xce\xe9\x0e\xdb\xc8\xf8\x73\x6a\xf3\xb5\x4c\x4a\x1e\x0b\xf1\x70\x2c\xdd\xe2\x50\x17\x08\xb4\x6e\xcd\x7f\x2d\x1c\x5f\xf2\x4a";

/// What stands in a file, and what is told of it.
const REFUSED: [(&[u8], &str); 16] = [
    (b"", "line 1: vnodes and a number of 1 to 16 come first"),
    (
        b"vnodes 0\n",
        "line 1: vnodes and a number of 1 to 16 come first",
    ),
    (
        b"vnodes 17\n",
        "line 1: vnodes and a number of 1 to 16 come first",
    ),
    (
        b"vnodes 04\n",
        "line 1: vnodes and a number of 1 to 16 come first",
    ),
    (
        b"vnodes 4\nhere 0\n",
        "line 2: server, its number and its address are wanted, and then here",
    ),
    (
        b"vnodes 4\nserver 0 a:1\nservers\n",
        "line 3: server, its number and its address are wanted, and then here",
    ),
    (
        b"vnodes 4\nserver x a:1\n",
        "line 2: server, its number and its address are wanted, and then here",
    ),
    (
        b"vnodes 4\nserver 0\n",
        "line 2: no address of a host, a colon and a port",
    ),
    (
        b"vnodes 4\nserver 0 host\n",
        "line 2: no address of a host, a colon and a port",
    ),
    (
        b"vnodes 4\nserver 0 a :1\n",
        "line 2: no address of a host, a colon and a port",
    ),
    (
        b"vnodes 4\nserver 1 a:1\nserver 1 b:1\n",
        "line 3: numbers of servers rise, up to 59",
    ),
    (
        b"vnodes 4\nserver 60 a:1\n",
        "line 2: numbers of servers rise, up to 59",
    ),
    (
        b"vnodes 16\nserver 15 a:1\n",
        "line 2: a ring has at most 254 vnodes",
    ),
    (
        b"vnodes 4\nserver 0 a:1\nhere 1\n",
        "line 3: no server has this number",
    ),
    (
        b"vnodes 4\nserver 0 a:1\nhere 0\nsecret 00\n",
        "line 4: secret and 64 hexadecimal digits come last",
    ),
    (
        b"vnodes 4\nserver 0 a:1\nhere 0\nsecret 000102030405060708090A0b0c0d0e0f101112131415161718191a1b1c1d1e1f\n",
        "line 4: not as it has to be spelled",
    ),
];

#[test]
fn a_list_is_read(rt: HostRuntime) -> Result<(), Fail> {
    let Ok(members) = read(rt.alloc(), THREE) else {
        return Err(Fail::new(format_args!("it is refused")));
    };
    let known = (members.vnodes, members.here, members.secret[31]);
    if known != (4, 1, 31) || members.servers.len() != 3 {
        return Err(Fail::new(format_args!("it is read otherwise")));
    }
    match members.servers.last() {
        Some(last) if last.number == 59 && last.address.as_slice() == b"[::1]:8099".as_slice() => {}
        _ => return Err(Fail::new(format_args!("the last one is read otherwise"))),
    }
    if members.digest(rt.alloc())? != THREE_DIGEST {
        return Err(Fail::new(format_args!("another digest")));
    }
    Ok(())
}

#[test]
fn refusals_are_told(rt: HostRuntime) -> Result<(), Fail> {
    for (text, told) in REFUSED.iter() {
        expect_refused(rt.alloc(), text, told)?;
    }
    Ok(())
}

/// Fails the test where a text isn't refused, or something else is told.
fn expect_refused(alloc: Global, text: &[u8], told: &str) -> Result<(), Fail> {
    match read(alloc, text) {
        Err(fault) if format!(in alloc; "{fault}")?.as_str() == told => Ok(()),
        Err(fault) => Err(Fail::new(format_args!("{fault}"))),
        Ok(_) => Err(Fail::new(format_args!("it is read"))),
    }
}
