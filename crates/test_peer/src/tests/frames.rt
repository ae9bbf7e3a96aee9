//! Two ends of a connection. The expected bytes of hellos and frames are those of the format, with tags by another implementation of HMAC.

use peer_frames::{
    Greeting, HELLO_BYTES, Hello, HelloFault, Opened, Seal, Side, connection_key, push_hello,
    read_hello,
};
use std::test::Fail;

const SECRET: [u8; 32] = *b"0123456789abcdef0123456789abcdef";

/// The hello of a server that asks for a connection, and the one that answers.
const DIALER: Hello = Hello {
    side: Side::Dialer,
    server: 1,
    number: 300,
    list: [7; 32],
    random: [1; 32],
};

const LISTENER: Hello = Hello {
    side: Side::Listener,
    server: 2,
    number: 301,
    list: [7; 32],
    random: [2; 32],
};

/// The tag of the first one.
const DIALER_TAG: [u8; 32] =
    *b"\x65\xcd\x28\xf5\x16\x67\x79\xa1\xdb\xfa\xd3\x13\xae\x41\xfd\xdb\xb7\xd6\x22\x82\xf3\x38\xc5\xc9\xcb\x39\x1e\x55\xd3\xb5\xd0\x0e";

/// The first frame of who asked, with the body `put`.
const FRAME: &[u8] =
    b"\x00\x00\x00\x03\x00\x00\x00\x00\x00\x00\x00\x00\x70\x75\x74\xc6\xd7\xd3\xff\x01\x88\x19\xa8\x98\xcd\x3e\x53\xe3\x50\x2d\xa8\xf0\xc7\xee\x3d\x6b\x49\x38\x7e\x78\xb9\x0a\x5b\xd5\xf2\x7e\xd3";

#[test]
fn hellos_are_told_and_read(rt: HostRuntime) -> Result<(), Fail> {
    let mut bytes = Vec::new(rt.alloc());
    push_hello(&mut bytes, &SECRET, &DIALER)?;
    if bytes.len() != HELLO_BYTES || &bytes[75..] != DIALER_TAG.as_slice() {
        return Err(Fail::new(format_args!("another hello")));
    }
    match read_hello(&SECRET, Side::Dialer, &bytes) {
        Greeting::Hello(hello)
            if (hello.server, hello.number, hello.list[31], hello.random[0]) == (1, 300, 7, 1) => {}
        _ => return Err(Fail::new(format_args!("it is read otherwise"))),
    }
    expect_refused(&SECRET, Side::Listener, &bytes, HelloFault::Other)?;
    expect_refused(&[0; 32], Side::Dialer, &bytes, HelloFault::Tag)?;
    expect_refused(&SECRET, Side::Dialer, b"GET / HTTP/1.1", HelloFault::Mark)?;
    expect_refused(&SECRET, Side::Dialer, b"DVPR\x02", HelloFault::Version)
}

/// Fails the test where bytes are not refused so.
fn expect_refused(
    secret: &[u8; 32],
    side: Side,
    bytes: &[u8],
    fault: HelloFault,
) -> Result<(), Fail> {
    match read_hello(secret, side, bytes) {
        Greeting::Refused(found) if found == fault => Ok(()),
        _ => Err(Fail::new(format_args!("not {fault}"))),
    }
}

#[test]
fn frames_are_sealed_and_opened(rt: HostRuntime) -> Result<(), Fail> {
    let key = connection_key(rt.alloc(), &SECRET, Side::Dialer, &DIALER, &LISTENER)?;
    let mut out = Vec::new(rt.alloc());
    let mut sender = Seal::new(key);
    sender.seal(b"put", &mut out)?;
    if out.as_slice() != FRAME {
        return Err(Fail::new(format_args!("another frame")));
    }
    expect_taken_once(Seal::new(key), &out)
}

/// Fails the test where the first frame isn't taken, or is taken again.
fn expect_taken_once(mut taker: Seal, bytes: &[u8]) -> Result<(), Fail> {
    match taker.open(bytes) {
        Opened::Body { body, len } if body == b"put".as_slice() && len == bytes.len() => {}
        _ => return Err(Fail::new(format_args!("it isn't taken"))),
    }
    match taker.open(bytes) {
        Opened::Broken => Ok(()),
        _ => Err(Fail::new(format_args!("it is taken again"))),
    }
}
