//! What a request asks for.

use crate::route::Route;
use context_token::TokenFault;
use dvv::Clock;
use key_state::{Bytes, Content, Key};

/// Why a request is answered without the store, in the order in which the faults are told: the first that stands is told,
/// and no other. After each of the first six the connection ends.
#[derive(Clone, Copy, PartialEq, Eq)]
pub enum Refusal {
    /// No head of at most [`MAX_HEAD_BYTES`](crate::MAX_HEAD_BYTES) bytes and [`MAX_LINES`](crate::MAX_LINES) field lines can come of
    /// the bytes, or its target is no path with a query that begins with `/`.
    BadHead,
    /// There is a `Transfer-Encoding` of something but `chunked`, or more than one.
    Coding,
    /// A `Content-Length` is not one or more digits, or two of them are different numbers; or there is one beside chunks, or chunks in
    /// HTTP/1.0; or the chunks are none, or no body in chunks of at most [`MAX_CODED_BYTES`](crate::MAX_CODED_BYTES) bytes.
    BadLength,
    /// A `PUT` or `POST` has no `Content-Length`, and isn't sent in chunks.
    NoLength,
    /// The body has more than [`MAX_BODY_BYTES`](crate::MAX_BODY_BYTES) bytes, as its length says or as the chunks that came have.
    Large,
    /// There is an `Expect` of something but `100-continue`.
    Expectation,
    /// The path is that of no [`Route`](crate::Route).
    NoRoute,
    /// This route has no such method.
    Method(Route),
    /// A word of the query is none that it may be (`quorums_of` of `specs/Target.antt`): `r` or `w` is no number of copies that a
    /// store may have, 1 to 3, nor `one`, `quorum`, `all` or `default`; `pr`, `pw` or `rw` none of these, nor 0; `at` no index of so
    /// many, 0 to 2; or `dw`, `n_val`, `timeout`, `sloppy_quorum`, `basic_quorum` or `notfound_ok` asks for what isn't there.
    Query,
    /// A bucket, a key in it or a hook's name is not within its limits.
    BadName,
    /// The context is no token.
    Token(TokenFault),
    /// The media type of a value is empty or longer than [`MAX_MEDIA_BYTES`](key_state::MAX_MEDIA_BYTES) bytes.
    BadType,
    /// The body is no JSON that sets properties.
    BadProps,
    /// The body wants a property otherwise than it is.
    FixedProperty(Property),
}

/// A property of a bucket that is as it is.
#[derive(Clone, Copy, PartialEq, Eq)]
pub enum Property {
    /// `allow_mult`: siblings are always allowed.
    AllowMult,
    /// `last_write_wins`: it never does.
    LastWriteWins,
    /// `n_val`: so many copies as the store has.
    NVal,
    /// `postcommit`: nothing runs after a write.
    PostCommit,
}

/// What becomes of one property of a bucket.
#[derive(Drop)]
pub enum Change {
    /// It stays as it is.
    Kept,
    /// Nothing is bound any more.
    Unbound,
    /// The hook of this name is bound; the name may be any text.
    Bound(Bytes),
}

/// How the answer to a read is shown.
#[derive(Drop)]
pub enum Form {
    /// One value as it is, several as a list of their tags.
    Text,
    /// One value as it is, several as the parts of one body.
    Parts,
    /// The sibling of this tag alone; the tag may be any text.
    One(Bytes),
}

/// A call of the store. Its words are within their limits (`Fits` of `specs/Fits.antt`).
#[derive(Drop)]
pub enum Call {
    /// Reads a key: `r` copies have to answer, 1 to all, and the coordinator is the vnode at the index `at` of the preference
    /// list, from 0.
    Get {
        key: Key,
        r: u32,
        at: u32,
    },
    /// Writes a content, as one who had seen the events that `seen` counts: `w` copies have to be stored, 1 to all, and the
    /// coordinator is the vnode at the index `at` of the preference list, from 0.
    Put {
        key: Key,
        seen: Clock,
        content: Content,
        w: u32,
        at: u32,
    },
    /// Installs the hook of an image under a name of 1 to 64 letters, digits, `_` and `-`.
    Install {
        name: Bytes,
        image: Bytes,
    },
    /// Takes the hook of a name away.
    Remove {
        name: Bytes,
    },
    /// Reads which hooks are bound to a bucket.
    ReadProps {
        bucket: Bytes,
    },
    /// Changes which hooks are bound to a bucket, both or none.
    SetProps {
        bucket: Bytes,
        precommit: Change,
        resolver: Change,
    },
}

/// What is asked for, by whatever method.
#[derive(Drop)]
pub enum What {
    /// Whether anyone is there.
    Ping,
    /// Where the resources lie (Riak KV, HTTP API, list resources).
    Resources,
    /// Which methods a route has.
    Options(Route),
    /// To be told to go on: the client sends the body of its request after that (RFC 9110, 10.1.1).
    Continue,
    /// A call of the store, and how its answer is shown (only that of a [`Call::Get`] depends on it).
    Call(Call, Form),
    /// Nothing: it is refused.
    Refused(Refusal),
}

/// What a request asks for.
#[derive(Drop)]
pub struct Ask {
    /// What is asked for.
    pub what: What,
    /// The answer's head alone is shown, as `HEAD` asks (RFC 9110, 9.3.2).
    pub head_only: bool,
    /// The list of the entity tags that the client of a read has, if it has some: what has one of them isn't shown again
    /// (`If-None-Match`, RFC 9110, 13.1.2). It may be any bytes.
    pub if_none_match: Option<Bytes>,
}
