//! What the requests of a connection ask for: their definitions, and the types that name it (this store's profile of
//! HTTP/1.1, RFC 9110 and RFC 9112, and of Riak KV's HTTP API).
//!
//! `Asks` of `specs/Ask.antt` says what the first request of some bytes asks for, whether the connection ends after the
//! answer, and what is read next; `IsUnfinished` says that the bytes end inside a request. The bodies that find it out stand
//! in `http_parse`, and in its module `props` for the properties in a body.
#![tactic(auto)]

mod ask;
pub mod laws;
mod limits;
mod route;

pub use ask::{Ask, Call, Change, Form, Property, Refusal, What};
pub use limits::{
    MAX_BODY_BYTES, MAX_CODED_BYTES, MAX_COPIES, MAX_HEAD_BYTES, MAX_HOOK_NAME_BYTES, MAX_LINES,
};
pub use route::Route;
