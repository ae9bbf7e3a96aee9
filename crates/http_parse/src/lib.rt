//! What the bytes of a connection ask for: one request at a time, however they were cut.
//!
//! [`first_request`] tells what the first request asks for by the definitions of `http_request` (`Asks`, `IsUnfinished`). Heads
//! are read by httparse, chunks by http1, targets by the rules of http_uri, routes by matchit, names by percent_encoding, queries by form_urlencoded. The
//! fields and the words of the query that the store reads are found in one pass each. A whole head whose body is missing is
//! kept as a [`KnownHead`], and not parsed again, nor are the chunks that came.
#![tactic(auto)]

mod anew;
mod asked;
mod chunks;
mod fields;
mod firsts;
mod head;
mod known;
pub mod laws;
mod media;
mod names;
mod number;
mod props;
mod query;
mod request;
mod routes;
mod tables;
mod target;
mod whole;

pub use known::KnownHead;
pub use request::{Asking, first_request};
pub use tables::Tables;
