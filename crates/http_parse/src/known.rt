//! What is known of the head at the front of some bytes.

ghost use Rattle.http_parse.specs.Known.{KnowsNothing};

use crate::chunks::CodedBody;
use http_request::MAX_LINES;
use httparse::spans::{EMPTY_HEADER_SPAN, HeaderSpan, RequestSpans};
use std::alloc::Global;

/// What is known of the head at the front of some bytes: nothing, or that it is whole, where its parts lie, and what was read of a body in
/// chunks behind it. It is kept from one look at the bytes to the next, so that no whole head and no chunk is parsed twice. Places are counted
/// from the first of the bytes, so these may be moved, and others may come behind them.
#[derive(Drop)]
pub struct KnownHead {
    pub(crate) spans: Option<RequestSpans>,
    pub(crate) lines: [HeaderSpan; MAX_LINES],
    pub(crate) body: CodedBody,
}

impl KnownHead {
    /// Nothing is known. It takes no memory.
    pub fn new(alloc: Global) -> KnownHead
        ensures { KnowsNothing result }
    {
        KnownHead {
            spans: None,
            lines: [EMPTY_HEADER_SPAN; MAX_LINES],
            body: CodedBody::new(alloc),
        }
    }

    /// Forgets what is known.
    pub fn clear(&mut self)
        ensures { KnowsNothing self.new }
    {
        self.spans = None;
    }
}
