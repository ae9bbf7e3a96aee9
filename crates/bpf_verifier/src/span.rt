//! Places on the stack.

/// The places on the stack from one on, below another, counted from its lowest byte.
#[derive(Clone, Copy)]
pub struct Span {
    pub from: i64,
    pub to: i64,
}
