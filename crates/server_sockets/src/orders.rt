//! What a worker is told for one turn, and what it tells.

/// What a worker is there for.
#[derive(Clone, Copy, Debug, PartialEq, Eq)]
pub enum Stance {
    /// It takes connections and answers them.
    Serving,
    /// No more come. It ends once its connections have ended.
    Finishing,
    /// It answers what was read whole, closes each connection in order once its answers are written, and ends. What is offered is closed.
    /// Clients that haven't taken their answers in some eight seconds are given up.
    Stopping,
}

/// What a worker is told for one turn.
#[derive(Clone, Copy, Debug)]
pub struct Orders {
    /// The time, in milliseconds of a clock that never goes back.
    pub now: u64,
    /// Whether it reads. Where it doesn't, it writes the answers that wait and answers the requests that were read whole, and reads
    /// nothing.
    pub may_read: bool,
    /// What it is there for.
    pub stance: Stance,
}

/// What a turn came to.
#[derive(Clone, Copy, Debug)]
pub struct Turned {
    /// So many connections are left, with those of which the last bytes are only dropped.
    pub open: usize,
    /// So many connections ended for want of memory since the turn before.
    pub lacks: u32,
}
