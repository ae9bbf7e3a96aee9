//! What a worker noted in a turn.

/// What a worker noted in a turn: the bytes of records, one after another.
#[derive(Drop)]
pub struct Sheet {
    /// The records' bytes.
    pub bytes: Vec<u8>,
}
