//! What the answers of one worker tell of the journals of a cluster, where several workers answer at a time.
//!
//! A worker calls vnodes by its own pass, and the pass keeps a receipt of each call: the vnode, the length of its journal before the
//! call, the request and its outcome. Where the cluster is gathered each receipt stands in the journals. `TellsBy` of
//! `specs/Receipts.antt` says what an answer tells of them: what is read is current among the writes that the journals had up to the
//! answer's own receipts, and what is written stands at its receipt, and is known at the receipts of so many vnodes as were asked for.
#![tactic(auto)]

pub mod laws;
