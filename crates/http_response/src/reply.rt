//! What the store answers.

use bpf_admission::Refusal;
use dvv::Dot;
use hook_registry::{HookFault, NameFault};
use key_state::{Bytes, KeyState};
use quorum::QuorumFault;

/// The names of the hooks that are bound to a bucket.
#[derive(Drop)]
pub struct Bound {
    /// The hook that runs on each new content before it is stored.
    pub precommit: Option<Bytes>,
    /// The hook that resolves siblings when they are read.
    pub resolver: Option<Bytes>,
}

/// What the store answered to a call.
#[derive(Drop)]
pub enum Reply {
    /// No call was made.
    Nothing,
    /// To a [`Call::Get`](http_request::Call::Get): the siblings and their context.
    Got(Result<KeyState, QuorumFault>),
    /// To a [`Call::Put`](http_request::Call::Put): the event that the content is stored under.
    Stored(Result<Dot, QuorumFault>),
    /// To a [`Call::Install`](http_request::Call::Install).
    Installed(Result<(), Refusal>),
    /// To a [`Call::Remove`](http_request::Call::Remove).
    Removed(Result<(), HookFault>),
    /// To a [`Call::ReadProps`](http_request::Call::ReadProps).
    Props(Result<Bound, NameFault>),
    /// To a [`Call::SetProps`](http_request::Call::SetProps).
    Set(Result<(), HookFault>),
}
