//! A registry of hooks that threads share: one changes it, and many look hooks up in it without waiting.
#![tactic(auto)]

mod edit;
mod installer;
mod laws;
mod making;
mod opening;
mod outlet;
mod published;
mod worker;
mod workers;

pub use hook_readers::{HookReader, Note, Rack};
pub use installer::Installer;
pub use laws::{published_agrees, readers_agree, workers_agree};
pub use opening::{Ground, NoReader, Opening};
pub use published::Published;
pub use worker::{Maker, ReadHooks, WorkerHooks};
pub use workers::{OpenFault, open};
