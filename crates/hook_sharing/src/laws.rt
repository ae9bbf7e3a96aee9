//! What holds of readers and workers of one registry and its installer, whatever they do. Each of these functions does nothing: its contract is the
//! law.

ghost use Rattle.std.specs.Prelude.{◌⊎◌};
ghost use mathlib.Core.List.{IsPrefix};

use crate::installer::Installer;
use crate::worker::ReadHooks;
use hook_readers::{HookReader, Rack};
use shared_prefix::Naming;
use std::sync::Wait;

/// Of what two readers know, one begins the other.
pub fn readers_agree<J: Naming, T: Rack<J> + Drop>(one: &HookReader<J, T>, other: &HookReader<J, T>)
    ensures { IsPrefix one.now other.now ⊎ IsPrefix other.now one.now }
{
    let _longer = one.known().longer(other.known());
}

/// So it is with what a reader knows and what is published.
pub fn published_agrees<J: Naming, T: Rack<J> + Drop, R: Wait + Drop>(
    installer: &Installer<J, T, R>,
    reader: &HookReader<J, T>,
)
    ensures { IsPrefix reader.now installer.now.published ⊎ IsPrefix installer.now.published reader.now }
{
    let _longer = installer.note().front().longer(reader.known());
}

/// Of what two workers know, one begins the other.
pub fn workers_agree<J: Naming, T: Rack<J> + Drop, M: Drop>(
    one: &ReadHooks<J, T, M>,
    other: &ReadHooks<J, T, M>,
)
    ensures { IsPrefix one.now other.now ⊎ IsPrefix other.now one.now }
{
    readers_agree(one.reader(), other.reader());
}
