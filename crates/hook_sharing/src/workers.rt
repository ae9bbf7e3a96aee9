//! Where workers' hooks are opened.

ghost use Rattle.std.specs.Prelude.{◌≡◌, ◌<◌, ◌^◌, [], IfOk, vec_len};
ghost use Rattle.std.specs.List.{All};

use crate::{Ground, HookReader, Installer, NoReader, Rack};
use shared_prefix::Naming;
use std::alloc::{AllocError, Global};
use std::sync::{Mutex, Wait};
use thiserror::Error;

/// Why workers' hooks aren't opened. It is shown as its number.
#[derive(Clone, Copy, Debug, PartialEq, Eq, Drop, Error)]
pub enum OpenFault {
    /// There is no further reader.
    #[error("G3")]
    NoReader,
    /// Memory ran out.
    #[error("E1")]
    NoMemory,
}

impl From<NoReader> for OpenFault {
    fn from(_error: NoReader) -> OpenFault {
        OpenFault::NoReader
    }
}

impl From<AllocError> for OpenFault {
    fn from(_error: AllocError) -> OpenFault {
        OpenFault::NoMemory
    }
}

/// A registry where nothing is installed: its installer behind a lock, and as many readers as there are workers, which know of no change.
/// `NoReader` where there is no further reader, `NoMemory` where memory runs out.
pub fn open<J: Naming, T: Rack<J> + Drop, R: Wait + Drop>(
    alloc: Global,
    rt: R,
    ground: Ground<J, T>,
    workers: usize,
) -> Result<(Mutex<Installer<J, T, R>>, Vec<HookReader<J, T>>), OpenFault>
    requires ground { (ground.front ≡ []) × (T.state ground.first ≡ []) × (T.state ground.second ≡ []) }
    requires workers { (0 < workers) × (workers < 2 ^ 32) }
    ensures workers { IfOk result (λ opened. vec_len opened.1 ≡ workers) }
    ensures none { IfOk result (λ opened. All (λ reader. reader ≡ []) opened.1.items) }
{
    let installer = match Installer::open(alloc, rt, ground, workers) {
        Ok(installer) => installer,
        Err(_) => return Err(OpenFault::NoMemory),
    };
    let readers = readers_of(alloc, &installer, workers);
    Ok((Mutex::new(installer), readers?))
}

// So many readers of a registry, which know all that is published.
fn readers_of<J: Naming, T: Rack<J> + Drop, R: Wait + Drop>(
    alloc: Global,
    installer: &Installer<J, T, R>,
    workers: usize,
) -> Result<Vec<HookReader<J, T>>, OpenFault>
    ensures count { IfOk result (λ readers. vec_len readers ≡ workers) }
    ensures published { IfOk result (λ readers. All (λ reader. reader ≡ installer.now.published) readers.items) }
{
    let mut readers = Vec::with_capacity(alloc, workers)?;
    for _ in 0..workers {
        readers.push_reserved(installer.reader()?);
    }
    Ok(readers)
}
