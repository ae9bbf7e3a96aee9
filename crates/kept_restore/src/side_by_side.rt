//! How much is done side by side.

ghost use Rattle.std.specs.Prelude.{◌<◌};

use std::thread;
use std::thread::Threads;

/// On how many threads the vnodes of a cluster are gone over: as many as there are processors, or on the caller's alone where that can't be
/// known.
pub fn processors<R: Threads>(rt: &R) -> usize
    ensures { 0 < result }
{
    match thread::available_parallelism(rt) {
        Ok(count) => count.get(),
        Err(_) => 1,
    }
}
