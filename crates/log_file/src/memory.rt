//! A device in memory, for tests.

ghost use Rattle.std.specs.Prelude.{◌≡◌, ◌⊎◌, ◌++◌, [], ℕ, List, length, take, Err, IsTrue, IfOk, OnOk, OnErr};
ghost use Rattle.log_file.specs.Devices.{Grown, HasCause};
ghost use Rattle.log_file.specs.Outcomes.{only_now, AddsGrown, HasContent, MayHaveLeft, MayLeave};

use crate::device::{Device, DeviceFault};
use std::alloc::{AllocError, Global};

/// What a torn end holds behind what was written of it.
const GARBAGE: [u8; 3] = [0, 0, 255];

/// A file in memory, which keeps what a crash may leave. A force makes what is there the only outcome. Until then each content that it has
/// had is one, and so are those with an end that was torn.
#[derive(Drop)]
pub struct Memory {
    alloc: Global,
    bytes: Vec<u8>,
    /// What a crash may leave but for the bytes.
    others: Vec<Vec<u8>>,
    /// What a crash might have left, before a force.
    past: Vec<Vec<u8>>,
    /// So many bytes there is room for.
    room: usize,
    /// So many forces succeed.
    forces: usize,
    is_trusted: bool,
    faults: u64,
}

impl Memory {
    /// An empty file with room for so many bytes, of which so many forces succeed.
    pub fn new(alloc: Global, room: usize, forces: usize) -> Memory
        ensures empty { result.bytes.items ≡ [] }
        ensures trusted { IsTrue result.is_trusted }
    {
        Memory {
            alloc,
            bytes: Vec::new(alloc),
            others: Vec::new(alloc),
            past: Vec::new(alloc),
            room,
            forces,
            is_trusted: true,
            faults: 0,
        }
    }

    /// What a process that is killed leaves.
    pub fn bytes(&self) -> &[u8] {
        &self.bytes
    }
}

/// Adds a file's bytes to the outcomes of a crash.
fn remember(alloc: Global, bytes: &[u8], others: &mut Vec<Vec<u8>>) -> Result<(), AllocError>
    ensures { (c : List ℕ) → HasContent others.new.items c → HasContent others.old.items c ⊎ (c ≡ bytes.now) }
{
    Ok(others.push(bytes.to_vec(alloc)?)?)
}

/// A file's bytes, and behind them some of those that are written, and what a crash makes of the rest.
fn torn(alloc: Global, bytes: &[u8], front: &[u8], rest: &[u8]) -> Result<Vec<u8>, AllocError>
    ensures { IfOk result (λ torn. Grown bytes.now torn.items) }
{
    let mut torn = bytes.to_vec(alloc)?;
    torn.extend_from_slice(front)?;
    torn.extend_from_slice(rest)?;
    Ok(torn)
}

/// Adds an outcome of that kind.
#[tactic(auto, using(crate::proofs::Outcomes::adds_none, crate::proofs::Outcomes::adds_one))]
fn add_torn(
    alloc: Global,
    bytes: &[u8],
    front: &[u8],
    rest: &[u8],
    others: &mut Vec<Vec<u8>>,
) -> Result<(), AllocError>
    ensures { AddsGrown bytes.now others.old.items others.new.items }
{
    Ok(others.push(torn(alloc, bytes, front, rest)?)?)
}

/// Adds the outcomes of a crash while bytes are written behind those of a file.
#[tactic(auto, using(crate::proofs::Outcomes::adds_again))]
fn tear(
    alloc: Global,
    bytes: &[u8],
    more: &[u8],
    others: &mut Vec<Vec<u8>>,
) -> Result<(), AllocError>
    ensures { AddsGrown bytes.now others.old.items others.new.items }
{
    add_torn(alloc, bytes, &[], &[], others)?;
    add_torn(alloc, bytes, &more[..more.len() / 2], &GARBAGE, others)?;
    add_torn(alloc, bytes, more, &[], others)
}

impl Device for Memory {
    ghost seen = { λ m. m.bytes.items };

    ghost may_leave = { λ m. MayLeave m.bytes.items m.others.items };

    ghost moment = { λ m. length m.past.items };

    ghost left_since = { λ m. MayHaveLeft m.past.items m.bytes.items m.others.items };

    ghost is_trusted = { λ m. m.is_trusted };

    ghost faults = { λ m. m.faults };

    ghost only_now = { λ m c left. only_now m.past.items m.bytes.items m.others.items c left };

    fn append(&mut self, bytes: &[u8]) -> Result<(), DeviceFault> {
        if tear(self.alloc, &self.bytes, bytes, &mut self.others).is_err() {
            self.faults = self.faults.saturating_add(1);
            return Err(DeviceFault::Failed);
        }
        let len = bytes.len().min(self.room.saturating_sub(self.bytes.len()));
        if self.bytes.extend_from_slice(&bytes[..len]).is_err() || len < bytes.len() {
            self.faults = self.faults.saturating_add(1);
            return Err(DeviceFault::Full);
        }
        Ok(())
    }

    fn cut(&mut self, len: usize) -> Result<(), DeviceFault> {
        if remember(self.alloc, &self.bytes, &mut self.others).is_err() {
            self.faults = self.faults.saturating_add(1);
            return Err(DeviceFault::Failed);
        }
        self.bytes.truncate(len);
        Ok(())
    }

    fn force(&mut self) -> Result<(), DeviceFault> {
        if self.forces == 0 || self.past.append(&mut self.others).is_err() {
            self.is_trusted = false;
            self.faults = self.faults.saturating_add(1);
            return Err(DeviceFault::Failed);
        }
        self.forces -= 1;
        Ok(())
    }
}
