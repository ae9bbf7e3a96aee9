//! Among how many vnodes the keys of a store are spread.

ghost use Rattle.std.specs.Prelude.{◌≡◌, ◌<◌, ◌≤◌, IfSome};
ghost use Rattle.dvvstore.specs.Crews.{by_digest};

use crate::limits::{MAX_VNODES, VNODES_PER_WORKER};
use ring::{MAX_COPIES, Placement};

/// Among how many vnodes the keys of a store are spread, and how many copies there are of each.
#[derive(Clone, Copy, Debug)]
pub struct Spread {
    /// How many vnodes there are, 1 to 16.
    pub vnodes: u32,
    /// How many copies of each key are wanted, 1 to 3. There are no more than vnodes.
    pub copies: u32,
    ghost some: { 0 < vnodes },
    ghost many: { vnodes ≤ 16 },
    ghost one: { 0 < copies },
    ghost few: { copies ≤ 3 },
}

impl Spread {
    /// Among two vnodes for each worker, at most 16, and as many as there are copies at the least.
    pub fn usual(workers: usize, copies: u32) -> Spread
        requires one { 0 < copies }
        requires few { copies ≤ 3 }
        ensures copies { result.copies ≡ copies }
    {
        let workers = workers.min(MAX_VNODES as usize) as u32;
        let vnodes = (workers * VNODES_PER_WORKER).max(copies).min(MAX_VNODES);
        Spread { vnodes, copies }
    }

    /// Among so many vnodes, those whose files a folder held, and as many as there are copies at the least; as usual where it held none.
    pub fn among(vnodes: Option<u32>, workers: usize, copies: u32) -> Spread
        requires one { 0 < copies }
        requires few { copies ≤ 3 }
        ensures copies { result.copies ≡ copies }
        ensures all { IfSome vnodes (λ n. n ≤ 16 → n ≤ result.vnodes) }
        ensures as_they_are { IfSome vnodes (λ n. n ≤ 16 → copies ≤ n → result.vnodes ≡ n) }
    {
        match vnodes {
            Some(vnodes) => Spread {
                vnodes: vnodes.max(copies).min(MAX_VNODES),
                copies,
            },
            None => Spread::usual(workers, copies),
        }
    }

    /// Where keys stand among these vnodes: each at the place that its digest names.
    pub fn placement(&self) -> Placement
        ensures { result ≡ by_digest self.now.vnodes self.now.copies }
    {
        Placement::by_digest(self.vnodes, self.copies)
    }
}

/// How many copies of each key there are where so many are asked for: as many, one where none is, and three where more are.
pub fn copies_of(asked: u32) -> u32
    ensures some { 0 < result }
    ensures few { result ≤ 3 }
    ensures right { 0 < asked → asked ≤ 3 → result ≡ asked }
{
    asked.max(1).min(MAX_COPIES)
}
