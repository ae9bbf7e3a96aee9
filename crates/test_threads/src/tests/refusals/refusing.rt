//! A call that is made again and again, each time with a further allocation refused.

use std::alloc::Global;
use std::env::Env;
use std::sync::Wait;
use std::test::Fail;

/// What a call came to.
#[derive(Clone, Copy, PartialEq, Eq)]
pub(in crate::tests::refusals) enum End {
    /// All of it was done.
    Whole,
    /// There was no memory, which was told, and nothing has changed that mustn't.
    Refused,
    /// Anything else.
    Wrong,
}

/// The end of a call that came to the whole, or else to what should be told of a refusal.
pub(in crate::tests::refusals) fn end_of(is_whole: bool, is_refused: bool) -> End {
    match (is_whole, is_refused) {
        (true, false) => End::Whole,
        (false, true) => End::Refused,
        _ => End::Wrong,
    }
}

/// The end of a call that may go on where it met a refusal, and come to the whole.
pub(in crate::tests::refusals) fn end_beside(met: bool, is_whole: bool, is_refused: bool) -> End {
    end_of(is_whole && !met, met && (is_whole || is_refused))
}

/// Whether the environment has a value of this name.
fn has<R: Env>(rt: &R, name: &str) -> bool {
    rt.var(name, &mut []).is_ok()
}

/// From here on allocations count: one of them is refused, the first of the first call, and of each further call the next.
pub(in crate::tests::refusals) fn begin<R: Env>(rt: &R) {
    has(rt, "REFUSAL_BEGIN");
}

/// From here on none is refused. Whether one was.
pub(in crate::tests::refusals) fn was_met<R: Env>(rt: &R) -> bool {
    has(rt, "REFUSAL_MET")
}

/// A call that is tried.
pub(in crate::tests::refusals) trait Trial {
    /// Makes what the call needs, and the call between `begin` and `was_met`. Whether a refusal was met, and what the call came to.
    fn goes<R: Env + Wait>(&self, rt: &R, alloc: Global) -> Result<(bool, End), Fail>;
}

/// More calls than any trial makes.
const MOST: usize = 10_000;

/// Makes the call until no refusal is met. Each is told until then, and the last call comes to the whole.
pub(in crate::tests::refusals) fn in_turn<T: Trial, R: Env + Wait>(
    rt: &R,
    alloc: Global,
    trial: &T,
) -> Result<(), Fail> {
    for refused in 0..MOST {
        match trial.goes(rt, alloc)? {
            (true, End::Refused) => {}
            (false, End::Whole) => return Ok(()),
            _ => return Err(Fail::new(format_args!("allocation {refused}"))),
        }
    }
    Err(Fail::new("too many allocations"))
}
