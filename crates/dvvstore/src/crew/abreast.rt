//! Calls side by side.

use std::thread;
use std::thread::Threads;

/// Calls three functions side by side: the first and the second each in a thread of its own, or one after another where no thread can be
/// made, and the third in this one. Answers what they answer.
pub(crate) fn join_three<R, F, G, H, A, B, C>(rt: &R, first: F, second: G, third: H) -> (A, B, C)
where
    R: Threads,
    F: FnOnce() -> A + Send,
    G: FnOnce() -> B + Send,
    H: FnOnce() -> C,
    A: Send,
    B: Send,
    requires first { F.pre first }
    requires second { G.pre second }
    requires third { H.pre third }
    ensures first { F.post first result.0 }
    ensures second { G.post second result.1 }
    ensures third { H.post third result.2 }
{
    let (one, (two, three)) = thread::join(
        rt,
        first,
        || -> (B, C)
            requires { G.pre second × H.pre third }
            ensures two { G.post second result.0 }
            ensures three { H.post third result.1 }
        { thread::join(rt, second, third) },
    );
    (one, two, three)
}
