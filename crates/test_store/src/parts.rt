//! What the tests start from: keys, contents, vnodes, hooks, and the calls that they try. No function of these but `get` tells by a clause
//! what it answers: a test knows of an answer what it compares, and no more. And the audit of vnodes, as the tests ask for it.

pub(crate) mod altering;
pub(crate) mod building;
pub(crate) mod calling;
pub(crate) mod hooking;
pub(crate) mod judging;
pub(crate) mod programs;
