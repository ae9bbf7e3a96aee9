//! The examples in data/, which examples.list names, tried one after another by the commands of dvvstore: whether a program is let in,
//! whether a script prints what stands beside it, whether the requests of connections are answered by what stands beside them, whether
//! commands come to what stands behind them, and whether the programs of rows and functions in C are told so. Each program that is let in
//! is run and driven, which has to come to the same. Records and contexts in rows are read, and written again.
#![tactic(auto)]

mod asking;
mod both;
mod clocks;
mod contexts;
mod desk;
mod dialogue;
mod folder;
mod records;
mod rows;
mod spellings;
mod texts;
mod trials;
mod trying;
mod turns;

use crate::trying::try_all;
use std::io;
use std::io::Write;

fn main(rt: HostRuntime) -> io::Result<()> {
    let mut told = Vec::new(rt.alloc());
    try_all(&rt, &mut told)?;
    rt.stdout().write_all(&told)
}
