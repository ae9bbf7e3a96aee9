//! The tests by what is tried.

mod altered;
mod audits;
mod exchanges;
mod growths;
mod hook_runs;
mod late;
mod losses;
mod operations;
mod places;
mod quorums;
mod repairs;
mod seeds;
mod shown;
mod verdicts;
mod watched;
mod wide_places;
