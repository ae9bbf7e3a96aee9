//! The commands of the program: what its words ask for, done on files and told on outputs that the caller lends.
#![tactic(auto)]

pub mod audited;
pub mod command;
pub mod dump;
pub mod explained;
pub mod failure;
pub mod files;
pub mod help;
pub mod load;
pub mod outcome;
pub mod own;
pub mod records;
pub mod run;
pub mod server;
pub mod simulate;
pub mod streams;
pub mod tables;
pub mod verify;
pub mod version;
pub mod words;
