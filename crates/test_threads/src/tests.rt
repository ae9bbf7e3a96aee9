//! The tests by what is tried.

mod beginnings;
mod blocks;
mod building;
mod contents;
mod gates;
mod idle;
mod pieces;
mod putting;
mod quorums;
mod refusals;
mod requests;
mod rounds;
mod running;
mod seeds;
mod sharing;
mod standing;
mod watching;
mod working;
