// Reports and chains printed into buffers that the caller lends.
#![tactic(auto)]

pub mod chain;
mod lines;
mod pieces;
pub mod report;
