// The lines of scripts, as values, and their reading.
#![tactic(auto)]

pub mod line;
mod number;
pub mod reading;
