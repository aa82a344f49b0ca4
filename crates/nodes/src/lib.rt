// The nodes of a report, their listing breadth-first, and the way back: definitions and their laws.
#![tactic(auto)]

pub mod node;
pub mod notes;
