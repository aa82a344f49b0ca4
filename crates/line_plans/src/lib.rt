// The lines of a printed tree, planned in the list of its nodes.
#![tactic(auto)]

pub mod planning;
