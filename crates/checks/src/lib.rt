// The check of a list of nodes: whether it is the flattening of a report, and where it is none.
#![tactic(auto)]

pub mod check;
