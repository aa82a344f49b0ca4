// The trees of lists of nodes, made in the frames of a store again.
#![tactic(auto)]

pub mod build;
