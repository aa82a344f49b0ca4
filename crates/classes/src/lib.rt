// The classes of errors, in the order of their remedies.
#![tactic(auto)]

pub mod class;
