// Reports gone through breadth-first.
#![tactic(auto)]

pub mod flatten;
pub mod marker;
pub mod order;
pub mod report;
pub mod survey;
