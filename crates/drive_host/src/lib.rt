// The drive's own errors.
#![tactic(auto)]

pub mod drive;
