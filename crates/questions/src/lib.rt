// Questions on whole reports and on chains: the class of the error that a controller has to deal with first, whether it may
// try again, and the probable cause.
#![tactic(auto)]

pub mod chain;
mod judging;
pub mod report;
mod seen;
