// What is asked of the nodes of reports and chains, in order.
#![tactic(auto)]

pub mod children;
mod errors;
pub mod iter;
