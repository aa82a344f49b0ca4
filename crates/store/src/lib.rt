// The store with its reports and baskets, and the calls that build them.
#![tactic(auto)]

pub mod basket;
mod calls;
pub mod chain;
pub mod exn;
mod root;
pub mod store;
pub mod token;
