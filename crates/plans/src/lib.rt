// What the lines of a file of cases come to: host, layers and calls of each case, or the first line that is out of order.
#![tactic(auto)]

pub mod case;
mod draft;
pub mod fault;
mod names;
pub mod planning;
