// The text format of cases: its lines as values, written and read.
#![tactic(auto)]

pub mod call;
mod fields;
pub mod line;
mod naming;
mod operand;
pub mod reader;
mod reading;
pub mod statement;
pub mod word;
pub mod writing;
