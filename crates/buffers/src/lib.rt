// Bytes put into a buffer that the caller lends: where they do not fit they are only counted.
#![tactic(auto)]

pub mod put;
pub mod texts;
