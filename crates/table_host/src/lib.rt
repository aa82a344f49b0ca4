// A host over the caller's records.
#![tactic(auto)]

pub mod record;
pub mod table;
