// The store by plain numbers: 1,024 frames that hold reports, alone or in rows.
#![tactic(auto)]

mod change;
pub mod store;
