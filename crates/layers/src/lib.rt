// Two layers that make errors around those of any host.
#![tactic(auto)]

pub mod addition;
pub mod entries;
pub mod entry;
pub mod entry_kind;
pub mod layer;
pub mod marked;
pub mod wrapped;
