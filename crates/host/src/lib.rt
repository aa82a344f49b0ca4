// The interface to the errors of a site, and what is asked of them over any host.
#![tactic(auto)]

pub mod host;
pub mod judge;
pub mod sources;
pub mod text;
