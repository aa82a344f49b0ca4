// The nodes that a print shows, linked in the list of all nodes: those beneath a marker in the marker's own place.
#![tactic(auto)]

pub mod links;
pub mod marks;
