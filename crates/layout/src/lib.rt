// Frames, and how reports, rows and free frames lie in them: definitions and their laws.
#![tactic(auto)]

pub mod frame;
