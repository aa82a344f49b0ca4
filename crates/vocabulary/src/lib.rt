// The words of the subject: io kinds, kinds of error, refusals and policies, each with its numbers.
#![tactic(auto)]

pub mod fault;
pub mod frame_error;
pub mod io_kind;
pub mod kind;
pub mod policy;
