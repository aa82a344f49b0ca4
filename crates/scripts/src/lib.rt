// What scripts print.
#![tactic(auto)]

ghost use Rattle.scripts.specs.Output.{OutputOnce};

pub mod output;
mod report;
mod summary;

// A script has one output.
pub fn outputs()
    ensures { OutputOnce }
{}
