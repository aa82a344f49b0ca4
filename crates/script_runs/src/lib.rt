// Scripts are run: the reports that their lines build in a store.
#![tactic(auto)]

ghost use Rattle.script_runs.specs.Runs.{RunsOnce};

pub mod fault;
pub mod moves;
pub mod run;
mod steps;

// A script comes to one answer.
pub fn answers()
    ensures { RunsOnce }
{}
