ghost use Rattle.std.specs.Prelude.{◌≡◌, ◌+◌, ◌≤◌, length, vec_len, IfErr, IfOk, OnOk, count_by, is_some, None};
ghost use Rattle.plans.specs.Within.{Within, is_case, tally};

use crate::case::Case;
use crate::draft::Draft;
use crate::fault::{PlanError, Reason, StepError};
use cases::line::Line;
use std::alloc::Global;

// The cases so far, and the one that has begun, if one has.
#[derive(Drop)]
struct Planner {
    cases: Vec<Case>,
    current: Option<Draft>,
}

// What a step came to, at a line.
fn at_line<T: Drop>(line: usize, outcome: Result<T, StepError>) -> Result<T, PlanError>
    requires { 1 ≤ line }
    ensures { IfErr result (Within line) }
{
    match outcome {
        Ok(value) => Ok(value),
        Err(StepError::Memory) => Err(PlanError::Memory),
        Err(StepError::Bad(reason)) => Err(PlanError::Line { line, reason }),
    }
}

impl Planner {
    // Ends the case that has begun, if one has.
    fn finish(&mut self, heap: Global, line: usize) -> Result<(), PlanError>
        requires { 1 ≤ line }
        ensures within { IfErr result (Within line) }
        ensures counted { OnOk result (vec_len self.new.cases ≡ vec_len self.old.cases + tally (is_some self.old.current)) }
        ensures ended { OnOk result (self.new.current ≡ None) }
    {
        if let Some(draft) = self.current.take() {
            let case = at_line(line, draft.finish(heap))?;
            self.cases.push(case)?;
        }
        Ok(())
    }

    // What a line says.
    fn add(&mut self, heap: Global, number: usize, line: Line) -> Result<(), PlanError>
        requires { 1 ≤ number }
        ensures within { IfErr result (Within number) }
        ensures counted { OnOk result (vec_len self.new.cases + tally (is_some self.new.current) ≡ vec_len self.old.cases + tally (is_some self.old.current) + tally (is_case line)) }
    {
        match line {
            Line::Comment(_text) => Ok(()),
            Line::Case(name) => {
                self.finish(heap, number)?;
                self.current = Some(at_line(number, Draft::new(heap, number, name))?);
                Ok(())
            }
            Line::Statement(statement) => match &mut self.current {
                Some(draft) => at_line(number, draft.add(number, statement)),
                None => at_line(number, Err(StepError::Bad(Reason::NoCase))),
            },
        }
    }
}

// The cases that lines say, in order; or the first line that is out of order.
pub fn plan(heap: Global, lines: Vec<Line>) -> Result<Vec<Case>, PlanError>
    // A fault is at one of the lines.
    ensures within { IfErr result (Within (vec_len lines)) }
    // There are as many cases as lines that begin one.
    ensures counted { IfOk result (λ cases. vec_len cases ≡ count_by is_case lines.items) }
{
    let mut planner = Planner {
        cases: Vec::new(heap),
        current: None,
    };
    let count = lines.len();
    let mut number = 0;
    for line in lines {
        number += 1;
        planner.add(heap, number, line)?;
    }
    if count > 0 {
        planner.finish(heap, count)?;
    }
    Ok(planner.cases)
}
