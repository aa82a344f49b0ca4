// The steps of a case, and what their calls answer.
use crate::account::Style;
use crate::events::{Sizes, event, events};
use crate::layered::Task;
use crate::layered_host::LayeredHost;
use anyhow::anyhow;
use cases::call::Call;
use plans::case::{Action, Case, Step};
use runs::call::Answer;
use runs::run::run;
use std::alloc::{AllocError, Global};
use std::fmt::Write;
use vocabulary::policy::StandardPolicy;

fn is_question(action: Action) -> bool {
    matches!(action, Action::Ask { .. })
}

// Whether an action is an event.
fn is_event<H: LayeredHost>(sizes: Sizes, action: Action) -> bool
where
    H::Addition: Drop,
{
    event::<H>(sizes, action).is_some()
}

// What a granted call answered; or why the case does not go on there.
fn granted(action: Action, answer: Answer) -> anyhow::Result<()> {
    match (action, answer) {
        (_, Answer::Refused(fault)) => {
            let number = fault.number();
            Err(anyhow!("refused with {number}"))
        }
        (_, Answer::Gained(Err(fault))) => {
            let number = fault.number();
            Err(anyhow!("refused with {number}"))
        }
        (_, Answer::Missing) => Err(anyhow!("what the call names is not there")),
        (
            Action::Call(
                Call::Take {
                    report: Some(_),
                    ..
                },
            ),
            Answer::Nothing,
        ) => Err(anyhow!("the basket is empty")),
        (Action::Call(Call::Take { report: None, .. }), Answer::Taken { .. }) => Err(anyhow!(
            "the basket is not empty"
        )),
        _ => Ok(()),
    }
}

// An answer in words.
fn in_words(out: &mut String, answer: Option<Answer>) -> Result<(), AllocError> {
    match answer {
        Some(Answer::Report(_)) => writeln!(out, "a report"),
        Some(Answer::Basket(Some(_))) => writeln!(out, "a basket"),
        Some(Answer::Basket(None)) => writeln!(out, "an empty basket"),
        Some(Answer::Taken { next: Some(_), .. }) => writeln!(out, "its first report"),
        Some(Answer::Taken { next: None, .. }) => writeln!(out, "its last report"),
        Some(Answer::Nothing) => writeln!(out, "nothing: it is empty"),
        Some(Answer::Chain(count)) => writeln!(out, "a chain of {count} nodes"),
        Some(Answer::Gained(Ok(number))) => writeln!(out, "error {number}"),
        _ => writeln!(out, "done"),
    }
}

// Makes all calls of a case, and prints each with its answer for people.
#[derive(Clone, Copy)]
pub struct Steps<'a> {
    pub heap: Global,
    pub style: Style,
    pub case: &'a Case,
    // the lines of the file
    pub lines: &'a [&'a str],
}

// A step with its answer, if it is a call.
fn print_step(
    out: &mut String,
    style: Style,
    lines: &[&str],
    step: Step,
    answer: Option<Answer>,
) -> anyhow::Result<()> {
    let line = step.line;
    if let Some(answer) = answer {
        granted(step.action, answer).map_err(|e| anyhow!("line {line}: {e}"))?;
    }
    if style == Style::Account {
        let source = lines.get(line.saturating_sub(1)).copied().unwrap_or("");
        write!(out, "  {line:>6}  {source:<36}  ")?;
        in_words(out, answer)?;
    }
    Ok(())
}

impl<'a> Task for Steps<'a> {
    fn over<H: LayeredHost + Drop>(&self, mut host: H, out: &mut String) -> anyhow::Result<()>
    where
        H::Addition: Drop,
    {
        let sizes = Sizes::of(self.case);
        let steps = self.case.steps.as_slice();
        let events = events::<H>(self.heap, sizes, steps)?;
        let outcome = run(self.heap, &mut host, &StandardPolicy::CanRetry, events)?;
        let mut answers = outcome.answers.iter();
        for step in steps {
            if !is_question(step.action) {
                let answer = if is_event::<H>(sizes, step.action) {
                    answers.next().copied()
                } else {
                    None
                };
                print_step(out, self.style, self.lines, *step, answer)?;
            }
        }
        Ok(())
    }
}
