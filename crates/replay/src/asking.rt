// What the questions answer, in the middle of a case and at its end.
use crate::account::{Printer, Style, report};
use crate::events::{Sizes, events, frames_made};
use crate::layered::Task;
use crate::layered_host::LayeredHost;
use anyhow::anyhow;
use plans::case::{Case, Step};
use runs::call::{Answer, Call, Event, Name, Outcome};
use runs::run::run;
use std::alloc::{AllocError, Global};
use std::fmt::Write;
use vocabulary::policy::StandardPolicy;

// Whom a case is asked of.
#[derive(Clone, Copy)]
pub enum Subject {
    Report(u16),
    // a report of a basket, by its position
    Basket(u16, usize),
    Chain(u16),
}

// Asks everything of a report in the middle of a case.
#[derive(Clone, Copy)]
pub struct Asked<'a> {
    pub printer: Printer,
    pub case: &'a Case,
    // the steps before the question
    pub steps: &'a [Step],
    pub line: usize,
    pub report: u16,
    pub name: u16,
}

// Asks everything of all that stands at the end of a case.
#[derive(Clone, Copy)]
pub struct Standing<'a> {
    pub printer: Printer,
    pub case: &'a Case,
}

// The line that begins a subject's answers.
fn title(out: &mut String, style: Style, subject: Subject) -> Result<(), AllocError> {
    match (style, subject) {
        (Style::Plain, Subject::Report(name)) => writeln!(out, "of r{name}"),
        (Style::Plain, Subject::Basket(name, position)) => writeln!(out, "of b{name} {position}"),
        (Style::Plain, Subject::Chain(name)) => writeln!(out, "of c{name}"),
        (Style::Account, Subject::Report(name)) => writeln!(out, "  Report r{name}:"),
        (Style::Account, Subject::Basket(name, position)) => {
            writeln!(
                out,
                "  The report at position {position} of basket b{name}:"
            )
        }
        (Style::Account, Subject::Chain(name)) => writeln!(out, "  The tree of chain c{name}:"),
    }
}

// The answers of the report that is the n-th to come to be.
fn answers<H: LayeredHost>(
    out: &mut String,
    printer: Printer,
    host: &H,
    outcome: &Outcome,
    subject: Subject,
    n: usize,
) -> anyhow::Result<()> {
    title(out, printer.style, subject)?;
    let of_chain = matches!(subject, Subject::Chain(_));
    match outcome.readings.get(n) {
        Some(Some(reading)) => Ok(report(out, printer, host, reading, of_chain)?),
        _ => Err(anyhow!("a report does not stand")),
    }
}

impl<'a> Task for Asked<'a> {
    fn over<H: LayeredHost + Drop>(&self, mut host: H, out: &mut String) -> anyhow::Result<()>
    where
        H::Addition: Drop,
    {
        let heap = self.printer.heap;
        let events = events::<H>(heap, Sizes::of(self.case), self.steps)?;
        let outcome = run(heap, &mut host, &StandardPolicy::CanRetry, events)?;
        let line = self.line;
        if self.printer.style == Style::Account {
            writeln!(out, "  At line {line}:")?;
        }
        let n = usize::from(self.report);
        answers(
            out,
            self.printer,
            &host,
            &outcome,
            Subject::Report(self.name),
            n,
        )
    }
}

// How many reports a basket may have: no more than frames that are made, nor than a store has frames.
fn most_reports(steps: &[Step]) -> usize {
    frames_made(steps).min(1024)
}

// All events of a case, then takes that empty each basket, then the trees of all chains.
fn all_events<H: LayeredHost>(
    heap: Global,
    case: &Case,
    takes: usize,
) -> Result<Vec<Event<H::Addition>>, AllocError>
where
    H::Addition: Drop,
{
    let mut events = events::<H>(heap, Sizes::of(case), case.steps.as_slice())?;
    for (_name, basket) in &case.standing.baskets {
        for _ in 0..takes {
            let basket = Name::Made(usize::from(*basket));
            events.push(Event::Call(Call::Take { basket }))?;
        }
    }
    for (_name, chain) in &case.standing.chains {
        let chain = usize::from(*chain);
        events.push(Event::Call(Call::IntoExn { chain }))?;
    }
    Ok(events)
}

// The answers of a basket's reports, the n-th to come to be and those after it, where these answers came of its takes; and how
// many came to be with them.
fn of_basket<H: LayeredHost>(
    out: &mut String,
    printer: Printer,
    host: &H,
    outcome: &Outcome,
    basket: u16,
    taken: &[Answer],
    n: usize,
) -> anyhow::Result<usize> {
    let mut next = n;
    for (position, answer) in taken.iter().enumerate() {
        if let Answer::Taken { .. } = answer {
            answers(
                out,
                printer,
                host,
                outcome,
                Subject::Basket(basket, position),
                next,
            )?;
            next = next.saturating_add(1);
        }
    }
    Ok(next)
}

// The answers of everything that stands; those to the added events begin at a place.
fn of_all<H: LayeredHost>(
    out: &mut String,
    standing: &Standing<'_>,
    host: &H,
    outcome: &Outcome,
    place: usize,
    takes: usize,
) -> anyhow::Result<()> {
    let printer = standing.printer;
    let names = &standing.case.standing;
    for (name, n) in &names.reports {
        answers(
            out,
            printer,
            host,
            outcome,
            Subject::Report(*name),
            usize::from(*n),
        )?;
    }
    let mut added = outcome.answers.as_slice().get(place..).unwrap_or(&[]);
    let mut next = usize::from(names.made);
    for (name, _n) in &names.baskets {
        let (taken, others) = added.split_at(takes.min(added.len()));
        next = of_basket(out, printer, host, outcome, *name, taken, next)?;
        added = others;
    }
    for ((name, _n), answer) in names.chains.iter().zip(added) {
        let Answer::Report(_) = answer else {
            return Err(anyhow!("there is no room for the tree of c{name}"));
        };
        answers(out, printer, host, outcome, Subject::Chain(*name), next)?;
        next = next.saturating_add(1);
    }
    Ok(())
}

impl<'a> Task for Standing<'a> {
    fn over<H: LayeredHost + Drop>(&self, mut host: H, out: &mut String) -> anyhow::Result<()>
    where
        H::Addition: Drop,
    {
        let steps = self.case.steps.as_slice();
        let heap = self.printer.heap;
        let place = events::<H>(heap, Sizes::of(self.case), steps)?.len();
        let takes = most_reports(steps);
        let events = all_events::<H>(heap, self.case, takes)?;
        let outcome = run(heap, &mut host, &StandardPolicy::CanRetry, events)?;
        if self.printer.style == Style::Account {
            writeln!(out, "  At the end:")?;
        }
        of_all(out, self, &host, &outcome, place, takes)
    }
}
