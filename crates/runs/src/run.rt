// Whole runs.
ghost use Rattle.std.specs.Prelude.{◌≡◌, IfOk};
ghost use Rattle.runs.specs.Law.{Law, Ran};
ghost use Rattle.runs.specs.Session.{Stands, state_of};
ghost use Rattle.runs.specs.Step.{Step};

use crate::call::{Answer, Event, Outcome};
use crate::reading::read_all;
use crate::session::Session;
use host::host::GrowingHost;
use std::alloc::{AllocError, Global};
use vocabulary::policy::Policy;

// Answers one event.
fn answer<H: GrowingHost>(
    alloc: Global,
    session: &mut Session,
    host: &mut H,
    event: Event<H::Addition>,
) -> Result<Answer, AllocError>
    requires { Stands (H.Host.errors host.old) session.old }
    ensures step { IfOk result (λ a. Step (state_of (H.Host.errors host.old) session.old) event a (state_of (H.Host.errors host.new) session.new)) }
    ensures stands { Stands (H.Host.errors host.new) session.new }
{
    match event {
        Event::Call(call) => session.step(alloc, host, call),
        Event::Gain(addition) => Ok(Answer::Gained(host.add(addition))),
    }
}

// Answers events one after another.
fn answer_all<H: GrowingHost>(
    alloc: Global,
    session: &mut Session,
    host: &mut H,
    events: Vec<Event<H::Addition>>,
) -> Result<Vec<Answer>, AllocError>
where
    H::Addition: Drop,
    requires { Stands (H.Host.errors host.old) session.old }
    ensures ran { IfOk result (λ answers. Ran (state_of (H.Host.errors host.old) session.old) events.items answers.items (state_of (H.Host.errors host.new) session.new)) }
    ensures stands { Stands (H.Host.errors host.new) session.new }
{
    let mut answers = Vec::new(alloc);
    for event in events {
        answers.push(answer(alloc, session, host, event)?)?;
    }
    Ok(answers)
}

// Makes events on an empty store, one after another, and reads the reports that stand at the end.
pub fn run<H: GrowingHost, P: Policy>(
    alloc: Global,
    host: &mut H,
    policy: &P,
    events: Vec<Event<H::Addition>>,
) -> Result<Outcome, AllocError>
where
    H::Addition: Drop,
    ensures { IfOk result (λ o. Law (H.Host.errors host.old) (H.Host.errors host.new) (P.Policy.accepted policy.now) events.items o) }
{
    let mut session = Session::new(alloc)?;
    let answers = answer_all(alloc, &mut session, host, events)?;
    let readings = read_all(alloc, &session, host, policy)?;
    Ok(Outcome { answers, readings })
}
