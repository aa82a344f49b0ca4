// The steps of a case as events.
use crate::layered_host::LayeredHost;
use cases::call::{Call as Planned, Name as Written};
use cases::statement::HostName;
use plans::case::{Action, Case, Step};
use runs::call::{Call, Event, Name};
use std::alloc::{AllocError, Global};

// A chain has room for at most so many nodes.
const MOST_NODES: usize = 65536;

// What the events of a case depend on beside its steps.
#[derive(Clone, Copy)]
pub struct Sizes {
    layers: usize,
    // a chain has room for so many nodes: each frame has its error and sources of it, at most all errors
    room: usize,
}

// How many frames steps make at most.
pub fn frames_made(steps: &[Step]) -> usize {
    let making = steps.iter().filter(|step| {
        matches!(
            step.action,
            Action::Call(Planned::New { .. } | Planned::Raise { .. } | Planned::RaiseAll { .. })
        )
    });
    making.count()
}

impl Sizes {
    pub fn of(case: &Case) -> Sizes {
        let given = match case.host {
            HostName::Drive => 48,
            HostName::Table => case.records.len(),
        };
        let gains = case
            .steps
            .iter()
            .filter(|step| matches!(step.action, Action::Gain { .. }));
        let errors = given.saturating_add(gains.count());
        let frames = frames_made(case.steps.as_slice());
        Sizes {
            layers: case.layers.len(),
            room: frames.saturating_mul(errors).min(MOST_NODES),
        }
    }
}

// A report or basket, by how many came to be before it.
fn made(index: u16) -> Name {
    Name::Made(usize::from(index))
}

// A call on reports and baskets; discarding a chain is no call.
fn call(planned: Planned, room: usize) -> Option<Call> {
    let call = match planned {
        Planned::New { error, place, .. } => Call::New { error, place },
        Planned::Raise {
            report,
            error,
            place,
        } => Call::Raise {
            report: made(report),
            error,
            place,
        },
        Planned::RaiseAll {
            basket,
            error,
            place,
            ..
        } => Call::RaiseAll {
            basket: made(basket),
            error,
            place,
        },
        Planned::Chain { report, other } => Call::Chain {
            report: made(report),
            other: made(other),
        },
        Planned::ChainAll { report, basket } => Call::ChainAll {
            report: made(report),
            basket: made(basket),
        },
        _ => return other_call(planned, room),
    };
    Some(call)
}

// The calls that leave the reports' roots as they are.
fn other_call(planned: Planned, room: usize) -> Option<Call> {
    match planned {
        Planned::Basket { .. } => Some(Call::Basket),
        Planned::Collect { basket, report } => Some(Call::Collect {
            basket: made(basket),
            report: made(report),
        }),
        Planned::Take { basket, .. } => Some(Call::Take {
            basket: made(basket),
        }),
        Planned::DrainChildren { report, .. } => Some(Call::DrainChildren {
            report: made(report),
        }),
        Planned::IntoChain { report, .. } => Some(Call::IntoChain {
            report: made(report),
            room,
        }),
        Planned::IntoExn { chain, .. } => Some(Call::IntoExn {
            chain: usize::from(chain),
        }),
        Planned::Discard(Written::Report(report)) => Some(Call::Discard {
            report: made(report),
        }),
        Planned::Discard(Written::Basket(basket)) => Some(Call::DiscardBasket {
            basket: made(basket),
        }),
        _ => None,
    }
}

// The event of an action; a question is none, nor is discarding a chain.
pub fn event<H: LayeredHost>(sizes: Sizes, action: Action) -> Option<Event<H::Addition>> {
    match action {
        Action::Gain {
            layer,
            error,
            value,
        } => {
            let depth = sizes.layers.saturating_sub(1).saturating_sub(layer);
            Some(Event::Gain(H::addition(depth, error, value)?))
        }
        Action::Call(planned) => Some(Event::Call(call(planned, sizes.room)?)),
        Action::Ask { .. } => None,
    }
}

// The events of some steps.
pub fn events<H: LayeredHost>(
    heap: Global,
    sizes: Sizes,
    steps: &[Step],
) -> Result<Vec<Event<H::Addition>>, AllocError>
where
    H::Addition: Drop,
{
    let mut events = Vec::new(heap);
    for step in steps {
        if let Some(event) = event::<H>(sizes, step.action) {
            events.push(event)?;
        }
    }
    Ok(events)
}
