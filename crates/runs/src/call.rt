// What a run is asked to do, and what it answers.
use classes::class::Class;
use nodes::node::Node;
use vocabulary::fault::{LayerFault, StoreFault};
use vocabulary::frame_error::FrameError;

// A report or a basket: the one that came to be as the n-th of its kind, counted from 0, or one of another store.
#[derive(Clone, Copy, PartialEq, Eq)]
pub enum Name {
    Made(usize),
    Foreign,
}

// A building call. Granted `New`, `Raise`, `RaiseAll`, `IntoExn` and a `Take` that gives a report make the next report;
// `Basket` and `DrainChildren` the next basket; `IntoChain` and `ChainOf` the next chain.
#[derive(Drop)]
pub enum Call {
    New {
        error: u16,
        place: u32,
    },
    Raise {
        report: Name,
        error: u16,
        place: u32,
    },
    RaiseAll {
        basket: Name,
        error: u16,
        place: u32,
    },
    // the second becomes the last child of the first one's root
    Chain {
        report: Name,
        other: Name,
    },
    ChainAll {
        report: Name,
        basket: Name,
    },
    Basket,
    Collect {
        basket: Name,
        report: Name,
    },
    Take {
        basket: Name,
    },
    DrainChildren {
        report: Name,
    },
    Discard {
        report: Name,
    },
    DiscardBasket {
        basket: Name,
    },
    // into a list with so many places
    IntoChain {
        report: Name,
        room: usize,
    },
    // a chain of any list, unchecked
    ChainOf {
        nodes: Vec<Node>,
    },
    IntoExn {
        chain: usize,
    },
}

// A building call, or an addition to the host.
#[derive(Drop)]
pub enum Event<A> {
    Call(Call),
    Gain(A),
}

// What an event was answered.
#[derive(Clone, Copy)]
pub enum Answer {
    // what the call names is not there (it never came to be, or is gone), or it names one report twice: it cannot be made
    Missing,
    Refused(StoreFault),
    Done,
    // the root of a new report
    Report(u16),
    // the root of the first report of a new basket
    Basket(Option<u16>),
    // the root of the report that was taken, and that of the basket's next
    Taken { report: u16, next: Option<u16> },
    // the basket was empty
    Nothing,
    // so many nodes
    Chain(usize),
    // what the host answered
    Gained(Result<u16, LayerFault>),
}

// What the questions answer of a report.
#[derive(Drop)]
pub struct Reading {
    // its flattening
    pub nodes: Vec<Node>,
    pub class: Option<Class>,
    // under the policy of the run
    pub retry: bool,
    pub can_retry: bool,
    pub can_retry_lenient: bool,
    pub cause: FrameError,
    // its three printed forms
    pub tree: Vec<u8>,
    pub chain: Vec<u8>,
    pub inline: Vec<u8>,
}

// The answer to each event, and of each report that came to be its reading, if it stands at the end.
#[derive(Drop)]
pub struct Outcome {
    pub answers: Vec<Answer>,
    pub readings: Vec<Option<Reading>>,
}
