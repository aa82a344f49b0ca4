use arrayvec::ArrayVec;
use nodes::node::Node;
use std::fmt;
use store::store::Store;
use vocabulary::fault::StoreFault;

// The calls that the program makes on a store.
#[derive(Clone, Copy, Default)]
pub enum Call {
    #[default]
    New,
    Collect,
    RaiseAll,
    Raise,
    Drain,
    Take,
    Chain,
    IntoChain,
    IntoExn,
    Discard,
}

impl fmt::Display for Call {
    fn fmt<W: fmt::Write>(&self, f: &mut fmt::Formatter<W>) -> fmt::Result {
        f.pad(match self {
            Call::New => "new",
            Call::Collect => "collect",
            Call::RaiseAll => "raise_all",
            Call::Raise => "raise",
            Call::Drain => "drain_children",
            Call::Take => "take",
            Call::Chain => "chain",
            Call::IntoChain => "into_chain",
            Call::IntoExn => "into_exn",
            Call::Discard => "discard",
        })
    }
}

// What a call answered, and how many frames were free afterwards.
#[derive(Clone, Copy, Default)]
pub struct Step {
    call: Call,
    refused: Option<StoreFault>,
    free: usize,
}

impl fmt::Display for Step {
    fn fmt<W: fmt::Write>(&self, f: &mut fmt::Formatter<W>) -> fmt::Result {
        let Step {
            call,
            refused,
            free,
        } = *self;
        match refused {
            None => write!(f, "{call:<15} granted, {free} frames free"),
            Some(fault) => {
                let number = fault.number();
                write!(f, "{call:<15} refused with {number}, {free} frames free")
            }
        }
    }
}

// A line of the log: a call, or a node of a chain with its index.
#[derive(Clone, Copy)]
pub enum Line {
    Call(Step),
    Node(usize, Node),
}

impl Default for Line {
    fn default() -> Line {
        Line::Call(Step::default())
    }
}

// The calls so far and the nodes of chains, at most 64 lines; those after them are not kept.
#[derive(Drop)]
pub struct Log {
    lines: ArrayVec<Line, 64>,
}

impl Log {
    pub fn new() -> Log {
        Log {
            lines: ArrayVec::new(),
        }
    }

    pub fn note(&mut self, store: &Store, call: Call, refused: Option<StoreFault>) {
        let step = Step {
            call,
            refused,
            free: store.free(),
        };
        let _ = self.lines.try_push(Line::Call(step));
    }

    // Notes the nodes of a chain.
    pub fn show(&mut self, nodes: &[Node]) {
        for (index, node) in nodes.iter().enumerate() {
            let _ = self.lines.try_push(Line::Node(index, *node));
        }
    }

    pub fn lines(&self) -> &[Line] {
        self.lines.as_slice()
    }
}
