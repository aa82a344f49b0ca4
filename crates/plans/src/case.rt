use cases::call::Call;
use cases::statement::{HostName, LayerName, Record};

// What a step of a case does.
#[derive(Clone, Copy)]
pub enum Action {
    // an entry of a layer, of those from the bottom up, around an error and of a kind by its number
    Gain { layer: usize, error: u16, value: u8 },
    // A call, in which a number is not that of a name: it says how many reports, baskets or chains came to be before this one.
    Call(Call),
    // everything is asked of a report, which has this name
    Ask { report: u16, name: u16 },
}

// A step of a case, and its line, counted from 1.
#[derive(Clone, Copy)]
pub struct Step {
    pub line: usize,
    pub action: Action,
}

// What stands at the end of a case: names, in order, and how many of their kind came to be before each.
#[derive(Drop)]
pub struct Standing {
    pub reports: Vec<(u16, u16)>,
    pub baskets: Vec<(u16, u16)>,
    pub chains: Vec<(u16, u16)>,
    // how many reports came to be
    pub made: u16,
}

// A case.
#[derive(Drop)]
pub struct Case {
    pub line: usize,
    pub name: Vec<u8>,
    pub host: HostName,
    // those of a table
    pub records: Vec<Record>,
    // from the bottom up, at most two
    pub layers: Vec<LayerName>,
    pub steps: Vec<Step>,
    pub standing: Standing,
}
