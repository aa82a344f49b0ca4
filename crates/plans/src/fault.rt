ghost use Rattle.std.specs.Prelude.{◌≡◌};
ghost use Rattle.plans.specs.declared.fault.PlanError.TheVariants.{Memory};

use cases::call::Name;
use cases::statement::LayerName;
use std::alloc::{AllocError, AllocFailed};
use std::fmt;

// What is wrong with a line.
#[derive(Clone, Copy)]
pub enum Reason {
    // no case has begun
    NoCase,
    // the name of the case has other bytes than small letters, digits and hyphens, or none
    CaseName,
    // the host comes first
    NoHost,
    // a case ended without a host
    Hostless,
    SecondHost,
    // the drive has errors of its own
    DriveRecord,
    // records come before everything else
    LateRecord,
    // the record's number would have to be this one
    RecordNumber(usize),
    // the source's number is not below the record's
    RecordSource,
    SecondLayer,
    // the topmost layer is not this one
    NotTopmost(LayerName),
    LayerFull,
    // the entry's number would have to be this one
    EntryNumber(u32),
    // nothing has this name
    Unknown(Name),
    // something has this name
    Taken(Name),
    // more than 65,535 reports, baskets or chains
    TooMany,
}

// A layer by its name.
fn layer_word(layer: LayerName) -> &'static str {
    match layer {
        LayerName::Marker => "marker",
        LayerName::Io => "io",
    }
}

// The letter and the number of a name.
fn parts(name: Name) -> (char, u16) {
    match name {
        Name::Report(number) => ('r', number),
        Name::Basket(number) => ('b', number),
        Name::Chain(number) => ('c', number),
    }
}

impl fmt::Display for Reason {
    fn fmt<W: fmt::Write>(&self, f: &mut fmt::Formatter<W>) -> fmt::Result {
        match *self {
            Reason::NoCase => f.pad("a case begins with `case NAME`"),
            Reason::CaseName => f.pad("a case's name has small letters, digits and hyphens"),
            Reason::NoHost => f.pad("a case's host comes first"),
            Reason::Hostless => f.pad("the case before has no host"),
            Reason::SecondHost => f.pad("the case has a host already"),
            Reason::DriveRecord => f.pad("the host `drive` has no records"),
            Reason::LateRecord => f.pad("records come right after the host"),
            Reason::RecordNumber(number) => write!(f, "this record has the number {number}"),
            Reason::RecordSource => f.pad("a source has a smaller number than its record"),
            Reason::SecondLayer => f.pad("the case has this layer already"),
            Reason::NotTopmost(layer) => {
                let word = layer_word(layer);
                write!(f, "the {word} layer is not the topmost")
            }
            Reason::LayerFull => f.pad("a layer has no more than 64 entries"),
            Reason::EntryNumber(number) => write!(f, "this entry has the number {number}"),
            Reason::Unknown(name) => {
                let (letter, number) = parts(name);
                write!(f, "there is no {letter}{number}")
            }
            Reason::Taken(name) => {
                let (letter, number) = parts(name);
                write!(f, "there is a {letter}{number} already")
            }
            Reason::TooMany => f.pad("a case makes at most 65,535 reports, baskets or chains"),
        }
    }
}

// Why no plan was made.
#[derive(Clone, Copy)]
pub enum PlanError {
    Memory,
    // the number of the first bad line, counted from 1, and what is wrong with it
    Line { line: usize, reason: Reason },
}

// What a step of planning turns down.
#[derive(Clone, Copy)]
pub(crate) enum StepError {
    Memory,
    Bad(Reason),
}

impl From<AllocError> for PlanError {
    ghost from_gives = { λ _ e. e ≡ Memory };

    fn from(_e: AllocError) -> PlanError {
        PlanError::Memory
    }
}

impl<T: Drop> From<AllocFailed<T>> for PlanError {
    ghost from_gives = { λ _ e. e ≡ Memory };

    fn from(_e: AllocFailed<T>) -> PlanError {
        PlanError::Memory
    }
}

impl From<Reason> for StepError {
    fn from(reason: Reason) -> StepError {
        StepError::Bad(reason)
    }
}

impl From<AllocError> for StepError {
    fn from(_e: AllocError) -> StepError {
        StepError::Memory
    }
}

impl<T: Drop> From<AllocFailed<T>> for StepError {
    fn from(_e: AllocFailed<T>) -> StepError {
        StepError::Memory
    }
}
