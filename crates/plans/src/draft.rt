ghost use Rattle.std.specs.Prelude.{◌≤◌};

use crate::case::{Action, Case, Standing, Step};
use crate::fault::{Reason, StepError};
use crate::names::Names;
use cases::call::{Call, Name};
use cases::statement::{HostName, LayerName, Record, Statement};
use std::alloc::{AllocError, Global};

// A case as far as its lines were gone through.
#[derive(Drop)]
pub(crate) struct Draft {
    line: usize,
    name: Vec<u8>,
    host: Option<HostName>,
    records: Vec<Record>,
    layers: Vec<LayerName>,
    // how many entries each layer has
    entries: [u32; 2],
    steps: Vec<Step>,
    reports: Names,
    baskets: Names,
    chains: Names,
}

// Whether a case may have this name.
fn is_case_name(name: &[u8]) -> bool {
    !name.is_empty()
        && name.iter().all(|b| b.is_ascii_lowercase() || b.is_ascii_digit() || *b == b'-')
}

impl Draft {
    // A case that begins at a line.
    pub(crate) fn new(heap: Global, line: usize, name: Vec<u8>) -> Result<Draft, StepError> {
        if !is_case_name(name.as_slice()) {
            return Err(StepError::Bad(Reason::CaseName));
        }
        Ok(Draft {
            line,
            name,
            host: None,
            records: Vec::new(heap),
            layers: Vec::new(heap),
            entries: [0, 0],
            steps: Vec::new(heap),
            reports: Names::new(heap)?,
            baskets: Names::new(heap)?,
            chains: Names::new(heap)?,
        })
    }

    // A record, which comes before layers, calls and questions.
    fn record(&mut self, number: u16, record: Record) -> Result<(), StepError> {
        if self.host == Some(HostName::Drive) {
            return Err(StepError::Bad(Reason::DriveRecord));
        }
        if !self.steps.is_empty() || !self.layers.is_empty() {
            return Err(StepError::Bad(Reason::LateRecord));
        }
        if usize::from(number) != self.records.len() {
            return Err(StepError::Bad(Reason::RecordNumber(self.records.len())));
        }
        if record.source.is_some_and(|source| source >= number) {
            return Err(StepError::Bad(Reason::RecordSource));
        }
        self.records.push(record)?;
        Ok(())
    }

    fn layer(&mut self, layer: LayerName) -> Result<(), StepError> {
        if self.layers.iter().any(|other| *other == layer) {
            return Err(StepError::Bad(Reason::SecondLayer));
        }
        self.layers.push(layer)?;
        Ok(())
    }

    // The span of the host below a layer, which is counted from the bottom.
    fn span_below(&self, layer: usize) -> u32
        ensures { result ≤ 65536 }
    {
        let base = match self.host {
            Some(HostName::Drive) => 48,
            _ => self.records.len().min(65536) as u32,
        };
        let below = if layer == 0 { base } else { base + 64 };
        below.min(65536)
    }

    // An entry of the topmost layer, which has to be this one, with this number.
    fn entry(
        &mut self,
        kind: LayerName,
        error: u16,
        value: u8,
        number: u16,
    ) -> Result<Action, Reason> {
        let layer = self.layers.len().saturating_sub(1);
        if self.layers.get(layer).copied() != Some(kind) {
            return Err(Reason::NotTopmost(kind));
        }
        let expected = self.span_below(layer);
        let Some(entries) = self.entries.get_mut(layer) else {
            return Err(Reason::NotTopmost(kind));
        };
        if *entries >= 64 {
            return Err(Reason::LayerFull);
        }
        let expected = expected + *entries;
        if u32::from(number) != expected {
            return Err(Reason::EntryNumber(expected));
        }
        *entries += 1;
        Ok(Action::Gain {
            layer,
            error,
            value,
        })
    }

    fn find_report(&self, number: u16) -> Result<u16, Reason> {
        self.reports.find(number, Name::Report(number))
    }

    fn lose_report(&mut self, number: u16) -> Result<u16, Reason> {
        self.reports.lose(number, Name::Report(number))
    }

    fn give_report(&mut self, number: u16) -> Result<u16, Reason> {
        self.reports.give(number, Name::Report(number))
    }

    fn find_basket(&self, number: u16) -> Result<u16, Reason> {
        self.baskets.find(number, Name::Basket(number))
    }

    fn lose_basket(&mut self, number: u16) -> Result<u16, Reason> {
        self.baskets.lose(number, Name::Basket(number))
    }

    fn give_basket(&mut self, number: u16) -> Result<u16, Reason> {
        self.baskets.give(number, Name::Basket(number))
    }

    fn discard(&mut self, name: Name) -> Result<Name, Reason> {
        match name {
            Name::Report(number) => Ok(Name::Report(self.lose_report(number)?)),
            Name::Basket(number) => Ok(Name::Basket(self.lose_basket(number)?)),
            Name::Chain(number) => Ok(Name::Chain(self.chains.lose(number, name)?)),
        }
    }

    // A call whose names stand for what they name: the calls that make a root, and then the others.
    fn call(&mut self, call: Call) -> Result<Call, Reason> {
        match call {
            Call::New {
                report,
                error,
                place,
            } => Ok(Call::New {
                report: self.give_report(report)?,
                error,
                place,
            }),
            Call::Raise {
                report: name,
                error,
                place,
            } => {
                let report = self.lose_report(name)?;
                self.give_report(name)?;
                Ok(Call::Raise {
                    report,
                    error,
                    place,
                })
            }
            Call::RaiseAll {
                report,
                basket,
                error,
                place,
            } => {
                let basket = self.lose_basket(basket)?;
                let report = self.give_report(report)?;
                Ok(Call::RaiseAll {
                    report,
                    basket,
                    error,
                    place,
                })
            }
            _ => self.joining(call),
        }
    }

    // The calls that put reports together.
    fn joining(&mut self, call: Call) -> Result<Call, Reason> {
        match call {
            Call::Chain { report, other } => {
                let other = self.lose_report(other)?;
                let report = self.find_report(report)?;
                Ok(Call::Chain { report, other })
            }
            Call::ChainAll { report, basket } => {
                let report = self.find_report(report)?;
                let basket = self.lose_basket(basket)?;
                Ok(Call::ChainAll { report, basket })
            }
            Call::Collect { basket, report } => {
                let basket = self.find_basket(basket)?;
                let report = self.lose_report(report)?;
                Ok(Call::Collect { basket, report })
            }
            _ => self.other_call(call),
        }
    }

    fn other_call(&mut self, call: Call) -> Result<Call, Reason> {
        match call {
            Call::Basket { basket } => Ok(Call::Basket {
                basket: self.give_basket(basket)?,
            }),
            Call::Take { basket, report } => {
                let basket = self.find_basket(basket)?;
                let report = match report {
                    Some(report) => Some(self.give_report(report)?),
                    None => None,
                };
                Ok(Call::Take { basket, report })
            }
            Call::DrainChildren { report, basket } => {
                let report = self.find_report(report)?;
                let basket = self.give_basket(basket)?;
                Ok(Call::DrainChildren { report, basket })
            }
            Call::IntoChain { report, chain } => {
                let report = self.lose_report(report)?;
                let chain = self.chains.give(chain, Name::Chain(chain))?;
                Ok(Call::IntoChain { report, chain })
            }
            Call::IntoExn { chain, report } => {
                let chain = self.chains.lose(chain, Name::Chain(chain))?;
                let report = self.give_report(report)?;
                Ok(Call::IntoExn { chain, report })
            }
            Call::Discard(name) => Ok(Call::Discard(self.discard(name)?)),
            _ => Ok(call),
        }
    }

    fn step(&mut self, line: usize, action: Action) -> Result<(), StepError> {
        self.steps.push(Step { line, action })?;
        Ok(())
    }

    // What a line says; the host comes first.
    pub(crate) fn add(&mut self, line: usize, statement: Statement) -> Result<(), StepError> {
        if let Statement::Host(host) = statement {
            if self.host.is_some() {
                return Err(StepError::Bad(Reason::SecondHost));
            }
            self.host = Some(host);
            return Ok(());
        }
        if self.host.is_none() {
            return Err(StepError::Bad(Reason::NoHost));
        }
        match statement {
            Statement::Host(_) => Ok(()),
            Statement::Error { number, record } => self.record(number, record),
            Statement::Layer(layer) => self.layer(layer),
            Statement::Mark {
                error,
                class,
                number,
            } => {
                let action = self.entry(LayerName::Marker, error, class.rank(), number)?;
                self.step(line, action)
            }
            Statement::Wrap {
                error,
                kind,
                number,
            } => {
                let action = self.entry(LayerName::Io, error, kind.number(), number)?;
                self.step(line, action)
            }
            Statement::Call(call) => {
                let call = self.call(call)?;
                self.step(line, Action::Call(call))
            }
            Statement::Ask(name) => {
                let report = self.find_report(name)?;
                self.step(line, Action::Ask { report, name })
            }
        }
    }

    // The case, where its lines end here.
    pub(crate) fn finish(self, heap: Global) -> Result<Case, StepError> {
        let Some(host) = self.host else {
            return Err(StepError::Bad(Reason::Hostless));
        };
        let standing = Standing {
            reports: self.reports.given(heap)?,
            baskets: self.baskets.given(heap)?,
            chains: self.chains.given(heap)?,
            made: self.reports.made(),
        };
        Ok(Case {
            line: self.line,
            name: self.name,
            host,
            records: self.records,
            layers: self.layers,
            steps: self.steps,
            standing,
        })
    }
}
