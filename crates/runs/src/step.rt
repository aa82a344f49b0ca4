// A session is begun, and makes one call.
ghost use Rattle.std.specs.Prelude.{◌≡◌, IfOk};
ghost use Rattle.model.specs.Host.{Errors};
ghost use Rattle.runs.specs.Law.{Starts};
ghost use Rattle.runs.specs.Session.{Ends, Stands, state_of};
ghost use Rattle.runs.specs.Step.{CallStep};

use crate::baskets::Baskets;
use crate::call::{Answer, Call};
use crate::reports::Reports;
use crate::session::Session;
use crate::stop::Stop;
use crate::table::Table;
use drive_host::drive::DriveHost;
use host::host::Host;
use std::alloc::{AllocError, Global};
use store::store::Store;
use store::token::Exn;

impl Session {
    // An empty store, and another with one report.
    pub(crate) fn new(alloc: Global) -> Result<Session, AllocError>
        ensures starts { IfOk result (λ s. (h : Errors) → Starts h (state_of h s)) }
        ensures stands { IfOk result (λ s. (h : Errors) → Stands h s) }
    {
        let reports = Table::new(alloc)?;
        let baskets = Table::new(alloc)?;
        let mut other = Store::new(2);
        let foreign = Exn::new(&mut other, &DriveHost, 0, 0).unwrap();
        Ok(Session {
            store: Store::new(1),
            reports: Reports {
                names: Vec::new(alloc),
                table: reports,
                foreign: Some(foreign),
            },
            baskets: Baskets {
                names: Vec::new(alloc),
                table: baskets,
            },
            chains: Vec::new(alloc),
            other,
        })
    }

    // Makes a call over a host, and answers it.
    pub(crate) fn step<H: Host>(
        &mut self,
        alloc: Global,
        host: &H,
        call: Call,
    ) -> Result<Answer, AllocError>
        ensures step { IfOk result (λ a. CallStep (state_of (H.Host.errors host.now) self.old) call a (state_of (H.Host.errors host.now) self.new)) }
        ensures stands { Stands (H.Host.errors host.now) self.old → Stands (H.Host.errors host.now) self.new }
    {
        match self.make(alloc, host, call) {
            Ok(answer) => Ok(answer),
            Err(Stop::Missing) => Ok(Answer::Missing),
            Err(Stop::Refused(fault)) => Ok(Answer::Refused(fault)),
            Err(Stop::Memory) => Err(AllocError),
        }
    }

    fn make<H: Host>(&mut self, alloc: Global, host: &H, call: Call) -> Result<Answer, Stop>
        ensures step { Ends (state_of (H.Host.errors host.now) self.old) call (state_of (H.Host.errors host.now) self.new) result }
        ensures stands { Stands (H.Host.errors host.now) self.old → Stands (H.Host.errors host.now) self.new }
    {
        match call {
            Call::New { error, place } => self.begin(host, error, place),
            Call::Raise {
                report,
                error,
                place,
            } => self.raise(host, report, error, place),
            Call::RaiseAll {
                basket,
                error,
                place,
            } => self.raise_all(host, basket, error, place),
            Call::Chain { report, other } => self.chain(report, other),
            Call::ChainAll { report, basket } => self.chain_all(report, basket),
            Call::Basket => self.basket(),
            Call::Collect { basket, report } => self.collect(basket, report),
            Call::Take { basket } => self.take(basket),
            Call::DrainChildren { report } => self.drain_children(report),
            Call::Discard { report } => self.discard(report),
            Call::DiscardBasket { basket } => self.discard_basket(basket),
            Call::IntoChain { report, room } => self.into_chain(alloc, host, report, room),
            Call::ChainOf { nodes } => self.chain_of(nodes),
            Call::IntoExn { chain } => self.into_exn(host, chain),
        }
    }
}
