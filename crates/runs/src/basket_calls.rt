// The calls on baskets.
ghost use Rattle.std.specs.Prelude.{◌≡◌};
ghost use Rattle.runs.specs.declared.call.Call.TheVariants.{Basket, ChainAll, Collect, DiscardBasket, DrainChildren, RaiseAll, Take};
ghost use Rattle.model.specs.Host.{Errors};
ghost use Rattle.runs.specs.Session.{Ends, Stands, state_of};

use crate::call::{Answer, Name};
use crate::names::{is_named, rename, reserve};
use crate::session::Session;
use crate::stop::Stop;
use host::host::Host;
use store::token::{Exn, Refusal};
use vocabulary::fault::StoreFault;

impl Session {
    // An empty basket.
    pub(crate) fn basket(&mut self) -> Result<Answer, Stop>
        ensures step { (h : Errors) → Ends (state_of h self.old) Basket (state_of h self.new) result }
        ensures stands { (h : Errors) → Stands h self.old → Stands h self.new }
    {
        reserve(&mut self.baskets.names)?;
        let basket = self.store.basket();
        Ok(Answer::Basket(self.baskets.add(&mut self.store, basket)))
    }

    // A new root over all reports of a basket.
    pub(crate) fn raise_all<H: Host>(
        &mut self,
        host: &H,
        name: Name,
        error: u16,
        place: u32,
    ) -> Result<Answer, Stop>
        ensures step { Ends (state_of (H.Host.errors host.now) self.old) (RaiseAll name error place) (state_of (H.Host.errors host.now) self.new) result }
        ensures stands { Stands (H.Host.errors host.now) self.old → Stands (H.Host.errors host.now) self.new }
    {
        reserve(&mut self.reports.names)?;
        let basket = self.baskets.take(name, &self.store, &self.other)?;
        match Exn::raise_all(&mut self.store, host, basket, error, place) {
            Ok(raised) => {
                rename(&mut self.baskets.names, name, None);
                Ok(Answer::Report(self.reports.add(raised)))
            }
            Err(refusal) => Err(
                self.baskets
                    .give_back(name, refusal, &mut self.store, &mut self.other),
            ),
        }
    }

    // The reports of a basket become the last children of a report's root.
    pub(crate) fn chain_all(&mut self, name: Name, other: Name) -> Result<Answer, Stop>
        ensures step { (h : Errors) → Ends (state_of h self.old) (ChainAll name other) (state_of h self.new) result }
        ensures stands { (h : Errors) → Stands h self.old → Stands h self.new }
    {
        if !is_named(&self.reports.names, name) || !is_named(&self.baskets.names, other) {
            return Err(Stop::Missing);
        }
        let report = self
            .reports
            .get(name)
            .ok_or(Stop::Refused(StoreFault::NotHeld))?;
        let basket = self.baskets.take(other, &self.store, &self.other)?;
        match report.chain_all(&mut self.store, basket) {
            Ok(()) => {
                rename(&mut self.baskets.names, other, None);
                Ok(Answer::Done)
            }
            Err(refusal) => Err(
                self.baskets
                    .give_back(other, refusal, &mut self.store, &mut self.other),
            ),
        }
    }

    // A report goes to the end of a basket.
    pub(crate) fn collect(&mut self, name: Name, other: Name) -> Result<Answer, Stop>
        ensures step { (h : Errors) → Ends (state_of h self.old) (Collect name other) (state_of h self.new) result }
        ensures stands { (h : Errors) → Stands h self.old → Stands h self.new }
    {
        if !is_named(&self.baskets.names, name) {
            return Err(Stop::Missing);
        }
        let report = self.reports.take(other)?;
        let mut basket = match self.baskets.take(name, &self.store, &self.other) {
            Ok(basket) => basket,
            Err(_) => {
                let fault = StoreFault::NotHeld;
                return Err(
                    self.reports.give_back(
                        other,
                        Refusal {
                            fault,
                            given: report,
                        },
                    ),
                );
            }
        };
        let stop = match basket.collect(&mut self.store, report) {
            Ok(()) => {
                rename(&mut self.reports.names, other, None);
                rename(&mut self.baskets.names, name, Some(basket.first()));
                self.baskets.put(&mut self.store, basket);
                return Ok(Answer::Done);
            }
            Err(refusal) => self.reports.give_back(other, refusal),
        };
        self.baskets
            .put_back(name, basket, &mut self.store, &mut self.other);
        Err(stop)
    }

    // The first report of a basket comes out.
    pub(crate) fn take(&mut self, name: Name) -> Result<Answer, Stop>
        ensures step { (h : Errors) → Ends (state_of h self.old) (Take name) (state_of h self.new) result }
        ensures stands { (h : Errors) → Stands h self.old → Stands h self.new }
    {
        reserve(&mut self.reports.names)?;
        let mut basket = self.baskets.take(name, &self.store, &self.other)?;
        match basket.take(&mut self.store) {
            Ok(Some(report)) => {
                let next = basket.first();
                rename(&mut self.baskets.names, name, Some(next));
                self.baskets.put(&mut self.store, basket);
                let report = self.reports.add(report);
                Ok(Answer::Taken { report, next })
            }
            Ok(None) => {
                self.baskets
                    .put_back(name, basket, &mut self.store, &mut self.other);
                Ok(Answer::Nothing)
            }
            Err(fault) => {
                self.baskets
                    .put_back(name, basket, &mut self.store, &mut self.other);
                Err(Stop::Refused(fault))
            }
        }
    }

    // The children of a report's root move into a new basket.
    pub(crate) fn drain_children(&mut self, name: Name) -> Result<Answer, Stop>
        ensures step { (h : Errors) → Ends (state_of h self.old) (DrainChildren name) (state_of h self.new) result }
        ensures stands { (h : Errors) → Stands h self.old → Stands h self.new }
    {
        reserve(&mut self.baskets.names)?;
        if !is_named(&self.reports.names, name) {
            return Err(Stop::Missing);
        }
        let report = self
            .reports
            .get(name)
            .ok_or(Stop::Refused(StoreFault::NotHeld))?;
        let basket = report.drain_children(&mut self.store)?;
        Ok(Answer::Basket(self.baskets.add(&mut self.store, basket)))
    }

    // Frees the frames of all reports in a basket.
    pub(crate) fn discard_basket(&mut self, name: Name) -> Result<Answer, Stop>
        ensures step { (h : Errors) → Ends (state_of h self.old) (DiscardBasket name) (state_of h self.new) result }
        ensures stands { (h : Errors) → Stands h self.old → Stands h self.new }
    {
        let basket = self.baskets.take(name, &self.store, &self.other)?;
        match basket.discard(&mut self.store) {
            Ok(()) => {
                rename(&mut self.baskets.names, name, None);
                Ok(Answer::Done)
            }
            Err(refusal) => Err(
                self.baskets
                    .give_back(name, refusal, &mut self.store, &mut self.other),
            ),
        }
    }
}
