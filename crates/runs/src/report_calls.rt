// The calls on reports.
ghost use Rattle.runs.specs.declared.call.Call.TheVariants.{Chain, Discard, New, Raise};
ghost use Rattle.model.specs.Host.{Errors};
ghost use Rattle.runs.specs.Session.{Ends, Stands, state_of};

use crate::call::{Answer, Name};
use crate::names::{is_named, rename, reserve};
use crate::session::Session;
use crate::stop::Stop;
use host::host::Host;
use store::token::{Exn, Refusal};
use vocabulary::fault::StoreFault;

impl Session {
    // A report of one frame.
    pub(crate) fn begin<H: Host>(
        &mut self,
        host: &H,
        error: u16,
        place: u32,
    ) -> Result<Answer, Stop>
        ensures step { Ends (state_of (H.Host.errors host.now) self.old) (New error place) (state_of (H.Host.errors host.now) self.new) result }
        ensures stands { Stands (H.Host.errors host.now) self.old → Stands (H.Host.errors host.now) self.new }
    {
        reserve(&mut self.reports.names)?;
        let report = Exn::new(&mut self.store, host, error, place)?;
        Ok(Answer::Report(self.reports.add(report)))
    }

    // A new root over a report.
    pub(crate) fn raise<H: Host>(
        &mut self,
        host: &H,
        name: Name,
        error: u16,
        place: u32,
    ) -> Result<Answer, Stop>
        ensures step { Ends (state_of (H.Host.errors host.now) self.old) (Raise name error place) (state_of (H.Host.errors host.now) self.new) result }
        ensures stands { Stands (H.Host.errors host.now) self.old → Stands (H.Host.errors host.now) self.new }
    {
        reserve(&mut self.reports.names)?;
        let report = self.reports.take(name)?;
        match report.raise(&mut self.store, host, error, place) {
            Ok(raised) => {
                rename(&mut self.reports.names, name, None);
                Ok(Answer::Report(self.reports.add(raised)))
            }
            Err(refusal) => Err(self.reports.give_back(name, refusal)),
        }
    }

    // Frees the frames of a report.
    pub(crate) fn discard(&mut self, name: Name) -> Result<Answer, Stop>
        ensures step { (h : Errors) → Ends (state_of h self.old) (Discard name) (state_of h self.new) result }
        ensures stands { (h : Errors) → Stands h self.old → Stands h self.new }
    {
        let report = self.reports.take(name)?;
        match report.discard(&mut self.store) {
            Ok(()) => {
                rename(&mut self.reports.names, name, None);
                Ok(Answer::Done)
            }
            Err(refusal) => Err(self.reports.give_back(name, refusal)),
        }
    }

    // A report becomes the last child of another's root.
    pub(crate) fn chain(&mut self, name: Name, other: Name) -> Result<Answer, Stop>
        ensures step { (h : Errors) → Ends (state_of h self.old) (Chain name other) (state_of h self.new) result }
        ensures stands { (h : Errors) → Stands h self.old → Stands h self.new }
    {
        if name == other || !is_named(&self.reports.names, name) {
            return Err(Stop::Missing);
        }
        let child = self.reports.take(other)?;
        let Some(report) = self.reports.get(name) else {
            let fault = StoreFault::NotHeld;
            return Err(
                self.reports.give_back(
                    other,
                    Refusal {
                        fault,
                        given: child,
                    },
                ),
            );
        };
        match report.chain(&mut self.store, child) {
            Ok(()) => {
                rename(&mut self.reports.names, other, None);
                Ok(Answer::Done)
            }
            Err(refusal) => Err(self.reports.give_back(other, refusal)),
        }
    }
}
