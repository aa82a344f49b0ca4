// Reports and baskets handed to the store of another bench. Each call is expected to be turned down, and what was handed
// in comes back. The answer is none where the bench has nothing to hand in, or both have one number.
// One helper over a closure was tried: it proved, but `invariant_of-other` (of the store that it captures) did not.
ghost use Rattle.std.specs.Prelude.{◌≢◌, IsSome};

use crate::bench::Bench;
use drive_host::drive::DriveHost;
use store::token::{Exn, Refusal};
use vocabulary::fault::StoreFault;

impl Bench {
    // None where both have one number.
    fn apart(&self, other: &Bench) -> Option<()>
        ensures { IsSome result → self.now.number ≢ other.now.number }
    {
        (self.number != other.number).then_some(())
    }

    pub fn raise_in(&mut self, other: &mut Bench, error: u16) -> Option<StoreFault> {
        self.apart(other)?;
        let report = self.report.take()?;
        let Refusal { fault, given } = report
            .raise(&mut other.store, &DriveHost, error, 0)
            .unwrap_err();
        self.report = Some(given);
        Some(fault)
    }

    pub fn discard_in(&mut self, other: &mut Bench) -> Option<StoreFault> {
        self.apart(other)?;
        let report = self.report.take()?;
        let Refusal { fault, given } = report.discard(&mut other.store).unwrap_err();
        self.report = Some(given);
        Some(fault)
    }

    pub fn drain_in(&mut self, other: &mut Bench) -> Option<StoreFault> {
        self.apart(other)?;
        let report = self.report.as_ref()?;
        Some(report.drain_children(&mut other.store).unwrap_err())
    }

    // The report to be a child of the other's.
    pub fn chain_in(&mut self, other: &mut Bench) -> Option<StoreFault> {
        self.apart(other)?;
        let onto = other.report.as_ref()?;
        let report = self.report.take()?;
        let Refusal { fault, given } = onto.chain(&mut other.store, report).unwrap_err();
        self.report = Some(given);
        Some(fault)
    }

    // The other's report to be a child of the report, in the other's store.
    pub fn chain_onto(&mut self, other: &mut Bench) -> Option<StoreFault> {
        self.apart(other)?;
        let report = self.report.as_ref()?;
        let child = other.report.take()?;
        let Refusal { fault, given } = report.chain(&mut other.store, child).unwrap_err();
        other.report = Some(given);
        Some(fault)
    }

    // The report into the other's basket.
    pub fn collect_in(&mut self, other: &mut Bench) -> Option<StoreFault> {
        self.apart(other)?;
        let basket = other.basket.as_mut()?;
        let report = self.report.take()?;
        let Refusal { fault, given } = basket.collect(&mut other.store, report).unwrap_err();
        self.report = Some(given);
        Some(fault)
    }

    // The other's report into the basket, in the other's store.
    pub fn collect_from(&mut self, other: &mut Bench) -> Option<StoreFault> {
        self.apart(other)?;
        let basket = self.basket.as_mut()?;
        let report = other.report.take()?;
        let Refusal { fault, given } = basket.collect(&mut other.store, report).unwrap_err();
        other.report = Some(given);
        Some(fault)
    }

    pub fn take_in(&mut self, other: &mut Bench) -> Option<StoreFault> {
        self.apart(other)?;
        let basket = self.basket.as_mut()?;
        Some(basket.take(&mut other.store).unwrap_err())
    }

    pub fn raise_all_in(&mut self, other: &mut Bench, error: u16) -> Option<StoreFault> {
        self.apart(other)?;
        let basket = self.basket.take()?;
        let Refusal { fault, given } = Exn::raise_all(
            &mut other.store,
            &DriveHost,
            basket,
            error,
            0,
        ).unwrap_err();
        self.basket = Some(given);
        Some(fault)
    }

    // The reports of the basket to be children of the other's report.
    pub fn chain_all_in(&mut self, other: &mut Bench) -> Option<StoreFault> {
        self.apart(other)?;
        let onto = other.report.as_ref()?;
        let basket = self.basket.take()?;
        let Refusal { fault, given } = onto.chain_all(&mut other.store, basket).unwrap_err();
        self.basket = Some(given);
        Some(fault)
    }

    // The reports of the other's basket to be children of the report, in the other's store.
    pub fn chain_all_onto(&mut self, other: &mut Bench) -> Option<StoreFault> {
        self.apart(other)?;
        let onto = self.report.as_ref()?;
        let basket = other.basket.take()?;
        let Refusal { fault, given } = onto.chain_all(&mut other.store, basket).unwrap_err();
        other.basket = Some(given);
        Some(fault)
    }

    pub fn discard_all_in(&mut self, other: &mut Bench) -> Option<StoreFault> {
        self.apart(other)?;
        let basket = self.basket.take()?;
        let Refusal { fault, given } = basket.discard(&mut other.store).unwrap_err();
        self.basket = Some(given);
        Some(fault)
    }
}
