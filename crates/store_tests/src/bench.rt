ghost use Rattle.std.specs.Prelude.{◌≡◌, true, cond, is_none, Ok, Err};
ghost use Rattle.vocabulary.specs.declared.fault.StoreFault.TheVariants.{NotHeld};
ghost use Rattle.store_tests.specs.Held.{basket_kept, report_kept};

use drive_host::drive::DriveHost;
use store::store::Store;
use store::token::{Basket, Exn, Refusal};
use vocabulary::fault::StoreFault;

// A store with at most one report and one basket. Both are discarded where it is let go. Its calls take error and place one
// by one, as the store's do.
pub struct Bench {
    pub(crate) number: u32,
    pub(crate) store: Store,
    pub(crate) report: Option<Exn>,
    pub(crate) basket: Option<Basket>,
    ghost known: { store.number ≡ number },
    ghost report_live: { report_kept store report ≡ true },
    ghost basket_live: { basket_kept store basket ≡ true },
}

impl Drop for Bench {
    fn drop(self) {
        let Bench {
            number: _,
            mut store,
            report,
            basket,
        } = self;
        if let Some(report) = report {
            report.discard(&mut store).unwrap();
        }
        if let Some(basket) = basket {
            basket.discard(&mut store).unwrap();
        }
    }
}

// Refuses where a place is taken.
fn vacant<T>(place: &Option<T>) -> Result<(), StoreFault>
    ensures { result ≡ cond (is_none place.now) (Ok tt) (Err NotHeld) }
{
    place.is_none().then_some(()).ok_or(StoreFault::NotHeld)
}

impl Bench {
    pub fn new(number: u32) -> Bench {
        Bench {
            number,
            store: Store::new(number),
            report: None,
            basket: None,
        }
    }

    pub fn free(&self) -> usize {
        self.store.free()
    }

    // A new report, where there is none.
    pub fn begin(&mut self, error: u16, place: u32) -> Result<(), StoreFault> {
        vacant(&self.report)?;
        let report = Exn::new(&mut self.store, &DriveHost, error, place)?;
        self.report = Some(report);
        Ok(())
    }

    // A new root over the report.
    #[tactic(auto, using(crate::proofs::Over::number_stays, crate::proofs::Over::report_kept, crate::proofs::Over::basket_stays))]
    pub fn raise(&mut self, error: u16, place: u32) -> Result<(), StoreFault> {
        let report = self.report.take().ok_or(StoreFault::NotHeld)?;
        // Each arm keeps a value in its place, so no method of `Result` serves, here and in `raise_all`.
        match report.raise(&mut self.store, &DriveHost, error, place) {
            Ok(raised) => {
                self.report = Some(raised);
                Ok(())
            }
            Err(Refusal { fault, given }) => {
                self.report = Some(given);
                Err(fault)
            }
        }
    }

    // A new report becomes the last child of the report's root.
    pub fn chain(&mut self, error: u16, place: u32) -> Result<(), StoreFault> {
        let report = self.report.as_ref().ok_or(StoreFault::NotHeld)?;
        let other = Exn::new(&mut self.store, &DriveHost, error, place)?;
        report.chain(&mut self.store, other).unwrap();
        Ok(())
    }

    // Discards the report.
    pub fn discard(&mut self) -> Result<(), StoreFault> {
        let report = self.report.take().ok_or(StoreFault::NotHeld)?;
        report.discard(&mut self.store).unwrap();
        Ok(())
    }

    // An empty basket, where there is none.
    pub fn open(&mut self) -> Result<(), StoreFault> {
        vacant(&self.basket)?;
        let basket = self.store.basket();
        self.basket = Some(basket);
        Ok(())
    }

    // Puts the report into the basket.
    pub fn collect(&mut self) -> Result<(), StoreFault> {
        let basket = self.basket.as_mut().ok_or(StoreFault::NotHeld)?;
        if let Some(report) = self.report.take() {
            basket.collect(&mut self.store, report).unwrap();
        }
        Ok(())
    }

    // Takes the first report out of the basket, where there is none outside, and answers whether there was one.
    pub fn take(&mut self) -> Result<bool, StoreFault> {
        vacant(&self.report)?;
        let basket = self.basket.as_mut().ok_or(StoreFault::NotHeld)?;
        let report = basket.take(&mut self.store).unwrap();
        self.report = report;
        Ok(self.report.is_some())
    }

    // A new root over all reports of the basket, where there is no report outside.
    pub fn raise_all(&mut self, error: u16, place: u32) -> Result<(), StoreFault> {
        vacant(&self.report)?;
        let basket = self.basket.take().ok_or(StoreFault::NotHeld)?;
        match Exn::raise_all(&mut self.store, &DriveHost, basket, error, place) {
            Ok(raised) => {
                self.report = Some(raised);
                Ok(())
            }
            Err(Refusal { fault, given }) => {
                self.basket = Some(given);
                Err(fault)
            }
        }
    }

    // The reports of the basket become the last children of the report's root.
    pub fn chain_all(&mut self) -> Result<(), StoreFault> {
        let report = self.report.as_ref().ok_or(StoreFault::NotHeld)?;
        if let Some(basket) = self.basket.take() {
            report.chain_all(&mut self.store, basket).unwrap();
        }
        Ok(())
    }

    // Discards the basket.
    pub fn discard_all(&mut self) -> Result<(), StoreFault> {
        let basket = self.basket.take().ok_or(StoreFault::NotHeld)?;
        basket.discard(&mut self.store).unwrap();
        Ok(())
    }

    // Moves the children of the report's root into a basket, where there is none.
    pub fn drain(&mut self) -> Result<(), StoreFault> {
        vacant(&self.basket)?;
        let report = self.report.as_ref().ok_or(StoreFault::NotHeld)?;
        let basket = report.drain_children(&mut self.store).unwrap();
        self.basket = Some(basket);
        Ok(())
    }
}
