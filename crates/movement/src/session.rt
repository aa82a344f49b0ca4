// A store in use: the calls that build a report out of others, each with a line in the log.
ghost use Rattle.std.specs.Prelude.{◌≡◌, true, IsSome, IsNone, IsTrue, ◌↔◌};
ghost use Rattle.store.specs.Calls.{basket_held, report_held};
ghost use Rattle.movement.specs.Slots.{in_slot};

use crate::log::{Call, Log};
use drive_host::drive::DriveHost;
use nodes::node::{BLANK, Node};
use store::chain::ChainedError;
use store::store::Store;
use store::token::{Basket, Exn, Refusal};

// A store, the report and the basket that are worked on, and the log of the calls. It has no `drop`: it ends in `finish`.
// Where a call can be refused, each arm notes it and keeps a value in its slot, so no method of `Result` serves.
pub struct Session {
    store: Store,
    pub(crate) report: Option<Exn>,
    pub(crate) basket: Option<Basket>,
    log: Log,
    ghost report_live: { in_slot (report_held store) report ≡ true },
    ghost basket_live: { in_slot (basket_held store) basket ≡ true },
}

impl Session {
    pub fn new() -> Session
        ensures report { IsNone result.report }
        ensures basket { IsNone result.basket }
    {
        Session {
            store: Store::new(1),
            report: None,
            basket: None,
            log: Log::new(),
        }
    }

    // Discards what is left, and hands out the log.
    pub fn finish(self) -> Log {
        let Session {
            mut store,
            report,
            basket,
            log,
        } = self;
        if let Some(report) = report {
            report.discard(&mut store).unwrap();
        }
        if let Some(basket) = basket {
            basket.discard(&mut store).unwrap();
        }
        log
    }

    pub fn has_report(&self) -> bool
        ensures { IsTrue result ↔ IsSome self.now.report }
    {
        self.report.is_some()
    }

    // An empty basket.
    pub fn open(&mut self)
        requires { IsNone self.old.basket }
        ensures report { self.new.report ≡ self.old.report }
        ensures basket { IsSome self.new.basket }
    {
        let basket = self.store.basket();
        self.basket = Some(basket);
    }

    // A report of one frame.
    pub fn begin(&mut self, error: u16, place: u32)
        requires { IsNone self.old.report }
        ensures { self.new.basket ≡ self.old.basket }
    {
        match Exn::new(&mut self.store, &DriveHost, error, place) {
            Ok(report) => {
                self.log.note(&self.store, Call::New, None);
                self.report = Some(report);
            }
            Err(fault) => self.log.note(&self.store, Call::New, Some(fault)),
        }
    }

    // A new root over the report.
    pub fn raise(&mut self, error: u16, place: u32)
        requires { IsSome self.old.report }
        ensures report { IsSome self.new.report }
        ensures basket { self.new.basket ≡ self.old.basket }
    {
        let report = self.report.take().unwrap();
        match report.raise(&mut self.store, &DriveHost, error, place) {
            Ok(raised) => {
                self.log.note(&self.store, Call::Raise, None);
                self.report = Some(raised);
            }
            Err(Refusal { fault, given }) => {
                self.log.note(&self.store, Call::Raise, Some(fault));
                self.report = Some(given);
            }
        }
    }

    // A new report goes to the end of the basket.
    pub fn collect_new(&mut self, error: u16, place: u32)
        requires { IsSome self.old.basket }
        ensures report { self.new.report ≡ self.old.report }
        ensures basket { IsSome self.new.basket }
    {
        match Exn::new(&mut self.store, &DriveHost, error, place) {
            Ok(report) => {
                let basket = self.basket.as_mut().unwrap();
                basket.collect(&mut self.store, report).unwrap();
                self.log.note(&self.store, Call::Collect, None);
            }
            Err(fault) => self.log.note(&self.store, Call::New, Some(fault)),
        }
    }

    // A new root over the reports of the basket, which is the first report of the next.
    pub fn raise_all(&mut self, error: u16, place: u32)
        requires { IsSome self.old.basket }
        ensures report { self.new.report ≡ self.old.report }
        ensures basket { IsSome self.new.basket }
    {
        let basket = self.basket.take().unwrap();
        match Exn::raise_all(&mut self.store, &DriveHost, basket, error, place) {
            Ok(raised) => {
                self.log.note(&self.store, Call::RaiseAll, None);
                let mut next = self.store.basket();
                next.collect(&mut self.store, raised).unwrap();
                self.basket = Some(next);
            }
            Err(Refusal { fault, given }) => {
                self.log.note(&self.store, Call::RaiseAll, Some(fault));
                self.basket = Some(given);
            }
        }
    }

    // The first report comes out of the basket, if it has any.
    pub fn take(&mut self)
        requires report { IsNone self.old.report }
        requires basket { IsSome self.old.basket }
        ensures { IsSome self.new.basket }
    {
        let basket = self.basket.as_mut().unwrap();
        let first = basket.take(&mut self.store).unwrap();
        self.log.note(&self.store, Call::Take, None);
        self.report = first;
    }

    // The report becomes a child of a new one, over which a new root is raised.
    pub fn put_under(&mut self)
        requires { IsSome self.old.report }
        ensures report { IsSome self.new.report }
        ensures basket { self.new.basket ≡ self.old.basket }
    {
        match Exn::new(&mut self.store, &DriveHost, 33, 6) {
            Ok(over) => {
                let report = self.report.take().unwrap();
                over.chain(&mut self.store, report).unwrap();
                self.log.note(&self.store, Call::Chain, None);
                self.report = Some(over);
                self.raise(32, 7);
            }
            Err(fault) => self.log.note(&self.store, Call::New, Some(fault)),
        }
    }

    // New reports become children of the report, until there are so many or the store is full.
    pub fn grow(&mut self, count: u16)
        requires { IsSome self.old.report }
        ensures report { IsSome self.new.report }
        ensures basket { self.new.basket ≡ self.old.basket }
    {
        for _ in 0..count {
            if let Ok(child) = Exn::new(&mut self.store, &DriveHost, 0, 0) {
                let report = self.report.as_ref().unwrap();
                report.chain(&mut self.store, child).unwrap();
            }
        }
    }

    // The first child of the report leaves it and comes back as the last; the others are discarded.
    pub fn rejoin_first(&mut self)
        requires report { IsSome self.old.report }
        requires basket { IsNone self.old.basket }
        ensures report { IsSome self.new.report }
        ensures basket { IsNone self.new.basket }
    {
        let report = self.report.take().unwrap();
        let mut children = report.drain_children(&mut self.store).unwrap();
        self.log.note(&self.store, Call::Drain, None);
        let first = children.take(&mut self.store).unwrap();
        self.log.note(&self.store, Call::Take, None);
        if let Some(first) = first {
            report.chain(&mut self.store, first).unwrap();
            self.log.note(&self.store, Call::Chain, None);
        }
        children.discard(&mut self.store).unwrap();
        self.log.note(&self.store, Call::Discard, None);
        self.report = Some(report);
    }

    // Flattens the report into a list that is too short and into one with room, and builds it again.
    pub fn show_as_chain(&mut self)
        requires { IsSome self.old.report }
        ensures { self.new.basket ≡ self.old.basket }
    {
        let mut list = [BLANK; 24];
        if self.flatten(&mut list[..4]).is_none() {
            if let Some(chain) = self.flatten(&mut list) {
                self.rebuild(chain, &list);
            }
        }
    }

    // Flattens the report into a list, whose nodes go into the log.
    fn flatten(&mut self, list: &mut [Node]) -> Option<ChainedError>
        requires { IsSome self.old.report }
        ensures flattened { IsSome result → IsNone self.new.report }
        ensures stays { IsNone result → IsSome self.new.report }
        ensures basket { self.new.basket ≡ self.old.basket }
    {
        let report = self.report.take().unwrap();
        match report.into_chain(&mut self.store, &DriveHost, list) {
            Ok(chain) => {
                self.log.note(&self.store, Call::IntoChain, None);
                self.log.show(chain.front(list));
                Some(chain)
            }
            Err(Refusal { fault, given }) => {
                self.log.note(&self.store, Call::IntoChain, Some(fault));
                self.report = Some(given);
                None
            }
        }
    }

    // Builds the report of a chain.
    fn rebuild(&mut self, chain: ChainedError, list: &[Node])
        requires { IsNone self.old.report }
        ensures { self.new.basket ≡ self.old.basket }
    {
        match chain.into_exn(&mut self.store, &DriveHost, list) {
            Ok(report) => {
                self.log.note(&self.store, Call::IntoExn, None);
                self.report = Some(report);
            }
            Err(Refusal { fault, given: _ }) => {
                self.log.note(&self.store, Call::IntoExn, Some(fault));
            }
        }
    }

    pub fn discard(&mut self)
        requires { IsSome self.old.report }
        ensures report { IsNone self.new.report }
        ensures basket { self.new.basket ≡ self.old.basket }
    {
        let report = self.report.take().unwrap();
        report.discard(&mut self.store).unwrap();
        self.log.note(&self.store, Call::Discard, None);
    }

    pub fn discard_all(&mut self)
        requires { IsSome self.old.basket }
        ensures report { self.new.report ≡ self.old.report }
        ensures basket { IsNone self.new.basket }
    {
        let basket = self.basket.take().unwrap();
        basket.discard(&mut self.store).unwrap();
        self.log.note(&self.store, Call::Discard, None);
    }
}
