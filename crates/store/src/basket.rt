// The building calls on baskets.
ghost use Rattle.std.specs.Prelude.{◌≡◌, false, None};
ghost use Rattle.store.specs.Calls.{Collected, DiscardedAll, Taken};

use crate::store::Store;
use crate::token::{Basket, Exn, Refusal, Token, accept};
use vocabulary::fault::StoreFault;

impl Store {
    // An empty basket.
    pub fn basket(&self) -> Basket
        ensures { result ≡ record { store = self.now.number; root = None; spent = false } }
    {
        self.token(None)
    }
}

impl Token<Option<u16>> {
    // Puts a report at the end.
    pub fn collect(&mut self, store: &mut Store, report: Exn) -> Result<(), Refusal<Exn>>
        ensures { Collected store.old store.new self.old self.new report result }
    {
        let report = accept(store.holds(self) && store.holds(&report), report)?;
        self.root = Some(store.push(self.root, report.spend()));
        Ok(())
    }

    // The first report, or none from an empty basket.
    pub fn take(&mut self, store: &mut Store) -> Result<Option<Exn>, StoreFault>
        ensures { Taken store.old store.new self.old self.new result }
    {
        let Some(first) = store.root(self)? else {
            return Ok(None);
        };
        self.root = store.pop(first);
        Ok(Some(store.token(first)))
    }

    // Frees the frames of all reports in the basket.
    pub fn discard(self, store: &mut Store) -> Result<(), Refusal<Basket>>
        ensures { DiscardedAll store.old store.new self result }
    {
        store.discard(self)
    }
}
