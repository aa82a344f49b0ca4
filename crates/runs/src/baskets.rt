// The baskets of a session.
ghost use Rattle.std.specs.Prelude.{◌≡◌, ◌<◌, ℕ, vec_len, vec_capacity, Some, None, OnErr, IfSome};
ghost use Rattle.model.specs.Host.{Errors};
ghost use Rattle.runs.specs.State.{and_named};
ghost use Rattle.runs.specs.declared.stop.Stop.TheVariants.{Refused};
ghost use Rattle.runs.specs.Tokens.{Same, Stood, VacantRow, found_basket, number_of, set_basket, set_row};

use crate::call::Name;
use crate::stop::Stop;
use crate::table::Table;
use store::store::Store;
use store::token::{Basket, Refusal};
use vocabulary::fault::StoreFault;

// What the names of baskets stand for, and a token of each row. An empty basket has no row: its token is made as a call
// needs it.
pub(crate) struct Baskets {
    pub(crate) names: Vec<Option<Option<u16>>>,
    pub(crate) table: Table<Option<u16>>,
}

impl Baskets {
    // Takes out the token of what a name stands for.
    pub(crate) fn take(&mut self, name: Name, store: &Store, other: &Store) -> Result<Basket, Stop>
        ensures token { result ≡ found_basket store.now.number other.now.number self.old.names.items self.old.table.tokens.items name }
        ensures names { self.new.names ≡ self.old.names }
        ensures tokens { self.new.table.tokens.items ≡ set_basket self.old.names.items self.old.table.tokens.items name None }
        ensures missed { OnErr result (self.new.table.tokens.items ≡ self.old.table.tokens.items) }
    {
        let Name::Made(i) = name else {
            return Ok(other.basket());
        };
        let head = self.names.get(i).copied().flatten().ok_or(Stop::Missing)?;
        match head {
            None => Ok(store.basket()),
            Some(head) => self
                .table
                .take(head)
                .ok_or(Stop::Refused(StoreFault::NotHeld)),
        }
    }

    // Puts a token in its place; that of an empty basket goes.
    pub(crate) fn put(&mut self, store: &mut Store, basket: Basket)
        requires number { basket.store ≡ store.old.number }
        requires vacant { VacantRow self.old.table.tokens.items basket.root }
        ensures below { IfSome basket.root (λ n. n < 1024) }
        ensures names { self.new.names ≡ self.old.names }
        ensures tokens { self.new.table.tokens.items ≡ set_row self.old.table.tokens.items basket.root (Some basket) }
        ensures same { Same store.old store.new }
        ensures stands { (h : Errors) → Stood h store.old → Stood h store.new }
    {
        match basket.first() {
            None => basket.discard(store).unwrap(),
            Some(head) => self.table.put(head, basket),
        }
    }

    // Names a new basket, and answers the root of its first report.
    pub(crate) fn add(&mut self, store: &mut Store, basket: Basket) -> Option<u16>
        requires room { vec_len self.old.names < vec_capacity self.old.names }
        requires number { basket.store ≡ store.old.number }
        requires vacant { VacantRow self.old.table.tokens.items basket.root }
        ensures root { result ≡ basket.root }
        ensures below { IfSome result (λ n. n < 1024) }
        ensures names { self.new.names.items ≡ and_named self.old.names.items basket.root }
        ensures tokens { self.new.table.tokens.items ≡ set_row self.old.table.tokens.items basket.root (Some basket) }
        ensures same { Same store.old store.new }
        ensures stands { (h : Errors) → Stood h store.old → Stood h store.new }
    {
        let head = basket.first();
        self.put(store, basket);
        self.names.push_reserved(Some(head));
        head
    }

    // Puts the token of what a name stands for back in its place.
    pub(crate) fn put_back(
        &mut self,
        name: Name,
        basket: Basket,
        store: &mut Store,
        other: &mut Store,
    )
        requires number { basket.store ≡ number_of store.old.number other.old.number name }
        requires vacant { VacantRow self.old.table.tokens.items basket.root }
        ensures names { self.new.names ≡ self.old.names }
        ensures tokens { self.new.table.tokens.items ≡ set_row self.old.table.tokens.items basket.root (Some basket) }
        ensures same { Same store.old store.new }
        ensures stands { (h : Errors) → Stood h store.old → Stood h store.new }
        ensures other { Same other.old other.new }
    {
        match name {
            Name::Made(_) => self.put(store, basket),
            Name::Foreign => self.put(other, basket),
        }
    }

    // The same, and answers why it was handed back.
    pub(crate) fn give_back(
        &mut self,
        name: Name,
        refusal: Refusal<Basket>,
        store: &mut Store,
        other: &mut Store,
    ) -> Stop
        requires number { refusal.given.store ≡ number_of store.old.number other.old.number name }
        requires vacant { VacantRow self.old.table.tokens.items refusal.given.root }
        ensures stop { result ≡ Refused refusal.fault }
        ensures names { self.new.names ≡ self.old.names }
        ensures tokens { self.new.table.tokens.items ≡ set_row self.old.table.tokens.items refusal.given.root (Some refusal.given) }
        ensures same { Same store.old store.new }
        ensures stands { (h : Errors) → Stood h store.old → Stood h store.new }
        ensures other { Same other.old other.new }
    {
        let Refusal { fault, given } = refusal;
        self.put_back(name, given, store, other);
        Stop::Refused(fault)
    }
}
