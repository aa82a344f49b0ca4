// The building calls on reports. Each takes store, host, error and place one by one, and so do the calls beneath it: a
// struct of them would be built at each call and read once.
ghost use Rattle.std.specs.Prelude.{◌≡◌};
ghost use Rattle.store.specs.Calls.{Chained, ChainedAll, Discarded, Drained, Made, Raised, RaisedAll};

use crate::store::Store;
use crate::token::{Basket, Exn, Refusal, Token};
use host::host::Host;
use vocabulary::fault::StoreFault;

impl Token<u16> {
    // A report of one frame.
    pub fn new<H: Host>(
        store: &mut Store,
        host: &H,
        error: u16,
        place: u32,
    ) -> Result<Exn, StoreFault>
        ensures { Made store.old store.new (H.Host.errors host.now) error place result }
    {
        let root = store.begin(host, error, place)?;
        Ok(store.token(root))
    }

    // A new root over the report.
    pub fn raise<H: Host>(
        self,
        store: &mut Store,
        host: &H,
        error: u16,
        place: u32,
    ) -> Result<Exn, Refusal<Exn>>
        ensures { Raised store.old store.new (H.Host.errors host.now) self error place result }
    {
        store.raise(host, self, error, place)
    }

    // A new root over all reports of a basket, in their order; over an empty one as `new`.
    pub fn raise_all<H: Host>(
        store: &mut Store,
        host: &H,
        basket: Basket,
        error: u16,
        place: u32,
    ) -> Result<Exn, Refusal<Basket>>
        ensures { RaisedAll store.old store.new (H.Host.errors host.now) basket error place result }
    {
        store.raise(host, basket, error, place)
    }

    // Makes a second report the last child of this one's root.
    pub fn chain(&self, store: &mut Store, other: Exn) -> Result<(), Refusal<Exn>>
        ensures { Chained store.old store.new self.now other result }
    {
        store.join(self, other)
    }

    // Makes all reports of a basket, in their order, the last children of this report's root.
    pub fn chain_all(&self, store: &mut Store, basket: Basket) -> Result<(), Refusal<Basket>>
        ensures { ChainedAll store.old store.new self.now basket result }
    {
        store.join(self, basket)
    }

    // Moves the root's children, in order, into a fresh basket; a leaf gives an empty one.
    pub fn drain_children(&self, store: &mut Store) -> Result<Basket, StoreFault>
        ensures { Drained store.old store.new self.now result }
    {
        let root = store.root(self)?;
        let head = store.frames.drain(root);
        Ok(store.token(head))
    }

    // The root, by which it is known.
    pub fn root(&self) -> u16
        ensures { result ≡ self.now.root }
    {
        self.root
    }

    // Frees the frames of the report.
    pub fn discard(self, store: &mut Store) -> Result<(), Refusal<Exn>>
        ensures { Discarded store.old store.new self result }
    {
        store.discard(self)
    }
}
