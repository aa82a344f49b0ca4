// Reports and baskets as moved values, and the calls that turn them down.
ghost use Rattle.std.specs.Prelude.{◌≡◌, true, cond, Ok, Err};
ghost use Rattle.store.specs.Accepted.{beside as made_beside, not_held};

use vocabulary::fault::StoreFault;

// Reports of a store, known by a root. It has to end in a join, a flattening or a discard: only there is it `spent`, and
// no other may be dropped.
pub struct Token<R: Copy> {
    pub(crate) store: u32,
    pub(crate) root: R,
    pub(crate) spent: bool,
}

// A report, known by the root frame of its tree.
pub type Exn = Token<u16>;

// An ordered row of reports, known by the root of the first; an empty one has none.
pub type Basket = Token<Option<u16>>;

impl<R: Copy> Drop for Token<R> {
    fn drop(self)
        requires { self.spent ≡ true }
    {
        let Token {
            store: _,
            root: _,
            spent: _,
        } = self;
    }
}

impl<R: Copy> Token<R> {
    // The root, for the call that the token ends in.
    pub(crate) fn spend(mut self) -> R
        ensures { result ≡ self.root }
    {
        self.spent = true;
        self.root
    }
}

// A call that was turned down, with what was handed in.
pub struct Refusal<T> {
    pub fault: StoreFault,
    pub given: T,
}

// What is handed in, if its store holds it.
pub(crate) fn accept<T>(held: bool, given: T) -> Result<T, Refusal<T>>
    ensures { result ≡ cond held (Ok given) (Err (not_held given)) }
{
    if held {
        Ok(given)
    } else {
        Err(Refusal {
            fault: StoreFault::NotHeld,
            given,
        })
    }
}

// What was made beside what was handed in, which a fault hands back. Each arm moves it, so `map_err` does not serve.
pub(crate) fn beside<A, T>(made: Result<A, StoreFault>, given: T) -> Result<(A, T), Refusal<T>>
    ensures { result ≡ made_beside made given }
{
    match made {
        Ok(a) => Ok((a, given)),
        Err(fault) => Err(Refusal { fault, given }),
    }
}
