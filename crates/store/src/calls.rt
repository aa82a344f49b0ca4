// The building calls that reports and baskets share.
ghost use Rattle.std.specs.Prelude.{◌&&◌, None};
ghost use Rattle.vocabulary.specs.declared.frame_error.FrameError.TheVariants.{Host};
ghost use Rattle.ledger.specs.Causes.{frame_cause, held};
ghost use Rattle.store.specs.Calls.{Takes, TakesForNew, report_held, token_held};
ghost use Rattle.store.specs.Store.{ledger_of};

use crate::root::Root;
use crate::store::Store;
use crate::token::{Exn, Refusal, Token, accept, beside};
use host::host::Host;

impl Store {
    // A new root over the reports of a token.
    pub(crate) fn raise<H: Host, R: Root>(
        &mut self,
        host: &H,
        token: Token<R>,
        error: u16,
        place: u32,
    ) -> Result<Exn, Refusal<Token<R>>>
        ensures { TakesForNew self.old self.new
            (held (token_held R.live self.old token) (frame_cause (ledger_of self.old) (H.Host.errors host.now) error))
            (R.raised (ledger_of self.old) token.root (Host error) place) token result }
    {
        let token = accept(self.holds(&token), token)?;
        let (root, token) = beside(self.begin(host, error, place), token)?;
        token.spend().join(self, root);
        Ok(self.token(root))
    }

    // Makes the reports of a token the last children of a report's root.
    pub(crate) fn join<R: Root>(
        &mut self,
        onto: &Exn,
        token: Token<R>,
    ) -> Result<(), Refusal<Token<R>>>
        ensures { Takes self.old self.new
            (held (report_held self.old onto.now && token_held R.live self.old token && R.apart token.root onto.now.root) None)
            (R.joined (ledger_of self.old) onto.now.root token.root) token result }
    {
        let held = self.holds(onto) && self.holds(&token) && token.root.is_apart(onto.root);
        accept(held, token)?.spend().join(self, onto.root);
        Ok(())
    }

    // Frees the frames of the reports of a token.
    pub(crate) fn discard<R: Root>(&mut self, token: Token<R>) -> Result<(), Refusal<Token<R>>>
        ensures { Takes self.old self.new
            (held (token_held R.live self.old token) None)
            (R.discarded (ledger_of self.old) token.root) token result }
    {
        accept(self.holds(&token), token)?.spend().discard(self);
        Ok(())
    }
}
