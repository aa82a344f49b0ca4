ghost use Rattle.std.specs.Prelude.{◌≡◌, true, false, cond, is_some, Some, Ok, Err};
ghost use Rattle.vocabulary.specs.declared.fault.StoreFault.TheVariants.{NotHeld};
ghost use Rattle.layout.specs.Invariant.{WellFormed};
ghost use Rattle.ledger.specs.Causes.{is_row};
ghost use Rattle.model.specs.Host.{Errors};
ghost use Rattle.ledger.specs.Ledger.{Ledger, Known, collected, first_of, first_root, free as free_in, nothing, rest_of, row_of, taken};
ghost use Rattle.store.specs.Calls.{FrameMade, held_root, token_held};
ghost use Rattle.store.specs.Reached.{Reached, Stands};
ghost use Rattle.store.specs.Roots.{is_report};
ghost use Rattle.store.specs.Store.{ledger_of, Became, Holds};

use crate::root::Root;
use crate::token::{Exn, Token};
use frames::store::Frames;
use host::host::Host;
use vocabulary::fault::StoreFault;
use vocabulary::frame_error::FrameError;

// 1,024 frames and a number by which its reports and baskets know it.
#[derive(Drop)]
pub struct Store {
    pub(crate) number: u32,
    pub(crate) frames: Frames,
}

impl Store {
    // A store without reports. No two stores in use may share a number: that is the program's to see to.
    pub fn new(number: u32) -> Store
        ensures number { result.number ≡ number }
        ensures empty { Holds result nothing }
    {
        Store {
            number,
            frames: Frames::new(),
        }
    }

    // How many frames are free: 1,024 less the frames of all trees.
    pub fn free(&self) -> usize
        ensures { result ≡ free_in (ledger_of self.now) }
    {
        self.frames.free()
    }

    // Does nothing: its contract says of the links of every store's frames that each frame is free or belongs to exactly
    // one report, and that no frame is its own ancestor; and of a store that calls have led to, that it holds what the
    // ledger of their arguments and answers says, with all errors there live.
    #[tactic(auto, using(crate::proofs::Reached::stands))]
    pub fn well_formed(&self)
        ensures links { WellFormed self.now.frames.frames self.now.frames.free }
        ensures reached { (h : Errors) (l : Ledger) → Reached h self.now l → Stands h self.now l }
    {
        self.frames.well_formed();
    }

    // The frames, for those that go through reports.
    pub fn frames(&self) -> &Frames
        ensures { result.now ≡ self.now.frames }
    {
        &self.frames
    }

    // The root of a report, which has to be this store's, and live.
    pub fn root_of(&self, report: &Exn) -> Result<u16, StoreFault>
        ensures { result ≡ held_root self.now report.now }
    {
        self.root(report)
    }

    // A token of this store.
    pub(crate) fn token<R: Copy>(&self, root: R) -> Token<R>
        ensures { result ≡ record { store = self.now.number; root = root; spent = false } }
    {
        Token {
            store: self.number,
            root,
            spent: false,
        }
    }

    // Whether a token is this store's, and live.
    pub(crate) fn holds<R: Root>(&self, token: &Token<R>) -> bool
        ensures { result ≡ token_held R.live self.now token.now }
    {
        token.store == self.number && token.root.is_live(self)
    }

    // The root of a token, which has to be this store's, and live.
    pub(crate) fn root<R: Root>(&self, token: &Token<R>) -> Result<R, StoreFault>
        ensures { result ≡ cond (token_held R.live self.now token.now) (Ok token.now.root) (Err NotHeld) }
    {
        self.holds(token)
            .then_some(token.root)
            .ok_or(StoreFault::NotHeld)
    }

    // A new frame for an error of the host.
    #[tactic(auto, using(crate::proofs::Rows::begins_as))]
    pub(crate) fn begin<H: Host>(
        &mut self,
        host: &H,
        error: u16,
        place: u32,
    ) -> Result<u16, StoreFault>
        ensures { FrameMade self.old self.new (H.Host.errors host.now) error place result }
    {
        host.kind(error)?;
        self.frames
            .begin(FrameError::Host(error), place)
            .ok_or(StoreFault::NoFrames(1))
    }

    // Puts a report at the end of a basket's row, and answers the root of the row's first report.
    #[tactic(auto, using(crate::proofs::Rows::basket_row, crate::proofs::Rows::collects_as, crate::proofs::Rows::collects_first))]
    pub(crate) fn push(&mut self, head: Option<u16>, root: u16) -> u16
        requires begun { is_row (ledger_of self.old) head ≡ true }
        requires live { is_report (ledger_of self.old) root ≡ true }
        ensures became { Became self.old self.new (collected (ledger_of self.old) head root) }
        ensures first { result ≡ first_root head root }
    {
        self.frames.append(head, root)
    }

    // Takes the first report out of a row, and answers the root of the next.
    #[tactic(auto, using(crate::proofs::Rows::basket_row, crate::proofs::Rows::takes_as, crate::proofs::Rows::takes_tree, crate::proofs::Rows::takes_alone, crate::proofs::Rows::takes_known))]
    pub(crate) fn pop(&mut self, head: u16) -> Option<u16>
        requires { is_row (ledger_of self.old) (Some head) ≡ true }
        ensures became { Became self.old self.new (taken (ledger_of self.old) head result) }
        ensures tree { is_some (first_of (row_of (ledger_of self.old) (Some head))) ≡ true }
        ensures alone { (ledger_of self.old).reports head ≡ None }
        ensures known { Known (ledger_of self.old) (rest_of (row_of (ledger_of self.old) (Some head))) result }
    {
        self.frames.pop(head)
    }
}
