// What a token is known by: the root of a report, or that of a row's first report, if it has one.
ghost use Rattle.std.specs.Prelude.{◌≡◌, ℕ, Bool, true, Some, None};
ghost use Rattle.vocabulary.specs.declared.frame_error.FrameError.{FrameError};
ghost use Rattle.ledger.specs.Causes.{is_row};
ghost use Rattle.ledger.specs.Ledger.{Ledger, chained, chained_all, discarded as without_report, discarded_all as without_row, raised as raised_one, raised_all};
ghost use Rattle.store.specs.Roots.{Raises, differ, is_report};
ghost use Rattle.store.specs.Raises.{report_raises, row_raises};
ghost use Rattle.store.specs.Store.{ledger_of, Became};

use crate::store::Store;
use crate::token::Token;

pub(crate) trait Root: Copy {
    // Whether a ledger has its reports.
    ghost live: { Ledger → Self → Bool };

    // Whether it is not the report of a root.
    ghost apart: { Self → ℕ → Bool };

    // A ledger where its reports are the last children of a root.
    ghost joined: { Ledger → ℕ → Self → Ledger };

    // A ledger where a new root is over its reports.
    ghost raised: { Ledger → Self → FrameError → ℕ → ℕ → Ledger };

    // A ledger without its reports.
    ghost discarded: { Ledger → Self → Ledger };

    fn is_live(self, store: &Store) -> bool
        ensures { result ≡ live (ledger_of store.now) self };

    fn is_apart(self, root: u16) -> bool
        ensures { result ≡ apart self root };

    // Makes its reports the last children of a report's root.
    fn join(self, store: &mut Store, root: u16)
        requires onto { is_report (ledger_of store.old) root ≡ true }
        requires held { live (ledger_of store.old) self ≡ true }
        requires differs { apart self root ≡ true }
        ensures { Became store.old store.new (joined (ledger_of store.old) root self) };

    // Frees the frames of its reports.
    fn discard(self, store: &mut Store)
        requires { live (ledger_of store.old) self ≡ true }
        ensures { Became store.old store.new (discarded (ledger_of store.old) self) };

    // A new root of one frame that they are joined to is over them.
    ghost raises: { Raises live apart joined raised };
}

impl Root for u16 {
    ghost live = { is_report };

    ghost apart = { differ };

    ghost joined = { chained };

    ghost raised = { raised_one };

    ghost discarded = { without_report };

    ghost raises = { report_raises };

    fn is_live(self, store: &Store) -> bool {
        store.frames.is_report(self)
    }

    fn is_apart(self, root: u16) -> bool {
        root != self
    }

    fn join(self, store: &mut Store, root: u16) {
        store.frames.join(root, self);
    }

    fn discard(self, store: &mut Store) {
        store.frames.discard(self);
    }
}

impl Root for Option<u16> {
    ghost live = { is_row };

    ghost apart = { λ b x. true };

    ghost joined = { chained_all };

    ghost raised = { raised_all };

    ghost discarded = { without_row };

    ghost raises = { row_raises };

    fn is_live(self, store: &Store) -> bool {
        self.is_none_or(|head| store.frames.is_row(head))
    }

    fn is_apart(self, _root: u16) -> bool {
        true
    }

    fn join(self, store: &mut Store, root: u16) {
        if let Some(head) = self {
            store.frames.join_row(root, head);
        }
    }

    fn discard(self, store: &mut Store) {
        if let Some(head) = self {
            store.frames.discard_row(head);
        }
    }
}

impl Token<Option<u16>> {
    // The root of the first report, by which the basket is known.
    pub fn first(&self) -> Option<u16>
        ensures { result ≡ self.now.root }
    {
        self.root
    }
}
