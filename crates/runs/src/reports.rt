// The reports of a session.
ghost use Rattle.std.specs.Prelude.{◌≡◌, ◌+◌, ◌<◌, ◌≤◌, ℕ, length, slice_set, vec_len, vec_capacity, Some, None, IfErr, OnOk};
ghost use Rattle.std.specs.Option.{option_copied};
ghost use Rattle.runs.specs.State.{and_named, named};
ghost use Rattle.runs.specs.declared.stop.Stop.TheVariants.{Refused};
ghost use Rattle.runs.specs.Tokens.{Vacant, found, lent, set_foreign, set_named};

use crate::call::Name;
use crate::stop::Stop;
use crate::table::Table;
use store::token::{Exn, Refusal};
use vocabulary::fault::StoreFault;

// What the names of reports stand for, a token of each report that is live, and one of another store.
pub(crate) struct Reports {
    pub(crate) names: Vec<Option<u16>>,
    pub(crate) table: Table<u16>,
    pub(crate) foreign: Option<Exn>,
}

impl Reports {
    // The token of what a name stands for, if its root is live.
    pub(crate) fn get(&self, name: Name) -> Option<&Exn>
        ensures { option_copied result ≡ lent self.now.names.items self.now.table.tokens.items self.now.foreign name }
    {
        match name {
            Name::Made(i) => self.table.get(self.names.get(i).copied().flatten()?),
            Name::Foreign => self.foreign.as_ref(),
        }
    }

    // Takes out the token of what a name stands for.
    pub(crate) fn take(&mut self, name: Name) -> Result<Exn, Stop>
        ensures token { result ≡ found self.old.names.items self.old.table.tokens.items self.old.foreign name }
        ensures names { self.new.names ≡ self.old.names }
        ensures tokens { self.new.table.tokens.items ≡ set_named self.old.names.items self.old.table.tokens.items name None }
        ensures foreign { self.new.foreign ≡ set_foreign self.old.foreign name None }
        ensures vacant { OnOk result (Vacant self.new.names.items self.new.table.tokens.items self.new.foreign name) }
    {
        let token = match name {
            Name::Made(i) => {
                let root = self.names.get(i).copied().flatten().ok_or(Stop::Missing)?;
                self.table.take(root)
            }
            Name::Foreign => self.foreign.take(),
        };
        token.ok_or(Stop::Refused(StoreFault::NotHeld))
    }

    // Puts the token of what a name stands for back in its place, and answers why it was handed back.
    pub(crate) fn give_back(&mut self, name: Name, refusal: Refusal<Exn>) -> Stop
        requires { Vacant self.old.names.items self.old.table.tokens.items self.old.foreign name }
        ensures stop { result ≡ Refused refusal.fault }
        ensures names { self.new.names ≡ self.old.names }
        ensures tokens { self.new.table.tokens.items ≡ set_named self.old.names.items self.old.table.tokens.items name (Some refusal.given) }
        ensures foreign { self.new.foreign ≡ set_foreign self.old.foreign name (Some refusal.given) }
    {
        let Refusal { fault, given } = refusal;
        match name {
            Name::Made(i) => {
                let root = self.names[i].unwrap();
                self.table.put(root, given);
            }
            Name::Foreign => self.foreign = Some(given),
        }
        Stop::Refused(fault)
    }

    // Names a new report, and answers its root.
    pub(crate) fn add(&mut self, report: Exn) -> u16
        requires room { vec_len self.old.names < vec_capacity self.old.names }
        requires within { report.root < 1024 }
        requires vacant { named self.old.table.tokens.items report.root ≡ None }
        ensures root { result ≡ report.root }
        ensures below { result < 1024 }
        ensures names { self.new.names.items ≡ and_named self.old.names.items report.root }
        ensures tokens { self.new.table.tokens.items ≡ slice_set self.old.table.tokens.items report.root (Some report) }
        ensures foreign { self.new.foreign ≡ self.old.foreign }
    {
        let root = report.root();
        self.table.put(root, report);
        self.names.push_reserved(Some(root));
        root
    }
}
