ghost use Rattle.std.specs.Prelude.{◌≡◌};
ghost use Rattle.script_runs.specs.Steps.{line_fault_number};
ghost use Rattle.script_runs.specs.declared.fault.LineFault.TheVariants.{Store as Unmade};

use vocabulary::fault::StoreFault;

// Why a line is refused.
#[derive(Clone, Copy, Debug, PartialEq, Eq)]
pub enum LineFault {
    // it is not spelled as a line is
    NotRead,
    // it needs more reports than the basket has
    TooFew,
    // the store turned the call down
    Store(StoreFault),
}

impl LineFault {
    // The number by which the refusal is documented.
    pub fn number(self) -> u8
        ensures { result ≡ line_fault_number self }
    {
        match self {
            LineFault::NotRead | LineFault::TooFew => 10,
            LineFault::Store(fault) => fault.number(),
        }
    }
}

impl From<StoreFault> for LineFault {
    ghost from_gives = { λ f r. r ≡ Unmade f };

    fn from(fault: StoreFault) -> LineFault {
        LineFault::Store(fault)
    }
}

// The line that ends a run, counted from 1, and why it is refused. A script that is too long has the line 0.
#[derive(Clone, Copy, Debug, PartialEq, Eq)]
pub struct ScriptFault {
    pub line: usize,
    pub fault: LineFault,
}
