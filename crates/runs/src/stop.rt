// Why a call is answered early.
ghost use Rattle.std.specs.Prelude.{◌≡◌};
ghost use Rattle.runs.specs.declared.stop.Stop.TheVariants.{Memory, Refused};

use std::alloc::AllocError;
use vocabulary::fault::StoreFault;

#[derive(Clone, Copy)]
pub(crate) enum Stop {
    // there is no memory
    Memory,
    // what the call names is not there
    Missing,
    // the call is turned down
    Refused(StoreFault),
}

impl From<AllocError> for Stop {
    ghost from_gives = { λ f r. r ≡ Memory };

    fn from(_error: AllocError) -> Stop {
        Stop::Memory
    }
}

impl From<StoreFault> for Stop {
    ghost from_gives = { λ f r. r ≡ Refused f };

    fn from(fault: StoreFault) -> Stop {
        Stop::Refused(fault)
    }
}
