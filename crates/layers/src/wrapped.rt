ghost use Rattle.std.specs.Prelude.{true};
ghost use Rattle.layers.specs.Layer.{io_error_kind};
ghost use Rattle.layers.specs.EntryKinds.{io_error_wraps};

use crate::entry::Foot;
use crate::entry_kind::EntryKind;
use crate::layer::Layer;
use classes::class::NotNamed;
use vocabulary::io_kind::IoKind;
use vocabulary::kind::Kind;

// Entries that are io errors, named by the number of their io kind; their text is their payload's.
pub struct IoErrors;

impl EntryKind for IoErrors {
    ghost kind_at = { io_error_kind };

    ghost keeps_text = { true };

    ghost wraps = { io_error_wraps };

    fn kind(number: u8) -> Result<Kind, NotNamed> {
        IoKind::try_from(number).map(Kind::Io)
    }

    fn rest(foot: Foot) -> Foot {
        foot
    }
}

// The io layer over any host: each entry has a payload of the host below or of the layer itself.
pub type Wrapped<H> = Layer<H, IoErrors>;
