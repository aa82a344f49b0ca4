ghost use Rattle.std.specs.Prelude.{◌≡◌, ℕ, [], false};
ghost use Rattle.arrayvec.specs.ArrayVec.{array_vec_len};
ghost use Rattle.layers.specs.Entries.{layered};
ghost use Rattle.layers.specs.Layer.{count_after, gained, marker_kind, wrap_answer};
ghost use Rattle.layers.specs.EntryKinds.{marker_wraps};

use crate::entry::Foot;
use crate::entry_kind::EntryKind;
use crate::layer::Layer;
use classes::class::{Class, NotNamed};
use host::host::Host;
use vocabulary::fault::LayerFault;
use vocabulary::kind::Kind;

// Entries that are markers, named by their rank; their text is empty.
pub struct Markers;

impl EntryKind for Markers {
    ghost kind_at = { marker_kind };

    ghost keeps_text = { false };

    ghost wraps = { marker_wraps };

    fn kind(rank: u8) -> Result<Kind, NotNamed> {
        Class::try_from(rank).map(Kind::ClassificationMarker)
    }

    fn rest(foot: Foot) -> Foot {
        Foot {
            silent: true,
            ..foot
        }
    }
}

// The marker layer over any host.
pub type Marked<H> = Layer<H, Markers>;

impl<H: Host> Layer<H, Markers> {
    // A marker of a rank around an error; its text is empty.
    pub fn mark(&mut self, error: u16, rank: u8) -> Result<u16, LayerFault>
        ensures answered { result ≡ wrap_answer (layered (H.Host.errors self.old.lower) self.old.entries error) error (marker_kind rank) rank self.old.entries }
        ensures errors { (e : ℕ) → layered (H.Host.errors self.new.lower) self.new.entries e ≡ gained (layered (H.Host.errors self.old.lower) self.old.entries) (marker_kind rank) [] error result e }
        ensures counted { array_vec_len self.new.entries.items ≡ count_after (array_vec_len self.old.entries.items) result }
        ensures spans { self.new.entries.below ≡ self.old.entries.below }
        ensures lower { self.new.lower ≡ self.old.lower }
    {
        self.wrap(error, rank)
    }
}
