ghost use Rattle.std.specs.Prelude.{◌≡◌, []};
ghost use Rattle.layers.specs.Entries.{entry_of, foot_of, pushed, room_for};

use crate::entry::{Entry, Foot};
use arrayvec::ArrayVec;
use vocabulary::fault::LayerFault;

// The entries of a layer over a host whose span is `below`, in fixed memory: nothing allocates while a failure is
// reported.
#[derive(Drop)]
pub struct Entries {
    below: u32,
    items: ArrayVec<Entry, 64>,
}

impl Entries {
    // No entries yet.
    pub(crate) fn new(below: u32) -> Entries
        ensures { result ≡ record { below = below; items = record { items = [] } } }
    {
        Entries {
            below,
            items: ArrayVec::new(),
        }
    }

    pub(crate) fn below(&self) -> u32
        ensures { result ≡ self.now.below }
    {
        self.below
    }

    // The entry of a number, none where the number is the host's below or no entry's.
    pub(crate) fn get(&self, error: u16) -> Option<Entry>
        ensures { result ≡ entry_of self.now error }
    {
        let index = usize::from(error).checked_sub(self.below as usize)?;
        self.items.get(index).copied()
    }

    // What an error of the layer rests on.
    pub(crate) fn foot(&self, error: u16) -> Foot
        ensures { result ≡ foot_of self.now error }
    {
        let passed = Foot {
            base: error,
            silent: false,
        };
        self.get(error).map_or(passed, |entry| entry.foot)
    }

    // One entry more, where there is room.
    pub(crate) fn push(&mut self, entry: Entry) -> Result<u16, LayerFault>
        ensures answered { result ≡ room_for self.old }
        ensures pushed { self.new ≡ pushed self.old entry }
    {
        let full = LayerFault::Full(self.items.len() as u8);
        let number = self.below as usize + self.items.len();
        let number = u16::try_from(number).map_err(|_| full)?;
        self.items.try_push(entry).map_err(|_| full)?;
        Ok(number)
    }
}
