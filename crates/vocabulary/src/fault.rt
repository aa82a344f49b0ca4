ghost use Rattle.std.specs.Prelude.{◌≡◌};
ghost use Rattle.vocabulary.specs.declared.fault.LayerFault.TheVariants.{Host, NotNamed as Unnamed};
ghost use Rattle.vocabulary.specs.declared.fault.StoreFault.TheVariants.{Host as Handed};
ghost use Rattle.vocabulary.specs.declared.fault.PrintFault.TheVariants.{Host as Raised};
ghost use Rattle.vocabulary.specs.Refusal.{host_fault_number, layer_fault_number, print_fault_number, print_fault_of, store_fault_number};

use classes::class::NotNamed;

// Why a host turns a question down.
#[derive(Clone, Copy, Debug, PartialEq, Eq)]
pub enum HostFault {
    // the error of this number is not live
    NotLive(u16),
    // the part to fill is too short for the text, which has so many bytes
    TextTooLong(usize),
}

impl HostFault {
    // The number by which the refusal is documented; no `From`, as the fault has another number of its own beside it.
    pub fn number(self) -> u8
        ensures { result ≡ host_fault_number self }
    {
        match self {
            HostFault::NotLive(_) => 1,
            HostFault::TextTooLong(_) => 6,
        }
    }
}

// Why a layer does not wrap an error.
#[derive(Clone, Copy, Debug, PartialEq, Eq)]
pub enum LayerFault {
    // the host turned the question down
    Host(HostFault),
    // no class or no io kind has this number
    NotNamed(u8),
    // the layer has so many entries, and no room or no number for one more
    Full(u8),
}

impl LayerFault {
    // As `HostFault::number`.
    pub fn number(self) -> u8
        ensures { result ≡ layer_fault_number self }
    {
        match self {
            LayerFault::Host(fault) => fault.number(),
            LayerFault::NotNamed(_) => 7,
            LayerFault::Full(_) => 8,
        }
    }
}

impl From<NotNamed> for LayerFault {
    ghost from_gives = { λ e r. r ≡ Unnamed e.0 };

    fn from(unnamed: NotNamed) -> LayerFault {
        LayerFault::NotNamed(unnamed.0)
    }
}

impl From<HostFault> for LayerFault {
    ghost from_gives = { λ f r. r ≡ Host f };

    fn from(host_fault: HostFault) -> LayerFault {
        LayerFault::Host(host_fault)
    }
}

// Why a call on a store is turned down.
#[derive(Clone, Copy, Debug, PartialEq, Eq)]
pub enum StoreFault {
    // a report or basket is another store's, its root is not live, or two have the same root
    NotHeld,
    // the host turned the question down
    Host(HostFault),
    // fewer frames are free than the call needs, which is this number
    NoFrames(usize),
    // the list is too short for the nodes, which are so many
    ListTooShort(usize),
    // the list is no flattening, and this is the first index that shows it
    NotFlattening(usize),
}

impl StoreFault {
    // As `HostFault::number`.
    pub fn number(self) -> u8
        ensures { result ≡ store_fault_number self }
    {
        match self {
            StoreFault::NotHeld => 3,
            StoreFault::Host(fault) => fault.number(),
            StoreFault::NoFrames(_) => 2,
            StoreFault::ListTooShort(_) => 4,
            StoreFault::NotFlattening(_) => 5,
        }
    }
}

impl From<HostFault> for StoreFault {
    ghost from_gives = { λ f r. r ≡ Handed f };

    fn from(refused: HostFault) -> StoreFault {
        StoreFault::Host(refused)
    }
}

// Why a print is turned down.
#[derive(Clone, Copy, Debug, PartialEq, Eq)]
pub enum PrintFault {
    // the host turned the question down
    Host(HostFault),
    // as a call on the store or a chain, by anything but the host
    Store(StoreFault),
    // the buffer is too short for the print, which has so many bytes
    BufferTooShort(usize),
}

impl PrintFault {
    // As `HostFault::number`.
    pub fn number(self) -> u8
        ensures { result ≡ print_fault_number self }
    {
        match self {
            PrintFault::Host(fault) => fault.number(),
            PrintFault::Store(fault) => fault.number(),
            PrintFault::BufferTooShort(_) => 6,
        }
    }
}

impl From<HostFault> for PrintFault {
    ghost from_gives = { λ f r. r ≡ Raised f };

    fn from(refused: HostFault) -> PrintFault {
        PrintFault::Host(refused)
    }
}

// A host's refusal stays a host's.
impl From<StoreFault> for PrintFault {
    ghost from_gives = { λ f r. r ≡ print_fault_of f };

    fn from(refused: StoreFault) -> PrintFault {
        match refused {
            StoreFault::Host(fault) => PrintFault::Host(fault),
            _ => PrintFault::Store(refused),
        }
    }
}
