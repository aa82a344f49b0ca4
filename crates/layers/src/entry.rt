ghost use Rattle.std.specs.Prelude.{◌≡◌};
ghost use Rattle.layers.specs.Entries.{unmade};

use vocabulary::kind::Kind;

// What an error of a layer rests on in the host below.
#[derive(Clone, Copy)]
pub struct Foot {
    // the error of the host below in which its sources end: also where the text is empty, an entry is live while this is
    pub base: u16,
    // whether its text is empty; else it is that of `base`
    pub silent: bool,
}

// An error that a layer made around another.
#[derive(Clone, Copy)]
pub struct Entry {
    pub error: u16,
    pub kind: Kind,
    pub foot: Foot,
}

// What a layer has in a place where no entry was made yet. By hand, since no kind is the default one.
impl Default for Entry {
    ghost is_default = { λ x. x ≡ unmade };

    fn default() -> Entry {
        Entry {
            error: 0,
            kind: Kind::Plain,
            foot: Foot {
                base: 0,
                silent: true,
            },
        }
    }
}
