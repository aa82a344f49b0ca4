ghost use Rattle.std.specs.Prelude.{◌≡◌, ℕ, Bool, Option, true, if◌then◌else◌, ok_or};
ghost use Rattle.vocabulary.specs.declared.kind.Kind.{Kind};
ghost use Rattle.layers.specs.EntryKinds.{Wraps};

use crate::entry::Foot;
use classes::class::NotNamed;
use vocabulary::kind::Kind;

// What the entries of a layer are.
pub trait EntryKind {
    // the kind that a number names
    ghost kind_at: { ℕ → Option Kind };

    // whether an entry has the text of the error that it is around, else an empty one
    ghost keeps_text: { Bool };

    // The kind that a number names; a number, as in `Layer::wrap`.
    fn kind(number: u8) -> Result<Kind, NotNamed>
        ensures { result ≡ ok_or (kind_at number) (record { 0 = number }) };

    // What an entry rests on, around an error that rests on `foot`.
    fn rest(foot: Foot) -> Foot
        ensures { result ≡ record { base = foot.base; silent = (if keeps_text then foot.silent else true) } };

    // Each kind that a number names may have a source.
    ghost wraps: { (n : ℕ) → Wraps (kind_at n) };
}
