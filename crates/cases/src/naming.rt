// What has a name in the format: the fixed words, the classes and the io kinds.
ghost use Rattle.std.specs.Prelude.{◌≡◌, ℕ, List, find};
ghost use Rattle.std.specs.Str.{bytes_eq};
ghost use Rattle.classes.specs.Class.{class_name};
ghost use Rattle.vocabulary.specs.IoKind.{io_name};
ghost use Rattle.cases.specs.Words.{word_text};

use crate::word::Word;
use classes::class::{Class, ResourceExhaustionKind};
use vocabulary::io_kind::IoKind;

pub trait Named: Copy {
    ghost spelled: { Self → List ℕ };

    fn text(self) -> &'static str
        ensures { result.now ≡ spelled self };
}

impl Named for Word {
    ghost spelled = { word_text };

    fn text(self) -> &'static str {
        Word::text(self)
    }
}

impl Named for Class {
    ghost spelled = { class_name };

    fn text(self) -> &'static str {
        self.name()
    }
}

impl Named for IoKind {
    ghost spelled = { io_name };

    fn text(self) -> &'static str {
        self.name()
    }
}

// The one of a table that has a name.
pub fn find_named<T: Named>(table: &[T], name: &[u8]) -> Option<T>
    ensures { result ≡ find (λ x. bytes_eq (T.spelled x) name.now) table.now }
{
    table.iter().copied().find(|x| x.text().as_bytes() == name)
}
