ghost use Rattle.std.specs.Prelude.{◌≡◌, Some, ok_or};
ghost use Rattle.std.specs.Fmt.{styled_text};
ghost use Rattle.vocabulary.specs.Kind.{kind_at, kind_name, kind_number, is_marker, sourceless, unnamed};

use crate::io_kind::IoKind;
use classes::class::{Class, NotNamed};
use std::fmt;

// What an error is: a plain error, a message with a class or none, a marker that only adds a class to the error that
// it marks, a failed reservation of memory, or an io error.
#[derive(Clone, Copy)]
pub enum Kind {
    Plain,
    Message(Option<Class>),
    ClassificationMarker(Class),
    TryReserveError,
    Io(IoKind),
}

impl Kind {
    // No `From`: a number alone does not give a message's class or an io kind back.
    pub fn number(self) -> u8
        ensures { result ≡ kind_number self }
    {
        match self {
            Kind::Plain => 0,
            Kind::Message(_) => 1,
            Kind::ClassificationMarker(_) => 2,
            Kind::TryReserveError => 3,
            Kind::Io(_) => 4,
        }
    }

    // As `Class::name`, for lent buffers.
    pub fn name(self) -> &'static str
        ensures { result.now ≡ kind_name self }
    {
        match self {
            Kind::Plain => "plain",
            Kind::Message(_) => "Message",
            Kind::ClassificationMarker(_) => "ClassificationMarker",
            Kind::TryReserveError => "TryReserveError",
            Kind::Io(_) => "io::Error",
        }
    }

    // Whether the kind is a marker, which says a class and is no diagnostic of its own.
    pub fn is_marker(self) -> bool
        ensures { result ≡ is_marker self }
    {
        matches!(self, Kind::ClassificationMarker(_))
    }

    // Whether errors of the kind never have a source.
    pub fn is_sourceless(self) -> bool
        ensures { result ≡ sourceless self }
    {
        matches!(self, Kind::Message(_) | Kind::TryReserveError)
    }
}

// The kind of a number, and of the detail beside it: the rank of a message (255 for no class) or of a marker, or the io
// kind. The detail is not looked at for the other kinds.
impl TryFrom<(u8, u8)> for Kind {
    type Error = NotNamed;

    ghost try_from_gives = { λ n r. r ≡ ok_or (kind_at n.0 n.1) (record { 0 = unnamed n.0 n.1 }) };

    fn try_from((number, detail): (u8, u8)) -> Result<Kind, NotNamed> {
        match number {
            0 => Ok(Kind::Plain),
            1 if detail == 255 => Ok(Kind::Message(None)),
            1 => Ok(Kind::Message(Some(Class::try_from(detail)?))),
            2 => Ok(Kind::ClassificationMarker(Class::try_from(detail)?)),
            3 => Ok(Kind::TryReserveError),
            4 => Ok(Kind::Io(IoKind::try_from(detail)?)),
            _ => Err(NotNamed(number)),
        }
    }
}

impl fmt::Display for Kind {
    ghost output = { λ k. Some (kind_name k) };

    ghost styled_output = { λ k s. Some (styled_text s (kind_name k)) };

    fn fmt<W: fmt::Write>(&self, f: &mut fmt::Formatter<W>) -> fmt::Result {
        f.pad(self.name())
    }
}
