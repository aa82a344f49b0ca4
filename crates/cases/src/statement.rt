use crate::call::Call;
use arrayvec::ArrayVec;
use classes::class::Class;
use vocabulary::io_kind::IoKind;
use vocabulary::kind::Kind;

// The text of an error, at most 255 bytes.
pub type Text = ArrayVec<u8, 255>;

#[derive(Clone, Copy, PartialEq, Eq)]
pub enum HostName {
    Table,
    Drive,
}

#[derive(Clone, Copy, PartialEq, Eq)]
pub enum LayerName {
    Marker,
    Io,
}

// An error of a table. A message and a failed reservation have no source.
#[derive(Drop)]
pub struct Record {
    pub kind: Kind,
    pub source: Option<u16>,
    pub text: Text,
}

// What a line of a case says, behind the line that names the case.
#[derive(Drop)]
pub enum Statement {
    Host(HostName),
    Error {
        number: u16,
        record: Record,
    },
    Layer(LayerName),
    Mark {
        error: u16,
        class: Class,
        number: u16,
    },
    Wrap {
        error: u16,
        kind: IoKind,
        number: u16,
    },
    Call(Call),
    Ask(u16),
}
