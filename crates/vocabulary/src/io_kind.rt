ghost use Rattle.std.specs.Prelude.{◌≡◌, Some, ok_or};
ghost use Rattle.std.specs.Fmt.{styled_text};
ghost use Rattle.vocabulary.specs.IoKind.{io_kind_at, io_number, io_name, io_row};

use classes::class::{Class, NotNamed, ResourceExhaustionKind};
use std::fmt;

// The kind of an io error; `Other` stands for every kind that is not named.
#[derive(Clone, Copy, Debug, PartialEq, Eq)]
pub enum IoKind {
    Other,
    NotFound,
    PermissionDenied,
    Unsupported,
    OutOfMemory,
    Interrupted,
    TimedOut,
    UnexpectedEof,
    BrokenPipe,
    AddrInUse,
    ConnectionAborted,
    ConnectionReset,
    ConnectionRefused,
    WouldBlock,
    AlreadyExists,
    InvalidData,
}

// What an io error is by its kind alone: its class, and whether the two standard policies retry it. One table gives all
// three, as the project asks.
#[derive(Clone, Copy)]
pub struct IoRow {
    pub class: Option<Class>,
    pub retry: bool,
    pub lenient: bool,
}

const NO_MEMORY: Class = Class::ResourceExhaustion(ResourceExhaustionKind::AllocationFailure);

// The rows without a class, by the policies that retry them.
const NEVER: IoRow = IoRow {
    class: None,
    retry: false,
    lenient: false,
};

const LENIENTLY: IoRow = IoRow {
    class: None,
    retry: false,
    lenient: true,
};

const ALWAYS: IoRow = IoRow {
    class: None,
    retry: true,
    lenient: true,
};

// One row for each io kind, in the order of their numbers.
const IO_TABLE: [IoRow; 16] = [
    NEVER,
    IoRow {
        class: Some(Class::NotFound),
        ..NEVER
    },
    IoRow {
        class: Some(Class::PermissionDenied),
        ..NEVER
    },
    IoRow {
        class: Some(Class::Unsupported),
        ..NEVER
    },
    IoRow {
        class: Some(NO_MEMORY),
        ..LENIENTLY
    },
    ALWAYS,
    ALWAYS,
    LENIENTLY,
    LENIENTLY,
    LENIENTLY,
    LENIENTLY,
    LENIENTLY,
    LENIENTLY,
    NEVER,
    NEVER,
    NEVER,
];

impl IoKind {
    // The io kind's row of the table.
    pub fn row(self) -> IoRow
        ensures { result ≡ io_row (io_number self) }
    {
        IO_TABLE[self as usize]
    }

    // No `From`: `u8::from(kind)` would not say which number it is.
    pub fn number(self) -> u8
        ensures { result ≡ io_number self }
    {
        self as u8
    }

    // As `Class::name`, for lent buffers.
    pub fn name(self) -> &'static str
        ensures { result.now ≡ io_name self }
    {
        match self {
            IoKind::Other => "Other",
            IoKind::NotFound => "NotFound",
            IoKind::PermissionDenied => "PermissionDenied",
            IoKind::Unsupported => "Unsupported",
            IoKind::OutOfMemory => "OutOfMemory",
            IoKind::Interrupted => "Interrupted",
            IoKind::TimedOut => "TimedOut",
            IoKind::UnexpectedEof => "UnexpectedEof",
            IoKind::BrokenPipe => "BrokenPipe",
            IoKind::AddrInUse => "AddrInUse",
            IoKind::ConnectionAborted => "ConnectionAborted",
            IoKind::ConnectionReset => "ConnectionReset",
            IoKind::ConnectionRefused => "ConnectionRefused",
            IoKind::WouldBlock => "WouldBlock",
            IoKind::AlreadyExists => "AlreadyExists",
            IoKind::InvalidData => "InvalidData",
        }
    }
}

// The io kind of a number; no io kind has one above 15.
impl TryFrom<u8> for IoKind {
    type Error = NotNamed;

    ghost try_from_gives = { λ n r. r ≡ ok_or (io_kind_at n) (record { 0 = n }) };

    fn try_from(number: u8) -> Result<IoKind, NotNamed> {
        match number {
            0 => Ok(IoKind::Other),
            1 => Ok(IoKind::NotFound),
            2 => Ok(IoKind::PermissionDenied),
            3 => Ok(IoKind::Unsupported),
            4 => Ok(IoKind::OutOfMemory),
            5 => Ok(IoKind::Interrupted),
            6 => Ok(IoKind::TimedOut),
            7 => Ok(IoKind::UnexpectedEof),
            8 => Ok(IoKind::BrokenPipe),
            9 => Ok(IoKind::AddrInUse),
            10 => Ok(IoKind::ConnectionAborted),
            11 => Ok(IoKind::ConnectionReset),
            12 => Ok(IoKind::ConnectionRefused),
            13 => Ok(IoKind::WouldBlock),
            14 => Ok(IoKind::AlreadyExists),
            15 => Ok(IoKind::InvalidData),
            _ => Err(NotNamed(number)),
        }
    }
}

impl fmt::Display for IoKind {
    ghost output = { λ k. Some (io_name k) };

    ghost styled_output = { λ k s. Some (styled_text s (io_name k)) };

    fn fmt<W: fmt::Write>(&self, f: &mut fmt::Formatter<W>) -> fmt::Result {
        f.pad(self.name())
    }
}
