ghost use Rattle.std.specs.Prelude.{◌≡◌};
ghost use Rattle.layout.specs.Layout.{is_report, is_row, last_root, row_role, row_size};

use vocabulary::frame_error::FrameError;

// What a frame begins.
#[derive(Clone, Copy)]
pub enum Role {
    // nothing: it is free, or another frame links to it
    Linked,
    // a report, as its root
    Report,
    // a row of reports, as the root of the first: the root of the last, and the number of frames of the row
    Row { last: u16, size: u16 },
}

impl Role {
    // The role of the first root of a row, if there is a last one.
    pub fn of_row(last: Option<u16>, size: u16) -> Role
        ensures { result ≡ row_role last size }
    {
        last.map_or(Role::Linked, |last| Role::Row { last, size })
    }

    // Whether it is that of a report.
    pub fn is_report(self) -> bool
        ensures { result ≡ is_report self }
    {
        matches!(self, Role::Report)
    }

    // Whether it is that of a row.
    pub fn is_row(self) -> bool
        ensures { result ≡ is_row self }
    {
        matches!(self, Role::Row { .. })
    }

    // The root of the last report of a row.
    pub fn last_root(self) -> Option<u16>
        ensures { result ≡ last_root self }
    {
        match self {
            Role::Row { last, .. } => Some(last),
            _ => None,
        }
    }

    // The number of frames of a row.
    pub fn row_size(self) -> u16
        ensures { result ≡ row_size self }
    {
        match self {
            Role::Row { size, .. } => size,
            _ => 0,
        }
    }
}

// One place of the store.
#[derive(Clone, Copy)]
pub struct Frame {
    pub error: FrameError,
    pub place: u32,
    // the first child
    pub first: Option<u16>,
    // the last child
    pub last: Option<u16>,
    // the next sibling, or the root of the next report in a row
    pub next: Option<u16>,
    // the number of frames from this one down
    pub size: u16,
    pub role: Role,
}
