// An error of the table host, by numbers: the kind (0 plain, 1 message, 2 marker, 3 reservation failure, 4 io error), the
// rank or io kind beside it (255 for a message without a class), the source, and the place of the text in the caller's
// bytes. They stay numbers because a caller's table may hold any, and the host tells which records name an error.
#[derive(Clone, Copy)]
pub struct Record {
    pub kind: u8,
    pub detail: u8,
    pub source: Option<u16>,
    pub start: u32,
    pub len: u32,
}
