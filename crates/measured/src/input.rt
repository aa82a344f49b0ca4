// What a caller hands in: rows of plain numbers, of which hosts and lists are made.
use nodes::node::{Node, Note};
use std::alloc::{AllocError, Global};
use table_host::record::Record;
use table_host::table::TableHost;
use vocabulary::frame_error::FrameError;

// An error, as a record of the table host has it.
#[repr(C)]
#[derive(Clone, Copy)]
pub struct ErrorRow {
    pub kind: u8,
    pub detail: u8,
    // the number of its source; none above 65,535
    pub source: u32,
    pub start: u32,
    pub len: u32,
}

// A node of a flattening.
#[repr(C)]
#[derive(Clone, Copy)]
pub struct NodeRow {
    pub error: u16,
    pub native: bool,
    pub place: u32,
    // the index of its parent; the root has the greatest number
    pub parent: u32,
}

impl ErrorRow {
    fn record(&self) -> Record {
        Record {
            kind: self.kind,
            detail: self.detail,
            source: u16::try_from(self.source).ok(),
            start: self.start,
            len: self.len,
        }
    }
}

impl NodeRow {
    fn node(&self) -> Node {
        Node {
            error: FrameError::Host(self.error),
            place: self.place,
            native: self.native,
            parent: (self.parent != u32::MAX).then_some(self.parent as usize),
            note: Note::Clear,
        }
    }
}

// The table host of some rows.
pub fn make_host(heap: Global, errors: &[ErrorRow], texts: &[u8]) -> Result<TableHost, AllocError> {
    let records: Vec<Record> = errors.iter().map(|row| row.record()).collect(heap)?;
    let bytes: Vec<u8> = texts.iter().copied().collect(heap)?;
    TableHost::new(heap, records, bytes).map_err(|_| AllocError)
}

// The list of some rows.
pub fn make_list(heap: Global, nodes: &[NodeRow]) -> Result<Vec<Node>, AllocError> {
    nodes.iter().map(|row| row.node()).collect(heap)
}
