// Table hosts of the tests. Their texts are empty.
use std::alloc::{AllocError, Global};
use table_host::record::Record;
use table_host::table::TableHost;

// A plain error, above another or none.
pub const fn plain(source: Option<u16>) -> Record {
    Record {
        kind: 0,
        detail: 0,
        source,
        start: 0,
        len: 0,
    }
}

// A marker of rank 0 around an error.
pub const fn marker(source: u16) -> Record {
    Record {
        kind: 2,
        detail: 0,
        source: Some(source),
        start: 0,
        len: 0,
    }
}

pub fn table(heap: Global, records: Vec<Record>) -> Result<TableHost, AllocError> {
    TableHost::new(heap, records, Vec::new(heap)).map_err(|_| AllocError)
}

// Error 1 stands over 0, and 2 is a marker around 1; 3 stands over 0 too.
pub fn branched(heap: Global) -> Result<TableHost, AllocError> {
    table(
        heap,
        vec![in heap; plain(None), plain(Some(0)), marker(1), plain(Some(0))]?,
    )
}
