// The host of a case.
use crate::layered_host::LayeredHost;
use cases::statement::{HostName, LayerName, Record as Written};
use classes::class::Class;
use drive_host::drive::DriveHost;
use layers::marked::Marked;
use layers::wrapped::Wrapped;
use plans::case::Case;
use std::alloc::{AllocError, Global};
use table_host::record::Record;
use table_host::table::TableHost;
use vocabulary::kind::Kind;

// What is done over the host of a case, whichever it is; what there is to print goes to the end of a text.
pub trait Task {
    fn over<H: LayeredHost + Drop>(&self, host: H, out: &mut String) -> anyhow::Result<()>
    where
        H::Addition: Drop;
}

// The number beside the kind of a record.
fn detail(kind: Kind) -> u8 {
    match kind {
        Kind::Plain | Kind::TryReserveError => 0,
        Kind::Message(class) => class.map_or(255, Class::rank),
        Kind::ClassificationMarker(class) => class.rank(),
        Kind::Io(io_kind) => io_kind.number(),
    }
}

// The table of some records.
fn table(heap: Global, written: &[Written]) -> Result<TableHost, AllocError> {
    let mut records = Vec::new(heap);
    let mut bytes = Vec::new(heap);
    for one in written {
        let start = bytes.len().min(0xffff_ffff) as u32;
        let text = one.text.as_slice();
        bytes.extend_from_slice(text)?;
        records.push(Record {
            kind: one.kind.number(),
            detail: detail(one.kind),
            source: one.source,
            start,
            len: text.len().min(255) as u32,
        })?;
    }
    Ok(TableHost::new(heap, records, bytes).map_err(AllocError::from)?)
}

// A task over a host and the layers on it, from the bottom up; a case has at most one of each kind.
fn under<H: LayeredHost + Drop, T: Task>(
    base: H,
    layers: &[LayerName],
    task: &T,
    out: &mut String,
) -> anyhow::Result<()>
where
    H::Addition: Drop,
{
    match layers {
        [] => task.over(base, out),
        [LayerName::Marker] => task.over(Marked::new(base), out),
        [LayerName::Io] => task.over(Wrapped::new(base), out),
        [LayerName::Marker, ..] => task.over(Wrapped::new(Marked::new(base)), out),
        [LayerName::Io, ..] => task.over(Marked::new(Wrapped::new(base)), out),
    }
}

// A task over the host of a case.
pub fn over_case<T: Task>(
    heap: Global,
    case: &Case,
    task: &T,
    out: &mut String,
) -> anyhow::Result<()> {
    let layers = case.layers.as_slice();
    match case.host {
        HostName::Drive => under(DriveHost, layers, task, out),
        HostName::Table => under(table(heap, case.records.as_slice())?, layers, task, out),
    }
}
