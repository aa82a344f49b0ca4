ghost use Rattle.std.specs.Prelude.{◌≡◌, ℕ, Bool, cond, ◌&&◌, is_some, length, IfOk, Some, None, Ok, Err, vec_len, slice_index_or, ok_or};
ghost use Rattle.table_host.specs.Table.{live as live_in, live_kind, live_record, record_fits, record_kind, source_live, table_errors, table_span};
ghost use Rattle.table_host.specs.TableLaws.{table_lawful};
ghost use Rattle.vocabulary.specs.declared.fault.HostFault.TheVariants.{NotLive};
ghost use Rattle.vocabulary.specs.declared.fault.LayerFault.TheVariants.{Full};

use crate::record::Record;
use host::host::{GrowingHost, Host};
use host::text::fill_front;
use std::alloc::{AllocError, AllocFailed, Global};
use vocabulary::fault::{HostFault, LayerFault};
use vocabulary::kind::Kind;

// The errors of the caller's records, whose texts lie in the caller's bytes; both are moved in. A record is live if it
// keeps the rules of a host, its text lies in the bytes and its source, if any, is live; which are is decided once, when
// the table is made. The kinds of those stand beside the records, which go back to the caller as the list that came.
#[derive(Drop)]
pub struct TableHost {
    records: Vec<Record>,
    bytes: Vec<u8>,
    // none where a record is not live
    kinds: Vec<Option<Kind>>,
    ghost decided: { (e : ℕ) → slice_index_or kinds.items e None ≡ live_kind records.items (length bytes.items) e },
    ghost marked: { (e : ℕ) → is_some (slice_index_or kinds.items e None) ≡ live_in records.items (length bytes.items) e },
}

impl Record {
    // The kind that the record's numbers name, if they name one.
    fn named_kind(&self) -> Option<Kind>
        ensures { result ≡ record_kind self.now }
    {
        Kind::try_from((self.kind, self.detail)).ok()
    }

    // Whether the record of number `error`, of a kind, keeps the rules by itself, over so many bytes of text.
    fn fits(&self, kind: Kind, error: u16, size: usize) -> bool
        requires { record_kind self.now ≡ Some kind }
        ensures { result ≡ record_fits size error self.now }
    {
        let source_fits = self
            .source
            .is_none_or(|source| source < error && !kind.is_sourceless());
        source_fits && self.len <= 255 && self.start as usize + self.len as usize <= size
    }
}

// The kind that stands beside the record of a number, if it is live.
fn kind_beside(kinds: &[Option<Kind>], error: u16) -> Option<Kind>
    ensures { result ≡ slice_index_or kinds.now error None }
{
    kinds.get(usize::from(error)).copied().unwrap_or(None)
}

// Whether the record of number `error`, of a kind, is live, where the kinds of those before it are known.
fn lives(kinds: &[Option<Kind>], record: &Record, kind: Kind, error: u16, size: usize) -> bool
    requires { record_kind «record».now ≡ Some kind }
    ensures { result ≡ record_fits size error «record».now && source_live (λ d. is_some (slice_index_or kinds.now d None)) «record».now.source }
{
    record.fits(kind, error, size)
        && record
            .source
            .is_none_or(|source| kind_beside(kinds, source).is_some())
}

// The kind of the record of number `error`, if it is live.
fn kind_if_live(kinds: &[Option<Kind>], record: &Record, error: u16, size: usize) -> Option<Kind>
    ensures { result ≡ cond (record_fits size error «record».now && source_live (λ d. is_some (slice_index_or kinds.now d None)) «record».now.source) (record_kind «record».now) None }
{
    let kind = record.named_kind()?;
    lives(kinds, record, kind, error, size).then_some(kind)
}

// One pass over the records, from the first to the last that can be live.
fn live_kinds(
    heap: Global,
    records: &[Record],
    size: usize,
) -> Result<Vec<Option<Kind>>, AllocError>
    ensures { IfOk result (λ v. (e : ℕ) → slice_index_or v.items e None ≡ live_kind records.now size e) }
{
    let mut kinds = Vec::new(heap);
    for (error, record) in records.iter().take(65536).enumerate() {
        let kind = kind_if_live(&kinds, record, error as u16, size);
        kinds.push(kind)?;
    }
    Ok(kinds)
}

impl TableHost {
    // The host of some records and bytes, however many there are. Where there is no memory for the kinds, both come back.
    pub fn new(
        heap: Global,
        records: Vec<Record>,
        bytes: Vec<u8>,
    ) -> Result<TableHost, AllocFailed<(Vec<Record>, Vec<u8>)>>
        ensures { elim result [ Ok t ↦ (t.records ≡ records) × (t.bytes ≡ bytes) | Err back ↦ back.value ≡ (records, bytes) ] }
    {
        // both ways move records and bytes, so no method of `Result` serves
        let Ok(kinds) = live_kinds(heap, &records, bytes.len()) else {
            return Err(AllocFailed {
                value: (records, bytes),
            });
        };
        Ok(TableHost {
            records,
            bytes,
            kinds,
        })
    }

    // The records and bytes again.
    pub fn into_parts(self) -> (Vec<Record>, Vec<u8>)
        ensures { result ≡ (self.records, self.bytes) }
    {
        (self.records, self.bytes)
    }

    // The record of a live error.
    fn record(&self, error: u16) -> Result<Record, HostFault>
        ensures { result ≡ ok_or (live_record self.now.records.items (length self.now.bytes.items) error) (NotLive error) }
    {
        kind_beside(&self.kinds, error).ok_or(HostFault::NotLive(error))?;
        Ok(self.records[usize::from(error)])
    }
}

impl Host for TableHost {
    ghost errors = { λ t. table_errors t.records.items t.bytes.items };

    ghost extent = { λ t. table_span t.records.items };

    ghost lawful = { λ h. table_lawful h.records.items h.bytes.items };

    #[tactic(auto, using(crate::specs::TableLaws::kind_answered))]
    fn kind(&self, error: u16) -> Result<Kind, HostFault> {
        kind_beside(&self.kinds, error).ok_or(HostFault::NotLive(error))
    }

    fn source(&self, error: u16) -> Result<Option<u16>, HostFault> {
        Ok(self.record(error)?.source)
    }

    #[tactic(auto, using(crate::specs::TableLaws::length_told))]
    fn text_len(&self, error: u16) -> Result<usize, HostFault> {
        Ok(self.record(error)?.len as usize)
    }

    #[tactic(auto, using(crate::specs::TableLaws::text_ends))]
    fn text(&self, error: u16, part: &mut [u8]) -> Result<usize, HostFault> {
        let record = self.record(error)?;
        let start = record.start as usize;
        fill_front(
            part,
            &self.bytes.as_slice()[start..start + record.len as usize],
        )
    }

    fn span(&self) -> u32 {
        self.records.len().min(65536) as u32
    }
}

// The table host gains no errors: it has no room for any, and an addition says nothing.
// Such hosts each write this body of one line: a shared one would take a marker trait, an impl over it and an impl of it.
impl GrowingHost for TableHost {
    type Addition = ();

    fn add(&mut self, _addition: ()) -> Result<u16, LayerFault>
        ensures unchanged { self.new ≡ self.old }
        ensures refused { result ≡ Err (Full 0) }
    {
        Err(LayerFault::Full(0))
    }
}
