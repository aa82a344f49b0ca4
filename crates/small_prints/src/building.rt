// Trees with errors, built in a store.
use crate::shapes::Shape;
use anyhow::anyhow;
use classes::class::Class;
use runs::call::{Call, Event, Name, Reading};
use runs::run::run;
use std::alloc::{AllocError, Global};
use table_host::record::Record;
use table_host::table::TableHost;
use vocabulary::policy::StandardPolicy;

// What stands in a frame.
#[derive(Clone, Copy)]
pub enum Variant {
    Plain,
    WithSource,
    Marker,
    MarkerAround,
}

// Records and the bytes of their texts.
#[derive(Drop)]
struct Draft {
    records: Vec<Record>,
    texts: Vec<u8>,
}

// The number of the kind of plain errors, and that of markers.
const PLAIN: u8 = 0;

const MARKER: u8 = 2;

impl Draft {
    // Adds a record, and answers its number.
    fn add(
        &mut self,
        kind: u8,
        detail: u8,
        source: Option<u16>,
        text: &str,
    ) -> Result<u16, AllocError> {
        let number = self.records.len().min(0xffff) as u16;
        let start = self.texts.len().min(0xffff_ffff) as u32;
        self.texts.extend_from_slice(text.as_bytes())?;
        self.records.push(Record {
            kind,
            detail,
            source,
            start,
            len: text.len().min(255) as u32,
        })?;
        Ok(number)
    }

    // The error of a frame.
    fn error(&mut self, heap: Global, variant: Variant, frame: usize) -> Result<u16, AllocError> {
        let rank = (frame % 11) as u8;
        match variant {
            Variant::Plain => {
                let text = format!(in heap; "frame {frame}")?;
                self.add(PLAIN, 0, None, text.as_str())
            }
            Variant::WithSource => {
                let below = format!(in heap; "source {frame}")?;
                let source = self.add(PLAIN, 0, None, below.as_str())?;
                let text = format!(in heap; "frame {frame}")?;
                self.add(PLAIN, 0, Some(source), text.as_str())
            }
            Variant::Marker => {
                let name = Class::try_from(10 - rank).map_or("", Class::name);
                self.add(MARKER, 10 - rank, None, name)
            }
            Variant::MarkerAround => {
                let text = format!(in heap; "marked {frame}")?;
                let source = self.add(PLAIN, 0, None, text.as_str())?;
                self.add(MARKER, rank, Some(source), text.as_str())
            }
        }
    }
}

// The calls that make a report of each frame, and then join those beneath each frame, the deepest frames first.
fn calls(heap: Global, shape: &Shape, errors: &[u16]) -> Result<Vec<Event<()>>, AllocError> {
    let mut events = Vec::new(heap);
    for error in errors {
        events.push(Event::Call(Call::New {
            error: *error,
            place: 0,
        }))?;
    }
    for (parent, depth) in shape.iter().enumerate().rev() {
        let beneath = shape.as_slice().get(parent..).unwrap_or(&[]);
        for (distance, below) in beneath.iter().enumerate().skip(1) {
            if below <= depth {
                break;
            }
            if *below == depth.saturating_add(1) {
                events.push(Event::Call(Call::Chain {
                    report: Name::Made(parent),
                    other: Name::Made(parent.saturating_add(distance)),
                }))?;
            }
        }
    }
    Ok(events)
}

// The reading of a tree of a shape, whose frames have these variants.
pub fn reading(heap: Global, shape: &Shape, variants: &[Variant]) -> anyhow::Result<Reading> {
    let mut draft = Draft {
        records: Vec::new(heap),
        texts: Vec::new(heap),
    };
    let mut errors = Vec::new(heap);
    for (frame, variant) in variants.iter().enumerate() {
        errors.push(draft.error(heap, *variant, frame)?)?;
    }
    let events = calls(heap, shape, errors.as_slice())?;
    let Draft { records, texts } = draft;
    let mut host = TableHost::new(heap, records, texts).map_err(AllocError::from)?;
    let outcome = run(heap, &mut host, &StandardPolicy::CanRetry, events)?;
    match outcome.readings.into_iter().next() {
        Some(Some(reading)) => Ok(reading),
        _ => Err(anyhow!("the tree was not built")),
    }
}
