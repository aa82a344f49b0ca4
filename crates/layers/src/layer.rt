ghost use Rattle.std.specs.Prelude.{◌≡◌, ℕ, ◌+◌, [], length, min, if◌then◌else◌};
ghost use Rattle.arrayvec.specs.ArrayVec.{array_vec_len};
ghost use Rattle.model.specs.Host.{Extends};
ghost use Rattle.layers.specs.Addition.{Added};
ghost use Rattle.layers.specs.Entries.{IsTable, Resolved, layered, layered_span};
ghost use Rattle.layers.specs.Layer.{count_after, gained, told_text, wrap_answer};
ghost use Rattle.layers.specs.LayerHost.{layer_lawful};

use crate::addition::LayerAddition;
use crate::entries::Entries;
use crate::entry::Entry;
use crate::entry_kind::EntryKind;
use host::host::{GrowingHost, Host};
use std::marker::PhantomData;
use vocabulary::fault::{HostFault, LayerFault};
use vocabulary::kind::Kind;

// A layer over any host: up to 64 entries, each around an error of the host below or of the layer itself. `K` says what
// the entries are.
#[derive(Drop)]
pub struct Layer<H, K> {
    lower: H,
    entries: Entries,
    kinds: PhantomData<K>,
    ghost table: { IsTable entries },
}

impl<H: Host, K> Layer<H, K> {
    // The layer without entries: the host below, with a span that is 64 more.
    pub fn new(lower: H) -> Layer<H, K>
        ensures errors { (e : ℕ) → layered (H.Host.errors result.lower) result.entries e ≡ H.Host.errors lower e }
        ensures spans { layered_span result.entries ≡ min (H.Host.extent lower + 64) 65536 }
        ensures empty { result.entries.items.items ≡ [] }
        ensures below { result.entries.below ≡ H.Host.extent lower }
    {
        let entries = Entries::new(lower.span());
        Layer {
            lower,
            entries,
            kinds: PhantomData,
        }
    }

    // The live entry of a number, or none for a number that is passed down.
    fn resolve(&self, error: u16) -> Result<Option<Entry>, HostFault>
        ensures { Resolved (H.Host.errors self.now.lower) self.now.entries error result }
    {
        if u32::from(error) < self.entries.below() {
            return Ok(None);
        }
        let entry = self.entries.get(error).ok_or(HostFault::NotLive(error))?;
        self.lower
            .kind(entry.foot.base)
            .map_err(|_| HostFault::NotLive(error))?;
        Ok(Some(entry))
    }
}

impl<H: Host, K> Host for Layer<H, K> {
    ghost errors = { λ s. layered (H.Host.errors s.lower) s.entries };

    ghost extent = { λ s. layered_span s.entries };

    ghost lawful = { λ h. layer_lawful _ _ (H.Host.lawful h.lower) h.entries h.table };

    fn kind(&self, error: u16) -> Result<Kind, HostFault> {
        match self.resolve(error)? {
            Some(entry) => Ok(entry.kind),
            None => self.lower.kind(error),
        }
    }

    fn source(&self, error: u16) -> Result<Option<u16>, HostFault> {
        match self.resolve(error)? {
            Some(entry) => Ok(Some(entry.error)),
            None => self.lower.source(error),
        }
    }

    fn text_len(&self, error: u16) -> Result<usize, HostFault> {
        match self.resolve(error)? {
            Some(entry) if entry.foot.silent => Ok(0),
            Some(entry) => self.lower.text_len(entry.foot.base),
            None => self.lower.text_len(error),
        }
    }

    fn text(&self, error: u16, part: &mut [u8]) -> Result<usize, HostFault> {
        match self.resolve(error)? {
            Some(entry) if entry.foot.silent => Ok(0),
            Some(entry) => self.lower.text(entry.foot.base, part),
            None => self.lower.text(error, part),
        }
    }

    fn span(&self) -> u32 {
        (self.entries.below() + 64).min(65536)
    }
}

impl<H: Host, K: EntryKind> Layer<H, K> {
    // An entry of the kind that a number names, around an error of the layer. The caller has a number and no `Kind`: one that
    // names nothing is refused, as the project asks.
    pub fn wrap(&mut self, error: u16, number: u8) -> Result<u16, LayerFault>
        ensures answered { result ≡ wrap_answer (layered (H.Host.errors self.old.lower) self.old.entries error) error (K.kind_at number) number self.old.entries }
        ensures errors { (e : ℕ) → layered (H.Host.errors self.new.lower) self.new.entries e ≡ gained (layered (H.Host.errors self.old.lower) self.old.entries) (K.kind_at number) (if K.keeps_text then told_text (layered (H.Host.errors self.old.lower) self.old.entries) error else []) error result e }
        ensures counted { array_vec_len self.new.entries.items ≡ count_after (array_vec_len self.old.entries.items) result }
        ensures spans { self.new.entries.below ≡ self.old.entries.below }
        ensures lower { self.new.lower ≡ self.old.lower }
    {
        self.kind(error)?;
        let kind = K::kind(number)?;
        let foot = K::rest(self.entries.foot(error));
        self.entries.push(Entry { error, kind, foot })
    }
}

impl<H: GrowingHost, K: EntryKind> GrowingHost for Layer<H, K> {
    type Addition = LayerAddition<H::Addition>;

    fn add(&mut self, addition: LayerAddition<H::Addition>) -> Result<u16, LayerFault>
        ensures spans { layered_span self.new.entries ≡ layered_span self.old.entries }
        ensures extends { Extends (layered (H.Host.errors self.old.lower) self.old.entries) (layered (H.Host.errors self.new.lower) self.new.entries) }
        ensures added { Added (layered (H.Host.errors self.old.lower) self.old.entries) (layered (H.Host.errors self.new.lower) self.new.entries) self.old.entries K.kind_at (λ e. if K.keeps_text then told_text (layered (H.Host.errors self.old.lower) self.old.entries) e else []) addition result }
    {
        match addition {
            LayerAddition::Wrap { error, value } => self.wrap(error, value),
            LayerAddition::Below(below) => self.lower.add(below),
        }
    }
}
