ghost use Rattle.std.specs.Prelude.{◌≡◌, ℕ, ◌<◌, ◌≤◌, ◌++◌, length, Err};
ghost use Rattle.std.specs.Result.{result_map_both};
ghost use Rattle.vocabulary.specs.declared.fault.LayerFault.TheVariants.{Full};
ghost use Rattle.model.specs.Host.{answer};
ghost use Rattle.drive_host.specs.Drive.{decimal, drive_errors};
ghost use Rattle.drive_host.specs.DriveLaws.{drive_lawful};

use arrayvec::ArrayString;
use host::host::{GrowingHost, Host};
use host::text::fill_front;
use vocabulary::fault::{HostFault, LayerFault};
use vocabulary::io_kind::IoKind;
use vocabulary::kind::Kind;

// The errors of gate, drive and gauge. Number 16·s + k is stage s, reason k: stage 0 is the gauge, an io error of kind
// k; stages 1 and 2 are the drive and the gate, plain errors whose source is the same reason one stage below.
#[derive(Clone, Copy)]
pub struct DriveHost;

// A word, and behind it a number below 100 in decimal.
#[inline]
fn spell(word: &str, reason: u8) -> ArrayString<8>
    requires { (length word.now ≤ 6) × (reason < 100) }
    ensures { result.bytes ≡ word.now ++ decimal reason }
{
    let mut label = ArrayString::new();
    label.push_str(word);
    if reason >= 10 {
        label.push(char::from(b'0' + reason / 10));
    }
    label.push(char::from(b'0' + reason % 10));
    label
}

// The text of an error.
#[inline]
fn label_of(error: u16) -> Result<ArrayString<8>, HostFault>
    ensures { result_map_both (λ l. l.bytes) (λ f. f) result ≡ answer (drive_errors error) error (λ m. m.text) }
{
    match error {
        0..=15 => Ok(spell("gauge ", error as u8)),
        16..=31 => Ok(spell("drive ", (error - 16) as u8)),
        32..=47 => Ok(spell("gate ", (error - 32) as u8)),
        _ => Err(HostFault::NotLive(error)),
    }
}

impl Host for DriveHost {
    ghost errors = { λ _. drive_errors };

    ghost extent = { λ _. 48 };

    ghost lawful = { λ h. drive_lawful };

    fn kind(&self, error: u16) -> Result<Kind, HostFault> {
        match error {
            0..=15 => Ok(Kind::Io(IoKind::try_from(error as u8).unwrap())),
            16..=47 => Ok(Kind::Plain),
            _ => Err(HostFault::NotLive(error)),
        }
    }

    fn source(&self, error: u16) -> Result<Option<u16>, HostFault> {
        match error {
            0..=15 => Ok(None),
            16..=47 => Ok(Some(error - 16)),
            _ => Err(HostFault::NotLive(error)),
        }
    }

    fn text_len(&self, error: u16) -> Result<usize, HostFault> {
        Ok(label_of(error)?.len())
    }

    fn text(&self, error: u16, part: &mut [u8]) -> Result<usize, HostFault> {
        fill_front(part, label_of(error)?.as_str().as_bytes())
    }

    fn span(&self) -> u32 {
        3 * 16
    }
}

// The drive host gains no errors: it has no room for any, and an addition says nothing.
// Such hosts each write this body of one line: a shared one would take a marker trait, an impl over it and an impl of it.
impl GrowingHost for DriveHost {
    type Addition = ();

    fn add(&mut self, _addition: ()) -> Result<u16, LayerFault>
        ensures unchanged { self.new ≡ self.old }
        ensures refused { result ≡ Err (Full 0) }
    {
        Err(LayerFault::Full(0))
    }
}
