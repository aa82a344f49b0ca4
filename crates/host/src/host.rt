ghost use Rattle.std.specs.Prelude.{◌≡◌, ℕ, length};
ghost use Rattle.model.specs.Host.{Error, Errors, Extends, Lawful, answer, text_answer, text_filled};

use vocabulary::fault::{HostFault, LayerFault};
use vocabulary::kind::Kind;

// Where errors come from. Errors are numbers from 0 to 65,535, and the host tells what each is.
//
// Its meaning is what it tells of each number, none where the number is not live; all live numbers lie below a fixed
// span. A question alters nothing and is answered alike each time. It is refused exactly for a number that is not live,
// and a text also where the part that it may fill is too short.
pub trait Host {
    ghost errors: { Self → Errors };

    ghost extent: { Self → ℕ };

    fn kind(&self, error: u16) -> Result<Kind, HostFault>
        ensures { result ≡ answer (errors self.now error) error (λ m. m.kind) };

    // The error that is behind this one: an io error's payload, else its source.
    fn source(&self, error: u16) -> Result<Option<u16>, HostFault>
        ensures { result ≡ answer (errors self.now error) error (λ m. m.source) };

    fn text_len(&self, error: u16) -> Result<usize, HostFault>
        ensures { result ≡ answer (errors self.now error) error (λ m. length m.text) };

    // Fills the first bytes of the part with the text, and answers how many they are.
    fn text(&self, error: u16, part: &mut [u8]) -> Result<usize, HostFault>
        ensures answered { result ≡ text_answer (errors self.now error) error (length part.old) }
        ensures filled { part.new ≡ text_filled (errors self.now error) part.old };

    // All live numbers are below this one.
    fn span(&self) -> u32
        ensures { result ≡ extent self.now };

    ghost lawful: { (h : Self) → Lawful (errors h) (extent h) };
}

// A host that may gain errors by calls of its own. Whatever it gains, it alters and loses none that it has, and its
// span stays. `Addition` is what such a call is asked for.
pub trait GrowingHost: Host {
    type Addition;

    // Adds an error and answers its number, or refuses and adds none.
    fn add(&mut self, addition: Self::Addition) -> Result<u16, LayerFault>
        ensures spans { Self.Host.extent self.new ≡ Self.Host.extent self.old }
        ensures extends { Extends (Self.Host.errors self.old) (Self.Host.errors self.new) };
}
