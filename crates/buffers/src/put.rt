// Bytes and numbers. A caller learns how many bytes there are to put by putting them into an empty buffer first.
ghost use Rattle.std.specs.Prelude.{◌≡◌, ◌+◌, ◌<◌, length, decimal};
ghost use Rattle.buffers.specs.Printed.{Printed};

use itoa::Buffer;

// Puts bytes into a buffer from a position on, where they fit, and answers where the next ones begin.
pub fn put(out: &mut [u8], at: usize, bytes: &[u8]) -> usize
    ensures printed { Printed at result out.old out.new bytes.now }
    ensures kept { length out.old < at + length bytes.now → out.new ≡ out.old }
{
    let to = at.saturating_add(bytes.len());
    if to <= out.len() {
        out[at..to].copy_from_slice(bytes);
    }
    to
}

// The same of a number in decimal.
pub fn put_number(out: &mut [u8], at: usize, number: usize) -> usize
    ensures printed { Printed at result out.old out.new (decimal number) }
    ensures kept { length out.old < at + length (decimal number) → out.new ≡ out.old }
{
    put(out, at, Buffer::new().format(number).as_bytes())
}
