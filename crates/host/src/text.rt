ghost use Rattle.std.specs.Prelude.{◌≡◌, ◌++◌, length, drop, if◌then◌else◌, Ok, Err, nat_le};
ghost use Rattle.vocabulary.specs.declared.fault.HostFault.TheVariants.{TextTooLong};

use vocabulary::fault::HostFault;

// Puts a text at the front of a part and answers its length. Where the part is too short it is left as it was.
pub fn fill_front(part: &mut [u8], text: &[u8]) -> Result<usize, HostFault>
    ensures answered { result ≡ (if nat_le (length text.now) (length part.old) then Ok (length text.now) else Err (TextTooLong (length text.now))) }
    ensures filled { part.new ≡ (if nat_le (length text.now) (length part.old) then text.now ++ drop (length text.now) part.old else part.old) }
{
    let len = text.len();
    if part.len() < len {
        return Err(HostFault::TextTooLong(len));
    }
    part[..len].copy_from_slice(text);
    Ok(len)
}
