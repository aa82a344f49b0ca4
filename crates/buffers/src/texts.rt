// The texts of errors.
ghost use Rattle.std.specs.Prelude.{◌≡◌, ◌+◌, ◌<◌, length};
ghost use Rattle.print_forms.specs.Shown.{error_text, host_text};
ghost use Rattle.buffers.specs.Printed.{ErrorPut, kind_answer};

use crate::put::put;
use host::host::Host;
use vocabulary::fault::HostFault;
use vocabulary::frame_error::FrameError;
use vocabulary::io_kind::IoKind;
use vocabulary::kind::Kind;

// Puts the host's text of an error, where it fits; the host writes it straight into its place.
pub fn put_text<H: Host>(
    host: &H,
    error: FrameError,
    out: &mut [u8],
    at: usize,
) -> Result<usize, HostFault>
    ensures printed { ErrorPut (H.Host.errors host.now) error (host_text (H.Host.errors host.now) error) at out.old out.new result }
    ensures kept { length out.old < at + length (host_text (H.Host.errors host.now) error) → out.new ≡ out.old }
{
    let number = error.number();
    let to = at.saturating_add(host.text_len(number)?);
    if to <= out.len() {
        host.text(number, &mut out[at..])?;
    }
    Ok(to)
}

// The io kind of an io error that has a payload.
fn payload_kind<H: Host>(host: &H, error: FrameError) -> Result<Option<IoKind>, HostFault>
    ensures { result ≡ kind_answer (H.Host.errors host.now) error }
{
    let number = error.number();
    let kind = host.kind(number)?;
    let source = host.source(number)?;
    Ok(match kind {
        Kind::Io(kind) if source.is_some() => Some(kind),
        _ => None,
    })
}

// Puts what is shown of an error: of an io error with a payload its kind, since the payload has a line of its own, else the
// host's text.
pub fn put_error<H: Host>(
    host: &H,
    error: FrameError,
    out: &mut [u8],
    at: usize,
) -> Result<usize, HostFault>
    ensures { ErrorPut (H.Host.errors host.now) error (error_text (H.Host.errors host.now) error) at out.old out.new result }
{
    match payload_kind(host, error)? {
        None => put_text(host, error, out, at),
        Some(kind) => {
            let at = put(out, at, b"I/O error (");
            let at = put(out, at, kind.name().as_bytes());
            Ok(put(out, at, b")"))
        }
    }
}
