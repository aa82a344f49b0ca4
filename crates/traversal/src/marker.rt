// Which errors are markers.
ghost use Rattle.std.specs.Prelude.{◌≡◌};
ghost use Rattle.readings.specs.Readings.{marker_in};

use host::host::Host;
use vocabulary::frame_error::FrameError;

// Whether what a frame holds as its error is a marker; not so where it is not live.
pub fn is_marker<H: Host>(host: &H, error: FrameError) -> bool
    ensures { result ≡ marker_in (H.Host.errors host.now) error }
{
    host.kind(error.number()).is_ok_and(|kind| kind.is_marker())
}
