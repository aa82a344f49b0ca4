// What is seen of the nodes beneath another: by it the probable cause is told from the last node to the first.
ghost use Rattle.std.specs.Prelude.{◌≡◌};
ghost use Rattle.readings.specs.ByFrames.{chain_seen, frame_seen};
ghost use Rattle.readings.specs.Readings.{marker_in};
ghost use Rattle.readings.specs.Seen.{◌or◌, ◌with◌, node_seen};
ghost use Rattle.nodes.specs.Nodes.{sources_of};
ghost use Rattle.questions.specs.Noted.{meant, noted};

use host::host::Host;
use host::sources::Chain;
use nodes::node::Note;
use traversal::marker::is_marker;
use vocabulary::frame_error::FrameError;

// What is seen of nodes side by side, through those that are markers.
#[derive(Clone, Copy)]
pub(crate) enum Seen {
    // no node but markers
    Nothing,
    // one topmost node that is no marker; the cause there is this error
    Single(FrameError),
    // several such nodes
    Several,
}

impl Seen {
    // What is seen of two rows of nodes side by side.
    pub(crate) fn with(self, other: Seen) -> Seen
        ensures { meant result ≡ (meant self with meant other) }
    {
        match (self, other) {
            (Seen::Nothing, seen) | (seen, Seen::Nothing) => seen,
            _ => Seen::Several,
        }
    }

    // The cause, where one is seen, else another error.
    pub(crate) fn or(self, error: FrameError) -> FrameError
        ensures { result ≡ (meant self or error) }
    {
        match self {
            Seen::Single(cause) => cause,
            Seen::Nothing | Seen::Several => error,
        }
    }

    // What was put down beside a node.
    pub(crate) fn noted(note: Note) -> Seen
        ensures { meant result ≡ noted note }
    {
        match note {
            Note::Single(cause) => Seen::Single(cause),
            Note::Several => Seen::Several,
            Note::Clear | Note::Planned(_) => Seen::Nothing,
        }
    }

    // The note that is put down beside a node.
    pub(crate) fn note(self) -> Note
        ensures { noted result ≡ meant self }
    {
        match self {
            Seen::Nothing => Note::Clear,
            Seen::Single(cause) => Note::Single(cause),
            Seen::Several => Note::Several,
        }
    }
}

// What is seen of a node, by what is seen of its children.
pub(crate) fn node_seen<H: Host>(host: &H, error: FrameError, below: Seen) -> Seen
    ensures { meant result ≡ node_seen (marker_in (H.Host.errors host.now) error) error (meant below) }
{
    if is_marker(host, error) {
        below
    } else {
        Seen::Single(below.or(error))
    }
}

// What is seen of the sources beneath an error: the deepest that is no marker.
fn sources_seen<H: Host>(host: &H, error: FrameError) -> Seen
    ensures { meant result ≡ chain_seen (H.Host.errors host.now) (sources_of (H.Host.errors host.now) error) }
{
    let Ok(chain) = Chain::of(host, error.number()) else {
        return Seen::Nothing;
    };
    chain
        .skip(1)
        .filter(|source| !is_marker(host, FrameError::Host(*source)))
        .last()
        .map_or(Seen::Nothing, |source| {
            Seen::Single(FrameError::Host(source))
        })
}

// What is seen of a frame, by what is seen of the frames that are its children.
pub(crate) fn frame_seen<H: Host>(host: &H, error: FrameError, below: Seen) -> Seen
    ensures { meant result ≡ frame_seen (H.Host.errors host.now) error (meant below) }
{
    node_seen(host, error, sources_seen(host, error).with(below))
}
