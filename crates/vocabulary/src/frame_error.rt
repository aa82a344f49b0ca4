ghost use Rattle.std.specs.Prelude.{◌≡◌};
ghost use Rattle.vocabulary.specs.FrameError.{error_number};

// What a frame holds as its error.
#[derive(Clone, Copy, PartialEq, Eq)]
pub enum FrameError {
    // the number of an error of the host
    Host(u16),
}

impl FrameError {
    // The number of the error in the host. No `From`: errors that are not the host's will have none.
    pub fn number(self) -> u16
        ensures { result ≡ error_number self }
    {
        match self {
            FrameError::Host(number) => number,
        }
    }
}
