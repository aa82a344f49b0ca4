ghost use Rattle.std.specs.Prelude.{◌≡◌};
ghost use Rattle.cases.specs.Words.{word_text};

// The fixed words of the format.
#[derive(Clone, Copy, PartialEq, Eq)]
pub enum Word {
    Host,
    Table,
    Drive,
    Error,
    Plain,
    Message,
    Marker,
    Reserve,
    Io,
    None,
    Layer,
    Mark,
    Wrap,
    As,
    New,
    Raise,
    RaiseAll,
    Chain,
    ChainAll,
    Basket,
    Collect,
    Take,
    DrainChildren,
    IntoChain,
    IntoExn,
    Discard,
    Ask,
}

impl Word {
    // How the word is spelled.
    pub fn text(self) -> &'static str
        ensures { result.now ≡ word_text self }
    {
        match self {
            Word::Host => "host",
            Word::Table => "table",
            Word::Drive => "drive",
            Word::Error => "error",
            Word::Plain => "plain",
            Word::Message => "message",
            Word::Marker => "marker",
            Word::Reserve => "reserve",
            Word::Io => "io",
            Word::None => "none",
            Word::Layer => "layer",
            Word::Mark => "mark",
            Word::Wrap => "wrap",
            Word::As => "as",
            Word::New => "new",
            Word::Raise => "raise",
            Word::RaiseAll => "raise_all",
            Word::Chain => "chain",
            Word::ChainAll => "chain_all",
            Word::Basket => "basket",
            Word::Collect => "collect",
            Word::Take => "take",
            Word::DrainChildren => "drain_children",
            Word::IntoChain => "into_chain",
            Word::IntoExn => "into_exn",
            Word::Discard => "discard",
            Word::Ask => "ask",
        }
    }
}
