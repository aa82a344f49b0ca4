// A report, a basket or a chain, by its number.
#[derive(Clone, Copy, PartialEq, Eq)]
pub enum Name {
    Report(u16),
    Basket(u16),
    Chain(u16),
}

// A building call. Reports, baskets and chains are named by their numbers.
#[derive(Clone, Copy)]
pub enum Call {
    New {
        report: u16,
        error: u16,
        place: u32,
    },
    Raise {
        report: u16,
        error: u16,
        place: u32,
    },
    RaiseAll {
        report: u16,
        basket: u16,
        error: u16,
        place: u32,
    },
    Chain {
        report: u16,
        other: u16,
    },
    ChainAll {
        report: u16,
        basket: u16,
    },
    Basket {
        basket: u16,
    },
    Collect {
        basket: u16,
        report: u16,
    },
    // none where the basket is empty
    Take {
        basket: u16,
        report: Option<u16>,
    },
    DrainChildren {
        report: u16,
        basket: u16,
    },
    IntoChain {
        report: u16,
        chain: u16,
    },
    IntoExn {
        chain: u16,
        report: u16,
    },
    Discard(Name),
}
