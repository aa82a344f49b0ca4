// The sources beneath an error.
ghost use Rattle.std.specs.Prelude.{◌≡◌, length};
ghost use Rattle.std.specs.Iterator.{YieldsFirst, item_count};
ghost use Rattle.model.specs.Host.{answer};
ghost use Rattle.model.specs.Sources.{chain, chain_from, source_of};

use crate::host::Host;
use std::marker::Model;
use vocabulary::fault::HostFault;

// An error and the sources beneath it, nearest first. A clause sees the numbers that are still to come.
#[derive(Drop)]
pub struct Chain<'a, H: Host> {
    host: &'a H,
    at: Option<u16>,
}

impl<'a, H: Host> Model for Chain<'a, H> {
    ghost use Rattle.std.specs.Prelude.{ℕ, List};
    ghost use Rattle.model.specs.Sources.{chain_from};

    ghost Value = { List ℕ };

    ghost view = { λ c. chain_from (H.Host.errors c.host.now) c.at };
}

impl<'a, H: Host> Chain<'a, H> {
    // The chain of a live error.
    pub fn of(host: &'a H, error: u16) -> Result<Chain<'a, H>, HostFault>
        ensures { result ≡ answer (H.Host.errors host.now error) error (λ _. chain (H.Host.errors host.now) error) }
    {
        host.kind(error)?;
        Ok(Chain::starting_at(host, Some(error)))
    }

    // The chain that begins with an error, or an empty one. It asks the host nothing.
    pub(crate) fn starting_at(host: &'a H, at: Option<u16>) -> Chain<'a, H>
        ensures { result ≡ chain_from (H.Host.errors host.now) at }
    {
        Chain { host, at }
    }
}

impl<'a, H: Host> Iterator for Chain<'a, H> {
    type Item = u16;

    ghost next_gives = { YieldsFirst (λ rest. rest) };

    ghost remaining = { item_count (λ rest. rest) };

    #[tactic(auto, using(crate::proofs::Chains::no_chain))]
    fn next(&mut self) -> Option<u16> {
        let error = self.at?;
        self.at = source_of(self.host, error);
        Some(error)
    }
}

// The source of an error; none where it has none, or is not live.
pub fn source_of<H: Host>(host: &H, error: u16) -> Option<u16>
    ensures { result ≡ source_of (H.Host.errors host.now error) }
{
    host.source(error).unwrap_or(None)
}

// How many an error and the sources beneath it are.
#[tactic(auto, using(model::proofs::Sources::chain_short))]
pub fn chain_len<H: Host>(host: &H, error: u16) -> Result<usize, HostFault>
    ensures { result ≡ answer (H.Host.errors host.now error) error (λ _. length (chain (H.Host.errors host.now) error)) }
{
    let source = host.source(error)?;
    Ok(1 + Chain::starting_at(host, source).count())
}
