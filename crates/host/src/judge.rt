// Class and pair of an error, and what an error comes to together with the sources beneath it. The host and the error's
// number stand side by side as in the questions of `Host`: a type for both would only be taken apart again to ask them.
ghost use Rattle.std.specs.Prelude.{◌≡◌, Bool, true, false, ◌||◌, if◌then◌else◌, Some, None};
ghost use Rattle.classes.specs.Class.{lesser};
ghost use Rattle.model.specs.Challenge.{beneath, deepest};
ghost use Rattle.model.specs.Host.{answer};
ghost use Rattle.model.specs.Judge.{io_error_class, is_challenge, kind_pair, least_class, may_retry, pair_of, told};
ghost use Rattle.model.specs.Sources.{chain};
ghost use Rattle.host.specs.Findings.{chain_pairs, findings_of, findings_with, is_denied, retries};

use crate::host::Host;
use crate::sources::{Chain, source_of};
use classes::class::{Class, ResourceExhaustionKind};
use vocabulary::fault::HostFault;
use vocabulary::io_kind::IoKind;
use vocabulary::kind::Kind;
use vocabulary::policy::{Pair, Policy, StandardPolicy};

const NO_PAIR: Pair = Pair {
    class: None,
    io_kind: None,
};

// What some errors come to: the least of their classes, and whether a policy accepts one of them.
#[derive(Clone, Copy, Default)]
pub struct Findings {
    pub class: Option<Class>,
    pub accepted: bool,
}

impl Findings {
    // One error more.
    fn with(self, pair: Pair, accepted: bool) -> Findings
        ensures { result ≡ record { class = lesser self.class pair.class; accepted = self.accepted || accepted } }
    {
        Findings {
            class: Class::lesser_of(self.class, pair.class),
            accepted: self.accepted || accepted,
        }
    }

    // Whether the controller may try again: no error is Cancelled, and the policy accepts one.
    pub fn may_retry(self) -> bool
        ensures { result ≡ retries self }
    {
        self.accepted && self.class != Some(Class::Cancelled)
    }
}

// Whether an error is an authentication challenge: a message or a marker whose class is Unauthenticated.
fn is_challenge<H: Host>(host: &H, error: u16) -> bool
    ensures { result ≡ is_challenge (H.Host.errors host.now error) }
{
    matches!(
        host.kind(error),
        Ok(
            Kind::Message(Some(Class::Unauthenticated))
                | Kind::ClassificationMarker(Class::Unauthenticated)
        )
    )
}

// The class of an io error, given whether a challenge stands beneath it: a denied permission then has none.
fn io_class(kind: IoKind, challenged: bool) -> Option<Class>
    ensures { result ≡ io_error_class kind challenged }
{
    if kind == IoKind::PermissionDenied && challenged {
        None
    } else {
        kind.row().class
    }
}

// The pair of an error of a kind, given whether a challenge stands beneath it.
fn pair_of_kind(kind: Kind, challenged: bool) -> Pair
    ensures { result ≡ kind_pair kind challenged }
{
    let (class, io_kind) = match kind {
        Kind::Plain => (None, None),
        Kind::Message(class) => (class, None),
        Kind::ClassificationMarker(class) => (Some(class), None),
        Kind::TryReserveError => (
            Some(Class::ResourceExhaustion(ResourceExhaustionKind::AllocationFailure)),
            None,
        ),
        Kind::Io(io_kind) => (io_class(io_kind, challenged), Some(io_kind)),
    };
    Pair { class, io_kind }
}

// The pair of an error of a chain, where `challenge` is the chain's deepest authentication challenge; without class and
// io kind where the error is not live.
fn pair_in_chain<H: Host>(host: &H, error: u16, challenge: Option<u16>) -> Pair
    ensures { result ≡ told (H.Host.errors host.now error) (beneath challenge error) }
{
    let challenged = challenge.is_some_and(|deepest| deepest < error);
    host.kind(error)
        .map_or(NO_PAIR, |kind| pair_of_kind(kind, challenged))
}

// The deepest authentication challenge of a chain.
fn deepest_of<H: Host>(host: &H, chain: Chain<'_, H>) -> Option<u16>
    ensures { result ≡ deepest (H.Host.errors host.now) chain.entry }
{
    chain.filter(|e| is_challenge(host, *e)).last()
}

// The deepest authentication challenge among an error and the sources beneath it.
fn deepest_challenge<H: Host>(host: &H, error: u16) -> Result<Option<u16>, HostFault>
    ensures { result ≡ answer (H.Host.errors host.now error) error (λ _. deepest (H.Host.errors host.now) (chain (H.Host.errors host.now) error)) }
{
    Ok(deepest_of(host, Chain::of(host, error)?))
}

// The pair of an error: its class, and its io kind where it is an io error.
pub fn pair<H: Host>(host: &H, error: u16) -> Result<Pair, HostFault>
    ensures { result ≡ answer (H.Host.errors host.now error) error (λ _. pair_of (H.Host.errors host.now) error) }
{
    let challenge = deepest_challenge(host, error)?;
    Ok(pair_in_chain(host, error, challenge))
}

// Whether a pair is that of a denied permission: its class alone depends on what stands beneath it.
fn is_denied(pair: Pair) -> bool
    ensures { result ≡ is_denied pair }
{
    pair.io_kind == Some(IoKind::PermissionDenied)
}

// What was found above a denied permission, joined with what that error and the sources beneath it come to. The chain
// from there on is gone over twice: for the deepest challenge beneath, and for the findings.
fn judge_denied<H: Host, P: Policy>(host: &H, policy: &P, error: u16, found: Findings) -> Findings
    requires { is_denied (told (H.Host.errors host.now error) false) ≡ true }
    ensures { result ≡ findings_with (P.Policy.accepted policy.now) found (chain_pairs (H.Host.errors host.now) error) }
{
    let beneath = Chain::starting_at(host, source_of(host, error));
    let challenge = deepest_of(host, beneath);
    Chain::starting_at(host, Some(error))
        .map(|e| pair_in_chain(host, e, challenge))
        .fold(found, |found, pair| {
            found.with(pair, policy.accepts(pair))
        })
}

// What an error and the sources beneath it come to under a policy. Only the class of a denied permission depends on the
// sources beneath it, so one pass suffices down to the first of these.
pub fn judge_chain<H: Host, P: Policy>(
    host: &H,
    policy: &P,
    error: u16,
) -> Result<Findings, HostFault>
    ensures { result ≡ answer (H.Host.errors host.now error) error (λ _. findings_of (P.Policy.accepted policy.now) (chain_pairs (H.Host.errors host.now) error)) }
{
    let mut found = Findings::default();
    for e in Chain::of(host, error)? {
        let pair = pair_in_chain(host, e, None);
        if is_denied(pair) {
            return Ok(judge_denied(host, policy, e, found));
        }
        found = found.with(pair, policy.accepts(pair));
    }
    Ok(found)
}

// The least class among an error and the sources beneath it, or none.
pub fn dominant_class<H: Host>(host: &H, error: u16) -> Result<Option<Class>, HostFault>
    ensures { result ≡ answer (H.Host.errors host.now error) error (λ _. least_class (chain_pairs (H.Host.errors host.now) error)) }
{
    Ok(judge_chain(host, &StandardPolicy::CanRetry, error)?.class)
}

// Whether the controller may try again after an error, its sources counted: no class among them is Cancelled, and the
// policy accepts one of them.
#[tactic(auto, using(crate::proofs::Chains::verdict))]
pub fn retry<H: Host, P: Policy>(host: &H, policy: &P, error: u16) -> Result<bool, HostFault>
    ensures { result ≡ answer (H.Host.errors host.now error) error (λ _. may_retry (P.Policy.accepted policy.now) (chain_pairs (H.Host.errors host.now) error)) }
{
    Ok(judge_chain(host, policy, error)?.may_retry())
}
