// What the errors of reports and chains come to under a policy.
ghost use Rattle.std.specs.Prelude.{◌≡◌, Some, Option};
ghost use Rattle.std.specs.List.{filter_map};
ghost use Rattle.vocabulary.specs.FrameError.{error_number};
ghost use Rattle.vocabulary.specs.declared.frame_error.FrameError.{FrameError};
ghost use Rattle.model.specs.Host.{answer};
ghost use Rattle.host.specs.Findings.{chain_pairs, findings_of};
ghost use Rattle.traversal.specs.declared.order.Visit.{Visit};
ghost use Rattle.listed_readings.specs.Judged.{both, frame_error, judged};
ghost use Rattle.questions.specs.Never.{never};

use classes::class::Class;
use host::host::Host;
use host::judge::{Findings, judge_chain};
use nodes::node::Node;
use traversal::order::Visit;
use vocabulary::fault::HostFault;
use vocabulary::frame_error::FrameError;
use vocabulary::policy::{Pair, Policy};

// What a list has to be judged by: the error of a frame, and none of a source, since each frame is judged with the sources
// beneath its error.
pub(crate) trait Judged: Copy {
    ghost error_of: { Self → Option FrameError };

    fn frame_error(self) -> Option<FrameError>
        ensures { result ≡ error_of self };
}

impl Judged for Visit {
    ghost error_of = { λ v. Some v.error };

    fn frame_error(self) -> Option<FrameError> {
        Some(self.error)
    }
}

impl Judged for Node {
    ghost error_of = { frame_error };

    fn frame_error(self) -> Option<FrameError> {
        (!self.native).then_some(self.error)
    }
}

// Accepts nothing, for who asks for the class alone.
pub(crate) struct Never;

impl Policy for Never {
    ghost accepted = { λ _. never };

    fn accepts(&self, _pair: Pair) -> bool {
        false
    }
}

// Two findings as one.
fn both(a: Findings, b: Findings) -> Findings
    ensures { result ≡ both a b }
{
    Findings {
        class: Class::lesser_of(a.class, b.class),
        accepted: a.accepted || b.accepted,
    }
}

// What the error of a frame comes to with the sources beneath it.
fn judge_frame<H: Host, P: Policy>(
    host: &H,
    policy: &P,
    error: FrameError,
) -> Result<Findings, HostFault>
    ensures { result ≡ answer (H.Host.errors host.now (error_number error)) (error_number error) (λ _. findings_of (P.Policy.accepted policy.now) (chain_pairs (H.Host.errors host.now) (error_number error))) }
{
    judge_chain(host, policy, error.number())
}

// What the frames of a list come to with the sources beneath their errors, or the first of their errors that is not live.
pub(crate) fn judge<H: Host, P: Policy, J: Judged>(
    host: &H,
    policy: &P,
    list: &[J],
) -> Result<Findings, HostFault>
    ensures { result ≡ judged (H.Host.errors host.now) (P.Policy.accepted policy.now) (filter_map J.Judged.error_of list.now) }
{
    let mut found = Findings::default();
    for item in list {
        if let Some(error) = item.frame_error() {
            found = both(found, judge_frame(host, policy, error)?);
        }
    }
    Ok(found)
}
