// Questions on chains, each asked of the tree that flattens to the chain's nodes. Host and list are lent to each call, as to
// the store's; a chain is checked first, as where a report is built from it.
ghost use Rattle.std.specs.Prelude.{◌≡◌, map, Ok};
ghost use Rattle.vocabulary.specs.Policy.{standard};
ghost use Rattle.vocabulary.specs.declared.frame_error.FrameError.{FrameError};
ghost use Rattle.vocabulary.specs.declared.policy.StandardPolicy.TheVariants.{CanRetry, CanRetryLenient};
ghost use Rattle.host.specs.Findings.{findings_of};
ghost use Rattle.trees.specs.Trees.{Tree};
ghost use Rattle.nodes.specs.Begins.{Flat, Flattens};
ghost use Rattle.readings.specs.Readings.{Cause, cause, class_of, report_pairs, verdict_of};
ghost use Rattle.store.specs.Chains.{nodes_in};
ghost use Rattle.questions.specs.Answers.{ChainAnswer};
ghost use Rattle.nodes.specs.Notes.{cleared};

use crate::judging::{Never, judge};
use crate::seen::{Seen, node_seen};
use checks::check::check_flattening;
use classes::class::Class;
use host::host::Host;
use host::judge::Findings;
use nodes::node::Node;
use nodes::notes::clear_notes;
use store::chain::ChainedError;
use vocabulary::fault::StoreFault;
use vocabulary::frame_error::FrameError;
use vocabulary::policy::{Policy, StandardPolicy};

// What the tree of a chain comes to under a policy.
fn findings<H: Host, P: Policy>(
    chain: &ChainedError,
    host: &H,
    policy: &P,
    list: &[Node],
) -> Result<Findings, StoreFault>
    ensures { ChainAnswer (H.Host.errors host.now) (nodes_in chain.now list.now) (λ t. findings_of (P.Policy.accepted policy.now) (report_pairs (H.Host.errors host.now) t)) result }
{
    let nodes = chain.front(list);
    check_flattening(host, nodes)?;
    Ok(judge(host, policy, nodes)?)
}

// The least class among all nodes of a chain, or none.
pub fn dominant_class<H: Host>(
    chain: &ChainedError,
    host: &H,
    list: &[Node],
) -> Result<Option<Class>, StoreFault>
    ensures { ChainAnswer (H.Host.errors host.now) (nodes_in chain.now list.now) (class_of (H.Host.errors host.now)) result }
{
    Ok(findings(chain, host, &Never, list)?.class)
}

// Whether the controller may try again after a chain: no class in it is Cancelled, and the policy accepts one of its errors.
pub fn retry<H: Host, P: Policy>(
    chain: &ChainedError,
    host: &H,
    policy: &P,
    list: &[Node],
) -> Result<bool, StoreFault>
    ensures { ChainAnswer (H.Host.errors host.now) (nodes_in chain.now list.now) (verdict_of (H.Host.errors host.now) (P.Policy.accepted policy.now)) result }
{
    Ok(findings(chain, host, policy, list)?.may_retry())
}

// The same by the policy `CanRetry`.
pub fn can_retry<H: Host>(chain: &ChainedError, host: &H, list: &[Node]) -> Result<bool, StoreFault>
    ensures { ChainAnswer (H.Host.errors host.now) (nodes_in chain.now list.now) (verdict_of (H.Host.errors host.now) (standard CanRetry)) result }
{
    retry(chain, host, &StandardPolicy::CanRetry, list)
}

// The same by the policy `CanRetryLenient`.
pub fn can_retry_lenient<H: Host>(
    chain: &ChainedError,
    host: &H,
    list: &[Node],
) -> Result<bool, StoreFault>
    ensures { ChainAnswer (H.Host.errors host.now) (nodes_in chain.now list.now) (verdict_of (H.Host.errors host.now) (standard CanRetryLenient)) result }
{
    retry(chain, host, &StandardPolicy::CanRetryLenient, list)
}

// The probable cause of a chain: from the last node to the first, what is seen of each is put down beside its parent. Counted,
// since the list that is gone through is written meanwhile.
fn nodes_cause<H: Host>(host: &H, nodes: &mut [Node]) -> FrameError
    requires flat { ∥ Flat (H.Host.errors host.now) nodes.old ∥₁ }
    requires clear { map cleared nodes.old ≡ nodes.old }
    ensures cause { (t : Tree) → Flattens (H.Host.errors host.now) nodes.old t → result ≡ cause (H.Host.errors host.now) t }
    ensures same { nodes.new ≡ nodes.old }
{
    for i in (1..nodes.len()).rev() {
        let node = nodes[i];
        if let Some(parent) = node.parent {
            let seen = node_seen(host, node.error, Seen::noted(node.note));
            nodes[parent].note = Seen::noted(nodes[parent].note).with(seen).note();
        }
    }
    let Node { error, note, .. } = nodes[0];
    clear_notes(nodes);
    node_seen(host, error, Seen::noted(note)).or(error)
}

// The probable cause of a chain, as of a report. The list takes notes while the chain is gone through, and is left as it was.
pub fn probable_cause<H: Host>(
    chain: &ChainedError,
    host: &H,
    list: &mut [Node],
) -> Result<FrameError, StoreFault>
    ensures answer { ChainAnswer (H.Host.errors host.now) (nodes_in chain.now list.old) (cause (H.Host.errors host.now)) result }
    ensures stands { (t : Tree) (e : FrameError) → Flattens (H.Host.errors host.now) (nodes_in chain.now list.old) t → result ≡ Ok e → Cause (H.Host.errors host.now) t e }
    ensures same { list.new ≡ list.old }
{
    let nodes = chain.front(list);
    check_flattening(host, nodes)?;
    let n = nodes.len();
    Ok(nodes_cause(host, &mut list[..n]))
}
