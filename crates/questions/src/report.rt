// Questions on reports. Store and host are lent to each call, as to the store's.
ghost use Rattle.std.specs.Prelude.{◌≡◌, ◌≤◌, true, is_some, map, length, Some, Ok};
ghost use Rattle.vocabulary.specs.Policy.{standard};
ghost use Rattle.vocabulary.specs.declared.frame_error.FrameError.{FrameError};
ghost use Rattle.vocabulary.specs.declared.policy.StandardPolicy.TheVariants.{CanRetry, CanRetryLenient};
ghost use Rattle.host.specs.Findings.{findings_of};
ghost use Rattle.trees.specs.Counting.{in_report};
ghost use Rattle.trees.specs.Trees.{Tree};
ghost use Rattle.frames.specs.Of.{reports_of};
ghost use Rattle.nodes.specs.Flattening.{frame_list};
ghost use Rattle.traversal.specs.Order.{visited};
ghost use Rattle.store.specs.Store.{ledger_of};
ghost use Rattle.readings.specs.Readings.{Cause, cause, class_of, errors_of, first_not_live, report_pairs, verdict_of};
ghost use Rattle.readings.specs.ByFrames.{listed_errors};
ghost use Rattle.listed_readings.specs.Judged.{if_live, judged};
ghost use Rattle.questions.specs.Answers.{CauseByLedger, GivenByLedger, report_answer};

use crate::judging::{Never, judge};
use crate::seen::{Seen, frame_seen};
use arrayvec::ArrayVec;
use classes::class::Class;
use frames::store::Frames;
use host::host::Host;
use host::judge::Findings;
use store::store::Store;
use store::token::Exn;
use traversal::order::{Visit, breadth_first};
use traversal::survey::survey;
use vocabulary::fault::{HostFault, StoreFault};
use vocabulary::frame_error::FrameError;
use vocabulary::policy::{Policy, StandardPolicy};

// A report of so few frames is asked along a short order, since an order takes time by its room.
const FEW: usize = 32;

// What a report comes to under a policy, along an order of at most `N` frames.
fn findings_along<H: Host, P: Policy, const N: usize>(
    frames: &Frames,
    host: &H,
    policy: &P,
    root: u16,
) -> Result<Findings, HostFault>
    requires live { is_some (reports_of frames.now root) ≡ true }
    requires room { in_report (reports_of frames.now root) ≤ N }
    requires small { N ≤ 1024 }
    ensures { (t : Tree) → reports_of frames.now root ≡ Some t → result ≡ judged (H.Host.errors host.now) (P.Policy.accepted policy.now) (listed_errors (frame_list t)) }
{
    let mut order = ArrayVec::<Visit, N>::new();
    breadth_first(frames, root, &mut order);
    judge(host, policy, order.as_slice())
}

// The same along an order of as much room as is needed.
#[tactic(auto, using(traversal::proofs::Walks::report_few))]
fn findings_beneath<H: Host, P: Policy>(
    frames: &Frames,
    host: &H,
    policy: &P,
    root: u16,
) -> Result<Findings, HostFault>
    requires { is_some (reports_of frames.now root) ≡ true }
    ensures { (t : Tree) → reports_of frames.now root ≡ Some t → result ≡ judged (H.Host.errors host.now) (P.Policy.accepted policy.now) (listed_errors (frame_list t)) }
{
    if frames.size(root) <= FEW {
        findings_along::<H, P, FEW>(frames, host, policy, root)
    } else {
        findings_along::<H, P, 1024>(frames, host, policy, root)
    }
}

// What a report comes to under a policy.
fn findings<H: Host, P: Policy>(
    store: &Store,
    host: &H,
    policy: &P,
    report: &Exn,
) -> Result<Findings, StoreFault>
    ensures { result ≡ report_answer store.now (H.Host.errors host.now) report.now (λ t. findings_of (P.Policy.accepted policy.now) (report_pairs (H.Host.errors host.now) t)) }
{
    let root = store.root_of(report)?;
    Ok(findings_beneath(store.frames(), host, policy, root)?)
}

// The least class among all errors of a report and the sources beneath them, or none.
pub fn dominant_class<H: Host>(
    store: &Store,
    host: &H,
    report: &Exn,
) -> Result<Option<Class>, StoreFault>
    ensures answer { result ≡ report_answer store.now (H.Host.errors host.now) report.now (class_of (H.Host.errors host.now)) }
    ensures reached { GivenByLedger store.now (H.Host.errors host.now) report.now (class_of (H.Host.errors host.now)) result }
{
    Ok(findings(store, host, &Never, report)?.class)
}

// Whether the controller may try again after a report: no class in it is Cancelled, and the policy accepts one of its errors.
pub fn retry<H: Host, P: Policy>(
    store: &Store,
    host: &H,
    policy: &P,
    report: &Exn,
) -> Result<bool, StoreFault>
    ensures answer { result ≡ report_answer store.now (H.Host.errors host.now) report.now (verdict_of (H.Host.errors host.now) (P.Policy.accepted policy.now)) }
    ensures reached { GivenByLedger store.now (H.Host.errors host.now) report.now (verdict_of (H.Host.errors host.now) (P.Policy.accepted policy.now)) result }
{
    Ok(findings(store, host, policy, report)?.may_retry())
}

// The same by the policy `CanRetry`.
pub fn can_retry<H: Host>(store: &Store, host: &H, report: &Exn) -> Result<bool, StoreFault>
    ensures answer { result ≡ report_answer store.now (H.Host.errors host.now) report.now (verdict_of (H.Host.errors host.now) (standard CanRetry)) }
    ensures reached { GivenByLedger store.now (H.Host.errors host.now) report.now (verdict_of (H.Host.errors host.now) (standard CanRetry)) result }
{
    retry(store, host, &StandardPolicy::CanRetry, report)
}

// The same by the policy `CanRetryLenient`.
pub fn can_retry_lenient<H: Host>(store: &Store, host: &H, report: &Exn) -> Result<bool, StoreFault>
    ensures answer { result ≡ report_answer store.now (H.Host.errors host.now) report.now (verdict_of (H.Host.errors host.now) (standard CanRetryLenient)) }
    ensures reached { GivenByLedger store.now (H.Host.errors host.now) report.now (verdict_of (H.Host.errors host.now) (standard CanRetryLenient)) result }
{
    retry(store, host, &StandardPolicy::CanRetryLenient, report)
}

// The probable cause of a report whose frames stand in an order: from the last to the first, what is seen of each is gathered
// for its parent. Counted, since an element of the array is read and another written at each turn.
fn order_cause<H: Host, const N: usize>(host: &H, order: &[Visit]) -> FrameError
    requires few { length order.now ≤ N }
    requires small { N ≤ 1024 }
    requires frames { ∥ ((t : Tree) × (map visited order.now ≡ frame_list t)) ∥₁ }
    ensures { (t : Tree) → map visited order.now ≡ frame_list t → result ≡ cause (H.Host.errors host.now) t }
{
    let mut gathered = [Seen::Nothing; N];
    for i in (1..order.len()).rev() {
        let visit = order[i];
        if let Some(parent) = visit.parent {
            let parent = parent as usize;
            let seen = frame_seen(host, visit.error, gathered[i]);
            gathered[parent] = gathered[parent].with(seen);
        }
    }
    let root = order[0].error;
    frame_seen(host, root, gathered[0]).or(root)
}

// The probable cause of a report, along an order of at most `N` frames, or the first of its errors that is not live.
fn cause_along<H: Host, const N: usize>(
    frames: &Frames,
    host: &H,
    root: u16,
) -> Result<FrameError, HostFault>
    requires live { is_some (reports_of frames.now root) ≡ true }
    requires room { in_report (reports_of frames.now root) ≤ N }
    requires small { N ≤ 1024 }
    ensures { (t : Tree) → reports_of frames.now root ≡ Some t → result ≡ if_live (first_not_live (H.Host.errors host.now) (errors_of (H.Host.errors host.now) t)) (cause (H.Host.errors host.now) t) }
{
    let mut order = ArrayVec::<Visit, N>::new();
    breadth_first(frames, root, &mut order);
    survey(host, order.as_slice())?;
    Ok(order_cause::<H, N>(host, order.as_slice()))
}

// The same along an order of as much room as is needed.
#[tactic(auto, using(traversal::proofs::Walks::report_few))]
fn cause_beneath<H: Host>(frames: &Frames, host: &H, root: u16) -> Result<FrameError, HostFault>
    requires { is_some (reports_of frames.now root) ≡ true }
    ensures { (t : Tree) → reports_of frames.now root ≡ Some t → result ≡ if_live (first_not_live (H.Host.errors host.now) (errors_of (H.Host.errors host.now) t)) (cause (H.Host.errors host.now) t) }
{
    if frames.size(root) <= FEW {
        cause_along::<H, FEW>(frames, host, root)
    } else {
        cause_along::<H, 1024>(frames, host, root)
    }
}

// The probable cause of a report: the deepest error that is no marker and has every other such error above or beneath it;
// where there is none, the error of the root.
pub fn probable_cause<H: Host>(
    store: &Store,
    host: &H,
    report: &Exn,
) -> Result<FrameError, StoreFault>
    ensures answer { result ≡ report_answer store.now (H.Host.errors host.now) report.now (cause (H.Host.errors host.now)) }
    ensures reached { GivenByLedger store.now (H.Host.errors host.now) report.now (cause (H.Host.errors host.now)) result }
    ensures cause_reached { CauseByLedger store.now (H.Host.errors host.now) report.now result }
    ensures stands { (t : Tree) (e : FrameError) → (ledger_of store.now).reports report.now.root ≡ Some t → result ≡ Ok e → Cause (H.Host.errors host.now) t e }
{
    let root = store.root_of(report)?;
    Ok(cause_beneath(store.frames(), host, root)?)
}
