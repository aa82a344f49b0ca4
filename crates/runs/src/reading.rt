// The reading of a report.
ghost use Rattle.std.specs.Prelude.{◌≡◌, length, Some, IfOk, Ok, Err};
ghost use Rattle.std.specs.Vec.{vec_items};
ghost use Rattle.trees.specs.Trees.{Tree};
ghost use Rattle.nodes.specs.Flattening.{flattening};
ghost use Rattle.runs.specs.Held.{Held, nodes_needed};
ghost use Rattle.runs.specs.Law.{AllRead, ReadIf, Reads, tree_named};
ghost use Rattle.runs.specs.Session.{Stands, state_of};

use crate::call::Reading;
use crate::printing::{chain_of, tree_of};
use crate::session::Session;
use chains::iter::list_nodes;
use host::host::Host;
use nodes::node::{BLANK, Node};
use questions::report::{can_retry, can_retry_lenient, dominant_class, probable_cause, retry};
use std::alloc::{AllocError, Global};
use store::store::Store;
use store::token::Exn;
use vocabulary::fault::StoreFault;
use vocabulary::policy::Policy;

// The number of nodes that a list is refused with.
fn nodes_needed(listed: Result<usize, StoreFault>) -> usize
    ensures { result ≡ nodes_needed listed }
{
    match listed {
        Err(StoreFault::ListTooShort(count)) => count,
        _ => 0,
    }
}

// The flattening of a report.
fn nodes_of<H: Host>(
    alloc: Global,
    store: &Store,
    host: &H,
    report: &Exn,
) -> Result<Vec<Node>, AllocError>
    ensures { (t : Tree) → Held (H.Host.errors host.now) store.now report.now t → IfOk result (λ nodes. nodes.items ≡ flattening (H.Host.errors host.now) t) }
{
    let count = nodes_needed(list_nodes(store, host, report, &mut []));
    let mut nodes = vec![in alloc; BLANK; count]?;
    let _ = list_nodes(store, host, report, &mut nodes);
    Ok(nodes)
}

// What the questions answer of a report that the store holds.
#[tactic(auto, using(crate::proofs::Readings::given_is, crate::proofs::Readings::given_ok))]
pub(crate) fn read<H: Host, P: Policy>(
    alloc: Global,
    store: &Store,
    host: &H,
    policy: &P,
    report: &Exn,
) -> Result<Reading, AllocError>
    requires { ∥ ((t : Tree) × Held (H.Host.errors host.now) store.now report.now t) ∥₁ }
    ensures { (t : Tree) → Held (H.Host.errors host.now) store.now report.now t → IfOk result (λ r. Reads (H.Host.errors host.now) (P.Policy.accepted policy.now) t r) }
{
    let mut nodes = nodes_of(alloc, store, host, report)?;
    let tree = tree_of(alloc, store, host, report, &mut nodes)?;
    let chain = chain_of(alloc, host, &nodes, false)?;
    let inline = chain_of(alloc, host, &nodes, true)?;
    Ok(Reading {
        nodes,
        class: dominant_class(store, host, report).unwrap(),
        retry: retry(store, host, policy, report).unwrap(),
        can_retry: can_retry(store, host, report).unwrap(),
        can_retry_lenient: can_retry_lenient(store, host, report).unwrap(),
        cause: probable_cause(store, host, report).unwrap(),
        tree,
        chain,
        inline,
    })
}

// The reading of the report that is known by a root, if the store holds it.
#[tactic(auto, using(crate::proofs::Kept::kept_held, crate::proofs::Kept::kept_read, crate::proofs::Kept::kept_none))]
fn read_named<H: Host, P: Policy>(
    alloc: Global,
    session: &Session,
    host: &H,
    policy: &P,
    root: Option<u16>,
) -> Result<Option<Reading>, AllocError>
    requires { Stands (H.Host.errors host.now) session.now }
    ensures { IfOk result (λ r. ReadIf (H.Host.errors host.now) (P.Policy.accepted policy.now) (tree_named (state_of (H.Host.errors host.now) session.now) root) r) }
{
    let Some(root) = root else {
        return Ok(None);
    };
    let Some(report) = session.reports.table.get(root) else {
        return Ok(None);
    };
    Ok(Some(read(alloc, &session.store, host, policy, report)?))
}

// The readings of all reports that names stand for.
pub(crate) fn read_all<H: Host, P: Policy>(
    alloc: Global,
    session: &Session,
    host: &H,
    policy: &P,
) -> Result<Vec<Option<Reading>>, AllocError>
    requires { Stands (H.Host.errors host.now) session.now }
    ensures { IfOk result (λ rs. AllRead (state_of (H.Host.errors host.now) session.now) (P.Policy.accepted policy.now) session.now.reports.names.items rs.items) }
{
    let mut readings = Vec::new(alloc);
    for root in session.reports.names.iter() {
        readings.push(read_named(alloc, session, host, policy, *root)?)?;
    }
    Ok(readings)
}
