// The nodes of reports, and the errors of reports and chains, breadth-first. Host and list are lent to each call, as to the store's.
ghost use Rattle.chains.specs.Iter.{ChainErrors, ReportErrors, ReportNodes};

use crate::errors::keep_errors;
use checks::check::check_flattening;
use host::host::Host;
use nodes::node::Node;
use store::chain::ChainedError;
use store::store::Store;
use store::token::Exn;
use traversal::report::flatten_report;
use vocabulary::fault::StoreFault;

// Writes the flattening of a report to the front of a list, and answers how many nodes it has. The report stays.
pub fn list_nodes<H: Host>(
    store: &Store,
    host: &H,
    report: &Exn,
    list: &mut [Node],
) -> Result<usize, StoreFault>
    ensures { ReportNodes store.now (H.Host.errors host.now) report.now list.old list.new result }
{
    let root = store.root_of(report)?;
    flatten_report(host, store.frames(), root, list)
}

// Fills a list with the errors of a report that are no markers, and answers how many they are. The list is zeroed behind
// them, up to the number of the report's nodes.
pub fn iter_errors<H: Host>(
    store: &Store,
    host: &H,
    report: &Exn,
    list: &mut [Node],
) -> Result<usize, StoreFault>
    ensures { ReportErrors store.now (H.Host.errors host.now) report.now list.old list.new result }
{
    let root = store.root_of(report)?;
    let nodes = flatten_report(host, store.frames(), root, list)?;
    Ok(keep_errors(host, &mut list[..nodes]))
}

// The same of a chain, whose nodes stand in `nodes`.
pub fn iter_chain_errors<H: Host>(
    chain: &ChainedError,
    host: &H,
    nodes: &[Node],
    list: &mut [Node],
) -> Result<usize, StoreFault>
    ensures { ChainErrors chain.now (H.Host.errors host.now) nodes.now list.old list.new result }
{
    let front = chain.front(nodes);
    check_flattening(host, front)?;
    let n = front.len();
    if list.len() < n {
        return Err(StoreFault::ListTooShort(n));
    }
    let part = &mut list[..n];
    part.copy_from_slice(front);
    Ok(keep_errors(host, part))
}
