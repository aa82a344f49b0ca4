// The number of nodes of a report, and whether all its errors are live.
ghost use Rattle.std.specs.Prelude.{◌≡◌, ◌≤◌, map, length};
ghost use Rattle.trees.specs.Trees.{Tree};
ghost use Rattle.nodes.specs.Flattening.{frame_list};
ghost use Rattle.traversal.specs.Order.{visited};
ghost use Rattle.traversal.specs.Survey.{survey_from, survey_of};

use crate::order::Visit;
use host::host::Host;
use host::sources::chain_len;
use vocabulary::fault::HostFault;

// Counts the nodes of a report whose frames stand in an order, or tells the first error breadth-first that is not live.
pub fn survey<H: Host>(host: &H, order: &[Visit]) -> Result<usize, HostFault>
    requires { length order.now ≤ 1024 }
    ensures listed { result ≡ survey_from (H.Host.errors host.now) 0 (map visited order.now) }
    ensures report { (t : Tree) → map visited order.now ≡ frame_list t → result ≡ survey_of (H.Host.errors host.now) t }
{
    let mut total = 0;
    for visit in order {
        total += chain_len(host, visit.error.number())?;
    }
    Ok(total)
}
