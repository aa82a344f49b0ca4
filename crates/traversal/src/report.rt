// The nodes of a report in a store of frames.
ghost use Rattle.std.specs.Prelude.{◌≡◌, true, is_some, Some};
ghost use Rattle.trees.specs.Trees.{Tree};
ghost use Rattle.frames.specs.Of.{reports_of};
ghost use Rattle.traversal.specs.Report.{ListedInto};

use crate::flatten::flatten;
use crate::order::{Order, breadth_first};
use crate::survey::survey;
use frames::store::Frames;
use host::host::Host;
use nodes::node::Node;
use vocabulary::fault::StoreFault;

// Writes the flattening of a report into a list, and answers how many nodes it has.
pub fn flatten_report<H: Host>(
    host: &H,
    frames: &Frames,
    root: u16,
    list: &mut [Node],
) -> Result<usize, StoreFault>
    requires { is_some (reports_of frames.now root) ≡ true }
    ensures { (t : Tree) → reports_of frames.now root ≡ Some t → ListedInto (H.Host.errors host.now) t list.old list.new result }
{
    let mut order = Order::new();
    breadth_first(frames, root, &mut order);
    let order = order.as_slice();
    let total = survey(host, order)?;
    if list.len() < total {
        return Err(StoreFault::ListTooShort(total));
    }
    flatten(host, order, list, total);
    Ok(total)
}
