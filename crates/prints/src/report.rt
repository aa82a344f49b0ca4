// Reports printed as trees. Store, host, list and buffer are lent to each call, as to the store's.
ghost use Rattle.std.specs.Prelude.{◌≡◌, ◌≤◌, map, length};
ghost use Rattle.trees.specs.Trees.{Tree};
ghost use Rattle.nodes.specs.Flattening.{flattening};
ghost use Rattle.nodes.specs.Notes.{cleared};
ghost use Rattle.nodes.specs.Begins.{Flat, Flattens};
ghost use Rattle.print_forms.specs.Prints.{tree_print};
ghost use Rattle.prints.specs.Puts.{AllLive, TextPrinted, TextPut};
ghost use Rattle.prints.specs.TreePrints.{TreeByLedger, TreePlanned, TreePrinted, list_after};

use crate::lines::put_lines;
use buffers::texts::put_text;
use host::host::Host;
use line_plans::planning::plan_lines;
use nodes::node::Node;
use nodes::notes::clear_notes;
use shown_links::links::link;
use shown_links::marks::mark;
use store::store::Store;
use store::token::Exn;
use traversal::report::flatten_report;
use vocabulary::fault::{HostFault, PrintFault};

// Plans the lines of a tree beside the nodes that it is flattened to, and answers how many they are.
fn plan<H: Host>(host: &H, nodes: &mut [Node]) -> usize
    requires few { length nodes.old ≤ 67108864 }
    requires flat { ∥ Flat (H.Host.errors host.now) nodes.old ∥₁ }
    ensures planned { (t : Tree) → flattening (H.Host.errors host.now) t ≡ nodes.old → TreePlanned (H.Host.errors host.now) t nodes.new result }
    ensures same { map cleared nodes.new ≡ map cleared nodes.old }
{
    mark(host, nodes);
    let heads = link(nodes);
    plan_lines(nodes, heads)
}

// Puts so many lines of a tree; for none, as all nodes are markers, the host's text of the root.
fn put_tree<H: Host>(
    host: &H,
    nodes: &[Node],
    count: usize,
    out: &mut [u8],
) -> Result<usize, HostFault>
    requires { ∥ ((t : Tree) × TreePlanned (H.Host.errors host.now) t nodes.now count) ∥₁ }
    ensures { (t : Tree) → TreePlanned (H.Host.errors host.now) t nodes.now count → TextPut (AllLive (H.Host.errors host.now) nodes.now) (tree_print (H.Host.errors host.now) t) 0 out.old out.new result }
{
    if count == 0 {
        return put_text(host, nodes[0].error, out, 0);
    }
    put_lines(host, nodes, count, out)
}

// Prints a tree whose lines are planned, where the buffer is long enough: its length is counted first.
fn print_planned<H: Host>(
    host: &H,
    nodes: &[Node],
    count: usize,
    out: &mut [u8],
) -> Result<usize, PrintFault>
    requires { ∥ ((t : Tree) × TreePlanned (H.Host.errors host.now) t nodes.now count) ∥₁ }
    ensures { (t : Tree) → TreePlanned (H.Host.errors host.now) t nodes.now count → AllLive (H.Host.errors host.now) nodes.now → TextPrinted (tree_print (H.Host.errors host.now) t) out.old out.new result }
{
    let needed = put_tree(host, nodes, count, &mut [])?;
    if out.len() < needed {
        return Err(PrintFault::BufferTooShort(needed));
    }
    Ok(put_tree(host, nodes, count, out)?)
}

// Prints the tree that is flattened to nodes. They take notes meanwhile, and are left as they were.
fn print_nodes<H: Host>(host: &H, nodes: &mut [Node], out: &mut [u8]) -> Result<usize, PrintFault>
    requires few { length nodes.old ≤ 67108864 }
    requires flat { ∥ Flat (H.Host.errors host.now) nodes.old ∥₁ }
    requires clear { map cleared nodes.old ≡ nodes.old }
    ensures printed { (t : Tree) → Flattens (H.Host.errors host.now) nodes.old t → TextPrinted (tree_print (H.Host.errors host.now) t) out.old out.new result }
    ensures same { nodes.new ≡ nodes.old }
{
    let count = plan(host, nodes);
    let printed = print_planned(host, nodes, count, out);
    clear_notes(nodes);
    printed
}

// Prints a report as a tree, and writes its flattening to the front of a list, which is needed to print. The list has the
// flattening also where only the buffer is too short; else a call that is turned down leaves list and buffer as they were.
pub fn print_tree<H: Host>(
    store: &Store,
    host: &H,
    report: &Exn,
    list: &mut [Node],
    out: &mut [u8],
) -> Result<usize, PrintFault>
    ensures answer { TreePrinted store.now (H.Host.errors host.now) report.now (length list.old) out.old out.new result }
    ensures list { list.new ≡ list_after store.now (H.Host.errors host.now) report.now list.old }
    ensures reached { TreeByLedger store.now (H.Host.errors host.now) report.now list.old list.new out.old out.new result }
{
    let root = store.root_of(report)?;
    let count = flatten_report(host, store.frames(), root, list)?;
    print_nodes(host, &mut list[..count], out)
}
