// The prints of a report, each in a buffer of its own that is as long as the print.
ghost use Rattle.std.specs.Prelude.{◌≡◌, IfOk};
ghost use Rattle.trees.specs.Trees.{Tree};
ghost use Rattle.nodes.specs.Begins.{Flattens};
ghost use Rattle.nodes.specs.Flattening.{flattening};
ghost use Rattle.print_forms.specs.Prints.{tree_print};
ghost use Rattle.store.specs.Chains.{nodes_in};
ghost use Rattle.prints.specs.ChainPrints.{ChainPrinted};
ghost use Rattle.runs.specs.Held.{Held};
ghost use Rattle.runs.specs.Printed.{bytes_needed, chain_form};

use host::host::Host;
use nodes::node::Node;
use prints::chain::{print_chain, print_chain_inline};
use prints::report::print_tree;
use std::alloc::{AllocError, Global};
use store::chain::ChainedError;
use store::store::Store;
use store::token::Exn;
use vocabulary::fault::PrintFault;

// The number of bytes that a buffer is refused with.
fn bytes_needed(printed: Result<usize, PrintFault>) -> usize
    ensures { result ≡ bytes_needed printed }
{
    match printed {
        Err(PrintFault::BufferTooShort(count)) => count,
        _ => 0,
    }
}

// A report as a tree, with its nodes in a list that is as long as they are. A print that no memory could hold counts as want
// of memory.
pub(crate) fn tree_of<H: Host>(
    alloc: Global,
    store: &Store,
    host: &H,
    report: &Exn,
    nodes: &mut [Node],
) -> Result<Vec<u8>, AllocError>
    ensures print { (t : Tree) → Held (H.Host.errors host.now) store.now report.now t → nodes.old ≡ flattening (H.Host.errors host.now) t
        → IfOk result (λ print. print.items ≡ tree_print (H.Host.errors host.now) t) }
    ensures nodes { (t : Tree) → Held (H.Host.errors host.now) store.now report.now t → nodes.old ≡ flattening (H.Host.errors host.now) t → nodes.new ≡ nodes.old }
{
    let needed = bytes_needed(print_tree(store, host, report, nodes, &mut []));
    let mut print = vec![in alloc; 0; needed]?;
    match print_tree(store, host, report, nodes, &mut print) {
        Ok(_) => Ok(print),
        Err(_) => Err(AllocError),
    }
}

// Prints a chain on one line or on several.
fn print_form<H: Host>(
    chain: &ChainedError,
    host: &H,
    nodes: &[Node],
    inline: bool,
    out: &mut [u8],
) -> Result<usize, PrintFault>
    ensures { ChainPrinted (H.Host.errors host.now) (nodes_in chain.now nodes.now) (chain_form inline (H.Host.errors host.now)) out.old out.new result }
{
    if inline {
        print_chain_inline(chain, host, nodes, out)
    } else {
        print_chain(chain, host, nodes, out)
    }
}

// The nodes of a report as a chain, on one line or on several.
pub(crate) fn chain_of<H: Host>(
    alloc: Global,
    host: &H,
    nodes: &[Node],
    inline: bool,
) -> Result<Vec<u8>, AllocError>
    ensures { (t : Tree) → Flattens (H.Host.errors host.now) nodes.now t → IfOk result (λ print. print.items ≡ chain_form inline (H.Host.errors host.now) t) }
{
    let chain = ChainedError::of(nodes);
    let needed = bytes_needed(print_form(&chain, host, nodes, inline, &mut []));
    let mut print = vec![in alloc; 0; needed]?;
    match print_form(&chain, host, nodes, inline, &mut print) {
        Ok(_) => Ok(print),
        Err(_) => Err(AllocError),
    }
}
