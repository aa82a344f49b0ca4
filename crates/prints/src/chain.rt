// Chains printed. Host, list and buffer are lent to each call, as to the store's.
ghost use Rattle.std.specs.Prelude.{◌≡◌, ◌<◌, length, Some, None};
ghost use Rattle.print_forms.specs.Prints.{chain_print, inline_print};
ghost use Rattle.print_forms.specs.Shown.{host_text};
ghost use Rattle.nodes.specs.Begins.{Flat};
ghost use Rattle.nodes.specs.Check.{node_at};
ghost use Rattle.store.specs.Chains.{nodes_in};
ghost use Rattle.buffers.specs.Printed.{Printed};
ghost use Rattle.prints.specs.Puts.{AllLive, TextPrinted, TextPut};
ghost use Rattle.prints.specs.ChainPrints.{ChainPrinted, chain_form, errors_form, separator, shown_in};

use crate::pieces::{caption_over, put_indent, put_label};
use buffers::put::put;
use buffers::texts::{put_error, put_text};
use checks::check::check_flattening;
use host::host::Host;
use nodes::node::Node;
use store::chain::ChainedError;
use traversal::marker::is_marker;
use vocabulary::fault::{HostFault, PrintFault};

// How a chain is printed.
#[derive(Clone, Copy)]
enum Form {
    // an error a line
    Lines,
    // all errors on one line
    Inline,
}

// Puts what stands before an error that comes after so many others.
fn put_separator(form: Form, before: usize, out: &mut [u8], at: usize) -> usize
    ensures { Printed at result out.old out.new (separator form before) }
{
    if before == 0 {
        return at;
    }
    match form {
        Form::Inline => put(out, at, b": "),
        Form::Lines => {
            let at = put(out, at, caption_over(before == 1).as_bytes());
            let at = put_indent(out, at);
            put_label(out, at, before - 1)
        }
    }
}

// Puts the errors of nodes that are no markers; for markers alone, the host's text of the first.
fn put_errors<H: Host>(
    host: &H,
    nodes: &[Node],
    form: Form,
    out: &mut [u8],
) -> Result<usize, HostFault>
    requires { 0 < length nodes.now }
    ensures { TextPut (AllLive (H.Host.errors host.now) nodes.now) (errors_form form (H.Host.errors host.now) (host_text (H.Host.errors host.now) (node_at nodes.now 0).error) (shown_in (H.Host.errors host.now) nodes.now)) 0 out.old out.new result }
{
    let mut at = 0;
    let mut shown = 0;
    for node in nodes {
        if !is_marker(host, node.error) {
            at = put_separator(form, shown, out, at);
            at = put_error(host, node.error, out, at)?;
            shown += 1;
        }
    }
    if shown == 0 {
        return put_text(host, nodes[0].error, out, at);
    }
    Ok(at)
}

// Prints the errors of nodes, where the buffer is long enough: their length is counted first.
fn print_errors<H: Host>(
    host: &H,
    nodes: &[Node],
    form: Form,
    out: &mut [u8],
) -> Result<usize, PrintFault>
    requires { 0 < length nodes.now }
    ensures { AllLive (H.Host.errors host.now) nodes.now → TextPrinted (errors_form form (H.Host.errors host.now) (host_text (H.Host.errors host.now) (node_at nodes.now 0).error) (shown_in (H.Host.errors host.now) nodes.now)) out.old out.new result }
{
    let needed = put_errors(host, nodes, form, &mut [])?;
    if out.len() < needed {
        return Err(PrintFault::BufferTooShort(needed));
    }
    Ok(put_errors(host, nodes, form, out)?)
}

// Prints a chain in a form.
fn print<H: Host>(
    chain: &ChainedError,
    host: &H,
    list: &[Node],
    form: Form,
    out: &mut [u8],
) -> Result<usize, PrintFault>
    ensures { ChainPrinted (H.Host.errors host.now) (nodes_in chain.now list.now) (chain_form form (H.Host.errors host.now)) out.old out.new result }
{
    let nodes = chain.front(list);
    check_flattening(host, nodes)?;
    print_errors(host, nodes, form, out)
}

// Prints a chain on several lines: its errors breadth-first without the markers, each after the first with its number. The
// list stays as it is, and so does the buffer where the print is turned down.
pub fn print_chain<H: Host>(
    chain: &ChainedError,
    host: &H,
    list: &[Node],
    out: &mut [u8],
) -> Result<usize, PrintFault>
    ensures { ChainPrinted (H.Host.errors host.now) (nodes_in chain.now list.now) (chain_print (H.Host.errors host.now)) out.old out.new result }
{
    print(chain, host, list, Form::Lines, out)
}

// The same on one line.
pub fn print_chain_inline<H: Host>(
    chain: &ChainedError,
    host: &H,
    list: &[Node],
    out: &mut [u8],
) -> Result<usize, PrintFault>
    ensures { ChainPrinted (H.Host.errors host.now) (nodes_in chain.now list.now) (inline_print (H.Host.errors host.now)) out.old out.new result }
{
    print(chain, host, list, Form::Inline, out)
}
