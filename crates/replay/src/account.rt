// What is printed of a report.
use cases::writing::put_quoted;
use classes::class::Class;
use host::host::Host;
use nodes::node::Node;
use runs::call::Reading;
use std::alloc::{AllocError, Global};
use std::fmt::Write;
use traversal::marker::is_marker;
use vocabulary::kind::Kind;

// How the answers are printed.
#[derive(Clone, Copy, PartialEq, Eq)]
pub enum Style {
    // for people
    Account,
    // in the form of recorded answers
    Plain,
}

// What answers are printed with.
#[derive(Clone, Copy)]
pub struct Printer {
    pub heap: Global,
    pub style: Style,
}

fn yes_or_no(answer: bool) -> &'static str {
    if answer { "yes" } else { "no" }
}

// A node in the form of recorded answers.
fn plain_node(out: &mut String, index: usize, node: &Node) -> Result<(), AllocError> {
    let error = node.error.number();
    let place = node.place;
    let owner = if node.native { "native" } else { "explicit" };
    match node.parent {
        Some(parent) => writeln!(out, "node {index} {error} {place} {owner} {parent}"),
        None => writeln!(out, "node {index} {error} {place} {owner} none"),
    }
}

// The errors of the nodes that are no markers.
fn plain_errors<H: Host>(out: &mut String, host: &H, nodes: &[Node]) -> Result<(), AllocError> {
    out.push_str("errors")?;
    for node in nodes {
        if !is_marker(host, node.error) {
            let error = node.error.number();
            write!(out, " {error}")?;
        }
    }
    writeln!(out, "")
}

// A print in the form of recorded answers.
fn plain_print(heap: Global, out: &mut String, form: &str, print: &[u8]) -> Result<(), AllocError> {
    let mut quoted = Vec::new(heap);
    put_quoted(&mut quoted, print)?;
    match std::str::from_utf8(quoted.as_slice()) {
        Ok(text) => writeln!(out, "{form} {text}"),
        Err(_) => writeln!(out, "{form} (not UTF-8)"),
    }
}

// The answers of a report in the recorded form, as far as the library gives them. The tree of a chain has no print of its own.
fn plain<H: Host>(
    heap: Global,
    out: &mut String,
    host: &H,
    reading: &Reading,
    of_chain: bool,
) -> Result<(), AllocError> {
    let nodes = reading.nodes.as_slice();
    let count = nodes.len();
    writeln!(out, "nodes {count}")?;
    for (index, node) in nodes.iter().enumerate() {
        plain_node(out, index, node)?;
    }
    plain_errors(out, host, nodes)?;
    match reading.class {
        Some(class) => {
            let rank = class.rank();
            writeln!(out, "dominant {rank}")?;
        }
        None => writeln!(out, "dominant none")?,
    }
    let strict = yes_or_no(reading.can_retry);
    let lenient = yes_or_no(reading.can_retry_lenient);
    let cause = reading.cause.number();
    writeln!(out, "retry {strict}\nlenient {lenient}\ncause {cause}")?;
    if !of_chain {
        plain_print(heap, out, "tree", reading.tree.as_slice())?;
    }
    plain_print(heap, out, "chain", reading.chain.as_slice())?;
    plain_print(heap, out, "inline", reading.inline.as_slice())
}

// What a kind says beside its name.
fn detail(kind: Kind) -> Option<&'static str> {
    match kind {
        Kind::Io(io_kind) => Some(io_kind.name()),
        Kind::ClassificationMarker(class) => Some(class.name()),
        Kind::Message(class) => Some(class.map_or("no class", Class::name)),
        Kind::Plain | Kind::TryReserveError => None,
    }
}

// What an error is, and its text.
fn describe<H: Host>(out: &mut String, host: &H, error: u16) -> Result<(), AllocError> {
    // a host fills a part that is lent to it
    let mut buffer = [0u8; 255];
    let (Ok(kind), Ok(len)) = (host.kind(error), host.text(error, &mut buffer)) else {
        return writeln!(out, "not live");
    };
    write!(out, "{kind}")?;
    if let Some(word) = detail(kind) {
        write!(out, " {word}")?;
    }
    match std::str::from_utf8(&buffer[..len.min(255)]) {
        Ok(text) => writeln!(out, " {text:?}"),
        Err(_) => writeln!(out, " (a text that is not UTF-8)"),
    }
}

// A node for people: index, parent, error, place, and what the error is.
fn node_row<H: Host>(
    out: &mut String,
    host: &H,
    index: usize,
    node: &Node,
) -> Result<(), AllocError> {
    let error = node.error.number();
    let place = node.place;
    let owner = if node.native { "source" } else { "frame" };
    match node.parent {
        Some(parent) => write!(
            out,
            "    {index:>4} under {parent:<4} error {error:<5} {owner:<6} at {place:<10} "
        )?,
        None => write!(
            out,
            "    {index:>4} the root   error {error:<5} {owner:<6} at {place:<10} "
        )?,
    }
    describe(out, host, error)
}

// A print for people, each of its lines indented.
fn indented_print(out: &mut String, title: &str, print: &[u8]) -> Result<(), AllocError> {
    writeln!(out, "    {title}:")?;
    let Ok(text) = std::str::from_utf8(print) else {
        return writeln!(out, "      (not UTF-8)");
    };
    for line in text.lines() {
        if line.is_empty() {
            writeln!(out, "")?;
        } else {
            writeln!(out, "      {line}")?;
        }
    }
    Ok(())
}

// A report for people: class, verdicts, cause, one error a row, and the prints.
fn table<H: Host>(out: &mut String, host: &H, reading: &Reading) -> Result<(), AllocError> {
    match reading.class {
        Some(class) => write!(out, "    class {class}")?,
        None => write!(out, "    no class")?,
    }
    let strict = yes_or_no(reading.can_retry);
    let lenient = yes_or_no(reading.can_retry_lenient);
    let cause = reading.cause.number();
    writeln!(
        out,
        "; try again: {strict}, leniently: {lenient}; probable cause: error {cause}"
    )?;
    for (index, node) in reading.nodes.iter().enumerate() {
        node_row(out, host, index, node)?;
    }
    indented_print(out, "As a tree", reading.tree.as_slice())?;
    indented_print(out, "As a chain", reading.chain.as_slice())?;
    indented_print(out, "On one line", reading.inline.as_slice())
}

// What the questions answer of a report.
pub fn report<H: Host>(
    out: &mut String,
    printer: Printer,
    host: &H,
    reading: &Reading,
    of_chain: bool,
) -> Result<(), AllocError> {
    match printer.style {
        Style::Account => table(out, host, reading),
        Style::Plain => plain(printer.heap, out, host, reading, of_chain),
    }
}
