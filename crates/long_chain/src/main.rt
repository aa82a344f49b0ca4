// One error above a long run of sources: its report is printed as a tree and becomes a chain, the chain is printed and asked
// for its errors, and it becomes a report again.
#![tactic(auto)]

use anyhow::{anyhow, ensure};
use chains::iter::iter_chain_errors;
use nodes::node::{BLANK, Node};
use prints::chain::{print_chain, print_chain_inline};
use prints::report::print_tree;
use std::alloc::{AllocError, Global};
use std::env;
use store::chain::ChainedError;
use store::store::Store;
use store::token::{Exn, Refusal};
use table_host::record::Record;
use table_host::table::TableHost;
use vocabulary::fault::{PrintFault, StoreFault};

const USAGE: &str = "usage: long_chain [SOURCES]

Makes a report of one error above so many sources (0 to 65535; 65535 if no number
is given), each the source of the one before. The report becomes a chain in a
list of as many nodes as needed; before, it is printed as a tree, and after, as a
chain in both forms. The chain is asked for its errors and becomes a report
again. Prints the counts.";

// So many bytes are room for a line: its text is empty.
const LINE: usize = 24;

// Plain errors without text, each of which has the number below it as its source; the first has none.
fn run_of_sources(heap: Global, sources: u16) -> Result<TableHost, AllocError> {
    let records: Vec<Record> = (0..=sources)
        .map(|error| Record {
            kind: 0,
            detail: 0,
            source: error.checked_sub(1),
            start: 0,
            len: 0,
        })
        .collect(heap)?;
    TableHost::new(heap, records, Vec::new(heap)).map_err(|_| AllocError)
}

// The chain of a report of one frame, and how many bytes its print as a tree has.
fn flatten(
    store: &mut Store,
    host: &TableHost,
    error: u16,
    list: &mut [Node],
    buffer: &mut [u8],
) -> Result<(ChainedError, Result<usize, PrintFault>), StoreFault> {
    let report = Exn::new(store, host, error, 1)?;
    let printed = print_tree(store, host, &report, list, buffer);
    match report.into_chain(store, host, list) {
        Ok(chain) => Ok((chain, printed)),
        Err(Refusal { fault, given }) => {
            given.discard(store).unwrap();
            Err(fault)
        }
    }
}

// How many frames the report of a chain takes, which is then discarded.
fn rebuild(
    store: &mut Store,
    host: &TableHost,
    chain: ChainedError,
    list: &[Node],
) -> Result<usize, StoreFault> {
    let free = store.free();
    match chain.into_exn(store, host, list) {
        Ok(report) => {
            let left = store.free();
            report.discard(store).unwrap();
            Ok(free.saturating_sub(left))
        }
        Err(Refusal { fault, given: _ }) => Err(fault),
    }
}

// The words are this program's. No `From`: both types are other crates'.
fn fault_text(fault: StoreFault) -> anyhow::Error {
    let number = fault.number();
    anyhow!("refused with {number}")
}

fn print_fault_text(fault: PrintFault) -> anyhow::Error {
    let number = fault.number();
    anyhow!("refused with {number}")
}

fn print_counts(rt: &HostRuntime, sources: u16) -> anyhow::Result<()> {
    let heap = rt.alloc();
    let host = run_of_sources(heap, sources)?;
    let room = usize::from(sources) + 1;
    let mut list = vec![in heap; BLANK; room]?;
    let mut errors = vec![in heap; BLANK; room]?;
    let mut buffer = vec![in heap; 0u8; room.saturating_mul(LINE)]?;
    let mut store = Store::new(1);
    let (chain, printed) = flatten(
        &mut store,
        &host,
        sources,
        list.as_mut_slice(),
        buffer.as_mut_slice(),
    )
    .map_err(fault_text)?;
    let tree = printed.map_err(print_fault_text)?;
    println!(rt; "bytes of the tree: {tree}")?;
    let nodes = chain.nodes();
    println!(rt; "nodes of the chain: {nodes}")?;
    let lines = print_chain(&chain, &host, list.as_slice(), buffer.as_mut_slice()).map_err(
        print_fault_text,
    )?;
    println!(rt; "bytes of the chain: {lines}")?;
    let inline = print_chain_inline(&chain, &host, list.as_slice(), buffer.as_mut_slice()).map_err(
        print_fault_text,
    )?;
    println!(rt; "bytes of the chain on one line: {inline}")?;
    let shown = iter_chain_errors(&chain, &host, list.as_slice(), errors.as_mut_slice()).map_err(
        fault_text,
    )?;
    println!(rt; "errors of the chain: {shown}")?;
    let frames = rebuild(&mut store, &host, chain, list.as_slice()).map_err(fault_text)?;
    println!(rt; "frames of the report again: {frames}")?;
    let free = store.free();
    println!(rt; "frames free at the end: {free}")?;
    Ok(())
}

fn run(rt: &HostRuntime) -> anyhow::Result<()> {
    let mut args = env::args(rt)?;
    let _program = args.next();
    let Some(word) = args.next() else {
        return print_counts(rt, u16::MAX);
    };
    ensure!(args.next().is_none(), "one number, or --help");
    if word.as_str() == "--help" {
        println!(rt; "{USAGE}")?;
        return Ok(());
    }
    print_counts(rt, word.as_str().parse::<u16>()?)
}

fn main(rt: HostRuntime) -> anyhow::Result<()> {
    run(&rt)
}
