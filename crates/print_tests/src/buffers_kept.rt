// A print stands in its part of a buffer and nowhere else; where the part is too short, nothing stands there.
use crate::reports::{fork, granted, marked_drive, refused};
use host::host::Host;
use nodes::node::{BLANK, Node};
use prints::chain::{print_chain, print_chain_inline};
use prints::report::print_tree;
use std::process::Abort;
use std::test::Fail;
use store::chain::ChainedError;
use store::store::Store;
use store::token::Exn;
use vocabulary::fault::PrintFault;

const FILLED: u8 = 0xaa;

const START: usize = 40;

// Which form is printed.
#[derive(Clone, Copy)]
enum Form {
    Tree,
    Chain,
    Inline,
}

// Prints a report in a form into a part.
fn print<H: Host>(
    store: &Store,
    host: &H,
    report: &Exn,
    form: Form,
    list: &mut [Node],
    part: &mut [u8],
) -> Result<usize, PrintFault> {
    match form {
        Form::Tree => print_tree(store, host, report, list, part),
        Form::Chain => print_chain(&ChainedError::of(list), host, list, part),
        Form::Inline => print_chain_inline(&ChainedError::of(list), host, list, part),
    }
}

// Whether all bytes are as they were filled.
fn is_kept(bytes: &[u8]) -> bool {
    bytes.iter().all(|byte| *byte == FILLED)
}

// Prints into a part that is exact, and into one that is a byte short.
fn check_form<H: Host>(
    rt: &impl Abort,
    store: &Store,
    host: &H,
    report: &Exn,
    form: Form,
    list: &mut [Node],
    expected: &str,
) {
    let mut buffer = [FILLED; 400];
    let end = START + expected.len().clamp(1, 300);
    let part = &mut buffer[START..end];
    let written = granted(rt, print(store, host, report, form, list, part));
    assert!(rt; written == expected.len() && &buffer[START..end] == expected.as_bytes());
    assert!(rt; is_kept(&buffer[..START]) && is_kept(&buffer[end..]));
    let mut buffer = [FILLED; 400];
    let short = &mut buffer[START..end - 1];
    let fault = refused(rt, print(store, host, report, form, list, short));
    assert!(rt; fault == PrintFault::BufferTooShort(expected.len()));
    assert!(rt; is_kept(&buffer));
}

// A report in all three forms. The list has exactly the report's nodes, and holds them after each print.
fn check<H: Host>(
    rt: &impl Abort,
    store: &Store,
    host: &H,
    report: &Exn,
    list: &mut [Node],
    expected: [&str; 3],
) {
    let [tree, chain, inline] = expected;
    check_form(rt, store, host, report, Form::Tree, list, tree);
    let mut again = [BLANK; 8];
    let nodes = granted(
        rt,
        chains::iter::list_nodes(store, host, report, &mut again),
    );
    assert!(rt; &again[..nodes.min(8)] == list);
    check_form(rt, store, host, report, Form::Chain, list, chain);
    check_form(rt, store, host, report, Form::Inline, list, inline);
}

#[test]
fn exact_and_one_byte_short(rt: HostRuntime) -> Result<(), Fail> {
    let host = marked_drive(&rt);
    let mut store = Store::new(1);
    let report = fork(&rt, &mut store, &host, 19, 6, 17);
    let mut list = [BLANK; 5];
    check(
        &rt,
        &store,
        &host,
        &report,
        &mut list,
        [
            "drive 3\n\nCaused by:\n    ├─0: gauge 3\n    ├─1: gauge 6\n    └─2: drive 1\n      └─ gauge 1",
            "drive 3\n\nCaused by:\n    0: gauge 3\n    1: gauge 6\n    2: drive 1\n    3: gauge 1",
            "drive 3: gauge 3: gauge 6: drive 1: gauge 1",
        ],
    );
    granted(&rt, report.discard(&mut store));
    Ok(())
}

#[test]
fn heads_beneath_a_marker(rt: HostRuntime) -> Result<(), Fail> {
    let host = marked_drive(&rt);
    let mut store = Store::new(1);
    let report = fork(&rt, &mut store, &host, 48, 1, 17);
    let mut list = [BLANK; 5];
    check(
        &rt,
        &store,
        &host,
        &report,
        &mut list,
        [
            "gauge 6\ngauge 1\ndrive 1\n\nCaused by:\n    0: gauge 1",
            "gauge 6\n\nCaused by:\n    0: gauge 1\n    1: drive 1\n    2: gauge 1",
            "gauge 6: gauge 1: drive 1: gauge 1",
        ],
    );
    granted(&rt, report.discard(&mut store));
    Ok(())
}
