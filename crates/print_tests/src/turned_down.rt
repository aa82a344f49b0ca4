// Prints that are turned down: why, in which order, and what they leave.
use crate::reports::{granted, marked_drive, refused};
use drive_host::drive::DriveHost;
use nodes::node::{BLANK, Node};
use prints::chain::print_chain;
use prints::report::print_tree;
use std::alloc::AllocError;
use std::test::Fail;
use store::chain::ChainedError;
use store::store::Store;
use store::token::Exn;
use table_host::record::Record;
use table_host::table::TableHost;
use vocabulary::fault::{HostFault, PrintFault, StoreFault};
use vocabulary::frame_error::FrameError;

#[test]
fn tree_in_order_of_causes(rt: HostRuntime) -> Result<(), Fail> {
    let host = marked_drive(&rt);
    let mut store = Store::new(1);
    let other = Store::new(2);
    let report = granted(&rt, Exn::new(&mut store, &host, 48, 1));
    let mut list = [BLANK; 2];
    let mut buffer = [7u8; 8];
    // another store's, and the error would not be live either
    let fault = refused(
        &rt,
        print_tree(&other, &DriveHost, &report, &mut [], &mut buffer),
    );
    assert!(rt; fault == PrintFault::Store(StoreFault::NotHeld) && fault.number() == 3);
    // not live, and the list would be too short
    let fault = refused(
        &rt,
        print_tree(&store, &DriveHost, &report, &mut [], &mut buffer),
    );
    assert!(rt; fault == PrintFault::Host(HostFault::NotLive(48)) && fault.number() == 1);
    // the list is too short, and so would the buffer be
    let fault = refused(
        &rt,
        print_tree(&store, &host, &report, &mut list[..1], &mut buffer[..6]),
    );
    assert!(rt; fault == PrintFault::Store(StoreFault::ListTooShort(2)) && fault.number() == 4);
    assert!(rt; list == [BLANK; 2] && buffer == [7; 8]);
    // the buffer is too short: the list holds the nodes
    let fault = refused(
        &rt,
        print_tree(&store, &host, &report, &mut list, &mut buffer[..6]),
    );
    assert!(rt; fault == PrintFault::BufferTooShort(7) && fault.number() == 6);
    assert!(rt; list[1].native && list[1].parent == Some(0) && buffer == [7; 8]);
    let written = granted(
        &rt,
        print_tree(&store, &host, &report, &mut list, &mut buffer),
    );
    assert!(rt; written == 7 && buffer == *b"gauge 6\x07");
    granted(&rt, report.discard(&mut store));
    Ok(())
}

#[test]
fn chain_that_is_none(rt: HostRuntime) -> Result<(), Fail> {
    let mut buffer = [7u8; 8];
    let empty: [Node; 0] = [];
    let fault = refused(
        &rt,
        print_chain(&ChainedError::of(&empty), &DriveHost, &empty, &mut buffer),
    );
    assert!(rt; fault == PrintFault::Store(StoreFault::NotFlattening(0)) && fault.number() == 5);
    // error 16 has a source, which is missing; the buffer would be too short too
    let cut = [Node {
        error: FrameError::Host(16),
        ..BLANK
    }];
    let fault = refused(
        &rt,
        print_chain(&ChainedError::of(&cut), &DriveHost, &cut, &mut buffer[..1]),
    );
    assert!(rt; fault == PrintFault::Store(StoreFault::NotFlattening(1)) && buffer == [7; 8]);
    Ok(())
}

#[test]
fn seen_through_markers(rt: HostRuntime) -> Result<(), Fail> {
    let mut host = marked_drive(&rt);
    let around = granted(&rt, host.mark(48, 3));
    let mut store = Store::new(1);
    let report = granted(&rt, Exn::new(&mut store, &host, around, 1));
    let mut list = [BLANK; 3];
    let mut buffer = [7u8; 8];
    let written = granted(
        &rt,
        print_tree(&store, &host, &report, &mut list, &mut buffer),
    );
    assert!(rt; written == 7 && buffer == *b"gauge 6\x07");
    granted(&rt, report.discard(&mut store));
    Ok(())
}

#[test]
fn markers_alone(rt: HostRuntime) -> Result<(), Fail> {
    let heap = rt.alloc();
    let marker = Record {
        kind: 2,
        detail: 0,
        source: None,
        start: 0,
        len: 2,
    };
    let host = TableHost::new(heap, vec![in heap; marker]?, Vec::from_slice(heap, b"ab")?).map_err(
        |_| AllocError,
    )?;
    let mut store = Store::new(1);
    let report = granted(&rt, Exn::new(&mut store, &host, 0, 1));
    let mut list = [BLANK; 1];
    let mut buffer = [7u8; 3];
    let fault = refused(
        &rt,
        print_tree(&store, &host, &report, &mut list, &mut buffer[..1]),
    );
    assert!(rt; fault == PrintFault::BufferTooShort(2) && buffer == [7; 3]);
    let written = granted(
        &rt,
        print_tree(&store, &host, &report, &mut list, &mut buffer),
    );
    assert!(rt; written == 2 && buffer == *b"ab\x07");
    let written = granted(
        &rt,
        print_chain(&ChainedError::of(&list), &host, &list, &mut buffer[1..]),
    );
    assert!(rt; written == 2 && buffer == *b"aab");
    granted(&rt, report.discard(&mut store));
    Ok(())
}
