// The errors of a report and of its chain, some of which are markers.
use crate::hosts::{marker, plain, table};
use crate::plan::{KEPT, frame, front, grow, node};
use crate::tokens::granted;
use chains::iter::{iter_chain_errors, iter_errors};
use std::test::Fail;
use store::store::Store;

// The nodes are breadth-first 1, 0 (its source), 2, 3, 2 (the source of 3); the markers are 1 and 3.
#[test]
fn markers_are_left_out(rt: HostRuntime) -> Result<(), Fail> {
    let heap = rt.alloc();
    let records = vec![in heap; plain(None), marker(0), plain(None), marker(2)]?;
    let host = table(heap, records)?;
    let tree = [frame(0, 1, 7), frame(1, 2, 8), frame(1, 3, 9)];
    let zero = node(0, 0, false, None);
    let shown = [
        zero,
        node(2, 0, false, None),
        node(2, 0, false, None),
        zero,
        zero,
        KEPT,
        KEPT,
    ];
    let mut store = Store::new(1);
    let report = grow(&rt, heap, &mut store, &host, &tree);

    let mut list = [KEPT; 7];
    assert_eq!(rt; iter_errors(&store, &host, &report, &mut list), Ok(3));
    assert!(rt; list == shown);
    let mut exact = [KEPT; 5];
    assert_eq!(rt; iter_errors(&store, &host, &report, &mut exact), Ok(3));
    assert!(rt; exact.as_slice() == front(&list, 5));

    let mut nodes = [KEPT; 6];
    let chain = granted(&rt, report.into_chain(&mut store, &host, &mut nodes));
    let before = nodes;
    list = [KEPT; 7];
    assert_eq!(rt; iter_chain_errors(&chain, &host, &nodes, &mut list), Ok(3));
    assert!(rt; list == shown);
    assert!(rt; nodes == before);
    Ok(())
}

#[test]
fn a_marker_alone(rt: HostRuntime) -> Result<(), Fail> {
    let heap = rt.alloc();
    let records = vec![in heap; plain(None), marker(0), marker(1)]?;
    let host = table(heap, records)?;
    let mut store = Store::new(1);
    let report = grow(&rt, heap, &mut store, &host, &[frame(0, 2, 7)]);
    let mut list = [KEPT; 4];
    assert_eq!(rt; iter_errors(&store, &host, &report, &mut list), Ok(1));
    let zero = node(0, 0, false, None);
    assert!(rt; list == [zero, zero, zero, KEPT]);
    granted(&rt, report.discard(&mut store));
    Ok(())
}
