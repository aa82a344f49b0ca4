// A host that gains errors between the two calls.
use crate::plan::{KEPT, frame, grow};
use crate::tokens::{granted, refused};
use drive_host::drive::DriveHost;
use layers::marked::Marked;
use std::test::Fail;
use store::store::Store;
use vocabulary::fault::StoreFault;

#[test]
fn a_layer_gains_errors(rt: HostRuntime) -> Result<(), Fail> {
    let heap = rt.alloc();
    let mut host = Marked::new(DriveHost);
    let marked = host.mark(22, 0)?;
    assert_eq!(rt; marked, 48);
    let mut store = Store::new(1);
    let tree = [frame(0, 34, 1), frame(1, 48, 2), frame(1, 6, 3)];
    let report = grow(&rt, heap, &mut store, &host, &tree);
    let mut list = [KEPT; 8];
    let chain = granted(&rt, report.into_chain(&mut store, &host, &mut list));
    assert_eq!(rt; chain.nodes(), 7);

    assert_eq!(rt; granted(&rt, host.mark(48, 1)), 49);
    assert_eq!(rt; granted(&rt, host.mark(34, 2)), 50);
    let (fault, chain) = refused(&rt, chain.into_exn(&mut store, &DriveHost, &list));
    assert_eq!(rt; fault, StoreFault::NotFlattening(2));
    let report = granted(&rt, chain.into_exn(&mut store, &host, &list));
    assert_eq!(rt; store.free(), 1021);
    let mut again = [KEPT; 8];
    let chain = granted(&rt, report.into_chain(&mut store, &host, &mut again));
    assert_eq!(rt; chain.nodes(), 7);
    assert!(rt; again == list);
    Ok(())
}
