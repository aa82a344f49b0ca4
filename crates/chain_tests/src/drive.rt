// A report of two frames on the drive host, as a chain and back.
use crate::plan::{KEPT, front, node};
use crate::tokens::{granted, refused};
use drive_host::drive::DriveHost;
use nodes::node::Node;
use store::store::Store;
use store::token::Exn;
use vocabulary::fault::StoreFault;

// Error 34 over error 17, each with the sources beneath it.
fn flattening() -> [Node; 5] {
    [
        node(34, 9, false, None),
        node(18, 9, true, Some(0)),
        node(17, 7, false, Some(0)),
        node(2, 9, true, Some(1)),
        node(1, 7, true, Some(2)),
    ]
}

#[test]
fn two_frames_and_their_sources(rt: HostRuntime) {
    let mut store = Store::new(1);
    let report = granted(&rt, Exn::new(&mut store, &DriveHost, 17, 7));
    let report = granted(&rt, report.raise(&mut store, &DriveHost, 34, 9));
    let mut list = [KEPT; 5];
    let chain = granted(&rt, report.into_chain(&mut store, &DriveHost, &mut list));
    assert_eq!(rt; chain.nodes(), 5);
    assert_eq!(rt; store.free(), 1024);
    assert!(rt; list == flattening());

    let mut exchanged = list;
    exchanged.swap(3, 4);
    let (fault, chain) = refused(&rt, chain.into_exn(&mut store, &DriveHost, &exchanged));
    assert_eq!(rt; fault, StoreFault::NotFlattening(3));
    let (fault, chain) = refused(&rt, chain.into_exn(&mut store, &DriveHost, front(&list, 4)));
    assert_eq!(rt; fault, StoreFault::NotFlattening(4));
    assert_eq!(rt; chain.nodes(), 5);
    assert_eq!(rt; store.free(), 1024);

    let report = granted(&rt, chain.into_exn(&mut store, &DriveHost, &list));
    assert_eq!(rt; store.free(), 1022);
    let mut again = [KEPT; 5];
    let chain = granted(&rt, report.into_chain(&mut store, &DriveHost, &mut again));
    assert_eq!(rt; chain.nodes(), 5);
    assert!(rt; again == flattening());
}
