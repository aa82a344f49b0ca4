// Reports and chains that are refused, and the order of the causes.
use crate::hosts::branched;
use crate::plan::{KEPT, frame, front, grow, listing};
use crate::tokens::{discard, granted, refused};
use chains::iter::{iter_chain_errors, iter_errors};
use drive_host::drive::DriveHost;
use std::test::Fail;
use store::chain::ChainedError;
use store::store::Store;
use vocabulary::fault::{HostFault, StoreFault};

// Breadth-first the frames have the errors 0, 1, 41 and 40, of which the last two are live on the drive host only.
#[test]
fn reports_refused_in_order(rt: HostRuntime) -> Result<(), Fail> {
    let heap = rt.alloc();
    let table = branched(heap)?;
    let tree = [
        frame(0, 0, 1),
        frame(1, 1, 2),
        frame(2, 40, 3),
        frame(1, 41, 4),
    ];
    let mut store = Store::new(1);
    let mut other = Store::new(2);
    let mut none = [KEPT; 7];
    let report = grow(&rt, heap, &mut store, &DriveHost, &tree);
    assert_eq!(rt;
        iter_errors(&other, &table, &report, &mut none),
        Err(StoreFault::NotHeld)
    );
    let (fault, report) = refused(&rt, report.into_chain(&mut other, &table, &mut none));
    assert_eq!(rt; fault, StoreFault::NotHeld);

    let dead = StoreFault::Host(HostFault::NotLive(41));
    assert_eq!(rt; iter_errors(&store, &table, &report, &mut none), Err(dead));
    let (fault, report) = refused(&rt, report.into_chain(&mut store, &table, &mut none));
    assert_eq!(rt; fault, dead);

    let short = StoreFault::ListTooShort(8);
    assert_eq!(rt;
        iter_errors(&store, &DriveHost, &report, &mut none),
        Err(short)
    );
    let (fault, report) = refused(&rt, report.into_chain(&mut store, &DriveHost, &mut none));
    assert_eq!(rt; fault, short);

    assert!(rt; none == [KEPT; 7]);
    assert_eq!(rt; store.free(), 1020);
    assert_eq!(rt; other.free(), 1024);
    discard(&rt, &mut store, report);
    Ok(())
}

// A chain is looked at before the room for its errors.
#[test]
fn chains_refused_in_order(rt: HostRuntime) -> Result<(), Fail> {
    let heap = rt.alloc();
    let list = listing(heap, &DriveHost, &[frame(0, 34, 1), frame(1, 17, 2)])?;
    let list = list.as_slice();
    let chain = ChainedError::of(list);
    let mut room = [KEPT; 4];
    let dead = Err(StoreFault::NotFlattening(0));
    let table = branched(heap)?;
    assert_eq!(rt; iter_chain_errors(&chain, &table, list, &mut room), dead);
    assert_eq!(rt;
        iter_chain_errors(&chain, &DriveHost, front(list, 4), &mut room[..3]),
        Err(StoreFault::NotFlattening(4))
    );
    assert_eq!(rt;
        iter_chain_errors(&chain, &DriveHost, list, &mut room),
        Err(StoreFault::ListTooShort(5))
    );
    assert!(rt; room == [KEPT; 4]);
    Ok(())
}

// The place of a source has to be that of the frame above it, and a list that was damaged is refused as it stands.
#[test]
fn a_damaged_chain_comes_back(rt: HostRuntime) -> Result<(), Fail> {
    let list = listing(rt.alloc(), &DriveHost, &[frame(0, 16, 1)])?;
    let mut list = list;
    let mut store = Store::new(1);
    let mut chain = ChainedError::of(list.as_slice());
    for place in 2..5u32 {
        for node in list.as_mut_slice().iter_mut().skip(1) {
            node.place = place;
        }
        let (fault, given) = refused(&rt, chain.into_exn(&mut store, &DriveHost, list.as_slice()));
        assert_eq!(rt; fault, StoreFault::NotFlattening(1));
        chain = given;
    }
    for node in list.as_mut_slice().iter_mut().skip(1) {
        node.place = 1;
    }
    let report = granted(&rt, chain.into_exn(&mut store, &DriveHost, list.as_slice()));
    discard(&rt, &mut store, report);
    Ok(())
}
