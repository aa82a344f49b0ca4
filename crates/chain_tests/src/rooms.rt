// Lists and stores with too little room, just enough, and more.
use crate::plan::{KEPT, front, node};
use crate::tokens::{discard, granted, refused};
use chains::iter::iter_chain_errors;
use drive_host::drive::DriveHost;
use nodes::node::Node;
use std::alloc::{AllocError, Global};
use std::process::Abort;
use std::test::Fail;
use store::chain::ChainedError;
use store::store::Store;
use store::token::Exn;
use vocabulary::fault::StoreFault;

// Error 16 over error 1: three nodes.
fn small(rt: &impl Abort, store: &mut Store) -> Exn {
    let report = granted(rt, Exn::new(store, &DriveHost, 1, 7));
    granted(rt, report.raise(store, &DriveHost, 16, 8))
}

#[test]
fn lists_of_every_length(rt: HostRuntime) {
    let flattening = [
        node(16, 8, false, None),
        node(0, 8, true, Some(0)),
        node(1, 7, false, Some(0)),
    ];
    let mut store = Store::new(1);
    for length in 0..6usize {
        let mut list = [KEPT; 6];
        let report = small(&rt, &mut store);
        let answer = report.into_chain(&mut store, &DriveHost, &mut list[..length]);
        if length < 3 {
            let (fault, report) = refused(&rt, answer);
            assert_eq!(rt; fault, StoreFault::ListTooShort(3));
            assert!(rt; list == [KEPT; 6]);
            assert_eq!(rt; store.free(), 1022);
            discard(&rt, &mut store, report);
        } else {
            assert_eq!(rt; granted(&rt, answer).nodes(), 3);
            assert!(rt; front(&list, 3) == flattening.as_slice());
            assert!(rt; list.iter().skip(3).all(|node| *node == KEPT));
        }
        assert_eq!(rt; store.free(), 1024);
    }
}

#[test]
fn an_empty_list(rt: HostRuntime) {
    let mut store = Store::new(1);
    let chain = ChainedError::of(&[]);
    let none = StoreFault::NotFlattening(0);
    assert_eq!(rt;
        iter_chain_errors(&chain, &DriveHost, &[], &mut []),
        Err(none)
    );
    let (fault, chain) = refused(&rt, chain.into_exn(&mut store, &DriveHost, &[]));
    assert_eq!(rt; fault, none);
    assert_eq!(rt; chain.nodes(), 0);
}

// A frame over so many others that have no sources.
fn wide(heap: Global, others: usize) -> Result<Vec<Node>, AllocError> {
    let mut list = vec![in heap; node(5, 1, false, Some(0)); others]?;
    list.insert(0, node(4, 2, false, None))?;
    Ok(list)
}

#[test]
fn more_frames_than_a_store_has(rt: HostRuntime) -> Result<(), Fail> {
    let mut store = Store::new(1);
    for others in 1024..1030usize {
        let list = wide(rt.alloc(), others)?;
        let list = list.as_slice();
        let (fault, chain) = refused(
            &rt,
            ChainedError::of(list).into_exn(&mut store, &DriveHost, list),
        );
        assert_eq!(rt; fault, StoreFault::NoFrames(list.len()));
        assert_eq!(rt; chain.nodes(), list.len());
        assert_eq!(rt; store.free(), 1024);
    }
    Ok(())
}

#[test]
fn too_few_frames(rt: HostRuntime) -> Result<(), Fail> {
    let mut store = Store::new(1);
    let list = wide(rt.alloc(), 1022)?;
    let list = list.as_slice();
    let other = small(&rt, &mut store);
    let chain = ChainedError::of(list);
    let (fault, chain) = refused(&rt, chain.into_exn(&mut store, &DriveHost, list));
    assert_eq!(rt; fault, StoreFault::NoFrames(1023));
    assert_eq!(rt; store.free(), 1022);
    discard(&rt, &mut store, other);
    let last = granted(&rt, Exn::new(&mut store, &DriveHost, 0, 0));
    let report = granted(&rt, chain.into_exn(&mut store, &DriveHost, list));
    assert_eq!(rt; store.free(), 0);
    discard(&rt, &mut store, last);
    discard(&rt, &mut store, report);
    assert_eq!(rt; store.free(), 1024);
    Ok(())
}
