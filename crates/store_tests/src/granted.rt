// Each building call granted, and the free frames after it.
use crate::bench::Bench;

#[test]
fn new_and_discard(rt: HostRuntime) {
    let mut bench = Bench::new(1);
    assert_eq!(rt; bench.free(), 1024);
    assert_eq!(rt; bench.begin(0, 5), Ok(()));
    assert_eq!(rt; bench.free(), 1023);
    assert_eq!(rt; bench.discard(), Ok(()));
    assert_eq!(rt; bench.free(), 1024);
}

#[test]
fn raise_and_chain(rt: HostRuntime) {
    let mut bench = Bench::new(1);
    assert_eq!(rt; bench.begin(47, u32::MAX), Ok(()));
    assert_eq!(rt; bench.raise(1, 0), Ok(()));
    assert_eq!(rt; bench.free(), 1022);
    assert_eq!(rt; bench.chain(2, 0), Ok(()));
    assert_eq!(rt; bench.free(), 1021);
    assert_eq!(rt; bench.raise(3, 0), Ok(()));
    assert_eq!(rt; bench.free(), 1020);
    assert_eq!(rt; bench.discard(), Ok(()));
    assert_eq!(rt; bench.free(), 1024);
}

#[test]
fn raise_all_over_an_empty_basket(rt: HostRuntime) {
    let mut bench = Bench::new(1);
    assert_eq!(rt; bench.open(), Ok(()));
    assert_eq!(rt; bench.free(), 1024);
    assert_eq!(rt; bench.raise_all(4, 1), Ok(()));
    assert_eq!(rt; bench.free(), 1023);
    assert_eq!(rt; bench.drain(), Ok(()));
    assert_eq!(rt; bench.free(), 1023);
    assert_eq!(rt; bench.discard(), Ok(()));
    assert_eq!(rt; bench.free(), 1024);
    assert_eq!(rt; bench.take(), Ok(false));
    assert_eq!(rt; bench.discard_all(), Ok(()));
    assert_eq!(rt; bench.free(), 1024);
}
