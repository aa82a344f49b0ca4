// Calls that are turned down, what they answer, and that nothing changes.
use crate::bench::Bench;
use std::test::Fail;
use vocabulary::fault::{HostFault, StoreFault};

// A bench with a report of two frames outside and one of one frame in its basket.
fn two(number: u32) -> Result<Bench, StoreFault> {
    let mut bench = Bench::new(number);
    bench.open()?;
    bench.begin(0, 0)?;
    bench.collect()?;
    bench.begin(1, 0)?;
    bench.raise(2, 0)?;
    Ok(bench)
}

#[test]
fn errors_that_are_not_live(rt: HostRuntime) {
    let dead = Err(StoreFault::Host(HostFault::NotLive(48)));
    let mut bench = Bench::new(1);
    assert_eq!(rt; bench.begin(48, 0), dead);
    assert_eq!(rt; bench.free(), 1024);
    assert_eq!(rt;
        bench.begin(65535, 0),
        Err(StoreFault::Host(HostFault::NotLive(65535)))
    );
    assert_eq!(rt; bench.begin(47, 0), Ok(()));
    assert_eq!(rt; bench.raise(48, 0), dead);
    assert_eq!(rt; bench.chain(48, 0), dead);
    assert_eq!(rt; bench.free(), 1023);
    assert_eq!(rt; bench.open(), Ok(()));
    assert_eq!(rt; bench.collect(), Ok(()));
    assert_eq!(rt; bench.raise_all(48, 0), dead);
    assert_eq!(rt; bench.free(), 1023);
    assert_eq!(rt; bench.take(), Ok(true));
    assert_eq!(rt; bench.raise_all(48, 0), Err(StoreFault::NotHeld));
    assert_eq!(rt; bench.discard(), Ok(()));
    assert_eq!(rt; bench.raise_all(48, 0), dead);
    assert_eq!(rt; bench.free(), 1024);
}

#[test]
fn reports_of_another_store(rt: HostRuntime) -> Result<(), Fail> {
    let mut one = two(1)?;
    let mut other = two(2)?;
    let refused = Some(StoreFault::NotHeld);
    assert_eq!(rt; one.raise_in(&mut other, 0), refused);
    assert_eq!(rt; one.chain_in(&mut other), refused);
    assert_eq!(rt; one.chain_onto(&mut other), refused);
    assert_eq!(rt; one.collect_in(&mut other), refused);
    assert_eq!(rt; one.discard_in(&mut other), refused);
    assert_eq!(rt; one.drain_in(&mut other), refused);
    assert_eq!(rt; one.free(), 1021);
    assert_eq!(rt; other.free(), 1021);
    assert_eq!(rt; one.discard(), Ok(()));
    assert_eq!(rt; other.discard(), Ok(()));
    assert_eq!(rt; one.free(), 1023);
    assert_eq!(rt; other.free(), 1023);
    Ok(())
}

#[test]
fn baskets_of_another_store(rt: HostRuntime) -> Result<(), Fail> {
    let mut one = two(1)?;
    let mut other = two(2)?;
    let refused = Some(StoreFault::NotHeld);
    assert_eq!(rt; one.collect_from(&mut other), refused);
    assert_eq!(rt; one.take_in(&mut other), refused);
    assert_eq!(rt; one.raise_all_in(&mut other, 0), refused);
    assert_eq!(rt; one.chain_all_in(&mut other), refused);
    assert_eq!(rt; one.chain_all_onto(&mut other), refused);
    assert_eq!(rt; one.discard_all_in(&mut other), refused);
    assert_eq!(rt; one.free(), 1021);
    assert_eq!(rt; other.free(), 1021);
    assert_eq!(rt; one.discard_all(), Ok(()));
    assert_eq!(rt; other.discard_all(), Ok(()));
    assert_eq!(rt; one.free(), 1022);
    assert_eq!(rt; other.free(), 1022);
    Ok(())
}

#[test]
fn empty_baskets_of_another_store(rt: HostRuntime) -> Result<(), Fail> {
    let mut one = Bench::new(1);
    let mut other = two(2)?;
    let refused = Some(StoreFault::NotHeld);
    one.open()?;
    assert_eq!(rt; one.take_in(&mut other), refused);
    assert_eq!(rt; one.raise_all_in(&mut other, 0), refused);
    assert_eq!(rt; one.chain_all_in(&mut other), refused);
    assert_eq!(rt; one.discard_all_in(&mut other), refused);
    assert_eq!(rt; other.free(), 1021);
    assert_eq!(rt; one.discard_all(), Ok(()));
    Ok(())
}
