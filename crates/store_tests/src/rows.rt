// Baskets and children: reports of one, two and three frames show by their sizes in which order they come.
use crate::bench::Bench;
use std::test::Fail;
use vocabulary::fault::StoreFault;

// Puts a report of one, one of two and one of three frames into a new basket.
fn fill(bench: &mut Bench) -> Result<(), StoreFault> {
    bench.open()?;
    bench.begin(0, 0)?;
    bench.collect()?;
    bench.begin(1, 0)?;
    bench.raise(2, 0)?;
    bench.collect()?;
    bench.begin(3, 0)?;
    bench.chain(4, 0)?;
    bench.chain(5, 0)?;
    bench.collect()
}

// The frames that are free before and after each report of the basket is taken and discarded.
fn empty(bench: &mut Bench) -> Result<[usize; 4], StoreFault> {
    let mut free = [bench.free(); 4];
    for after in &mut free[1..] {
        bench.take()?;
        bench.discard()?;
        *after = bench.free();
    }
    Ok(free)
}

#[test]
fn collect_and_take_in_order(rt: HostRuntime) -> Result<(), Fail> {
    let mut bench = Bench::new(1);
    fill(&mut bench)?;
    assert_eq!(rt; empty(&mut bench)?, [1018, 1019, 1021, 1024]);
    assert_eq!(rt; bench.take(), Ok(false));
    assert_eq!(rt; bench.discard(), Err(StoreFault::NotHeld));
    assert_eq!(rt; bench.begin(6, 0), Ok(()));
    assert_eq!(rt; bench.collect(), Ok(()));
    assert_eq!(rt; bench.free(), 1023);
    assert_eq!(rt; bench.take(), Ok(true));
    assert_eq!(rt; bench.take(), Err(StoreFault::NotHeld));
    assert_eq!(rt; bench.discard(), Ok(()));
    assert_eq!(rt; bench.take(), Ok(false));
    Ok(())
}

#[test]
fn raise_all_and_drain_in_order(rt: HostRuntime) -> Result<(), Fail> {
    let mut bench = Bench::new(1);
    fill(&mut bench)?;
    assert_eq!(rt; bench.raise_all(7, 9), Ok(()));
    assert_eq!(rt; bench.free(), 1017);
    assert_eq!(rt; bench.drain(), Ok(()));
    assert_eq!(rt; bench.free(), 1017);
    assert_eq!(rt; bench.discard(), Ok(()));
    assert_eq!(rt; empty(&mut bench)?, [1018, 1019, 1021, 1024]);
    Ok(())
}

#[test]
fn chain_all_comes_last(rt: HostRuntime) -> Result<(), Fail> {
    let mut bench = Bench::new(1);
    fill(&mut bench)?;
    assert_eq!(rt; bench.begin(8, 0), Ok(()));
    assert_eq!(rt; bench.chain(9, 0), Ok(()));
    assert_eq!(rt; bench.chain_all(), Ok(()));
    assert_eq!(rt; bench.free(), 1016);
    assert_eq!(rt; bench.drain(), Ok(()));
    assert_eq!(rt; bench.discard(), Ok(()));
    assert_eq!(rt; empty(&mut bench)?, [1017, 1018, 1019, 1021]);
    assert_eq!(rt; bench.take(), Ok(true));
    assert_eq!(rt; bench.discard(), Ok(()));
    assert_eq!(rt; bench.free(), 1024);
    Ok(())
}

#[test]
fn chain_all_of_an_empty_basket(rt: HostRuntime) {
    let mut bench = Bench::new(1);
    assert_eq!(rt; bench.begin(8, 0), Ok(()));
    assert_eq!(rt; bench.open(), Ok(()));
    assert_eq!(rt; bench.chain_all(), Ok(()));
    assert_eq!(rt; bench.free(), 1023);
    assert_eq!(rt; bench.drain(), Ok(()));
    assert_eq!(rt; bench.discard(), Ok(()));
    assert_eq!(rt; bench.take(), Ok(false));
}

#[test]
fn discard_of_a_basket(rt: HostRuntime) -> Result<(), Fail> {
    let mut bench = Bench::new(1);
    fill(&mut bench)?;
    assert_eq!(rt; bench.begin(8, 0), Ok(()));
    assert_eq!(rt; bench.discard_all(), Ok(()));
    assert_eq!(rt; bench.free(), 1023);
    assert_eq!(rt; bench.open(), Ok(()));
    assert_eq!(rt; bench.discard_all(), Ok(()));
    assert_eq!(rt; bench.free(), 1023);
    Ok(())
}
