// A store without a free frame.
use crate::bench::Bench;
use std::test::Fail;
use vocabulary::fault::{HostFault, StoreFault};

// A bench with a basket of 1,024 reports of one frame.
fn filled() -> Result<Bench, StoreFault> {
    let mut bench = Bench::new(1);
    bench.open()?;
    for place in 0..1024u32 {
        bench.begin(0, place)?;
        bench.collect()?;
    }
    Ok(bench)
}

#[test]
fn first_of_several_causes(rt: HostRuntime) -> Result<(), Fail> {
    let dead = Err(StoreFault::Host(HostFault::NotLive(48)));
    let refused = Some(StoreFault::NotHeld);
    let mut full = filled()?;
    let mut other = Bench::new(2);
    other.begin(0, 0)?;
    other.open()?;
    // another store's, with an error that is not live and no free frame
    assert_eq!(rt; other.raise_in(&mut full, 48), refused);
    assert_eq!(rt; other.raise_all_in(&mut full, 48), refused);
    assert_eq!(rt; other.raise_in(&mut full, 0), refused);
    assert_eq!(rt; other.raise_all_in(&mut full, 0), refused);
    // an error that is not live, and no free frame
    assert_eq!(rt; full.begin(48, 0), dead);
    assert_eq!(rt; full.raise_all(48, 0), dead);
    assert_eq!(rt; full.take(), Ok(true));
    assert_eq!(rt; full.raise(48, 0), dead);
    assert_eq!(rt; full.free(), 0);
    assert_eq!(rt; other.free(), 1023);
    Ok(())
}

#[test]
fn full_store(rt: HostRuntime) -> Result<(), Fail> {
    let full = Err(StoreFault::NoFrames(1));
    let mut bench = filled()?;
    assert_eq!(rt; bench.free(), 0);
    assert_eq!(rt; bench.begin(0, 0), full);
    assert_eq!(rt; bench.raise_all(0, 0), full);
    assert_eq!(rt; bench.take(), Ok(true));
    assert_eq!(rt; bench.raise(0, 0), full);
    assert_eq!(rt; bench.free(), 0);
    assert_eq!(rt; bench.discard(), Ok(()));
    assert_eq!(rt; bench.free(), 1);
    assert_eq!(rt; bench.take(), Ok(true));
    assert_eq!(rt; bench.raise(0, 0), Ok(()));
    assert_eq!(rt; bench.free(), 0);
    assert_eq!(rt; bench.discard_all(), Ok(()));
    assert_eq!(rt; bench.free(), 1022);
    Ok(())
}
