// Reports built by calls of one kind, and discarded.
ghost use Rattle.std.specs.Prelude.{◌≡◌, true};
ghost use Rattle.store.specs.Calls.{basket_held, report_held};

use store::store::Store;
use store::token::{Basket, Exn, Refusal};
use table_host::table::TableHost;
use vocabulary::fault::StoreFault;

#[derive(Clone, Copy)]
pub enum Build {
    Raises,
    Joins,
    RaiseAll,
}

impl Build {
    pub fn of(number: u8) -> Option<Build> {
        match number {
            0 => Some(Build::Raises),
            1 => Some(Build::Joins),
            2 => Some(Build::RaiseAll),
            _ => None,
        }
    }
}

// A new root over a report, or the report where that is turned down.
fn raised(store: &mut Store, host: &TableHost, report: Exn, place: u32) -> Exn
    requires { report_held store.old report ≡ true }
    ensures { report_held store.new result ≡ true }
{
    match report.raise(store, host, 0, place) {
        Ok(raised) => raised,
        Err(Refusal { fault: _, given }) => given,
    }
}

// How many frames are left free by a report, which is discarded.
fn discarded(store: &mut Store, report: Exn) -> u64
    requires { report_held store.old report ≡ true }
{
    let free = store.free();
    report.discard(store).unwrap();
    free as u64
}

// `size` raises, one over the other.
fn raises(store: &mut Store, host: &TableHost, size: u32) -> Result<u64, StoreFault> {
    let mut report = Exn::new(store, host, 0, 0)?;
    for place in 0..size {
        report = raised(store, host, report, place);
    }
    Ok(discarded(store, report))
}

// `size` joins under one root.
fn joins(store: &mut Store, host: &TableHost, size: u32) -> Result<u64, StoreFault> {
    let root = Exn::new(store, host, 0, 0)?;
    for place in 0..size {
        if let Ok(child) = Exn::new(store, host, 0, place) {
            root.chain(store, child).unwrap();
        }
    }
    Ok(discarded(store, root))
}

// A basket of `size` new reports.
fn collected(store: &mut Store, host: &TableHost, size: u32) -> Basket
    ensures { basket_held store.new result ≡ true }
{
    let mut basket = store.basket();
    for place in 0..size {
        if let Ok(report) = Exn::new(store, host, 0, place) {
            basket.collect(store, report).unwrap();
        }
    }
    basket
}

// One raise over `size` new reports.
fn raise_all(store: &mut Store, host: &TableHost, size: u32) -> Result<u64, StoreFault> {
    let basket = collected(store, host, size);
    match Exn::raise_all(store, host, basket, 0, size) {
        Ok(report) => Ok(discarded(store, report)),
        Err(Refusal { fault, given }) => {
            given.discard(store).unwrap();
            Err(fault)
        }
    }
}

pub fn repeat(host: &TableHost, build: Build, size: u32, repeats: u32) -> u64 {
    let mut store = Store::new(1);
    let mut sum: u64 = 0;
    for _ in 0..repeats {
        let free = match build {
            Build::Raises => raises(&mut store, host, size),
            Build::Joins => joins(&mut store, host, size),
            Build::RaiseAll => raise_all(&mut store, host, size),
        };
        sum = sum.wrapping_add(free.unwrap_or(0));
    }
    sum
}
