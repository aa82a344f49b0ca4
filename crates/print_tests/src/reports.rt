// The reports of the tests, and what calls on them answer.
use drive_host::drive::DriveHost;
use host::host::Host;
use layers::marked::Marked;
use std::process::Abort;
use store::store::Store;
use store::token::Exn;

// What a granted call made.
pub fn granted<T, E>(rt: &impl Abort, answer: Result<T, E>) -> T {
    match answer {
        Ok(made) => made,
        Err(_) => panic!(rt; "refused"),
    }
}

// Why a call was refused.
pub fn refused<T, E>(rt: &impl Abort, answer: Result<T, E>) -> E {
    match answer {
        Ok(_) => panic!(rt; "granted"),
        Err(fault) => fault,
    }
}

// The drive beneath a marker layer with one entry: a marker around error 6, numbered 48.
pub fn marked_drive(rt: &impl Abort) -> Marked<DriveHost> {
    let mut host = Marked::new(DriveHost);
    granted(rt, host.mark(6, 0));
    host
}

// A report with a fork: over `root`, one report of `first` and one of `second`.
pub fn fork<H: Host>(
    rt: &impl Abort,
    store: &mut Store,
    host: &H,
    root: u16,
    first: u16,
    second: u16,
) -> Exn {
    let report = granted(rt, Exn::new(store, host, root, 1));
    let child = granted(rt, Exn::new(store, host, first, 2));
    granted(rt, report.chain(store, child));
    let child = granted(rt, Exn::new(store, host, second, 3));
    granted(rt, report.chain(store, child));
    report
}
