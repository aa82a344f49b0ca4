// What calls answer, where a test knows whether they are granted.
use std::process::Abort;
use store::store::Store;
use store::token::{Basket, Exn, Refusal};
use vocabulary::fault::StoreFault;

// What a granted call made.
pub fn granted<T, E>(rt: &impl Abort, answer: Result<T, E>) -> T {
    match answer {
        Ok(made) => made,
        Err(_) => panic!(rt; "refused"),
    }
}

// Why a call was refused, and what it handed back.
pub fn refused<T, X>(rt: &impl Abort, answer: Result<T, Refusal<X>>) -> (StoreFault, X) {
    match answer {
        Ok(_) => panic!(rt; "granted"),
        Err(Refusal { fault, given }) => (fault, given),
    }
}

// The first report of a basket that has one.
pub fn take(rt: &impl Abort, store: &mut Store, basket: &mut Basket) -> Exn {
    match granted(rt, basket.take(store)) {
        Some(report) => report,
        None => panic!(rt; "empty"),
    }
}

pub fn discard(rt: &impl Abort, store: &mut Store, report: Exn) {
    granted(rt, report.discard(store));
}
