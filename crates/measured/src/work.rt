// Work on one chain, repeated.
use crate::asking::{Question, cause_number, class_number, retry_number};
use nodes::node::Node;
use questions::chain::{can_retry, dominant_class, probable_cause};
use store::chain::ChainedError;
use store::store::Store;
use store::token::Refusal;
use table_host::table::TableHost;

#[derive(Clone, Copy)]
pub enum Work {
    Ask(Question),
    // a report is built and discarded
    Rebuild,
    // a report is built and flattened again
    RoundTrip,
}

impl Work {
    pub fn of(number: u8) -> Option<Work> {
        match number {
            3 => Some(Work::Rebuild),
            4 => Some(Work::RoundTrip),
            _ => Question::of(number).map(Work::Ask),
        }
    }
}

fn ask(host: &TableHost, list: &mut [Node], question: Question) -> u64 {
    let chain = ChainedError::of(list);
    match question {
        Question::Class => class_number(dominant_class(&chain, host, list)),
        Question::Retry => retry_number(can_retry(&chain, host, list)),
        Question::Cause => cause_number(probable_cause(&chain, host, list)),
    }
}

// How many frames are left free by the report of a list.
fn rebuild(store: &mut Store, host: &TableHost, list: &[Node]) -> u64 {
    match ChainedError::of(list).into_exn(store, host, list) {
        Ok(report) => {
            let free = store.free();
            report.discard(store).unwrap();
            free as u64
        }
        Err(Refusal { fault: _, given: _ }) => 0,
    }
}

// How many nodes a list has after its report was built and flattened again.
fn round_trip(store: &mut Store, host: &TableHost, list: &mut [Node]) -> u64 {
    match ChainedError::of(list).into_exn(store, host, list) {
        Ok(report) => match report.into_chain(store, host, list) {
            Ok(chain) => chain.nodes() as u64,
            Err(Refusal { fault: _, given }) => {
                given.discard(store).unwrap();
                0
            }
        },
        Err(Refusal { fault: _, given: _ }) => 0,
    }
}

pub fn work_on_chain(host: &TableHost, list: &mut [Node], work: Work, repeats: u32) -> u64 {
    let mut store = Store::new(1);
    let mut sum: u64 = 0;
    for _ in 0..repeats {
        let number = match work {
            Work::Ask(question) => ask(host, list, question),
            Work::Rebuild => rebuild(&mut store, host, list),
            Work::RoundTrip => round_trip(&mut store, host, list),
        };
        sum = sum.wrapping_add(number);
    }
    sum
}
