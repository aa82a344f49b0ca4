// Questions on one report, repeated.
use crate::asking::{Question, cause_number, class_number, retry_number};
use nodes::node::Node;
use questions::report::{can_retry, dominant_class, probable_cause};
use store::chain::ChainedError;
use store::store::Store;
use store::token::{Exn, Refusal};
use table_host::table::TableHost;

fn ask(store: &Store, host: &TableHost, report: &Exn, question: Question) -> u64 {
    match question {
        Question::Class => class_number(dominant_class(store, host, report)),
        Question::Retry => retry_number(can_retry(store, host, report)),
        Question::Cause => cause_number(probable_cause(store, host, report)),
    }
}

// The sum of the answers of the report that a list is the flattening of.
pub fn ask_report(host: &TableHost, list: &[Node], question: Question, repeats: u32) -> u64 {
    let mut store = Store::new(1);
    match ChainedError::of(list).into_exn(&mut store, host, list) {
        Ok(report) => {
            let mut sum: u64 = 0;
            for _ in 0..repeats {
                sum = sum.wrapping_add(ask(&store, host, &report, question));
            }
            report.discard(&mut store).unwrap();
            sum
        }
        Err(Refusal { fault: _, given: _ }) => 0,
    }
}
