// What the questions answer of a report, and the line that tells it.
ghost use Rattle.std.specs.Prelude.{◌≡◌};
ghost use Rattle.buffers.specs.Printed.{Printed};
ghost use Rattle.scripts.specs.Texts.{rank_text, summary_of, summary_text, yes_or_no};
ghost use Rattle.scripts.specs.Puts.{Standing, tree_in};

use buffers::put::{put, put_number};
use classes::class::Class;
use drive_host::drive::DriveHost;
use questions::report::{can_retry, can_retry_lenient, dominant_class, probable_cause};
use store::store::Store;
use store::token::Exn;

#[derive(Clone, Copy)]
pub(crate) struct Summary {
    class: Option<Class>,
    // the number of the probable cause
    cause: u16,
    retry: bool,
    lenient: bool,
}

// What the questions answer of a report of a store that calls have led to.
pub(crate) fn summarize(store: &Store, report: &Exn) -> Summary
    requires { Standing store.now report.now }
    ensures { result ≡ summary_of (tree_in store.now report.now) }
{
    Summary {
        class: dominant_class(store, &DriveHost, report).unwrap(),
        cause: probable_cause(store, &DriveHost, report).unwrap().number(),
        retry: can_retry(store, &DriveHost, report).unwrap(),
        lenient: can_retry_lenient(store, &DriveHost, report).unwrap(),
    }
}

// The rank of a class.
fn put_rank(out: &mut [u8], at: usize, class: Option<Class>) -> usize
    ensures { Printed at result out.old out.new (rank_text class) }
{
    match class {
        Some(class) => put_number(out, at, class.rank() as usize),
        None => put(out, at, b"none"),
    }
}

fn yes_or_no(answer: bool) -> &'static str
    ensures { result.now ≡ yes_or_no answer }
{
    if answer { "yes" } else { "no" }
}

// The line of a summary.
pub(crate) fn put_summary(out: &mut [u8], at: usize, summary: &Summary) -> usize
    ensures { Printed at result out.old out.new (summary_text summary.now) }
{
    let at = put(out, at, b"class ");
    let at = put_rank(out, at, summary.class);
    let at = put(out, at, b" cause ");
    let at = put_number(out, at, summary.cause as usize);
    let at = put(out, at, b" retry ");
    let at = put(out, at, yes_or_no(summary.retry).as_bytes());
    let at = put(out, at, b" lenient ");
    let at = put(out, at, yes_or_no(summary.lenient).as_bytes());
    put(out, at, b"\n")
}
