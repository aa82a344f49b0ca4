// The reports of a basket, one after the other.
ghost use Rattle.std.specs.Prelude.{◌≡◌, ◌≤◌, length, ℕ};
ghost use Rattle.drive_host.specs.Drive.{drive_errors};
ghost use Rattle.print_forms.specs.Prints.{tree_print};
ghost use Rattle.script_runs.specs.Working.{Rests, row_in};
ghost use Rattle.scripts.specs.Puts.{PutIf, Standing, tree_in};
ghost use Rattle.scripts.specs.Texts.{report_text, row_text};

use crate::summary::{put_summary, summarize};
use buffers::put::put;
use drive_host::drive::DriveHost;
use nodes::node::{BLANK, Node};
use prints::report::print_tree;
use script_runs::moves::take;
use store::store::Store;
use store::token::{Basket, Exn};

// How many nodes a report has at most: 1,024 frames, and beneath each two sources.
const NODES: usize = 3 * 1024;

// Puts the tree print of a report; none where there is no room.
fn put_tree(
    store: &Store,
    report: &Exn,
    list: &mut [Node; 3072],
    out: &mut [u8],
    at: usize,
) -> Option<usize>
    requires report { Standing store.now report.now }
    requires room { (at ≤ length out.old) × (length out.old ≤ 65536) }
    ensures { PutIf (tree_print drive_errors (tree_in store.now report.now)) at out.old out.new result }
{
    let length = print_tree(store, &DriveHost, report, list, &mut out[at..]).ok()?;
    Some(at + length)
}

// Puts a report: its tree print, and its summary; none where there is no room.
fn put_report(
    store: &Store,
    report: &Exn,
    list: &mut [Node; 3072],
    out: &mut [u8],
    at: usize,
) -> Option<usize>
    requires report { Standing store.now report.now }
    requires room { (at ≤ length out.old) × (length out.old ≤ 65536) }
    ensures { PutIf (report_text (tree_in store.now report.now)) at out.old out.new result }
{
    let at = put_tree(store, report, list, out, at)?;
    let at = put(out, at, b"\n");
    let at = put_summary(out, at, &summarize(store, report));
    (at <= out.len()).then_some(at)
}

// Puts the reports of a basket, and discards them; none where there is no room.
pub(crate) fn put_reports(
    store: &mut Store,
    mut basket: Basket,
    out: &mut [u8; 65536],
) -> Option<usize>
    requires { Rests store.old basket (row_in store.old basket) }
    ensures { PutIf (row_text (row_in store.old basket)) 0 out.old out.new result }
{
    let mut list = [BLANK; NODES];
    let mut at = 0;
    while let Some(report) = take(store, &mut basket) {
        let printed = put_report(store, &report, &mut list, out, at);
        report.discard(store).unwrap();
        let Some(to) = printed else {
            basket.discard(store).unwrap();
            return None;
        };
        at = to;
    }
    basket.discard(store).unwrap();
    Some(at)
}
