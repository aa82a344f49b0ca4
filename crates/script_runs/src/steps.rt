// The lines of a script, one by one. Each takes the basket and hands it back, or discards all reports where it is refused.
ghost use Rattle.std.specs.Prelude.{ℕ};
ghost use Rattle.script_lines.specs.declared.line.Line.TheVariants.{All, Chain, Drain, Drop, New, Raise};
ghost use Rattle.script_runs.specs.Working.{Rests, Steps, row_in};

use crate::fault::LineFault;
use crate::moves::{collect, discard_both, move_all, take};
use drive_host::drive::DriveHost;
use script_lines::line::Line;
use store::store::Store;
use store::token::{Basket, Exn, Refusal};

// A new report at the end.
fn begin(store: &mut Store, mut basket: Basket, error: u16, place: u32) -> Result<Basket, LineFault>
    requires { Rests store.old basket (row_in store.old basket) }
    ensures { Steps place (New error) (row_in store.old basket) store.new result }
{
    match Exn::new(store, &DriveHost, error, place) {
        Ok(report) => {
            collect(store, &mut basket, report);
            Ok(basket)
        }
        Err(fault) => {
            basket.discard(store).unwrap();
            Err(LineFault::Store(fault))
        }
    }
}

// A new root over the first report.
fn raise(store: &mut Store, mut basket: Basket, error: u16, place: u32) -> Result<Basket, LineFault>
    requires { Rests store.old basket (row_in store.old basket) }
    ensures { Steps place (Raise error) (row_in store.old basket) store.new result }
{
    let Some(first) = take(store, &mut basket) else {
        basket.discard(store).unwrap();
        return Err(LineFault::TooFew);
    };
    match first.raise(store, &DriveHost, error, place) {
        Ok(raised) => {
            collect(store, &mut basket, raised);
            Ok(basket)
        }
        Err(Refusal { fault, given }) => {
            discard_both(store, basket, given);
            Err(LineFault::Store(fault))
        }
    }
}

// A new root over all reports.
fn raise_all(store: &mut Store, basket: Basket, error: u16, place: u32) -> Result<Basket, LineFault>
    requires { Rests store.old basket (row_in store.old basket) }
    ensures { Steps place (All error) (row_in store.old basket) store.new result }
{
    match Exn::raise_all(store, &DriveHost, basket, error, place) {
        Ok(raised) => {
            let mut next = store.basket();
            collect(store, &mut next, raised);
            Ok(next)
        }
        Err(Refusal { fault, given }) => {
            given.discard(store).unwrap();
            Err(LineFault::Store(fault))
        }
    }
}

// The second report under the first.
fn chain(store: &mut Store, mut basket: Basket) -> Result<Basket, LineFault>
    requires { Rests store.old basket (row_in store.old basket) }
    ensures { (place : ℕ) → Steps place Chain (row_in store.old basket) store.new result }
{
    let Some(first) = take(store, &mut basket) else {
        basket.discard(store).unwrap();
        return Err(LineFault::TooFew);
    };
    let Some(second) = take(store, &mut basket) else {
        discard_both(store, basket, first);
        return Err(LineFault::TooFew);
    };
    first.chain(store, second).unwrap();
    collect(store, &mut basket, first);
    Ok(basket)
}

// The children of the first report's root, and then the report.
fn drain(store: &mut Store, mut basket: Basket) -> Result<Basket, LineFault>
    requires { Rests store.old basket (row_in store.old basket) }
    ensures { (place : ℕ) → Steps place Drain (row_in store.old basket) store.new result }
{
    let Some(first) = take(store, &mut basket) else {
        basket.discard(store).unwrap();
        return Err(LineFault::TooFew);
    };
    let children = first.drain_children(store).unwrap();
    move_all(store, &mut basket, children);
    collect(store, &mut basket, first);
    Ok(basket)
}

// The first report is discarded.
fn drop_first(store: &mut Store, mut basket: Basket) -> Result<Basket, LineFault>
    requires { Rests store.old basket (row_in store.old basket) }
    ensures { (place : ℕ) → Steps place Drop (row_in store.old basket) store.new result }
{
    let Some(first) = take(store, &mut basket) else {
        basket.discard(store).unwrap();
        return Err(LineFault::TooFew);
    };
    first.discard(store).unwrap();
    Ok(basket)
}

// A line of a script.
pub(crate) fn step(
    store: &mut Store,
    basket: Basket,
    line: Line,
    place: u32,
) -> Result<Basket, LineFault>
    requires { Rests store.old basket (row_in store.old basket) }
    ensures { Steps place line (row_in store.old basket) store.new result }
{
    match line {
        Line::New(error) => begin(store, basket, error, place),
        Line::Raise(error) => raise(store, basket, error, place),
        Line::All(error) => raise_all(store, basket, error, place),
        Line::Chain => chain(store, basket),
        Line::Drain => drain(store, basket),
        Line::Drop => drop_first(store, basket),
    }
}
