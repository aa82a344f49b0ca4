// Reports move between the basket and the calls.
ghost use Rattle.std.specs.Prelude.{◌≡◌, ℕ, nat_eq, true, Some, None, Option};
ghost use Rattle.std.specs.Map.{update};
ghost use Rattle.trees.specs.Trees.{Forest, Tree, ◌then◌, only};
ghost use Rattle.store.specs.Calls.{basket_held, report_held};
ghost use Rattle.store.specs.Store.{ledger_of};
ghost use Rattle.script_runs.specs.Working.{Out, TakenFrom, Works, WorksTwo, none, row_in};

use store::store::Store;
use store::token::{Basket, Exn};

// Takes the first report, if there is one.
pub fn take(store: &mut Store, basket: &mut Basket) -> Option<Exn>
    requires { basket_held store.old basket.old ≡ true }
    ensures number { store.new.number ≡ store.old.number }
    ensures works { (g : ℕ → Option Tree) (others : ℕ → Option Forest) (row : Forest) → Works store.old basket.old g others row → TakenFrom store.new basket.new g others row result }
{
    basket.take(store).unwrap()
}

// Puts a report at the end.
pub(crate) fn collect(store: &mut Store, basket: &mut Basket, report: Exn)
    requires basket { basket_held store.old basket.old ≡ true }
    requires report { report_held store.old report ≡ true }
    ensures number { store.new.number ≡ store.old.number }
    ensures works { (g : ℕ → Option Tree) (others : ℕ → Option Forest) (row : Forest) (t : Tree) → Works store.old basket.old g others row → g report.root ≡ Some t → Works store.new basket.new (update nat_eq g report.root None) others (row then only t) }
{
    basket.collect(store, report).unwrap();
}

// Puts the reports of another basket at the end, in order.
pub(crate) fn move_all(store: &mut Store, basket: &mut Basket, mut from: Basket)
    requires { WorksTwo store.old basket.old from (ledger_of store.old).reports (row_in store.old basket.old) (row_in store.old from) }
    ensures number { store.new.number ≡ store.old.number }
    ensures works { Works store.new basket.new (ledger_of store.old).reports none (row_in store.old basket.old then row_in store.old from) }
{
    while let Some(report) = take(store, &mut from) {
        collect(store, basket, report);
    }
    from.discard(store).unwrap();
}

// Discards the reports of the basket, and one that is out of it.
pub(crate) fn discard_both(store: &mut Store, basket: Basket, report: Exn)
    requires { Out store.old basket report }
{
    report.discard(store).unwrap();
    basket.discard(store).unwrap();
}
