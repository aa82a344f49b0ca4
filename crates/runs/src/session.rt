// A store on which calls are made by names.
ghost use Rattle.std.specs.Prelude.{◌≡◌, ℕ, Some, true, is_some};
ghost use Rattle.runs.specs.Tokens.{Keeps, report_in, reports_live, rows_live};

use crate::baskets::Baskets;
use crate::reports::Reports;
use crate::table::Table;
use nodes::node::Node;
use store::store::Store;

// A store with its reports and baskets, what the names of both and of chains stand for, and another store.
pub(crate) struct Session {
    pub(crate) store: Store,
    pub(crate) reports: Reports,
    pub(crate) baskets: Baskets,
    pub(crate) chains: Vec<Option<Vec<Node>>>,
    pub(crate) other: Store,
    ghost reports_kept: { Keeps store.number (reports_live store) (λ n. n) reports.table.tokens.items },
    ghost baskets_kept: { Keeps store.number (rows_live store) Some baskets.table.tokens.items },
    ghost foreign_kept: { report_in other reports.foreign ≡ true },
    ghost apart: { other.number ≡ store.number → ⊥ },
}

impl Drop for Session {
    fn drop(self) {
        let Session {
            mut store,
            reports,
            baskets,
            chains: _,
            mut other,
        } = self;
        let Reports {
            names: _,
            table: reports,
            foreign,
        } = reports;
        let Baskets {
            names: _,
            table: baskets,
        } = baskets;
        discard_reports(&mut store, reports);
        discard_rows(&mut store, baskets);
        foreign.unwrap().discard(&mut other).unwrap();
    }
}

// Discards all reports of a store.
fn discard_reports(store: &mut Store, mut reports: Table<u16>)
    requires { Keeps store.old.number (reports_live store.old) (λ n. n) reports.tokens.items }
    ensures number { store.new.number ≡ store.old.number }
    ensures rows { (n : ℕ) → rows_live store.new n ≡ rows_live store.old n }
{
    for n in 0..1024 {
        if let Some(report) = reports.take(n) {
            report.discard(store).unwrap();
        }
    }
}

// Discards all rows of a store.
fn discard_rows(store: &mut Store, mut rows: Table<Option<u16>>)
    requires { Keeps store.old.number (rows_live store.old) Some rows.tokens.items }
{
    for n in 0..1024 {
        if let Some(basket) = rows.take(n) {
            basket.discard(store).unwrap();
        }
    }
}
