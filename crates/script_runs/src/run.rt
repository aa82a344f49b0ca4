// Whole scripts.
ghost use Rattle.std.specs.Prelude.{◌≡◌, ℕ, ◌≤◌, length};
ghost use Rattle.ledger.specs.Ledger.{nothing};
ghost use Rattle.store.specs.Store.{Holds};
ghost use Rattle.script_runs.specs.Runs.{Runs};
ghost use Rattle.script_runs.specs.Working.{Ran};

use crate::fault::{LineFault, ScriptFault};
use crate::steps::step;
use script_lines::reading::next_line;
use store::store::Store;
use store::token::Basket;

// The longest script, in bytes.
const LIMIT: usize = 4096;

// The basket after a script, made in an empty store; or the first line that is refused, and the store is empty again.
pub fn run(store: &mut Store, script: &[u8]) -> Result<Basket, ScriptFault>
    requires { Holds store.old nothing }
    ensures { Ran store.new script.now result }
{
    if script.len() > LIMIT {
        return Err(ScriptFault {
            line: 0,
            fault: LineFault::NotRead,
        });
    }
    let mut basket = store.basket();
    let mut line = 1;
    let mut rest = script;
    while !rest.is_empty() {
        let Some((next, after)) = next_line(rest) else {
            basket.discard(store).unwrap();
            return Err(ScriptFault {
                line,
                fault: LineFault::NotRead,
            });
        };
        basket = match step(store, basket, next, line as u32) {
            Ok(basket) => basket,
            Err(fault) => return Err(ScriptFault { line, fault }),
        };
        line += 1;
        rest = after;
    }
    Ok(basket)
}
