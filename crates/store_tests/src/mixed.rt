// Thousands of calls, compared with a plain model of the ledger.
use crate::plain_ledger::Model;
use std::test::Fail;

// In turn a thousand calls by which reports grow, until the store is full, and a thousand by which they go. All reports and
// baskets are compared after each hundred calls.
#[test]
fn mixed_run(rt: HostRuntime) -> Result<(), Fail> {
    let mut model = Model::new(rt.alloc());
    for hundred in 0..80u32 {
        let grows = hundred / 10 % 2 == 0;
        for _ in 0..100u32 {
            model.call(&rt, grows);
        }
        model.compare(&rt);
    }
    model.finish(&rt);
    Ok(())
}
