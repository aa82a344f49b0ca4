// A failed movement built out of several reports, shown as a chain and built again, and a full store.
ghost use Rattle.std.specs.Prelude.{IsNone};

use crate::log::Log;
use crate::session::Session;

// Builds the report of a movement: the drive's error over those of two gauges, and the gate's over that and a third gauge's.
fn build(session: &mut Session)
    requires report { IsNone session.old.report }
    requires basket { IsNone session.old.basket }
    ensures { IsNone session.new.basket }
{
    session.open();
    session.collect_new(6, 1);
    session.collect_new(1, 2);
    session.raise_all(19, 3);
    session.collect_new(2, 4);
    session.raise_all(34, 5);
    session.take();
    session.discard_all();
}

// A store with all 1,024 frames in use turns a raise down; after a basket of one frame is discarded it is granted.
fn fill(session: &mut Session)
    requires report { IsNone session.old.report }
    requires basket { IsNone session.old.basket }
{
    session.begin(32, 0);
    if session.has_report() {
        session.grow(1022);
        session.open();
        session.collect_new(0, 0);
        session.raise(16, 1);
        session.discard_all();
        session.raise(16, 1);
        session.discard();
    }
}

// All of it on one store.
pub fn run() -> Log {
    let mut session = Session::new();
    build(&mut session);
    if session.has_report() {
        session.show_as_chain();
    }
    if session.has_report() {
        session.rejoin_first();
        session.put_under();
        session.discard();
    }
    fill(&mut session);
    session.finish()
}
