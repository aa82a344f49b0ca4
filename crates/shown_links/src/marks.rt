// Markers told apart from other nodes.
ghost use Rattle.std.specs.Prelude.{◌≡◌, map};
ghost use Rattle.shown_links.specs.Linked.{marked, no_plan, plan_in};

use host::host::Host;
use nodes::node::{Node, Note, Plan};
use traversal::marker::is_marker;

// Nothing is planned.
const NO_PLAN: Plan = Plan {
    marker: false,
    first: None,
    next: None,
    line: None,
};

// What a note plans.
pub fn plan_in(note: Note) -> Plan
    ensures { result ≡ plan_in note }
{
    match note {
        Note::Planned(plan) => plan,
        Note::Clear | Note::Single(_) | Note::Several => NO_PLAN,
    }
}

// Puts down beside each node whether it is a marker.
#[tactic(auto, using(crate::proofs::Marking::marked_more))]
pub fn mark<H: Host>(host: &H, nodes: &mut [Node])
    ensures { nodes.new ≡ map (marked (H.Host.errors host.now)) nodes.old }
{
    for node in nodes.iter_mut() {
        node.note = Note::Planned(Plan {
            marker: is_marker(host, node.error),
            ..NO_PLAN
        });
    }
}
