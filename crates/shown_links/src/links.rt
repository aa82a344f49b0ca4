// Links between the nodes that are shown.
ghost use Rattle.std.specs.Prelude.{◌≡◌, ◌≢◌, ◌<◌, ◌≤◌, ℕ, None, Some, cond, length, map};
ghost use Rattle.std.specs.Option.{option_or};
ghost use Rattle.model.specs.Host.{Errors};
ghost use Rattle.trees.specs.Trees.{Tree};
ghost use Rattle.nodes.specs.Flattening.{flattening};
ghost use Rattle.nodes.specs.Notes.{cleared};
ghost use Rattle.print_forms.specs.Shown.{shown};
ghost use Rattle.shown_links.specs.Linked.{Linked, marked, plan_at};
ghost use Rattle.shown_links.specs.Linking.{Followed, Gathered, ParentsBefore, Unlinked, first_shown, follower, unlinked};

use crate::marks::plan_in;
use nodes::node::{Node, Note, Plan};

// The first that is shown of a node and of those after it beneath the same parent: the node itself, or what stands in its
// place.
fn first_shown(plan: Plan, index: u32, later: Option<u32>) -> Option<u32>
    ensures { result ≡ first_shown plan.marker plan.first index later }
{
    if plan.marker {
        plan.first.or(later)
    } else {
        Some(index)
    }
}

// What is shown after those beneath a node: what is shown after the node, where they stand in its place.
fn follower(plan: Plan) -> Option<u32>
    ensures { result ≡ follower plan }
{
    if plan.marker { plan.next } else { None }
}

// Links a node to the first that is shown of those after it beneath the same parent, to which the parent is linked so far,
// and the parent to the first that is shown of the node and those.
fn gather_node(nodes: &mut [Node], index: usize, parent: usize)
    requires few { length nodes.old ≤ 4294967295 }
    requires within { index < length nodes.old }
    requires behind { parent < index }
    ensures same { map unlinked nodes.new ≡ map unlinked nodes.old }
    ensures first { (plan_at nodes.new parent).first ≡ first_shown (plan_at nodes.old index).marker (plan_at nodes.old index).first index (plan_at nodes.old parent).first }
    ensures other_firsts { (i : ℕ) → i ≢ parent → (plan_at nodes.new i).first ≡ (plan_at nodes.old i).first }
    ensures next { (plan_at nodes.new index).next ≡ (plan_at nodes.old parent).first }
    ensures other_nexts { (i : ℕ) → i ≢ index → (plan_at nodes.new i).next ≡ (plan_at nodes.old i).next }
{
    let plan = plan_in(nodes[index].note);
    let above = plan_in(nodes[parent].note);
    nodes[index].note = Note::Planned(Plan {
        next: above.first,
        ..plan
    });
    nodes[parent].note = Note::Planned(Plan {
        first: first_shown(plan, index as u32, above.first),
        ..above
    });
}

// Links each node to the first that is shown beneath it, and to the first that is shown of those after it beneath the same
// parent, from the last node to the first. Counted, since an element of the list is read and another written at each turn.
fn gather(nodes: &mut [Node])
    requires few { length nodes.old ≤ 4294967295 }
    requires some { 0 < length nodes.old }
    requires parents { ParentsBefore nodes.old }
    requires unlinked { Unlinked nodes.old }
    ensures { Gathered nodes.old nodes.new 1 }
{
    for i in (1..nodes.len()).rev() {
        if let Some(parent) = nodes[i].parent {
            gather_node(nodes, i, parent);
        }
    }
}

// Links a node to what is shown after its parent, where nothing is shown after the node beneath the same parent.
fn follow_node(nodes: &mut [Node], index: usize, parent: usize)
    requires within { index < length nodes.old }
    requires behind { parent < index }
    ensures same { map unlinked nodes.new ≡ map unlinked nodes.old }
    ensures firsts { (i : ℕ) → (plan_at nodes.new i).first ≡ (plan_at nodes.old i).first }
    ensures next { (plan_at nodes.new index).next ≡ option_or (plan_at nodes.old index).next (follower (plan_at nodes.old parent)) }
    ensures other_nexts { (i : ℕ) → i ≢ index → (plan_at nodes.new i).next ≡ (plan_at nodes.old i).next }
{
    let plan = plan_in(nodes[index].note);
    let above = plan_in(nodes[parent].note);
    nodes[index].note = Note::Planned(Plan {
        next: plan.next.or(follower(above)),
        ..plan
    });
}

// Links the last that is shown of those that stand in the place of a node to what is shown after the node, from the first
// node to the last.
fn follow(nodes: &mut [Node])
    requires some { 0 < length nodes.old }
    requires parents { ParentsBefore nodes.old }
    ensures { Followed nodes.old nodes.new (length nodes.old) }
{
    for i in 1..nodes.len() {
        if let Some(parent) = nodes[i].parent {
            follow_node(nodes, i, parent);
        }
    }
}

// Links the nodes that a print shows, and answers the first head. The nodes are those of a tree, breadth-first, each marked.
pub fn link(nodes: &mut [Node]) -> Option<u32>
    requires few { length nodes.old ≤ 4294967295 }
    requires marked { ∥ ((h : Errors) × ((t : Tree) × (nodes.old ≡ map (marked h) (flattening h t)))) ∥₁ }
    ensures links { (h : Errors) (t : Tree) → nodes.old ≡ map (marked h) (flattening h t) → Linked nodes.new result (shown h t) }
    ensures rest { map unlinked nodes.new ≡ map unlinked nodes.old }
    ensures same { map cleared nodes.new ≡ map cleared nodes.old }
    ensures unplanned { (i : ℕ) → (plan_at nodes.new i).line ≡ None }
{
    gather(nodes);
    follow(nodes);
    first_shown(plan_in(nodes[0].note), 0, None)
}
