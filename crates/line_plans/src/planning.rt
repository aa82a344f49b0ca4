// The lines of a printed tree, each put down beside the node that has its index.
ghost use Rattle.std.specs.Prelude.{◌≡◌, ℕ, ◌+◌, ◌<◌, ◌≤◌, Bool, false, List, length, is_some, nat_lt, Some};
ghost use Rattle.nodes.specs.declared.node.Node.{Node};
ghost use Rattle.nodes.specs.Nodes.{Content};
ghost use Rattle.nodes.specs.Rows.{Rows, count};
ghost use Rattle.print_forms.specs.Layout.{Cause, Path, cause_lines, causes_of, report_lines};
ghost use Rattle.shown_links.specs.Linked.{Linked, plan_at};
ghost use Rattle.line_plans.specs.Plans.{CauseStands, Planning, Plans, line_at};
ghost use Rattle.line_plans.specs.Causes.{Beneath, InRun, Reached, Within, only_cause};

use nodes::node::{Line, Node, Note, Plan, Position};
use shown_links::marks::plan_in;

// The only causes beneath a head or a branch, one beneath the other.
#[derive(Clone, Copy)]
struct Run {
    // the first of several causes beneath the last of them, if there are
    fork: Option<u32>,
    // the line after theirs
    end: u32,
    // the line that stands for the level above the fork; none where that is the main chain
    above: Option<u32>,
}

// The plan of the node at an index.
fn plan_of(nodes: &[Node], node: u32) -> Plan
    requires { node < length nodes.now }
    ensures { result ≡ plan_at nodes.now node }
{
    plan_in(nodes[node as usize].note)
}

// Puts a line down.
fn put_line(nodes: &mut [Node], at: u32, line: Line)
    requires { at < length nodes.old }
    ensures line { line_at nodes.new at ≡ Some line }
    ensures others { Planning nodes.old nodes.new at }
{
    let node = &mut nodes[at as usize];
    node.note = Note::Planned(Plan {
        line: Some(line),
        ..plan_in(node.note)
    });
}

// The node to which a link goes, if no other one follows beside it.
fn only_cause(nodes: &[Node], link: Option<u32>) -> Option<u32>
    requires { Within nodes.now link }
    ensures { result ≡ only_cause nodes.now link }
{
    let node = link?;
    match plan_of(nodes, node).next {
        Some(_) => None,
        None => Some(node),
    }
}

// Where an only cause stands: on the main chain beneath a head, or on the level beneath a branch, whose line is given. One that
// is alone on its level has no number.
fn position_in_run(branch: Option<u32>, number: u32, continues: bool) -> Position
    ensures { (xs : List Node) (k : ℕ) (x : Cause Content) → InRun xs k branch number continues x → CauseStands xs k result x }
{
    match branch {
        None => Position::Main { number },
        Some(_) => Position::Nested {
            number: if number > 0 || continues {
                Some(number)
            } else {
                None
            },
            above: branch,
            sibling_follows: false,
            chain_continues: continues,
        },
    }
}

// Plans the only causes beneath a head or a branch, from the line `start` on.
fn plan_run(nodes: &mut [Node], start: u32, first: Option<u32>, branch: Option<u32>) -> Run
    requires few { length nodes.old ≤ 4294967295 }
    requires causes { ∥ ((r : Rows Content) × ((p : Path) × Beneath nodes.old start first branch r p)) ∥₁ }
    ensures run { (r : Rows Content) (p : Path) → Beneath nodes.old start first branch r p → Reached nodes.new start result.end result.fork result.above 0 r p }
    ensures others { Planning nodes.old nodes.new start }
{
    let mut at = first;
    let mut number = 0;
    while let Some(node) = only_cause(nodes, at) {
        let below = plan_of(nodes, node).first;
        let continues = only_cause(nodes, below).is_some();
        let position = position_in_run(branch, number, continues);
        put_line(nodes, start + number, Line { node, position });
        at = below;
        number += 1;
    }
    Run {
        fork: at,
        end: start + number,
        above: match branch {
            Some(_) if number > 0 => Some(start),
            _ => branch,
        },
    }
}

// Puts down the line of a branch, and answers what was planned beside it.
fn plan_branch(nodes: &mut [Node], line: u32, node: u32, number: u32, above: Option<u32>) -> Plan
    requires room { line < length nodes.old }
    requires within { node < length nodes.old }
    ensures plan { result ≡ plan_at nodes.old node }
    ensures line { line_at nodes.new line ≡ Some (record { node = node; position = Position.Nested (Some number) above (is_some result.next) false }) }
    ensures others { Planning nodes.old nodes.new line }
{
    let plan = plan_of(nodes, node);
    let position = Position::Nested {
        number: Some(number),
        above,
        sibling_follows: plan.next.is_some(),
        chain_continues: false,
    };
    put_line(nodes, line, Line { node, position });
    plan
}

// Plans all causes beneath a head or a branch, from the line `start` on, and answers the line after theirs. It calls itself
// once a level; `depth` bounds how many levels are left, since each takes a line.
fn plan_causes(
    nodes: &mut [Node],
    start: u32,
    first: Option<u32>,
    branch: Option<u32>,
    depth: usize,
) -> u32
    requires few { length nodes.old ≤ 4294967295 }
    requires deep { length nodes.old ≤ start + depth }
    requires causes { ∥ ((r : Rows Content) × ((p : Path) × Beneath nodes.old start first branch r p)) ∥₁ }
    ensures lines { (r : Rows Content) (p : Path) → Beneath nodes.old start first branch r p
        → (result ≡ start + count r) × Plans nodes.new start (cause_lines (causes_of p 0 r)) }
    ensures others { Planning nodes.old nodes.new start }
{
    let Run { fork, end, above } = plan_run(nodes, start, first, branch);
    let mut line = end;
    let mut at = fork;
    let mut number = 0;
    while let Some(node) = at {
        let Plan { first, next, .. } = plan_branch(nodes, line, node, number, above);
        line = plan_causes(nodes, line + 1, first, Some(line), depth - 1);
        at = next;
        number += 1;
    }
    line
}

// Puts down the line of the head of a report, and answers what was planned beside it.
fn plan_head(nodes: &mut [Node], line: u32, node: u32) -> Plan
    requires room { line < length nodes.old }
    requires within { node < length nodes.old }
    ensures plan { result ≡ plan_at nodes.old node }
    ensures line { line_at nodes.new line ≡ Some (record { node = node; position = Position.Head (nat_lt 0 line) (is_some result.first) }) }
    ensures others { Planning nodes.old nodes.new line }
{
    let plan = plan_of(nodes, node);
    let position = Position::Head {
        later: line > 0,
        has_causes: plan.first.is_some(),
    };
    put_line(nodes, line, Line { node, position });
    plan
}

// Plans the lines of all nodes that are linked from the first head on, and answers how many there are.
pub fn plan_lines(nodes: &mut [Node], heads: Option<u32>) -> usize
    requires few { length nodes.old ≤ 4294967295 }
    requires linked { ∥ ((r : Rows Content) × (Linked nodes.old heads r × (count r ≤ length nodes.old))) ∥₁ }
    ensures lines { (r : Rows Content) → Linked nodes.old heads r → count r ≤ length nodes.old → (result ≡ count r) × Plans nodes.new 0 (report_lines false r) }
    ensures nodes { Planning nodes.old nodes.new 0 }
{
    let depth = nodes.len();
    let mut line = 0;
    let mut at = heads;
    while let Some(node) = at {
        let Plan { first, next, .. } = plan_head(nodes, line, node);
        line = plan_causes(nodes, line + 1, first, None, depth);
        at = next;
    }
    line as usize
}
