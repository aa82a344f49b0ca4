// The lines of a printed tree, as they are planned beside its nodes.
ghost use Rattle.std.specs.Prelude.{◌≡◌, ℕ, Bool, cond, List, [], codes, encode_utf8_all};
ghost use Rattle.nodes.specs.Nodes.{Content};
ghost use Rattle.print_forms.specs.Layout.{Line as LaidOut};
ghost use Rattle.print_forms.specs.Prints.{connector, guide, guides, label_text, line_text, lines_text};
ghost use Rattle.line_plans.specs.Plans.{Above, PlannedAs, Stands, line_at};
ghost use Rattle.buffers.specs.Printed.{Printed};
ghost use Rattle.prints.specs.Puts.{AllLive, TextPut};
ghost use Rattle.prints.specs.LineTexts.{LinesPlanned, before_text, caption_after, column_at};

use crate::pieces::{caption_over, put_indent, put_label};
use buffers::put::put;
use buffers::texts::put_error;
use host::host::Host;
use nodes::node::{Line, Node, Position};
use shown_links::marks::plan_in;
use vocabulary::fault::HostFault;

// The column of a level above: a line down to what follows there.
fn guide(follows: bool) -> &'static str
    ensures { result.now ≡ guide follows }
{
    if follows { "│ " } else { "  " }
}

// The column of a line's own level.
fn connector(more: bool) -> &'static str
    ensures { result.now ≡ connector more }
{
    if more { "├─" } else { "└─" }
}

// What ends the report before a head.
fn line_break(later: bool) -> &'static str
    ensures { result.now ≡ cond later (encode_utf8_all (codes "\n")) [] }
{
    if later { "\n" } else { "" }
}

// What stands behind the text of a line.
fn caption_after(position: Position) -> &'static str
    ensures { result.now ≡ caption_after position }
{
    match position {
        Position::Head { has_causes, .. } => caption_over(has_causes),
        Position::Main { .. } | Position::Nested { .. } => "",
    }
}

// The line at an index, if one is planned there.
fn line_at(nodes: &[Node], index: usize) -> Option<Line>
    ensures { result ≡ line_at nodes.now index }
{
    plan_in(nodes.get(index)?.note).line
}

// Whether something follows in the column of a level, and the level above it.
fn column_at(nodes: &[Node], level: Option<u32>) -> Option<(bool, Option<u32>)>
    ensures { result ≡ column_at nodes.now level }
{
    match line_at(nodes, level? as usize)?.position {
        Position::Nested {
            above,
            sibling_follows,
            ..
        } => Some((sibling_follows, above)),
        Position::Head { .. } | Position::Main { .. } => None,
    }
}

// Puts the columns of a level and of those above it, the outermost first. It calls itself, since each level knows only the one
// above.
fn put_guides(nodes: &[Node], level: Option<u32>, out: &mut [u8], at: usize) -> usize
    requires { ∥ ((k : ℕ) × (cs : List Bool) × Above nodes.now k level cs) ∥₁ }
    ensures { (k : ℕ) (cs : List Bool) → Above nodes.now k level cs → Printed at result out.old out.new (guides cs) }
{
    let Some((follows, above)) = column_at(nodes, level) else {
        return at;
    };
    let at = put_guides(nodes, above, out, at);
    put(out, at, guide(follows).as_bytes())
}

// Puts the number of a line on a level of its own.
fn put_nested_label(out: &mut [u8], at: usize, number: Option<u32>) -> usize
    ensures { Printed at result out.old out.new (label_text number) }
{
    match number {
        Some(number) => put_label(out, at, number as usize),
        None => put(out, at, b" "),
    }
}

// Puts what stands before the text of a line.
fn put_position(nodes: &[Node], position: Position, out: &mut [u8], at: usize) -> usize
    requires { ∥ ((k : ℕ) × (x : LaidOut Content) × Stands nodes.now k position x) ∥₁ }
    ensures { (k : ℕ) (x : LaidOut Content) → Stands nodes.now k position x → Printed at result out.old out.new (before_text x) }
{
    match position {
        Position::Head { later, .. } => put(out, at, line_break(later).as_bytes()),
        Position::Main { number } => {
            let at = put_indent(out, at);
            put_label(out, at, number as usize)
        }
        Position::Nested {
            number,
            above,
            sibling_follows,
            chain_continues,
        } => {
            let at = put_indent(out, at);
            let at = put_guides(nodes, above, out, at);
            let more = sibling_follows || chain_continues;
            let at = put(out, at, connector(more).as_bytes());
            put_nested_label(out, at, number)
        }
    }
}

// Puts the line at an index.
fn put_line<H: Host>(
    host: &H,
    nodes: &[Node],
    index: usize,
    out: &mut [u8],
    at: usize,
) -> Result<usize, HostFault>
    requires { ∥ ((x : LaidOut Content) × PlannedAs nodes.now index x) ∥₁ }
    ensures { (x : LaidOut Content) → PlannedAs nodes.now index x → TextPut (AllLive (H.Host.errors host.now) nodes.now) (line_text (H.Host.errors host.now) x) at out.old out.new result }
{
    let Some(Line { node, position }) = line_at(nodes, index) else {
        return Ok(at);
    };
    let at = put_position(nodes, position, out, at);
    let at = put_error(host, nodes[node as usize].error, out, at)?;
    Ok(put(out, at, caption_after(position).as_bytes()))
}

// Puts so many lines from the start of a buffer on.
pub(crate) fn put_lines<H: Host>(
    host: &H,
    nodes: &[Node],
    count: usize,
    out: &mut [u8],
) -> Result<usize, HostFault>
    requires { ∥ ((xs : List (LaidOut Content)) × LinesPlanned nodes.now count xs) ∥₁ }
    ensures { (xs : List (LaidOut Content)) → LinesPlanned nodes.now count xs → TextPut (AllLive (H.Host.errors host.now) nodes.now) (lines_text (H.Host.errors host.now) xs) 0 out.old out.new result }
{
    let mut at = 0;
    for index in 0..count {
        at = put_line(host, nodes, index, out, at)?;
    }
    Ok(at)
}
