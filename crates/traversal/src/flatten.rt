// The nodes of a report, written breadth-first into a list.
ghost use Rattle.std.specs.Prelude.{◌≡◌, ◌+◌, ◌<◌, ◌≤◌, ◌++◌, map, length, drop, slice_index_or};
ghost use Rattle.trees.specs.Trees.{Forest, Tree};
ghost use Rattle.nodes.specs.Breadth.{is_parent};
ghost use Rattle.nodes.specs.Flattening.{flattening, listed};
ghost use Rattle.nodes.specs.Nodes.{frame};
ghost use Rattle.traversal.specs.Order.{visited};
ghost use Rattle.traversal.specs.Put.{Put};
ghost use Rattle.traversal.specs.Spread.{Begun, BegunWithin, Grown, NextFrames, Wait, Waits, from_forest, source_of_node, trees, wait_node};
ghost use Rattle.traversal.specs.Start.{blank_node};

use crate::order::Visit;
use host::host::Host;
use host::sources::source_of;
use nodes::node::{Node, Note};
use vocabulary::frame_error::FrameError;

// How far a flattening has come. A struct that held the list too would promise in each call that it is the same loan; and
// host and order are not asked for together but in the call that passes them on.
#[derive(Clone, Copy)]
pub struct Progress {
    // where the list ends
    stop: usize,
    // how many frames are gone past
    past: usize,
    // how many frames stand in the list
    shown: usize,
}

impl Visit {
    // Whether the frame `o` of the order is its parent.
    fn is_beneath(self, o: usize) -> bool
        ensures { result ≡ is_parent o self.parent }
    {
        self.parent.is_some_and(|parent| usize::from(parent) == o)
    }

    // The node of the frame.
    fn node(self, parent: Option<usize>) -> Node
        ensures { result ≡ listed (record { parent = parent; value = frame self.error self.place }) }
    {
        Node {
            error: self.error,
            place: self.place,
            native: false,
            parent,
            note: Note::Clear,
        }
    }
}

// Appends the source of the node `i`, if it has one, and answers where the list then ends.
fn append_source<H: Host>(host: &H, i: usize, list: &mut [Node], start: usize) -> usize
    requires within { i < length list.old }
    requires room { start + length (source_of_node (H.Host.errors host.now) i (slice_index_or list.old i blank_node)) ≤ length list.old }
    ensures { Put list.old list.new start result (map wait_node (source_of_node (H.Host.errors host.now) i (slice_index_or list.old i blank_node))) }
{
    let node = list[i];
    let Some(source) = source_of(host, node.error.number()) else {
        return start;
    };
    list[start] = Node {
        error: FrameError::Host(source),
        place: node.place,
        native: true,
        parent: Some(i),
        note: Note::Clear,
    };
    start + 1
}

// Appends the first frames of the order that lie beneath the node `i`, which is the frame `o` of the whole order, and
// answers where the list then ends.
fn append_frames(order: &[Visit], o: usize, i: usize, list: &mut [Node], start: usize) -> usize
    requires { ∥ ((c : Forest) × NextFrames (map visited order.now) o c × (start + trees c ≤ length list.old)) ∥₁ }
    ensures { (c : Forest) → NextFrames (map visited order.now) o c → start + trees c ≤ length list.old
        → Put list.old list.new start result (map wait_node (from_forest i o c)) }
{
    for (k, visit) in order.iter().enumerate() {
        if !visit.is_beneath(o) {
            return start + k;
        }
        list[start + k] = visit.node(Some(i));
    }
    start + order.len()
}

// Appends the children of the node `i`, and answers how far the flattening then is.
fn append_below<H: Host>(
    host: &H,
    order: &[Visit],
    i: usize,
    list: &mut [Node],
    at: Progress,
) -> Progress
    requires inside { i < length list.old }
    requires waits { ∥ ((w : Wait) × Waits (H.Host.errors host.now) (map visited order.now) list.old i at w) ∥₁ }
    ensures { (w : Wait) → Waits (H.Host.errors host.now) (map visited order.now) list.old i at w
        → Grown (H.Host.errors host.now) list.old list.new i at result w }
{
    let native = list[i].native;
    let start = append_source(host, i, list, at.stop);
    if native {
        return Progress { stop: start, ..at };
    }
    let rest = &order[at.shown..];
    let stop = append_frames(rest, at.past, i, list, start);
    Progress {
        stop,
        past: at.past + 1,
        shown: at.shown + (stop - start),
    }
}

// Fills a list with the nodes of a report, breadth-first: it has as many places, and the frames stand in the order.
// The loop counts, since the list that it goes through is written meanwhile.
fn fill<H: Host>(host: &H, order: &[Visit], list: &mut [Node])
    requires { ∥ ((t : Tree) × Begun (H.Host.errors host.now) (map visited order.now) (length list.old) t) ∥₁ }
    ensures { (t : Tree) → Begun (H.Host.errors host.now) (map visited order.now) (length list.old) t → list.new ≡ flattening (H.Host.errors host.now) t }
{
    list[0] = order[0].node(None);
    let mut at = Progress {
        stop: 1,
        past: 0,
        shown: 1,
    };
    for i in 0..list.len() {
        at = append_below(host, order, i, list, at);
    }
}

// Writes the nodes of a report breadth-first into the front of a list, and leaves the rest as it was. The report's frames
// stand in the order, and its nodes are `total`.
pub fn flatten<H: Host>(host: &H, order: &[Visit], list: &mut [Node], total: usize)
    requires { ∥ ((t : Tree) × BegunWithin (H.Host.errors host.now) (map visited order.now) (length list.old) total t) ∥₁ }
    ensures { (t : Tree) → BegunWithin (H.Host.errors host.now) (map visited order.now) (length list.old) total t
        → list.new ≡ flattening (H.Host.errors host.now) t ++ drop total list.old }
{
    fill(host, order, &mut list[..total]);
}
