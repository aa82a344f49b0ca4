ghost use Rattle.std.specs.Prelude.{◌≡◌, ℕ, ◌+◌, ◌<◌, ◌≤◌, length, Some, Decides};
ghost use Rattle.nodes.specs.Begins.{Checked};
ghost use Rattle.nodes.specs.Check.{node_at, error_source, explicit_count, NextSource, Clear, Root, SourceFits, FrameFits, NodeFits};
ghost use Rattle.nodes.specs.Nodes.{LiveError};
ghost use Rattle.checks.specs.Flattening.{CheckResult};

use host::host::Host;
use host::sources::source_of;
use nodes::node::{Node, Note};
use vocabulary::fault::StoreFault;
use vocabulary::frame_error::FrameError;

// A list of nodes, and the host that their errors are of.
#[derive(Drop)]
struct Check<'a, H> {
    host: &'a H,
    nodes: &'a [Node],
}

// What the nodes that passed leave to the next.
#[derive(Clone, Copy)]
struct Progress {
    // the parent of the latest node
    last: usize,
    // the first node whose source is not listed
    owing: usize,
}

impl<'a, H: Host> Check<'a, H> {
    // The source of an error, if it is live and has one.
    fn source(&self, error: FrameError) -> Option<u16>
        ensures { result ≡ error_source (H.Host.errors self.now.host.now) error }
    {
        source_of(self.host, error.number())
    }

    // Whether an error is live.
    fn is_live(&self, error: FrameError) -> bool
        ensures { Decides result (LiveError (H.Host.errors self.now.host.now) error) }
    {
        self.host.kind(error.number()).is_ok()
    }

    // Whether a node can be the first.
    fn is_root(&self, node: Node) -> bool
        ensures { Decides result (Root (H.Host.errors self.now.host.now) node) }
    {
        is_clear(node) && self.is_live(node.error) && !node.native && node.parent.is_none()
    }

    // The first node from `from` on that has a source, or `to` where none before it has.
    fn next_owing(&self, from: usize, to: usize) -> usize
        requires { (from ≤ to) × (to ≤ length self.now.nodes.now) }
        ensures { NextSource (H.Host.errors self.now.host.now) self.now.nodes.now from to result }
    {
        self.nodes[from..to]
            .iter()
            .position(|node| self.source(node.error).is_some())
            .map_or(to, |k| from + k)
    }

    // Whether the node at `i` is the source that the node `owing` owes.
    fn source_fits(&self, i: usize, owing: usize) -> bool
        requires { i < length self.now.nodes.now }
        ensures { Decides result (SourceFits (H.Host.errors self.now.host.now) self.now.nodes.now i owing (node_at self.now.nodes.now i)) }
    {
        let node = self.nodes[i];
        node.native
            && node.parent == Some(owing)
            && owing < i
            && self.source(self.nodes[owing].error).map(FrameError::Host) == Some(node.error)
            && node.place == self.nodes[owing].place
    }

    // Whether the node at `i` is a frame that can come next.
    fn frame_fits(&self, i: usize, at: Progress) -> bool
        requires { (i < length self.now.nodes.now) × (at.owing ≤ i) }
        ensures { Decides result (FrameFits self.now.nodes.now at.last at.owing (node_at self.now.nodes.now i)) }
    {
        let node = self.nodes[i];
        !node.native
            && node.parent.is_some_and(|parent| {
                at.last <= parent && parent < at.owing && !self.nodes[parent].native
            })
    }

    // Whether the node at `i` fits those before it.
    fn node_fits(&self, i: usize, at: Progress) -> bool
        requires { (i < length self.now.nodes.now) × (at.owing ≤ i) }
        ensures { Decides result (NodeFits (H.Host.errors self.now.host.now) self.now.nodes.now i at.last at.owing) }
    {
        let node = self.nodes[i];
        is_clear(node)
            && self.is_live(node.error)
            && (self.source_fits(i, at.owing) || self.frame_fits(i, at))
    }
}

// Whether a node has no note.
fn is_clear(node: Node) -> bool
    ensures { Decides result (Clear node) }
{
    node.note == Note::Clear
}

// The first index at which a list is no flattening of a report, or none for a flattening. The nodes before it begin a
// flattening, and with the node at it they begin none; at its length, the list begins one and is none.
pub fn first_bad<H: Host>(host: &H, nodes: &[Node]) -> Option<usize>
    ensures { Checked (H.Host.errors host.now) nodes.now result }
{
    let check = Check { host, nodes };
    if nodes.is_empty() || !check.is_root(nodes[0]) {
        return Some(0);
    }
    let mut at = Progress {
        last: 0,
        owing: check.next_owing(0, 1),
    };
    for (i, node) in nodes.iter().enumerate().skip(1) {
        if !check.node_fits(i, at) {
            return Some(i);
        }
        let from = if node.native { at.owing + 1 } else { at.owing };
        at = Progress {
            last: node.parent.unwrap_or(0),
            owing: check.next_owing(from, i + 1),
        };
    }
    (at.owing < nodes.len()).then_some(nodes.len())
}

// The same as a result: the index is the fault of a list that is no flattening.
pub fn check_flattening<H: Host>(host: &H, nodes: &[Node]) -> Result<(), StoreFault>
    ensures { CheckResult (H.Host.errors host.now) nodes.now result }
{
    first_bad(host, nodes).map_or(Ok(()), |i| Err(StoreFault::NotFlattening(i)))
}

// How many nodes are frames, and no sources.
pub fn explicit_nodes(nodes: &[Node]) -> usize
    ensures { result ≡ explicit_count nodes.now }
{
    nodes.iter().filter(|node| !node.native).count()
}
