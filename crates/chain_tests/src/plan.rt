// Trees written depth-first, the reports that are built of them, and a plain model of their flattening.
use crate::tokens::{granted, take};
use host::host::Host;
use host::sources::Chain;
use nodes::node::{Node, Note};
use std::alloc::Global;
use std::process::Abort;
use std::test::Fail;
use store::store::Store;
use store::token::Exn;
use vocabulary::frame_error::FrameError;

// A frame: how deep it stands, its error and its place.
#[derive(Clone, Copy)]
pub struct Planned {
    pub depth: usize,
    pub error: u16,
    pub place: u32,
}

pub const fn frame(depth: usize, error: u16, place: u32) -> Planned {
    Planned {
        depth,
        error,
        place,
    }
}

// The report of a tree. From the last frame to the first, each takes the trees beneath it, which are the first of those
// that stand ready.
pub fn grow<H: Host>(
    rt: &impl Abort,
    heap: Global,
    store: &mut Store,
    host: &H,
    tree: &[Planned],
) -> Exn {
    let mut ready = store.basket();
    // how deep they stand, the first of them last
    let mut depths: Vec<usize> = Vec::new(heap);
    for frame in tree.iter().rev() {
        let beneath = frame.depth.wrapping_add(1);
        let count = depths.iter().rev().take_while(|d| **d == beneath).count();
        let mut children = store.basket();
        for _ in 0..count {
            depths.pop();
            let child = take(rt, store, &mut ready);
            granted(rt, children.collect(store, child));
        }
        let root = granted(
            rt,
            Exn::raise_all(store, host, children, frame.error, frame.place),
        );
        let mut next = store.basket();
        granted(rt, next.collect(store, root));
        for _ in 0..depths.len() {
            let other = take(rt, store, &mut ready);
            granted(rt, next.collect(store, other));
        }
        granted(rt, depths.push(frame.depth));
        granted(rt, ready.discard(store));
        ready = next;
    }
    let report = take(rt, store, &mut ready);
    granted(rt, ready.discard(store));
    report
}

// A node and how deep it stands.
#[derive(Clone, Copy)]
struct Step {
    depth: usize,
    node: Node,
}

// The nodes depth-first: behind each frame its sources, each a level deeper. Parents are places in this order.
fn walk<H: Host>(heap: Global, host: &H, tree: &[Planned]) -> Result<Vec<Step>, Fail> {
    let mut steps: Vec<Step> = Vec::new(heap);
    for frame in tree {
        let mut parent = steps.iter().rposition(|step| !step.node.native
            && step.depth.wrapping_add(1) == frame.depth);
        let mut depth = frame.depth;
        let mut native = false;
        for error in Chain::of(host, frame.error)? {
            let node = Node {
                error: FrameError::Host(error),
                place: frame.place,
                native,
                parent,
                note: Note::Clear,
            };
            parent = Some(steps.len());
            steps.push(Step { depth, node })?;
            depth = depth.wrapping_add(1);
            native = true;
        }
    }
    Ok(steps)
}

// The flattening of a tree: its nodes by their depth, and those of one depth as they come depth-first.
pub fn listing<H: Host>(heap: Global, host: &H, tree: &[Planned]) -> Result<Vec<Node>, Fail> {
    let steps = walk(heap, host, tree)?;
    let deepest = steps.iter().map(|step| step.depth).max().unwrap_or(0);
    let mut order: Vec<usize> = Vec::new(heap);
    let mut nodes = Vec::new(heap);
    for depth in 0..=deepest {
        for (k, step) in steps.iter().enumerate() {
            if step.depth == depth {
                let parent = step
                    .node
                    .parent
                    .and_then(|p| order.iter().position(|q| *q == p));
                order.push(k)?;
                nodes.push(Node {
                    parent,
                    ..step.node
                })?;
            }
        }
    }
    Ok(nodes)
}

// A node without a note.
pub const fn node(error: u16, place: u32, native: bool, parent: Option<usize>) -> Node {
    Node {
        error: FrameError::Host(error),
        place,
        native,
        parent,
        note: Note::Clear,
    }
}

// A node that no call writes.
pub const KEPT: Node = Node {
    error: FrameError::Host(9),
    place: 9,
    native: true,
    parent: Some(9),
    note: Note::Several,
};

// The first nodes of a list, at most so many.
pub fn front(list: &[Node], count: usize) -> &[Node] {
    &list[..count.min(list.len())]
}
