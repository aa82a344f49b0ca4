// The tree of a list of nodes, made in the frames of a store.
ghost use Rattle.std.specs.Prelude.{◌≡◌, ◌<◌, ◌≤◌, true, List, length, take, drop, is_some, Some, None, ◌≢◌, nat_eq};
ghost use Rattle.std.specs.Map.{update};
ghost use Rattle.model.specs.Host.{Errors};
ghost use Rattle.trees.specs.Trees.{Tree, Listing, leaf};
ghost use Rattle.layout.specs.declared.frame.Frame.{Frame};
ghost use Rattle.layout.specs.Reports.{Means};
ghost use Rattle.frames.specs.Of.{frames_of, free_of, reports_of, rows_of};
ghost use Rattle.nodes.specs.Begins.{Flattens};
ghost use Rattle.rebuilding.specs.Steps.{adopting, with_first, Added, Built, Fits, Found, WithReport, WithRow};

use frames::store::Frames;
use nodes::node::Node;

// Where the children of a node begin in a list, and how many of them are frames.
#[derive(Clone, Copy)]
struct Children {
    start: usize,
    frames: usize,
}

// Makes a report the first child of the root of another.
fn join_first(frames: &mut Frames, x: u16, y: u16)
    requires first { is_some (reports_of frames.old x) ≡ true }
    requires second { is_some (reports_of frames.old y) ≡ true }
    requires apart { x ≢ y }
    ensures { Means (frames_of frames.new)
        (update nat_eq (update nat_eq (reports_of frames.old) y None) x (with_first (reports_of frames.old x) (reports_of frames.old y)))
        (rows_of frames.old) }
{
    let others = frames.drain(x);
    frames.join(x, y);
    if let Some(head) = others {
        frames.join_row(x, head);
    }
}

// Trees that do not stand under their parents yet: a row in the frames of a store, known by its first root. What the
// calls ask is no invariant: while a frame is added, its report stands beside the row. A `&mut` field does not say by itself
// that it is the same loan after a call, so each call says it.
#[derive(Drop)]
struct TreeRow<'a> {
    frames: &'a mut Frames,
    head: Option<u16>,
}

impl<'a> TreeRow<'a> {
    // Makes the first `count` reports of the row the first children of the root of a report, the first of them last.
    fn adopt(&mut self, root: u16, count: usize)
        requires { ∥ ((before : List Frame) × ((row : Listing) × ((t : Tree) × (WithReport before (frames_of self.old.frames.now) self.old.head row root t × (count ≤ length row))))) ∥₁ }
        ensures same_frames { self.new.frames.ghost_name ≡ self.old.frames.ghost_name }
        ensures adopts { (before : List Frame) (row : Listing) (t : Tree) → WithReport before (frames_of self.old.frames.now) self.old.head row root t → count ≤ length row
            → WithReport before (frames_of self.new.frames.now) self.new.head (drop count row) root (adopting t (take count row)) }
    {
        for _ in 0..count {
            let child = self.head.unwrap();
            self.head = self.frames.pop(child);
            join_first(self.frames, root, child);
        }
    }

    // Puts a report at the end of the row, or makes it one where there is none.
    fn append(&mut self, root: u16)
        requires { ∥ ((before : List Frame) × ((row : Listing) × ((t : Tree) × WithReport before (frames_of self.old.frames.now) self.old.head row root t))) ∥₁ }
        ensures same_frames { self.new.frames.ghost_name ≡ self.old.frames.ghost_name }
        ensures adds { (before : List Frame) (row : Listing) (t : Tree) → WithReport before (frames_of self.old.frames.now) self.old.head row root t
            → Added before (frames_of self.new.frames.now) row t self.new.head }
    {
        self.head = Some(self.frames.append(self.head, root));
    }

    // Makes a frame for a node, with the first `count` reports of the row as its children, the first of them last, and puts
    // it at the end of the row.
    fn add_frame(&mut self, node: Node, count: usize)
        requires room { 0 < free_of self.old.frames.now }
        requires held { ∥ ((before : List Frame) × ((row : Listing) × (WithRow before (frames_of self.old.frames.now) self.old.head row × (count ≤ length row)))) ∥₁ }
        ensures same_frames { self.new.frames.ghost_name ≡ self.old.frames.ghost_name }
        ensures adds { (before : List Frame) (row : Listing) → WithRow before (frames_of self.old.frames.now) self.old.head row → count ≤ length row
            → Added before (frames_of self.new.frames.now) (drop count row) (adopting (leaf node.error node.place) (take count row)) self.new.head }
    {
        let root = self.frames.begin(node.error, node.place).unwrap();
        self.adopt(root, count);
        self.append(root);
    }
}

// The children of the node `i`, which are the last nodes before `end`: an index, as is the start that is answered.
fn children_of(nodes: &[Node], i: usize, end: usize) -> Children
    requires { (i < end) × (end ≤ length nodes.now) }
    ensures { Found nodes.now i end result }
{
    let count = nodes[i + 1..end]
        .iter()
        .rev()
        .take_while(|node| node.parent == Some(i))
        .count();
    let start = end - count;
    let frames = nodes[start..end].iter().filter(|node| !node.native).count();
    Children { start, frames }
}

// Makes the tree of a list, a frame for each node that is no source, and answers its root. Goes through the nodes from the
// last to the first; the trees that are not yet under their parents are a row, the last of them first.
pub fn build(frames: &mut Frames, nodes: &[Node]) -> u16
    requires { ∥ ((h : Errors) × ((t : Tree) × Fits h nodes.now t (frames_of frames.old))) ∥₁ }
    ensures { (h : Errors) (t : Tree) → Flattens h nodes.now t → Built (frames_of frames.old) (frames_of frames.new) result t }
{
    let mut row = TreeRow { frames, head: None };
    let mut end = nodes.len();
    for (i, node) in nodes.iter().enumerate().rev() {
        let children = children_of(nodes, i, end);
        end = children.start;
        if !node.native {
            row.add_frame(*node, children.frames);
        }
    }
    let root = row.head.unwrap();
    row.frames.pop(root);
    root
}
