// An exhaustive search for trees that flatten to lists, or begin with them.
use crate::plan::{Planned, frame, listing};
use host::host::Host;
use nodes::node::Node;
use std::alloc::Global;
use std::test::Fail;

// What the frames of the trees may have.
#[derive(Clone, Copy)]
pub struct Choice<'a> {
    pub errors: &'a [u16],
    pub places: &'a [u32],
}

// A list, how many of its nodes at most begin the flattening of a tree that was tried, and whether it is one whole.
#[derive(Drop)]
pub struct Tried {
    pub list: Vec<Node>,
    shared: usize,
    whole: bool,
}

impl Tried {
    pub fn new(list: Vec<Node>) -> Tried {
        Tried {
            list,
            shared: 0,
            whole: false,
        }
    }

    fn meet(&mut self, flattening: &[Node]) {
        let shared = self
            .list
            .iter()
            .zip(flattening.iter())
            .take_while(|(x, y)| *x == *y)
            .count();
        self.shared = self.shared.max(shared);
        if shared == self.list.len() && shared == flattening.len() {
            self.whole = true;
        }
    }

    // The first index at which the list begins no flattening, its length where it ends too early, or none.
    pub fn first_bad(&self) -> Option<usize> {
        (!self.whole).then_some(self.shared)
    }
}

// The trees with one frame more, at every depth that it can have as the last depth-first.
fn longer(
    heap: Global,
    tree: &[Planned],
    choice: Choice,
    trees: &mut Vec<Vec<Planned>>,
) -> Result<(), Fail> {
    let deepest = tree.last().map_or(0, |last| last.depth.wrapping_add(1));
    for depth in 1..=deepest {
        for error in choice.errors {
            for place in choice.places {
                let mut more = tree.to_vec(heap)?;
                more.push(frame(depth, *error, *place))?;
                trees.push(more)?;
            }
        }
    }
    Ok(())
}

// All trees of one frame.
fn leaves(heap: Global, choice: Choice) -> Result<Vec<Vec<Planned>>, Fail> {
    let mut trees = Vec::new(heap);
    for error in choice.errors {
        for place in choice.places {
            trees.push(vec![in heap; frame(0, *error, *place)]?)?;
        }
    }
    Ok(trees)
}

// Meets the lists with the flattenings of all trees of at most so many frames.
pub fn search<H: Host>(
    heap: Global,
    host: &H,
    choice: Choice,
    frames: usize,
    tried: &mut [Tried],
) -> Result<(), Fail> {
    let mut trees = leaves(heap, choice)?;
    for size in 1..=frames {
        let mut next = Vec::new(heap);
        for tree in &trees {
            let flattening = listing(heap, host, tree.as_slice())?;
            for one in tried.iter_mut() {
                one.meet(flattening.as_slice());
            }
            if size < frames {
                longer(heap, tree.as_slice(), choice, &mut next)?;
            }
        }
        trees = next;
    }
    Ok(())
}
