// A plain model of a report: what each frame holds, and its children in order. It knows nothing of a store.
use nodes::node::{Node, Note};
use std::alloc::{AllocError, Global};
use vocabulary::frame_error::FrameError;

#[derive(Drop)]
pub struct Tree {
    error: u16,
    place: u32,
    pub children: Vec<Tree>,
}

fn node(error: u16, place: u32, native: bool, parent: Option<usize>) -> Node {
    Node {
        error: FrameError::Host(error),
        place,
        native,
        parent,
        note: Note::Clear,
    }
}

impl Tree {
    pub fn new(error: u16, place: u32, children: Vec<Tree>) -> Tree {
        Tree {
            error,
            place,
            children,
        }
    }

    // The number of its frames.
    pub fn frames(&self) -> usize {
        let mut frames = 1usize;
        for child in &self.children {
            frames = frames.wrapping_add(child.frames());
        }
        frames
    }

    pub fn copy(&self, alloc: Global) -> Result<Tree, AllocError> {
        let mut children = Vec::new(alloc);
        for child in &self.children {
            children.push(child.copy(alloc)?)?;
        }
        Ok(Tree::new(self.error, self.place, children))
    }

    // Its flattening over the drive: breadth-first, beneath each frame first the source of its error, which is the same
    // reason one stage below, and then its children.
    pub fn nodes(&self, alloc: Global) -> Result<Vec<Node>, AllocError> {
        let mut nodes = Vec::new(alloc);
        let mut trees: Vec<Option<&Tree>> = Vec::new(alloc);
        nodes.push(node(self.error, self.place, false, None))?;
        trees.push(Some(self))?;
        // at most 1,024 frames, each with at most two sources
        for at in 0..3072 {
            let (Some(&above), Some(&tree)) = (nodes.get(at), trees.get(at)) else {
                break;
            };
            let error = above.error.number();
            if let Some(source) = error.checked_sub(16) {
                nodes.push(node(source, above.place, true, Some(at)))?;
                trees.push(None)?;
            }
            if let Some(tree) = tree {
                for child in &tree.children {
                    nodes.push(node(child.error, child.place, false, Some(at)))?;
                    trees.push(Some(child))?;
                }
            }
        }
        Ok(nodes)
    }
}
