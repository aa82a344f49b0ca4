use vocabulary::frame_error::FrameError;

// Where the line of a node stands in a printed tree.
#[derive(Clone, Copy, PartialEq, Eq)]
pub enum Position {
    // the head of a report
    Head {
        // whether another report stands before it
        later: bool,
        // whether causes stand beneath it
        has_causes: bool,
    },
    // the main chain, whose lines have numbers and no guides
    Main {
        number: u32,
    },
    // a level of its own, behind guides
    Nested {
        // none where the line is alone on its level
        number: Option<u32>,
        // which line stands for the level above; none where that is the main chain
        above: Option<u32>,
        // whether one of its siblings follows
        sibling_follows: bool,
        // whether its only cause follows on the same level
        chain_continues: bool,
    },
}

// A line of a printed tree.
#[derive(Clone, Copy, PartialEq, Eq)]
pub struct Line {
    // the index of the node whose text it shows
    pub node: u32,
    pub position: Position,
}

// What a print of a tree puts down beside a node. The lines are not those of the nodes beside which they stand: the first
// node has the first line, and so on.
#[derive(Clone, Copy, PartialEq, Eq)]
pub struct Plan {
    // whether the node is a marker
    pub marker: bool,
    // the first of the causes that are shown beneath the node, those of a marker in its place
    pub first: Option<u32>,
    // the one that is shown after the node beneath the same cause
    pub next: Option<u32>,
    pub line: Option<Line>,
}

// What a question or a print puts down beside a node while it works.
#[derive(Clone, Copy, PartialEq, Eq)]
pub enum Note {
    // nothing: so it is in every flattening, and after every call
    Clear,
    Planned(Plan),
    // beneath the node one node that is no marker stands above all others, and the cause beneath it is this error
    Single(FrameError),
    // beneath the node several do
    Several,
}

// A node of a list.
#[derive(Clone, Copy, PartialEq, Eq)]
pub struct Node {
    pub error: FrameError,
    // the place of the frame that owns the node
    pub place: u32,
    // whether it is a source of its parent's error, and no frame of its own. A flag beside `parent`, since a caller's list may
    // hold any pair of both, and the check tells where that is no flattening
    pub native: bool,
    // the index of its parent, none for the root; an index, since lists are lent and fixed memory
    pub parent: Option<usize>,
    pub note: Note,
}

// A node that says nothing, for lists that are still to be filled.
pub const BLANK: Node = Node {
    error: FrameError::Host(0),
    place: 0,
    native: false,
    parent: None,
    note: Note::Clear,
};
