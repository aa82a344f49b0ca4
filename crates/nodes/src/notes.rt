// Notes taken away.
ghost use Rattle.std.specs.Prelude.{◌≡◌, map};
ghost use Rattle.nodes.specs.Notes.{cleared};

use crate::node::{Node, Note};

// Takes all notes away.
pub fn clear_notes(nodes: &mut [Node])
    ensures { nodes.new ≡ map cleared nodes.old }
{
    for node in nodes.iter_mut() {
        node.note = Note::Clear;
    }
}
