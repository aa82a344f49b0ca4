// The children of one node of a list.
ghost use Rattle.std.specs.Prelude.{◌≡◌};
ghost use Rattle.std.specs.Iterator.{YieldsFirst, item_count};
ghost use Rattle.chains.specs.Children.{children_after};

use nodes::node::Node;
use std::marker::Model;

// Steps through the children of a node, in the order of the list. A clause sees the indices that are still to come.
#[derive(Drop)]
pub struct Children<'a> {
    nodes: &'a [Node],
    parent: usize,
    // where the next child is looked for
    at: usize,
}

impl<'a> Model for Children<'a> {
    ghost use Rattle.std.specs.Prelude.{◌≤◌, ℕ, List, length};
    ghost use Rattle.chains.specs.Children.{children_after};

    ghost Value = { List ℕ };

    ghost view = { λ c. children_after c.nodes.now c.parent c.at };

    ghost invariant = { λ c. c.at ≤ length c.nodes.now };
}

impl<'a> Children<'a> {
    pub fn of(nodes: &'a [Node], parent: usize) -> Children<'a>
        ensures { result ≡ children_after nodes.now parent 0 }
    {
        Children {
            nodes,
            parent,
            at: 0,
        }
    }
}

impl<'a> Iterator for Children<'a> {
    // the index of a child
    type Item = usize;

    ghost next_gives = { YieldsFirst (λ rest. rest) };

    ghost remaining = { item_count (λ rest. rest) };

    fn next(&mut self) -> Option<usize> {
        let parent = Some(self.parent);
        let from = self.at;
        let rest = &self.nodes[from..];
        // so that a call after the last child looks at no node again
        self.at = self.nodes.len();
        let passed = rest.iter().position(|node| node.parent == parent)?;
        let child = from + passed;
        self.at = child + 1;
        Some(child)
    }
}
