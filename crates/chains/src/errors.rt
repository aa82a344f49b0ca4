// The errors of nodes that are no markers.
ghost use Rattle.std.specs.Prelude.{◌≡◌, length};
ghost use Rattle.chains.specs.Errors.{error_node, errors_in, shown_part, unmarked};

use host::host::Host;
use nodes::node::{Node, Note};
use traversal::marker::is_marker;
use vocabulary::frame_error::FrameError;

// A node that has nothing but an error.
fn error_node(error: FrameError) -> Node
    ensures { result ≡ error_node error }
{
    Node {
        error,
        place: 0,
        native: false,
        parent: None,
        note: Note::Clear,
    }
}

// Puts the errors of the nodes that are no markers at the front of the list, zeroes the nodes behind them, and answers how
// many errors there are.
pub fn keep_errors<H: Host>(host: &H, list: &mut [Node]) -> usize
    ensures count { result ≡ length (unmarked (H.Host.errors host.now) (errors_in list.old)) }
    ensures list { list.new ≡ shown_part (unmarked (H.Host.errors host.now) (errors_in list.old)) (length list.old) }
{
    let mut found = 0;
    // by index: an iterator would hold the list, which is written further to the front
    for i in 0..list.len() {
        let error = list[i].error;
        if !is_marker(host, error) {
            list[found] = error_node(error);
            found += 1;
        }
    }
    list[found..].fill(error_node(FrameError::Host(0)));
    found
}
