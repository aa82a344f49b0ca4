// The frames of a report in breadth-first order.
ghost use Rattle.std.specs.Prelude.{◌≡◌, ◌<◌, ◌≤◌, ◌++◌, [], true, is_some};
ghost use Rattle.arrayvec.specs.ArrayVec.{array_vec_len};
ghost use Rattle.trees.specs.Counting.{in_report};
ghost use Rattle.trees.specs.Numbered.{Numbered};
ghost use Rattle.frames.specs.Of.{frames_of, reports_of};
ghost use Rattle.traversal.specs.Order.{Ordered, Room, visit_at, visits};
ghost use Rattle.traversal.specs.Walk.{unvisited};

use arrayvec::ArrayVec;
use frames::store::Frames;
use layout::frame::Frame;
use vocabulary::frame_error::FrameError;

// A frame that was come to.
#[derive(Clone, Copy)]
pub struct Visit {
    pub frame: u16,
    pub error: FrameError,
    pub place: u32,
    // where its parent stands in the order, none for the root
    pub parent: Option<u16>,
}

// What an order has where nothing was written yet. By hand, since no error is the default one.
impl Default for Visit {
    ghost is_default = { λ v. v ≡ unvisited };

    fn default() -> Visit {
        Visit {
            frame: 0,
            error: FrameError::Host(0),
            place: 0,
            parent: None,
        }
    }
}

// The frames of a report, as they were come to.
pub type Order = ArrayVec<Visit, 1024>;

fn visit_of(frames: &Frames, frame: u16, parent: Option<u16>) -> Visit
    requires { frame < 1024 }
    ensures { result ≡ visit_at (frames_of frames.now) frame parent }
{
    let Frame { error, place, .. } = frames.frame(frame);
    Visit {
        frame,
        error,
        place,
        parent,
    }
}

// Appends the frames that are linked from `first`. No iterator: that of the library over links (`iter::successors`) has no
// end that a `for` could see, and here the proof knows it.
fn append_children<const N: usize>(
    frames: &Frames,
    first: Option<u16>,
    parent: u16,
    order: &mut ArrayVec<Visit, N>,
)
    requires { ∥ ((kids : Numbered) × Room (frames_of frames.now) first (array_vec_len order.old) N kids) ∥₁ }
    ensures { (kids : Numbered) → Room (frames_of frames.now) first (array_vec_len order.old) N kids → order.new.items ≡ order.old.items ++ visits parent kids }
{
    let mut at = first;
    while let Some(frame) = at {
        order.push(visit_of(frames, frame, Some(parent)));
        at = frames.frame(frame).next;
    }
}

// Fills an empty order with the frames of a report, breadth-first, of which it can hold as many. It is lent, since a returned one would be copied. The loop
// counts, since the order that it goes through grows meanwhile.
pub fn breadth_first<const N: usize>(frames: &Frames, root: u16, order: &mut ArrayVec<Visit, N>)
    requires live { is_some (reports_of frames.now root) ≡ true }
    requires empty { order.old.items ≡ [] }
    requires room { in_report (reports_of frames.now root) ≤ N }
    requires small { N ≤ 1024 }
    ensures { Ordered (reports_of frames.now root) order.new.items }
{
    order.push(visit_of(frames, root, None));
    for i in 0..frames.size(root) {
        let first = frames.frame(order[i].frame).first;
        append_children(frames, first, i as u16, order);
    }
}
