ghost use Rattle.std.specs.Prelude.{◌≡◌, ℕ, ◌<◌, true, false, is_some, IsSome, IsNone, Some, None, ◌≢◌, nat_eq, slice_index_or};
ghost use Rattle.std.specs.Map.{update};
ghost use Rattle.trees.specs.Roots.{RootsDiffer};
ghost use Rattle.trees.specs.Trees.{first_root};
ghost use Rattle.layout.specs.Invariant.{WellFormed};
ghost use Rattle.layout.specs.Layout.{Sound, blank};
ghost use Rattle.layout.specs.Reports.{reports, rows, Means};
ghost use Rattle.trees.specs.Counting.{unused, in_report};
ghost use Rattle.layout.specs.Calls.{alone, under, joined, first_of, rest_of, opened, without, with_last, Drained, BeginAnswer};

use crate::change::change;
use layout::frame::{Frame, Role};
use std::array;
use vocabulary::frame_error::FrameError;

// A free frame with no other after it.
const FREE: Frame = Frame {
    error: FrameError::Host(0),
    place: 0,
    first: None,
    last: None,
    next: None,
    size: 1,
    role: Role::Linked,
};

// The frames of a store: each is free or belongs to one report, and a report stands alone or in one row.
// They lie in one array and link by number, since nothing may allocate while a failure is reported.
// A root is good only until the next call, so that it is one stands in each call's contract, and in no type of roots.
#[derive(Drop)]
pub struct Frames {
    frames: [Frame; 1024],
    // the first free frame
    free: Option<u16>,
    // the number of free frames
    count: u16,
    ghost sound: { Sound frames free count },
}

impl Frames {
    // Frames that are all free.
    pub fn new() -> Frames
        ensures { Means result.frames (λ j. None) (λ j. None) }
    {
        Frames {
            frames: array::from_fn(|i| Frame {
                next: (i as u16).checked_sub(1),
                ..FREE
            }),
            free: Some(1023),
            count: 1024,
        }
    }

    // Whether `n` is the root of a report in no row.
    pub fn is_report(&self, n: u16) -> bool
        ensures { result ≡ is_some (reports self.now.frames n) }
    {
        self.frames
            .get(n as usize)
            .is_some_and(|frame| frame.role.is_report())
    }

    // Whether `n` is the root of the first report of a row. Two calls of a few lines, since their contracts differ: a third that
    // both called would be no plainer.
    pub fn is_row(&self, n: u16) -> bool
        ensures { result ≡ is_some (rows self.now.frames n) }
    {
        self.frames
            .get(n as usize)
            .is_some_and(|frame| frame.role.is_row())
    }

    // Makes a report a row of one.
    #[tactic(auto, using(layout::proofs::Calls::bounds, layout::proofs::Calls::row_of_sound, layout::proofs::Calls::row_of_means))]
    pub fn row_of(&mut self, x: u16)
        requires { IsSome (reports self.old.frames x) }
        ensures { Means self.new.frames
            (update nat_eq (reports self.old.frames) x None)
            (update nat_eq (rows self.old.frames) x (alone x (reports self.old.frames x))) }
    {
        let size = self.frames[x as usize].size;
        self.frames[x as usize].role = Role::Row { last: x, size };
    }

    // Makes the reports of a row, in their order, the last children of the root of a report.
    #[tactic(auto, using(layout::proofs::Calls::bounds))]
    pub fn join_row(&mut self, x: u16, head: u16)
        requires live { IsSome (reports self.old.frames x) }
        requires begun { IsSome (rows self.old.frames head) }
        ensures { Means self.new.frames
            (update nat_eq (reports self.old.frames) x (under (reports self.old.frames x) (rows self.old.frames head)))
            (update nat_eq (rows self.old.frames) head None) }
    {
        let top = self.frames[x as usize];
        let role = self.frames[head as usize].role;
        self.frames[head as usize].role = Role::Linked;
        change(&mut self.frames, top.last, |frame| frame.next = Some(head));
        self.frames[x as usize] = Frame {
            first: top.first.or(Some(head)),
            last: role.last_root(),
            size: top.size + role.row_size(),
            ..top
        };
    }

    // Puts a report at the end of a row.
    #[tactic(auto, using(layout::proofs::Calls::bounds))]
    pub fn push(&mut self, head: u16, x: u16)
        requires begun { IsSome (rows self.old.frames head) }
        requires live { IsSome (reports self.old.frames x) }
        ensures { Means self.new.frames
            (update nat_eq (reports self.old.frames) x None)
            (update nat_eq (rows self.old.frames) head (joined (rows self.old.frames head) (alone x (reports self.old.frames x)))) }
    {
        let role = self.frames[head as usize].role;
        let size = role.row_size() + self.frames[x as usize].size;
        self.frames[x as usize].role = Role::Linked;
        change(
            &mut self.frames,
            role.last_root(),
            |frame| frame.next = Some(x),
        );
        self.frames[head as usize].role = Role::Row { last: x, size };
    }

    // Puts a report at the end of a row, or makes it a row of one where there is none, and answers the row's first root.
    #[tactic(auto, using(layout::proofs::Appends::alone_first, layout::proofs::Appends::alone_means, layout::proofs::Appends::last_first, layout::proofs::Appends::last_means))]
    pub fn append(&mut self, head: Option<u16>, x: u16) -> u16
        requires begun { (h : ℕ) → head ≡ Some h → IsSome (rows self.old.frames h) }
        requires live { IsSome (reports self.old.frames x) }
        ensures first { Some result ≡ first_root (with_last self.old.frames head x) }
        ensures means { Means self.new.frames
            (update nat_eq (reports self.old.frames) x None)
            (opened (without (rows self.old.frames) head) (with_last self.old.frames head x)) }
    {
        match head {
            Some(first) => self.push(first, x),
            None => self.row_of(x),
        }
        head.unwrap_or(x)
    }

    // Makes a report the last child of the root of another.
    #[tactic(auto, using(layout::proofs::Calls::join_both))]
    pub fn join(&mut self, x: u16, y: u16)
        requires first { IsSome (reports self.old.frames x) }
        requires second { IsSome (reports self.old.frames y) }
        requires apart { x ≢ y }
        ensures { Means self.new.frames
            (update nat_eq (update nat_eq (reports self.old.frames) y None) x (under (reports self.old.frames x) (alone y (reports self.old.frames y))))
            (rows self.old.frames) }
    {
        self.row_of(y);
        self.join_row(x, y);
    }

    // Makes the first report of a row stand alone again, and answers the first root of the others, which stay a row.
    #[tactic(auto, using(layout::proofs::Calls::bounds))]
    pub fn pop(&mut self, head: u16) -> Option<u16>
        requires { IsSome (rows self.old.frames head) }
        ensures answer { result ≡ first_root (rest_of (rows self.old.frames head)) }
        ensures means { Means self.new.frames
            (update nat_eq (reports self.old.frames) head (first_of (rows self.old.frames head)))
            (opened (update nat_eq (rows self.old.frames) head None) (rest_of (rows self.old.frames head))) }
    {
        let first = self.frames[head as usize];
        let size = first.role.row_size() - first.size;
        let role = Role::of_row(first.role.last_root(), size);
        change(&mut self.frames, first.next, |frame| frame.role = role);
        self.frames[head as usize] = Frame {
            next: None,
            role: Role::Report,
            ..first
        };
        first.next
    }

    // Makes the children of the root of a report a row, and answers the first, if there is one; the root stays, without children.
    #[tactic(auto, using(layout::proofs::Calls::bounds))]
    pub fn drain(&mut self, x: u16) -> Option<u16>
        requires { IsSome (reports self.old.frames x) }
        ensures { Drained self.old.frames self.new.frames x result }
    {
        let top = self.frames[x as usize];
        let role = Role::of_row(top.last, top.size - 1);
        change(&mut self.frames, top.first, |frame| frame.role = role);
        self.frames[x as usize] = Frame {
            first: None,
            last: None,
            size: 1,
            ..top
        };
        top.first
    }

    // Frees all frames of the reports of a row.
    #[tactic(auto, using(layout::proofs::Calls::bounds))]
    pub fn discard_row(&mut self, head: u16)
        requires { IsSome (rows self.old.frames head) }
        ensures { Means self.new.frames
            (reports self.old.frames)
            (update nat_eq (rows self.old.frames) head None) }
    {
        let role = self.frames[head as usize].role;
        let free = self.free;
        self.frames[head as usize].role = Role::Linked;
        change(
            &mut self.frames,
            role.last_root(),
            |frame| frame.next = free,
        );
        self.free = Some(head);
        self.count += role.row_size();
    }

    // Frees all frames of a report.
    #[tactic(auto, using(layout::proofs::Calls::discard_both))]
    pub fn discard(&mut self, x: u16)
        requires { IsSome (reports self.old.frames x) }
        ensures { Means self.new.frames
            (update nat_eq (reports self.old.frames) x None)
            (rows self.old.frames) }
    {
        self.row_of(x);
        self.discard_row(x);
    }

    // The number of free frames.
    #[tactic(auto, using(layout::proofs::Calls::bounds))]
    pub fn free(&self) -> usize
        ensures { result ≡ unused (reports self.now.frames) (rows self.now.frames) }
    {
        self.count as usize
    }

    // Makes a report of one free frame, and answers its number, or none where no frame is free.
    #[tactic(auto, using(layout::proofs::Calls::bounds))]
    pub fn begin(&mut self, error: FrameError, place: u32) -> Option<u16>
        ensures kept { IsNone result → self.new ≡ self.old }
        ensures answer { BeginAnswer self.old.frames self.new.frames error place result }
    {
        let i = self.free?;
        let old = self.frames[i as usize];
        change(&mut self.frames, old.last, |frame| frame.next = old.next);
        self.free = old.first.or(old.next);
        self.frames[i as usize] = Frame {
            error,
            place,
            role: Role::Report,
            ..FREE
        };
        self.count -= 1;
        Some(i)
    }

    // The number of frames of a report.
    #[tactic(auto, using(layout::proofs::Calls::bounds))]
    pub fn size(&self, x: u16) -> usize
        requires { IsSome (reports self.now.frames x) }
        ensures { result ≡ in_report (reports self.now.frames x) }
    {
        self.frames[x as usize].size as usize
    }

    // The frame `n`.
    pub fn frame(&self, n: u16) -> Frame
        requires { n < 1024 }
        ensures { result ≡ slice_index_or self.now.frames n blank }
    {
        self.frames[n as usize]
    }

    // Does nothing: its contract says what holds of the links of every store, and of the roots of its reports.
    pub fn well_formed(&self)
        ensures links { WellFormed self.now.frames self.now.free }
        ensures roots { RootsDiffer (reports self.now.frames) (rows self.now.frames) }
    {}
}
