ghost use Rattle.std.specs.Prelude.{◌≡◌};
ghost use Rattle.std.specs.Fn.{FnOnceReturnsAtMut};
ghost use Rattle.layout.specs.declared.frame.Frame.{Frame};
ghost use Rattle.layout.specs.Layout.{Within, changed};

use layout::frame::Frame;

// Changes the frame `at` by `f`, if there is one.
pub fn change<F: FnOnce(&mut Frame)>(frames: &mut [Frame; 1024], at: Option<u16>, f: F)
    requires within { Within at }
    requires callable { F.IsAlwaysCallable f }
    ensures { (g : Frame → Frame) → ((x y : Frame) → FnOnceReturnsAtMut F.FnOnce f x tt y → y ≡ g x) → frames.new ≡ changed frames.old at g }
{
    if let Some(i) = at {
        f(&mut frames[i as usize]);
    }
}
