// Theory: what a report comes to, its class, its verdict and its probable cause, read frame by frame. The definitions
// are in specs/, laws about them in proofs/.
#![tactic(auto)]

ghost use Rattle.readings.specs.Laws.{CauseStands, CauseOnce, ClassOverFrames, AnyOverFrames, ClassByFrames, AnyByFrames, VerdictByFrames, CauseFromBack, CauseAtRoot, FramesInOrder, FirstNotLiveByFrames, LiveByFrames};

// The fold over a report's nodes gives its probable cause, and there is no other.
pub fn causes()
    ensures { (CauseStands) × (CauseOnce) }
{}

// The probable cause by the frames alone, from the last to the first.
pub fn causes_by_frames()
    ensures { (CauseFromBack) × (CauseAtRoot) }
{}

// Class and verdict of a report are those of its frames, each with the sources beneath its error.
pub fn verdicts_by_frames()
    ensures { (ClassOverFrames × AnyOverFrames) × (ClassByFrames × AnyByFrames × VerdictByFrames) }
{}

// The frames keep their order where the sources are left out, and the first error that is not live is that of a frame.
pub fn refusals_by_frames()
    ensures { FramesInOrder × FirstNotLiveByFrames × LiveByFrames }
{}
