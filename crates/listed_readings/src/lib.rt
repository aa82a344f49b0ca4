// Theory: what a report comes to, read off the list of its frames or of its nodes. The definitions are in specs/, laws
// about them in proofs/.
#![tactic(auto)]

ghost use Rattle.listed_readings.specs.Laws.{CauseByNodes, FrameErrorsOfNodes, JudgedByFrames, RetriesAsVerdict};

// Class, verdict and refusal of a report are those of its frames one after the other, and the frames stand in the same
// order among its nodes.
pub fn judgements()
    ensures { JudgedByFrames × RetriesAsVerdict × FrameErrorsOfNodes }
{}

// The probable cause by the nodes, from the last to the first.
pub fn causes_by_nodes()
    ensures { CauseByNodes }
{}
