// Trees of errors, and how they lie in numbered frames: definitions and their laws.
#![tactic(auto)]

ghost use Rattle.trees.specs.Laws.{Counted};

// A tree has as many frames as the numbered forest that it was read from.
pub fn counted()
    ensures { Counted }
{}
