// Theory: what the definitions of the contracts come to in known cases, over the drive host and layers around it. The cases
// are in specs/Cases.antt.
#![tactic(auto)]

ghost use Rattle.reference_cases.specs.Cases.{ReferenceCases};

// Flattening, check, class, verdict, probable cause and the ledger, in the reference cases.
pub fn reference_cases()
    ensures { ReferenceCases }
{}
