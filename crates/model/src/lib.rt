// Theory: what a host means, the sources beneath an error, classes and verdicts. The definitions are in specs/, laws
// about them in proofs/.
#![tactic(auto)]
