// Theory: the ledger, which knows of each report and basket what the calls made of it.
#![tactic(auto)]
