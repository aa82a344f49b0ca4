// The printed forms of reports and chains: definitions and their laws.
#![tactic(auto)]
