// The elimination as functions on lists, and why its results are document 01's answer: see specs/ and proofs/.
#![tactic(auto)]
