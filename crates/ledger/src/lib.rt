// Document 01's ledger and its calls, as definitions and laws alone: see specs/ and proofs/.
#![tactic(auto)]
