// Equations typed as text, as definitions and laws alone: which bytes write which tree, what a tree says of a vector, and which
// equation it adds. See specs/ and proofs/.
#![tactic(auto)]
