// Residues and Euclid's chain, for every modulus from 1 to 2^32 - 1.
#![tactic(auto)]

pub mod congruence;
pub mod division;
pub mod euclid;
pub mod extended;
pub mod modular;
