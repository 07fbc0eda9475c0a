// Answers to lists of equations over the residues, as document 01 defines them, the marking of claims, the
// reasons why they fail or are long, and the equations that are made for a claim.
#![tactic(auto)]

mod around;
mod asked;
mod basis;
mod checking;
pub mod explaining;
mod finding;
mod keeping;
pub mod limits;
pub mod marking;
mod reading;
mod relating;
pub mod residues;
mod runs;
pub mod solving;
mod spanning;
pub mod wanting;
