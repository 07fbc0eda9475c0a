// The elimination of the crate `elimination`, as code over packed rows in lent slices.
#![tactic(auto)]

pub mod building;
pub mod filling;
mod insertion;
pub mod line;
pub mod products;
pub mod substitution;
