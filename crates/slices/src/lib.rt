// Elements copied into a lent slice, or up within it: what the crates above do with memory that somebody lent.
#![tactic(auto)]

pub mod copying;
