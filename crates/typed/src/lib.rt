// Equations typed as text: what `3*(x1 - 2*x2) + x3 = 5 - x1` adds to a sheet, or why it is turned away.
#![tactic(auto)]

mod descent;
pub mod equation;
mod forms;
mod scan;
mod sides;
