// The questions that the calls on a sheet ask, in the paper's order: the first whose answer is no turns the call away. They see three
// numbers of a sheet and whether it is opened, and not its record.
#![tactic(auto)]

pub mod adding;
pub mod classes;
pub mod entries;
mod own;
pub mod queries;
mod shapes;

ghost use Rattle.std.specs.Prelude.{◌≡◌};
ghost use Rattle.ledger.specs.Questions.{allowed_unknowns};

use system::limits::UNKNOWNS;

// What questions ask of a sheet: whether it is opened, m, n, and how many equations it holds. No Option: a sheet that is not opened has 0
// unknowns, by which a tape's calls and a class's claims have their lengths all the same.
#[derive(Clone, Copy)]
pub struct Seen {
    pub opened: bool,
    pub modulus: u32,
    pub unknowns: usize,
    pub held: usize,
}

// "n 1..16?"
pub fn are_unknowns(n: usize) -> bool
    ensures { result ≡ allowed_unknowns n }
{
    1 <= n && n <= UNKNOWNS
}
