// One congruence a·t = b mod m as a call: its question, and then the arithmetic of `residue`.
#![tactic(auto)]

ghost use Rattle.std.specs.Prelude.{◌≡◌};
ghost use Rattle.questions.specs.Refusals.{by_number};
ghost use Rattle.congruence.specs.Congruence.{congruence_of};

use questions::{Refusal, ask, is_modulus};
use residue::congruence::{Solutions, solve as solve_one};
use residue::modular::residue;

// The solutions, if there are any. Any a and b are brought to their residues.
pub fn solve(a: i32, b: i32, m: u32) -> Result<Option<Solutions>, Refusal>
    ensures { by_number result ≡ congruence_of a b m }
{
    ask(is_modulus(m), Refusal::Modulus)?;
    let coefficient = residue(i64::from(a), m);
    let right = residue(i64::from(b), m);
    Ok(solve_one(coefficient, right, m))
}
