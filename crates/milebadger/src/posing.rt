// The questions that milebadger_solve asks of its arguments.
ghost use Rattle.std.specs.Prelude.{◌≡◌};
ghost use Rattle.questions.specs.Questions.{first_no};
ghost use Rattle.questions.specs.Refusals.{refused_with};
ghost use Rattle.milebadger.specs.Calls.{solve_questions};

use asking::are_unknowns;
use questions::{Refusal, ask, is_modulus};
use residue::division::divide_wide;
use system::limits::EQUATIONS;
use system::residues::all_below;

// The question that turns the system away, if one does. The numbers are looked at only where their count is right: a caller may lend any memory.
pub(crate) fn refusal(m: u32, n: u32, lines: &[u32]) -> Result<(), Refusal>
    ensures { refused_with result ≡ first_no (solve_questions m n lines.now) }
{
    let unknowns = n as usize;
    let width = unknowns + 1;
    ask(is_modulus(m), Refusal::Modulus)?;
    ask(are_unknowns(unknowns), Refusal::Unknowns)?;
    let equations = divide_wide(lines.len() as u64, width as u64);
    ask(equations.remainder == 0, Refusal::Shape)?;
    ask(equations.quotient <= EQUATIONS as u64, Refusal::Full)?;
    ask(all_below(m, lines), Refusal::Number)
}
