// Whole equations: the line that a text adds to a sheet, or the question that turns it away.
ghost use Rattle.std.specs.Prelude.{◌≡◌, [], ◌∷◌, ◌≤◌, ◌<◌, IfOk};
ghost use Rattle.questions.specs.Questions.{asks, first_no};
ghost use Rattle.questions.specs.Refusals.{refused_with};
ghost use Rattle.equations.specs.Lines.{equation_at};
ghost use Rattle.grammar.specs.Grammar.{largest_unknown};
ghost use Rattle.grammar.specs.Texts.{typed_of, is_typed, is_within, is_linear, equation_in};

use crate::forms::{LINE, line_of};
use crate::sides::typed_sides;
use questions::{Refusal, ask};

// The line that a text adds to a sheet of n unknowns mod m, at the front.
pub fn read(text: &[u8], m: u32, n: usize) -> Result<[u32; LINE], Refusal>
    requires { (0 < m) × (n ≤ largest_unknown) }
    ensures refusal_value { refused_with result ≡ first_no (asks 11 (is_typed text.now) ∷ asks 12 (is_within n text.now)
        ∷ asks 13 (is_linear text.now) ∷ []) }
    ensures line_value { IfOk result (λ line. equation_at n line ≡ equation_in m n (typed_of text.now)) }
{
    let (a, b) = typed_sides(text, m).ok_or(Refusal::Text)?;
    let within = a.largest as usize <= n && b.largest as usize <= n;
    ask(within, Refusal::Beyond)?;
    ask(a.linear && b.linear, Refusal::NotLinear)?;
    Ok(line_of(&a, &b, m, n))
}
