// The questions of an equation in words. The residues of its words go to lent memory, which has room for one word more than the equation can
// have: so many are enough to tell its shape.
ghost use Rattle.std.specs.Prelude.{◌≡◌, ◌≤◌, IfOk, T, length, take};
ghost use Rattle.questions.specs.Refusals.{refused_with};
ghost use Rattle.slices.specs.Over.{over};
ghost use Rattle.words.specs.Words.{words_in};
ghost use Rattle.words.specs.Signs.{residues_of};
ghost use Rattle.ledger.specs.Ledger.{Ledger, most_unknowns};
ghost use Rattle.ledger.specs.Shapes.{own_modulus, equation_words};
ghost use Rattle.ledger.specs.Calls.{adds, enters};
ghost use Rattle.ledger.specs.Questions.{refusal_of};
ghost use Rattle.asking.specs.Sees.{Sees, equation_room, used_modulus};

use crate::Seen;
use crate::own::own_of;
use crate::shapes::is_equation;
use questions::{Refusal, ask};
use system::limits::{EQUATIONS, LINE};
use words::signs::residues_into;
use words::unpacking::tops_fit;

pub const EQUATION_ROOM: usize = LINE + 1;

// The modulus of the line that an equation in words adds. An unopened sheet has no modulus: only on an opened one the line gets the residues
// of the equation's words, mod the sheet's where their own modulus is not allowed.
pub fn adding_of(seen: Seen, words: &[u32], line: &mut [u32]) -> Result<u32, Refusal>
    requires { (seen.unknowns ≤ most_unknowns) × (T seen.opened → 2 ≤ seen.modulus) × (length line.old ≡ equation_room) }
    ensures refusal_value { (l : Ledger) → Sees l seen → refused_with result ≡ refusal_of l (enters (adds words.now)) }
    ensures modulus_value { IfOk result (λ q. q ≡ own_modulus seen.modulus (words_in words.now)) }
    ensures line_after { T seen.opened → line.new
        ≡ over (take equation_room (residues_of (used_modulus seen.modulus (words_in words.now)) (equation_words (words_in words.now)))) line.old }
{
    ask(seen.opened, Refusal::Unopened)?;
    let own = own_of(words, seen.modulus);
    let behind = own.behind;
    let mut kinds = [0u32; EQUATION_ROOM];
    let count = residues_into(&words[behind..], own.modulus, &mut kinds, line);
    ask(tops_fit(words), Refusal::Top)?;
    ask(is_equation(&kinds[..count], seen.unknowns), Refusal::Shape)?;
    ask(own.allowed, Refusal::OwnModulus)?;
    ask(seen.held < EQUATIONS, Refusal::Full)?;
    Ok(own.modulus)
}
