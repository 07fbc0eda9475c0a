// The questions about a claim that a sheet is wanted for. The buffer's length is asked later: 8 comes last.
ghost use Rattle.std.specs.Prelude.{◌≡◌, OnOk, length, take};
ghost use Rattle.slices.specs.Over.{over};
ghost use Rattle.questions.specs.Questions.{first_no};
ghost use Rattle.questions.specs.Refusals.{refused_with};
ghost use Rattle.words.specs.Words.{words_in, numbers_of};
ghost use Rattle.asking.specs.Sees.{claim_room};
ghost use Rattle.setting.specs.Calls.{setting_questions};

use asking::queries::mark_refusal;
use asking::{Seen, are_unknowns};
use questions::{Refusal, ask, is_modulus};

// The question that turns the claim away, if one of these does; and else the claim's numbers go to lent memory. The
// questions of a claim are those of marking it on a fresh sheet of m and n.
pub(crate) fn refusal(m: u32, n: u32, claim: &[u32], numbers: &mut [u32]) -> Result<(), Refusal>
    requires { length numbers.old ≡ claim_room }
    ensures value { refused_with result ≡ first_no (setting_questions m n claim.now) }
    ensures numbers_after { OnOk result (numbers.new ≡ over (take claim_room (numbers_of (words_in claim.now))) numbers.old) }
{
    let unknowns = n as usize;
    ask(is_modulus(m), Refusal::Modulus)?;
    ask(are_unknowns(unknowns), Refusal::Unknowns)?;
    let fresh = Seen {
        opened: true,
        modulus: m,
        unknowns: unknowns,
        held: 0,
    };
    mark_refusal(fresh, claim, numbers)
}
