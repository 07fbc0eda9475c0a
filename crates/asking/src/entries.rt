// The questions of the calls that open, type or strike. Where a call has words, their numbers go to lent memory, which has room for one word
// more than the call can have: so many are enough to tell its shape.
ghost use Rattle.std.specs.Prelude.{◌≡◌, ◌≤◌, ◌<◌, IfOk, T, length, take};
ghost use Rattle.slices.specs.Over.{over};
ghost use Rattle.questions.specs.Refusals.{refused_with};
ghost use Rattle.equations.specs.Lines.{equation_at};
ghost use Rattle.words.specs.Words.{words_in, numbers_of};
ghost use Rattle.grammar.specs.Texts.{typed_of, equation_in};
ghost use Rattle.ledger.specs.Ledger.{Ledger, unopened, most_unknowns};
ghost use Rattle.ledger.specs.Calls.{opens, types, strikes, enters};
ghost use Rattle.ledger.specs.Questions.{refusal_of};
ghost use Rattle.asking.specs.Sees.{Sees, opening_room};

use crate::shapes::is_opening;
use crate::{Seen, are_unknowns};
use questions::{Refusal, ask, is_modulus};
use system::limits::{EQUATIONS, LINE};
use typed::equation::read;
use words::unpacking::{tops_fit, unpack_into};

pub const OPENING_ROOM: usize = 3;

pub fn open_refusal(words: &[u32], numbers: &mut [u32]) -> Result<(), Refusal>
    requires { length numbers.old ≡ opening_room }
    ensures value { refused_with result ≡ refusal_of unopened (enters (opens words.now)) }
    ensures numbers_after { numbers.new ≡ over (take opening_room (numbers_of (words_in words.now))) numbers.old }
{
    let mut kinds = [0u32; OPENING_ROOM];
    let count = unpack_into(words, &mut kinds, numbers);
    ask(tops_fit(words), Refusal::Top)?;
    ask(is_opening(&kinds[..count]), Refusal::Shape)?;
    ask(is_modulus(numbers[0]), Refusal::Modulus)?;
    ask(are_unknowns(numbers[1] as usize), Refusal::Unknowns)
}

// A text has no words: where it is accepted, its line is given.
pub fn typing_of(seen: Seen, text: &[u8]) -> Result<[u32; LINE], Refusal>
    requires { (seen.unknowns ≤ most_unknowns) × (T seen.opened → 0 < seen.modulus) }
    ensures refusal_value { (l : Ledger) → Sees l seen → refused_with result ≡ refusal_of l (enters (types text.now)) }
    ensures line_value { IfOk result (λ line. equation_at seen.unknowns line
        ≡ equation_in seen.modulus seen.unknowns (typed_of text.now)) }
{
    ask(seen.opened, Refusal::Unopened)?;
    let line = read(text, seen.modulus, seen.unknowns)?;
    ask(seen.held < EQUATIONS, Refusal::Full)?;
    Ok(line)
}

pub fn strike_refusal(seen: Seen, place: u32) -> Result<(), Refusal>
    ensures { (l : Ledger) → Sees l seen → refused_with result ≡ refusal_of l (enters (strikes place)) }
{
    ask(seen.opened, Refusal::Unopened)?;
    ask(0 < seen.held, Refusal::NothingToStrike)?;
    ask(place as usize <= seen.held, Refusal::Place)
}
