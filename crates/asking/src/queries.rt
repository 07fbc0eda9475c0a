// The questions of the calls that neither open, add nor strike. The length of a lent buffer is asked where it is known what is written.
ghost use Rattle.std.specs.Prelude.{◌≡◌, ◌≤◌, length, take, drop};
ghost use Rattle.slices.specs.Over.{over};
ghost use Rattle.questions.specs.Refusals.{refused_with};
ghost use Rattle.equations.specs.Multipliers.{all_below};
ghost use Rattle.words.specs.Words.{words_in, numbers_of};
ghost use Rattle.ledger.specs.Ledger.{Ledger, most_unknowns};
ghost use Rattle.ledger.specs.Shapes.{claim_length};
ghost use Rattle.ledger.specs.Block.{longest_block};
ghost use Rattle.ledger.specs.Calls.{answers_from_tape, marks, queries};
ghost use Rattle.ledger.specs.Questions.{refusal_of};
ghost use Rattle.asking.specs.Sees.{Sees, claim_room};

use crate::Seen;
use crate::shapes::is_claim;
use questions::{Refusal, ask};
use system::limits::{BLOCK, VECTORS};
use system::residues::all_below;
use words::unpacking::{tops_fit, unpack_into};

pub const CLAIM_ROOM: usize = BLOCK + 1;

// Of the number of an answer word on tape.
pub fn answer_word_refusal(seen: Seen, number: u32) -> Result<(), Refusal>
    ensures { (l : Ledger) → Sees l seen → refused_with result ≡ refusal_of l (queries (answers_from_tape number)) }
{
    ask(seen.opened, Refusal::Unopened)?;
    ask(number == 0, Refusal::Shape)
}

pub fn mark_refusal(seen: Seen, words: &[u32], numbers: &mut [u32]) -> Result<(), Refusal>
    requires { (seen.unknowns ≤ most_unknowns) × (length numbers.old ≡ claim_room) }
    ensures value { (l : Ledger) → Sees l seen → refused_with result ≡ refusal_of l (queries (marks words.now)) }
    ensures numbers_after { numbers.new ≡ over (take claim_room (numbers_of (words_in words.now))) numbers.old }
{
    let mut kinds = [0u32; CLAIM_ROOM];
    let count = unpack_into(words, &mut kinds, numbers);
    let claim = is_claim(&kinds[..count], numbers[0], seen.unknowns);
    let below = entries_below(seen.modulus, &numbers[..count]);
    ask(seen.opened, Refusal::Unopened)?;
    ask(tops_fit(words), Refusal::Top)?;
    ask(claim, Refusal::Shape)?;
    ask(below, Refusal::Number)
}

// The head is no entry.
fn entries_below(m: u32, numbers: &[u32]) -> bool
    ensures { result ≡ all_below m (drop 1 numbers.now) }
{
    if numbers.len() == 0 {
        return true;
    }
    all_below(m, &numbers[1..])
}

// How many words a claim takes, by its head's number, where it stands among other words.
pub fn claim_length(head: u32, n: usize) -> usize
    requires { n ≤ most_unknowns }
    ensures { (result ≡ claim_length n head) × (result ≤ longest_block) }
{
    let vectors = head as usize;
    if vectors > VECTORS {
        return 1;
    }
    1 + n * vectors
}
