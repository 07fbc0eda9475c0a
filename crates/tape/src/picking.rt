// Which call a first word picks, and how many words it takes.
ghost use Rattle.std.specs.Prelude.{◌≡◌, ◌≤◌};
ghost use Rattle.ledger.specs.Ledger.{most_unknowns};
ghost use Rattle.ledger.specs.Block.{longest_block};
ghost use Rattle.tape.specs.FirstCall.{pick_of, own_words, wanted_by};

use asking::queries::claim_length;
use words::kinds::{
    ANSWER, COEFFICIENT, HEAD, MINUS_COEFFICIENT, MODULUS, OWN_MODULUS, STRIKE, TOP,
};

#[derive(Clone, Copy)]
pub enum Pick {
    Opening,
    Adding,
    OwnAdding,
    Marking,
    Striking,
    Answering,
    Misplaced,
    Nothing,
}

// The paper asks for this form: a match on the kind's number, with ranges for the kinds that mean nothing. No word has a kind above 15;
// a match on a number has an arm for every number of its type.
pub(crate) fn picked(kind: u32) -> Pick
    ensures { result ≡ pick_of kind }
{
    match kind {
        MODULUS => Pick::Opening,
        COEFFICIENT | MINUS_COEFFICIENT => Pick::Adding,
        OWN_MODULUS => Pick::OwnAdding,
        HEAD => Pick::Marking,
        STRIKE => Pick::Striking,
        ANSWER => Pick::Answering,
        TOP => Pick::Misplaced,
        0 | 2 | 4 | 6..=7 | 11 | 14..=15 => Pick::Nothing,
        _ => Pick::Nothing,
    }
}

// How many words the call takes, by the first word's number and the sheet's unknowns; an unopened sheet has none.
pub(crate) fn call_length(pick: Pick, number: u32, n: usize) -> usize
    requires { n ≤ most_unknowns }
    ensures { (result ≡ wanted_by n pick number) × (result ≤ longest_block) }
{
    match pick {
        Pick::Opening => 2,
        Pick::Adding => n + 1,
        Pick::OwnAdding => own_length(n),
        Pick::Marking => claim_length(number, n),
        Pick::Striking => 1,
        Pick::Answering => 1,
        Pick::Misplaced => 1,
        Pick::Nothing => 1,
    }
}

// An add with a modulus of its own: the word of the modulus, n coefficients and a right side; on an unopened sheet, which has no unknowns,
// the first word alone.
fn own_length(n: usize) -> usize
    requires { n ≤ most_unknowns }
    ensures { (result ≡ own_words n) × (result ≤ longest_block) }
{
    if n == 0 {
        return 1;
    }
    n + 2
}
