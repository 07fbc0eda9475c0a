// What the sheet, the safe and the C face have in common: the refusals, how a question is asked, and the tests of a modulus.
#![tactic(auto)]

ghost use Rattle.std.specs.Prelude.{◌≡◌, [], ◌∷◌};
ghost use Rattle.questions.specs.Questions.{asks, first_no, allowed_modulus, allowed_own};
ghost use Rattle.questions.specs.Refusals.{number_of, refused_with};

// Why a call is turned away: the question of documents 01 and 02 whose answer is no, with its number. The header has the same names.
#[derive(Clone, Copy, Debug, PartialEq, Eq)]
pub enum Refusal {
    Shape = 1,
    Modulus = 2,
    Unknowns = 3,
    Unopened = 4,
    Full = 5,
    Number = 6,
    NothingToStrike = 7,
    Buffer = 8,
    LeftOver = 9,
    Tape = 10,
    Text = 11,
    Beyond = 12,
    NotLinear = 13,
    Claims = 14,
    OwnModulus = 15,
    Place = 16,
    Top = 17,
}

impl From<Refusal> for u32 {
    ghost from_gives = { λ refusal number. number ≡ number_of refusal };

    fn from(refusal: Refusal) -> u32 {
        refusal as u32
    }
}

// Any modulus that 32 bits hold, from 2 on.
pub fn is_modulus(m: u32) -> bool
    ensures { result ≡ allowed_modulus m }
{
    2 <= m
}

// Whether a line on a sheet mod m may have the modulus q.
pub fn is_own_modulus(m: u32, q: u32) -> bool
    ensures { result ≡ allowed_own m q }
{
    2 <= q && m % q == 0
}

// A question: where its answer is no, the call is turned away. `?` behind it goes on to the next question where the answer is yes.
pub fn ask(answer: bool, refusal: Refusal) -> Result<(), Refusal>
    ensures { refused_with result ≡ first_no (asks (number_of refusal) answer ∷ []) }
{
    if answer {
        return Ok(());
    }
    Err(refusal)
}
