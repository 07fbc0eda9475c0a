// The modulus of an equation in words: its own, in a word that stands in front, or that of the sheet.
ghost use Rattle.std.specs.Prelude.{◌≡◌, cond, ◌≤◌, length};
ghost use Rattle.questions.specs.Questions.{allowed_own};
ghost use Rattle.words.specs.Words.{words_in};
ghost use Rattle.words.specs.Fronts.{first_length};
ghost use Rattle.ledger.specs.Shapes.{has_own, own_modulus};

use questions::is_own_modulus;
use words::kinds::OWN_MODULUS;
use words::unpacking::first_at;

// Whether a line on the sheet may have the modulus that the words give it; this modulus, or the sheet's where it may not; and the place of
// the first word of the equation. No Option of the modulus: `adding_of` promises residues by it also where it is not allowed, by the sheet's
// then, and asks whether it is as it asks all questions; an Option would be taken apart for each of the two.
#[derive(Clone, Copy)]
pub(crate) struct Own {
    pub allowed: bool,
    pub modulus: u32,
    pub behind: usize,
}

// The sheet's own modulus needs no division.
pub(crate) fn own_of(words: &[u32], m: u32) -> Own
    requires { 2 ≤ m }
    ensures allowed_value { result.allowed ≡ allowed_own m (own_modulus m (words_in words.now)) }
    ensures modulus_value { result.modulus ≡ cond result.allowed (own_modulus m (words_in words.now)) m }
    ensures behind_value { (result.behind ≡ cond (has_own (words_in words.now)) (first_length words.now) 0) × (result.behind ≤ length words.now) }
{
    if words.len() == 0 {
        return plain(m);
    }
    let first = first_at(words, 0);
    let word = first.word;
    if word.kind != OWN_MODULUS {
        return plain(m);
    }
    given(word.number, m, first.length)
}

// The modulus q of its own, in a word of so much memory.
fn given(q: u32, m: u32, taken: usize) -> Own
    ensures { (result.allowed ≡ allowed_own m q) × (result.modulus ≡ cond result.allowed q m) × (result.behind ≡ taken) }
{
    if !is_own_modulus(m, q) {
        return Own {
            allowed: false,
            modulus: m,
            behind: taken,
        };
    }
    Own {
        allowed: true,
        modulus: q,
        behind: taken,
    }
}

// No modulus of its own.
fn plain(m: u32) -> Own
    requires { 2 ≤ m }
    ensures { (result.allowed ≡ allowed_own m m) × (result.modulus ≡ m) × (result.behind ≡ 0) }
{
    Own {
        allowed: true,
        modulus: m,
        behind: 0,
    }
}
