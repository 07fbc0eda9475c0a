// The shapes of what words say, by their kinds: an opening, an equation, a claim.
ghost use Rattle.std.specs.Prelude.{◌≡◌, ◌&&◌, [], ◌∷◌, ◌++◌, ◌*◌, ◌≤◌, leb, replicate};
ghost use Rattle.equations.specs.Vectors.{same_vector};
ghost use Rattle.words.specs.Words.{modulus_kind, unknowns_kind, coefficient_kind, right_kind, head_kind, entry_kind};
ghost use Rattle.ledger.specs.Ledger.{most_unknowns};
ghost use Rattle.ledger.specs.Shapes.{largest_head};

use system::limits::VECTORS;
use words::kinds::{COEFFICIENT, ENTRY, HEAD, MODULUS, RIGHT, UNKNOWNS, run_of};

#[tactic(auto, using(words::proofs::Compared::kinds_other))]
pub(crate) fn is_opening(kinds: &[u32]) -> bool
    ensures { result ≡ same_vector kinds.now (modulus_kind ∷ unknowns_kind ∷ []) }
{
    matches!(kinds, [MODULUS, UNKNOWNS])
}

// n coefficients and a right side.
pub(crate) fn is_equation(kinds: &[u32], n: usize) -> bool
    requires { n ≤ most_unknowns }
    ensures { result ≡ same_vector kinds.now (replicate n coefficient_kind ++ (right_kind ∷ [])) }
{
    if kinds.len() != n + 1 {
        return false;
    }
    if !run_of(&kinds[..n], COEFFICIENT, n) {
        return false;
    }
    kinds[n] == RIGHT
}

// A head of 0..17, and so many times n entries.
pub(crate) fn is_claim(kinds: &[u32], head: u32, n: usize) -> bool
    requires { n ≤ most_unknowns }
    ensures { result ≡ (leb head largest_head && same_vector kinds.now (head_kind ∷ replicate (head * n) entry_kind)) }
{
    let vectors = head as usize;
    if vectors > VECTORS {
        return false;
    }
    if kinds.len() == 0 {
        return false;
    }
    if kinds[0] != HEAD {
        return false;
    }
    run_of(&kinds[1..], ENTRY, vectors * n)
}
