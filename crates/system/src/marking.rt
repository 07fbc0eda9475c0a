// The mark of a claim.
ghost use Rattle.std.specs.Prelude.{◌≡◌, true, ℕ};
ghost use Rattle.equations.specs.Marks.{mark_with, mark_of};
ghost use Rattle.equations.specs.Lines.{equations_of};
ghost use Rattle.system.specs.Posed.{Posed};
ghost use Rattle.system.specs.Claims.{Claimed, claim_of};
ghost use Rattle.system.specs.Ready.{Ready};
ghost use Rattle.system.specs.Places.{placed};

use crate::asked::System;
use crate::basis::Basis;
use crate::reading::packed_size;
use equations::Mark;

// A claim is the entries of a starting vector and of its steps; the empty one claims no solution. What it describes must solve the
// equations, and no solution may be missing; whether a step is superfluous is asked of right claims alone. `rows` is for the basis of the
// lines, zeros before the first claim. The first claim that comes so far has it computed, and the claims behind it find it there.
pub fn mark(m: u32, n: usize, lines: &[u32], rows: &mut [u32], claim: &[u32]) -> Mark
    requires { Posed m n lines.now × Ready m n lines.now rows.old × Claimed m n claim.now }
    ensures value { result ≡ mark_of m n (equations_of n lines.now) (claim_of n claim.now) }
    ensures ready { Ready m n lines.now rows.new }
{
    let system = System { m, n, lines };
    if !system.claim_solves(claim) {
        return Mark::Fail;
    }
    system.prepare(rows);
    let size = packed_size(n + 1, n + 1);
    let basis = Basis {
        m,
        n,
        numbers: &rows[..size],
    };
    if !basis.misses_none(claim) {
        return Mark::Fail;
    }
    let step = basis.long_at(claim);
    right_mark(step)
}

// The mark of a claim that describes just the solutions, by its first superfluous step.
fn right_mark(step: Option<u32>) -> Mark
    ensures { (number : ℕ) → step ≡ placed number → result ≡ mark_with true number }
{
    match step {
        None => Mark::Pass,
        Some(_) => Mark::Long,
    }
}
