// The equations that just the vectors of a claim solve.
ghost use Rattle.std.specs.Prelude.{◌≡◌, ◌+◌, ◌*◌, ◌<◌, ◌≤◌, length};
ghost use Rattle.slices.specs.Over.{over};
ghost use Rattle.equations.specs.Lines.{as_row, as_rows};
ghost use Rattle.equations.specs.Promises.{constant};
ghost use Rattle.system.specs.Claims.{Claimed, claim_of};
ghost use Rattle.system.specs.Wanted.{wanted_of};

use crate::around::lines_around;

// The equations for a claim, a row of n + 1 numbers each, at the front of lent memory; how many they are. A claim is the entries of a
// starting vector and of its steps; the empty one claims no solution.
pub fn lines_for(m: u32, n: usize, claim: &[u32], lines: &mut [u32]) -> usize
    requires { (1 < m) × (0 < n) × (n ≤ 16) × Claimed m n claim.now × (n * (n + 1) ≤ length lines.old) }
    ensures value { result ≡ length (wanted_of m n (claim_of n claim.now)) }
    ensures lines_after { lines.new ≡ over (as_rows (wanted_of m n (claim_of n claim.now))) lines.old }
{
    if claim.len() == 0 {
        contradiction_into(n, lines);
        return 1;
    }
    lines_around(m, n, &claim[..n], &claim[n..], lines)
}

// 0 = 1.
fn contradiction_into(n: usize, lines: &mut [u32])
    requires { n + 1 ≤ length lines.old }
    ensures { lines.new ≡ over (as_row (constant n 1)) lines.old }
{
    lines[..n].fill(0);
    lines[n] = 1;
}
