// The basis of a list of lines, built in a lent slice.
ghost use Rattle.std.specs.Prelude.{◌≡◌, ◌+◌, ◌<◌, ◌≤◌, length, replicate};
ghost use Rattle.equations.specs.Vectors.{Below};
ghost use Rattle.elimination.specs.Basis.{empty, insert};
ghost use Rattle.elimination.specs.Basis.{basis as basis_of};
ghost use Rattle.elimination.specs.Tableau.{tableau};
ghost use Rattle.tableau.specs.Packed.{rows, triangle, Kept};
ghost use Rattle.tableau.specs.Lines.{Loadable, line_at, lines_of};
ghost use Rattle.equations.specs.Lines.{equations_of};

use crate::filling::{turn, unit_vector};
use crate::insertion::insert;
use residue::modular::{Modulus, negate};
use slices::copying::copy;

// The basis of no equation, w columns and k carried ones: each row has the pivot m and holds nothing yet. What is lent is zeros, so
// that the pivots alone are written.
fn set_pivots(basis: &mut [u32], m: u32, w: usize, k: usize)
    requires { (w ≤ 17) × (k ≤ 16) × (basis.old ≡ replicate (triangle w (w + k)) 0) }
    ensures { rows w (w + k) basis.new ≡ empty m k w }
{
    let mut at: usize = 0;
    for left in (0..w).rev() {
        basis[at] = m;
        at += left + 1 + k;
    }
}

// One line, the one with the number i: the numbers as they are, or turned round, the right side negated, and k carried columns. One `if`: of
// two closures each would carry its half of `line_at` as a clause.
fn load(out: &mut [u32], numbers: &[u32], m: u32, n: usize, k: usize, i: usize, plain: bool)
    requires { Loadable plain m k × (length out.old ≡ n + 1 + k) × (length numbers.now ≡ n + 1) × Below m numbers.now }
    ensures out_after { out.new ≡ line_at plain m n k i numbers.now }
    ensures below { Below m out.new }
{
    if plain {
        copy(numbers, out);
    } else {
        turn(numbers, &mut out[..n]);
        out[n] = negate(numbers[n], m);
        unit_vector(&mut out[n + 1..], i);
    }
}

// One line more. It is loaded into an array, since the insertion changes it. (No struct of n, k and `plain`: `fill`, which docs/CONTRACTS.md
// names, takes them one by one, so that it would be made there and taken apart in `load`.)
fn insert_line(
    basis: &mut [u32],
    numbers: &[u32],
    modulus: Modulus,
    n: usize,
    k: usize,
    i: usize,
    plain: bool,
)
    requires loadable { Loadable plain modulus.m k × (n ≤ 16) × (k ≤ 16) }
    requires basis_len { (length basis.old ≡ triangle (n + 1) (n + 1 + k))
        × Kept modulus.m (rows (n + 1) (n + 1 + k) basis.old) }
    requires numbers_len { (length numbers.now ≡ n + 1) × Below modulus.m numbers.now }
    ensures basis_after { rows (n + 1) (n + 1 + k) basis.new
        ≡ insert modulus.m (rows (n + 1) (n + 1 + k) basis.old) (line_at plain modulus.m n k i numbers.now) }
    ensures kept { Kept modulus.m (rows (n + 1) (n + 1 + k) basis.new) }
{
    let mut out = [0u32; 33];
    let len = n + 1 + k;
    load(&mut out[..len], numbers, modulus.m, n, k, i, plain);
    insert(basis, &mut out[..len], modulus, n + 1);
}

// The basis of the lines that lie in `numbers`, n + 1 numbers each, put in one after the other. What is lent is zeros, just as many
// as the rows have numbers: who knows the rows knows all that is lent (`rows_whole` of proofs/Packed.antt).
pub fn fill(basis: &mut [u32], numbers: &[u32], m: u32, n: usize, k: usize, plain: bool)
    requires loadable { Loadable plain m k × (n ≤ 16) × (k ≤ 16) }
    requires basis_value { (basis.old ≡ replicate (triangle (n + 1) (n + 1 + k)) 0) × Below m numbers.now }
    ensures basis_after { rows (n + 1) (n + 1 + k) basis.new
        ≡ basis_of m (n + 1) k (lines_of plain m n k 0 numbers.now) }
    ensures kept { Kept m (rows (n + 1) (n + 1 + k) basis.new) }
{
    set_pivots(basis, m, n + 1, k);
    let modulus = Modulus::new(m);
    for (i, line) in numbers.chunks_exact(n + 1).enumerate() {
        insert_line(basis, line, modulus, n, k, i, plain);
    }
}

// The tableau of the equations that lie in `lines`, n coefficients and a right side each, with k carried columns. Here too the rows
// are all that is lent.
pub fn build(basis: &mut [u32], lines: &[u32], m: u32, n: usize, k: usize)
    requires { (1 < m) × (n ≤ 16) × (k ≤ 16) × (basis.old ≡ replicate (triangle (n + 1) (n + 1 + k)) 0) × Below m lines.now }
    ensures basis_after { rows (n + 1) (n + 1 + k) basis.new ≡ tableau m n k (equations_of n lines.now) }
    ensures kept { Kept m (rows (n + 1) (n + 1 + k) basis.new) }
{
    fill(basis, lines, m, n, k, false);
}
