// Lines with a modulus q of their own as they lie in a sheet mod m: with both sides times m/q, specs/Stored. A plain line has q = m, and
// nothing is multiplied or divided for it.
#![tactic(auto)]

ghost use Rattle.std.specs.Prelude.{◌≡◌, ◌&&◌, map, ℕ, ◌+◌, ◌*◌, ◌/◌, ◌≤◌, ◌<◌, T, eqb, length};
ghost use Rattle.slices.specs.Over.{over};
ghost use Rattle.questions.specs.Questions.{allowed_own};
ghost use Rattle.equations.specs.Lists.{every};
ghost use Rattle.equations.specs.Vectors.{Below};
ghost use Rattle.equations.specs.Lines.{equations_of};
ghost use Rattle.lines.specs.Stored.{multiples, all_fit};

use equations::testing::every;
use questions::is_own_modulus;
use slices::copying::copy;

// The numbers of a line mod q, with both sides times m/q, at the front of out.
pub fn scale_into(m: u32, q: u32, line: &[u32], out: &mut [u32])
    requires { (0 < m) × T (allowed_own m q) × Below q line.now × (length line.now ≤ length out.old) }
    ensures { out.new ≡ over (map (λ (a : ℕ). m / q * a) line.now) out.old }
{
    if q == m {
        copy(line, out);
        return;
    }
    multiply_into(m / q, line, out);
}

// Each number times k, at the front of out. (By the index: of what is written through
// `iter_mut().zip(..)` a proof knows the length alone.)
fn multiply_into(k: u32, line: &[u32], out: &mut [u32])
    requires { Below 4294967296 (map (λ (a : ℕ). k * a) line.now) × (length line.now ≤ length out.old) }
    ensures { out.new ≡ over (map (λ (a : ℕ). k * a) line.now) out.old }
{
    for (i, number) in line.iter().enumerate() {
        out[i] = k * *number;
    }
}

// Whether the equations that lie in numbers, n coefficients and a right side each, can be lines with these moduli.
pub fn lines_fit(m: u32, n: usize, moduli: &[u32], numbers: &[u32]) -> bool
    requires { (2 ≤ m) × (n ≤ 16) × (length numbers.now ≡ length moduli.now * (n + 1)) }
    ensures { result ≡ all_fit m moduli.now (equations_of n numbers.now) }
{
    all_are(m, moduli) || each_fits(m, n, moduli, numbers)
}

// There are few moduli: the first other one ends the chain, which `every` would not.
fn all_are(m: u32, moduli: &[u32]) -> bool
    ensures { result ≡ every (λ (q : ℕ). eqb q m) moduli.now }
{
    moduli.iter().all(|q| *q == m)
}

// One line after the other.
fn each_fits(m: u32, n: usize, moduli: &[u32], numbers: &[u32]) -> bool
    requires { (2 ≤ m) × (n ≤ 16) × (length numbers.now ≡ length moduli.now * (n + 1)) }
    ensures { result ≡ all_fit m moduli.now (equations_of n numbers.now) }
{
    for (q, line) in moduli.iter().zip(numbers.chunks_exact(n + 1)) {
        if !line_fits(m, *q, line) {
            return false;
        }
    }
    true
}

// Whether numbers can be those of a line mod q.
fn line_fits(m: u32, q: u32, line: &[u32]) -> bool
    requires { 2 ≤ m }
    ensures { result ≡ (allowed_own m q && multiples (m / q) line.now) }
{
    q == m || (is_own_modulus(m, q) && all_multiples(m / q, line))
}

// Whether all numbers are multiples of k.
fn all_multiples(k: u32, line: &[u32]) -> bool
    requires { 0 < k }
    ensures { result ≡ multiples k line.now }
{
    every(line, |number| number % k == 0)
}
