// Which step of a claim do the others make superfluous? The relations of the steps are the coefficients with which they add up to zero:
// the solutions of a system with an unknown for each step and an equation for each place. One basis of that system decides about every
// step, and no basis of the other steps is built.
ghost use Rattle.std.specs.Prelude.{◌≡◌, List, ℕ, ◌+◌, ◌*◌, ◌<◌, ◌≤◌, length, replicate};
ghost use Rattle.slices.specs.Over.{over};
ghost use Rattle.equations.specs.Vectors.{Below};
ghost use Rattle.equations.specs.Equation.{Equation};
ghost use Rattle.equations.specs.Lines.{equations_of};
ghost use Rattle.equations.specs.Answer.{steps_of};
ghost use Rattle.equations.specs.Claim.{from};
ghost use Rattle.equations.specs.Marks.{place_from, superfluous_at, superfluous_in};
ghost use Rattle.elimination.specs.Relations.{entries_at, relations, divisor_with, coprime_at, free_for};
ghost use Rattle.system.specs.Posed.{Posed};
ghost use Rattle.system.specs.Claims.{Claimed, claim_of, vectors_of};
ghost use Rattle.system.specs.Model.Reading.{Laid};
ghost use Rattle.system.specs.Places.{placed};
ghost use Rattle.system.specs.Model.Marking.{RightFor};
ghost use Rattle.system.specs.Model.Listed.{rows_of};

use crate::asked::System;
use crate::basis::Basis;
use crate::limits::{BASIS, EQUATIONS, LINE, UNKNOWNS};
use crate::reading::packed_size;
use residue::euclid::gcd;

impl Basis<'_> {
    // The first superfluous step of a claim that is right for the lines with this basis, counted from 1, if there is one. (Not one function
    // with `misses_none`: they have in common that an empty claim has no steps, one line. What is said of it and of the steps differs.)
    pub(crate) fn long_at(&self, claim: &[u32]) -> Option<u32>
        requires { (0 < self.now.n) × Claimed self.now.m self.now.n claim.now }
        ensures { (es : List Equation) → RightFor self.now.m self.now.n es self.now.numbers.now (claim_of self.now.n claim.now)
            → result ≡ placed (superfluous_in self.now.m self.now.n (claim_of self.now.n claim.now)) }
    {
        if claim.len() == 0 {
            return None;
        }
        self.needless(&claim[self.n..])
    }

    // The same of the steps alone. With at most as many steps as unknowns that nothing is said about, none is superfluous: then no relation
    // is looked for.
    pub(crate) fn needless(&self, steps: &[u32]) -> Option<u32>
        requires { (0 < self.now.n) × Below self.now.m steps.now × (length steps.now ≤ 16 * self.now.n) }
        ensures { (es : List Equation) (start : List ℕ)
            → RightFor self.now.m self.now.n es self.now.numbers.now (from start (vectors_of self.now.n steps.now))
            → result ≡ placed (superfluous_at self.now.m self.now.n (vectors_of self.now.n steps.now)) }
    {
        let n = self.n;
        let free = self.free_unknowns();
        if steps.len() <= free * n {
            return None;
        }
        first_superfluous(self.m, n, steps)
    }

    // How many unknowns the lines with this basis say nothing about: their pivots are m.
    fn free_unknowns(&self) -> usize
        ensures { (result ≡ free_for self.now.m (rows_of self.now) self.now.n) × (result ≤ self.now.n) }
    {
        (0..self.n).filter(|i| self.pivot(*i) == self.m).count()
    }
}

// The first superfluous step, counted from 1, of any steps, if there is one.
fn first_superfluous(m: u32, n: usize, steps: &[u32]) -> Option<u32>
    requires { (1 < m) × (0 < n) × (n ≤ 16) × Below m steps.now × (length steps.now ≤ 16 * n) }
    ensures { result ≡ placed (superfluous_at m n (vectors_of n steps.now)) }
{
    let k = steps.len() / n;
    if k == 0 {
        return None;
    }
    let size = n * (k + 1);
    let mut lines = [0u32; EQUATIONS * LINE];
    relations_into(n, k, steps, &mut lines[..size]);
    first_unit(m, k, &lines[..size])
}

// The first unknown of a system, counted from 1, that can be -1 where the right sides are put to 0, if there is one.
fn first_unit(m: u32, k: usize, lines: &[u32]) -> Option<u32>
    requires { Posed m k lines.now }
    ensures { result ≡ placed (place_from (coprime_at m (steps_of m k (equations_of k lines.now))) 0 k) }
{
    let mut generators = [0u32; UNKNOWNS * UNKNOWNS];
    let count = generators_into(m, k, lines, &mut generators);
    let end = count * k;
    first_coprime(m, k, &generators[..end])
}

// The steps of the answer to a system, one behind the other; their number.
pub(crate) fn generators_into(m: u32, k: usize, lines: &[u32], out: &mut [u32]) -> usize
    requires { Posed m k lines.now × (k * k ≤ length out.old) }
    ensures { (result ≤ k) × Laid k (steps_of m k (equations_of k lines.now)) out.old out.new result }
{
    let mut rows = [0u32; BASIS];
    let system = System { m, n: k, lines };
    system.prepare(&mut rows);
    let size = packed_size(k + 1, k + 1);
    let basis = Basis {
        m,
        n: k,
        numbers: &rows[..size],
    };
    basis.steps_into(out)
}

// The system of the relations, a line for each place: the steps' entries there, and the right side, which stays 0.
fn relations_into(n: usize, k: usize, steps: &[u32], lines: &mut [u32])
    requires { (n ≤ 16) × (k ≤ 16) × (length (vectors_of n steps.now) ≡ k) × (lines.old ≡ replicate (n * (k + 1)) 0) }
    ensures lines_after { equations_of k lines.new ≡ relations n (vectors_of n steps.now) }
    ensures by_index { (m : ℕ) → 0 < m → Below m steps.now → Below m lines.new }
{
    let width = k + 1;
    for p in 0..n {
        let at = p * width;
        let end = at + width;
        entries_into(n, p, steps, &mut lines[at..end]);
    }
}

// The entries of vectors at place p, at the front of lent memory; what is past them is kept. (Written by the index: of what is written
// through `iter_mut().zip(..)` a proof knows the length alone.)
fn entries_into(n: usize, p: usize, vectors: &[u32], out: &mut [u32])
    requires { (p < n) × (n ≤ 16) × (length (vectors_of n vectors.now) ≤ length out.old) × (length out.old ≤ 17) }
    ensures { out.new ≡ over (entries_at p (vectors_of n vectors.now)) out.old }
{
    for (i, vector) in vectors.chunks_exact(n).enumerate() {
        out[i] = vector[p];
    }
}

// The first place, counted from 1, at which m and the entries of the vectors have no common divisor but 1, if there is one.
fn first_coprime(m: u32, k: usize, vectors: &[u32]) -> Option<u32>
    requires { k ≤ 16 }
    ensures { result ≡ placed (place_from (coprime_at m (vectors_of k vectors.now)) 0 k) }
{
    for j in 0..k {
        if common_divisor(m, k, j, vectors) == 1 {
            return Some(j as u32 + 1);
        }
    }
    None
}

// The greatest common divisor of m and of the entries at place j.
fn common_divisor(m: u32, k: usize, j: usize, vectors: &[u32]) -> u32
    requires { (j < k) × (k ≤ 16) }
    ensures { result ≡ divisor_with m (entries_at j (vectors_of k vectors.now)) }
{
    let mut divisor = m;
    for vector in vectors.chunks_exact(k) {
        divisor = gcd(vector[j], divisor).divisor;
    }
    divisor
}
