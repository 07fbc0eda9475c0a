// What two bases say of a claim: one of the equations, one of the claimed steps.
ghost use Rattle.std.specs.Prelude.{◌≡◌, ◌+◌, ◌*◌, ◌<◌, ◌≤◌, length, replicate, eqb};
ghost use Rattle.equations.specs.Vectors.{Below};
ghost use Rattle.elimination.specs.Basis.{basis as basis_of};
ghost use Rattle.elimination.specs.Missed.{apart};
ghost use Rattle.tableau.specs.Packed.{rows, triangle};
ghost use Rattle.system.specs.Claims.{vectors_of, claim_of, Claimed};
ghost use Rattle.system.specs.Places.{placed};
ghost use Rattle.system.specs.Model.Marking.{misses_none};
ghost use Rattle.system.specs.Model.Listed.{rows_of};

use crate::basis::Basis;
use crate::limits::BASIS;
use crate::reading::{packed_size, pivot_at};
use residue::modular::{product, wide};
use tableau::building::fill;

impl Basis<'_> {
    // Whether no solution of the lines with this basis is missing in the claim. One that claims no solution misses none where nothing solves
    // the lines: the constant's own pivot is not m then.
    pub(crate) fn misses_none(&self, claim: &[u32]) -> bool
        requires { (0 < self.now.n) × Claimed self.now.m self.now.n claim.now }
        ensures { result ≡ misses_none self.now.m self.now.n (rows_of self.now) (claim_of self.now.n claim.now) }
    {
        if claim.len() == 0 {
            return self.pivot(self.n) != self.m;
        }
        self.missing(&claim[self.n..]).is_none()
    }

    // The last place at which a step is missing, counted from 1, if there is one.
    pub(crate) fn missing(&self, steps: &[u32]) -> Option<usize>
        requires { (0 < self.now.n) × Below self.now.m steps.now }
        ensures { result ≡ placed (apart self.now.m self.now.n (rows_of self.now)
            (basis_of self.now.m self.now.n 0 (vectors_of self.now.n steps.now))) }
    {
        let n = self.n;
        let mut rows = [0u32; BASIS];
        let size = packed_size(n, n);
        span(&mut rows[..size], steps, self.m, n);
        self.apart(&rows[..size])
    }

    // The last place at which the pivots of the two bases do not multiply to m, counted from 1, if there is one. A step is
    // missing there.
    fn apart(&self, steps: &[u32]) -> Option<usize>
        requires { length steps.now ≡ triangle self.now.n self.now.n }
        ensures { result ≡ placed (apart self.now.m self.now.n (rows_of self.now) (rows self.now.n self.now.n steps.now)) }
    {
        let m = self.m;
        let n = self.n;
        for j in (0..n).rev() {
            let of_step = pivot_at(steps, j, n);
            let of_equation = self.pivot(n - 1 - j);
            if !product_is(of_step, of_equation, m) {
                return Some(j + 1);
            }
        }
        None
    }
}

// The basis of the steps, as lines of n columns: a step is as long as a line in n - 1 unknowns.
fn span(basis: &mut [u32], steps: &[u32], m: u32, n: usize)
    requires { (0 < m) × (0 < n) × (n ≤ 16) × (basis.old ≡ replicate (triangle n n) 0) × Below m steps.now }
    ensures { rows n n basis.new ≡ basis_of m n 0 (vectors_of n steps.now) }
{
    fill(basis, steps, m, n - 1, 0, true);
}

fn product_is(a: u32, b: u32, m: u32) -> bool
    ensures { result ≡ eqb (a * b) m }
{
    product(a, b) == wide(m)
}
