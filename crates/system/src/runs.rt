// The two runs of the elimination: without carried columns for the vectors of the answer, and with one for each equation for
// the multipliers. A basis is scratch: zeros at first, and just as many as its rows need.
ghost use Rattle.std.specs.Prelude.{◌≡◌, ◌+◌, ◌*◌, ◌≤◌, length};
ghost use Rattle.slices.specs.Over.{over};
ghost use Rattle.elimination.specs.Multipliers.{multipliers_of};
ghost use Rattle.tableau.specs.Packed.{triangle};
ghost use Rattle.system.specs.Model.Reading.{Solved};
ghost use Rattle.system.specs.Model.Listed.{equations_in};

use crate::asked::System;
use crate::basis::Basis;
use crate::limits::BASIS;
use crate::reading::packed_size;
use slices::copying::copy;
use tableau::building::build;

impl System<'_> {
    // The first run; the number of vectors, if there is a solution. For few unknowns a small array is cleared.
    pub(crate) fn solution(&self, numbers: &mut [u32]) -> Option<usize>
        requires { self.now.n + self.now.n * self.now.n ≤ length numbers.old }
        ensures { Solved self.now.m self.now.n (equations_in self.now) numbers.old numbers.new result }
    {
        if self.n <= 4 {
            return self.solution_into::<15>(numbers);
        }
        self.solution_into::<BASIS>(numbers)
    }

    // A second run, with a carried column for each equation; the number of equations.
    pub(crate) fn refutation(&self, numbers: &mut [u32]) -> usize
        requires { 16 ≤ length numbers.old }
        ensures value { result ≡ length (multipliers_of self.now.m self.now.n (equations_in self.now)) }
        ensures numbers_after { numbers.new ≡ over (multipliers_of self.now.m self.now.n (equations_in self.now)) numbers.old }
    {
        if self.n <= 4 {
            return self.multipliers_into::<95>(numbers);
        }
        self.multipliers_into::<425>(numbers)
    }

    // Starting vector and steps into out; their number, if there is a solution. The basis has at most SIZE numbers.
    fn solution_into<const SIZE: usize>(&self, out: &mut [u32]) -> Option<usize>
        requires { (triangle (self.now.n + 1) (self.now.n + 1) ≤ SIZE) × (SIZE ≤ 425) × (self.now.n + self.now.n * self.now.n ≤ length out.old) }
        ensures { Solved self.now.m self.now.n (equations_in self.now) out.old out.new result }
    {
        let m = self.m;
        let n = self.n;
        let mut numbers = [0u32; SIZE];
        let size = packed_size(n + 1, n + 1);
        let rows = &mut numbers[..size];
        build(rows, self.lines, m, n, 0);
        let basis = Basis {
            m,
            n,
            numbers: rows,
        };
        if basis.pivot(n) != m {
            return None;
        }
        Some(basis.vectors_into(out))
    }

    // The multipliers are the last numbers of the basis: the carried columns of the constant's row.
    fn multipliers_into<const SIZE: usize>(&self, out: &mut [u32]) -> usize
        requires { (triangle (self.now.n + 1) (self.now.n + 17) ≤ SIZE) × (SIZE ≤ 425) × (16 ≤ length out.old) }
        ensures value { result ≡ length (multipliers_of self.now.m self.now.n (equations_in self.now)) }
        ensures out_after { out.new ≡ over (multipliers_of self.now.m self.now.n (equations_in self.now)) out.old }
    {
        let n = self.n;
        let k = self.lines.len() / (n + 1);
        let mut numbers = [0u32; SIZE];
        let size = packed_size(n + 1, n + 1 + k);
        let basis = &mut numbers[..size];
        build(basis, self.lines, self.m, n, k);
        let at = basis.len() - k;
        copy(&basis[at..], out);
        k
    }
}
