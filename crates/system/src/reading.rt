// What is read off a basis of equations in n unknowns, whose rows lie packed with no carried column.
ghost use Rattle.std.specs.Prelude.{◌≡◌, cond, [], ℕ, ◌+◌, ◌-◌, ◌*◌, ◌<◌, ◌≤◌, length};
ghost use Rattle.equations.specs.Answer.{and_then};
ghost use Rattle.equations.specs.Vectors.{Below};
ghost use Rattle.elimination.specs.Basis.{pivot};
ghost use Rattle.elimination.specs.Missed.{shifted_at};
ghost use Rattle.tableau.specs.Packed.{rows, triangle};
ghost use Rattle.system.specs.Model.Reading.{Laid};
ghost use Rattle.system.specs.Model.Listed.{rows_of, vector_in, step_in, steps_in, vectors_in};

use crate::basis::Basis;
use crate::limits::LINE;
use tableau::filling::turn;
use tableau::line::add_row;
use tableau::substitution::extend;

// How many numbers w packed rows are, the first of l numbers: l + (l - 1) + ..
pub(crate) fn packed_size(w: usize, l: usize) -> usize
    requires { (w ≤ l) × (l ≤ 33) }
    ensures { result ≡ triangle w l }
{
    w * (2 * l + 1 - w) / 2
}

// The pivot of row i, for a first row of l numbers: its first number, behind the i rows in front of it.
pub(crate) fn pivot_at(basis: &[u32], i: usize, l: usize) -> u32
    requires { (i < l) × (l ≤ 33) × (triangle i l < length basis.now) }
    ensures { (w : ℕ) → i < w → result ≡ pivot i (rows w l basis.now) }
{
    let at = packed_size(i, l);
    basis[at]
}

impl Basis<'_> {
    // The pivot of row i; the last row is the constant's.
    pub(crate) fn pivot(&self, i: usize) -> u32
        requires { i ≤ self.now.n }
        ensures { (0 < result) × (result ≡ pivot i (rows_of self.now)) }
    {
        pivot_at(self.numbers, i, self.n + 1)
    }

    // The vector with e in column i and zeros behind it; the columns in front by back substitution, which leaves the zeros out.
    fn vector_into(&self, out: &mut [u32], i: usize, e: u32)
        requires { (length out.old ≡ self.now.n) × (i ≤ self.now.n) × (e < self.now.m) }
        ensures { out.new ≡ vector_in self.now i e }
    {
        let mut x = [0u32; LINE];
        x[i] = e;
        let used = i + 1;
        let n = self.n;
        let size = packed_size(i, n + 1);
        extend(self.numbers, &mut x[..used], self.m, i, n - i, size);
        let w = n + 1;
        turn(&x[..w], out);
    }

    // The starting vector: the constant is 1.
    pub(crate) fn start_into(&self, out: &mut [u32])
        requires { length out.old ≡ self.now.n }
        ensures { out.new ≡ vector_in self.now self.now.n 1 }
    {
        self.vector_into(out, self.n, 1);
    }

    // The step of column i, if it has one; whether it has.
    fn step_into(&self, out: &mut [u32], i: usize) -> bool
        requires { (length out.old ≡ self.now.n) × (i < self.now.n) }
        ensures { Laid self.now.n (and_then (step_in self.now i) []) out.old out.new (cond result 1 0) }
    {
        let d = self.pivot(i);
        if d == 1 {
            return false;
        }
        self.vector_into(out, i, self.m / d);
        true
    }

    // All steps, one behind the other by rising place, which is falling column; their number. It is counted here, and not by a chain, since
    // it says where the next step is written.
    pub(crate) fn steps_into(&self, out: &mut [u32]) -> usize
        requires { self.now.n * self.now.n ≤ length out.old }
        ensures { (result ≤ self.now.n) × Laid self.now.n (steps_in self.now) out.old out.new result }
    {
        let n = self.n;
        let mut count = 0;
        for i in (0..n).rev() {
            let at = count * n;
            let end = at + n;
            if self.step_into(&mut out[at..end], i) {
                count += 1;
            }
        }
        count
    }

    // The starting vector, and the steps in the part behind it; the number of vectors.
    pub(crate) fn vectors_into(&self, out: &mut [u32]) -> usize
        requires { self.now.n + self.now.n * self.now.n ≤ length out.old }
        ensures { (0 < result) × (result ≤ self.now.n + 1) × Laid self.now.n (vectors_in self.now) out.old out.new result }
    {
        let n = self.n;
        self.start_into(&mut out[..n]);
        let steps = self.steps_into(&mut out[n..]);
        steps + 1
    }

    // The start plus the step at this place, which is counted from 1 and has one.
    pub(crate) fn missed_into(&self, start: &[u32], out: &mut [u32], place: usize)
        requires start_below { (length start.now ≡ self.now.n) × Below self.now.m start.now × (length out.old ≡ self.now.n) }
        requires place_nonzero { (0 < place) × (place ≤ self.now.n) × (1 < pivot (self.now.n - place) (rows_of self.now)) }
        ensures { out.new ≡ shifted_at self.now.m self.now.n (rows_of self.now) start.now place }
    {
        let i = self.n - place;
        let pivot = self.pivot(i);
        self.vector_into(out, i, self.m / pivot);
        add_row(start, out, self.m);
    }
}
