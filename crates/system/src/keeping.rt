// What the lines alone decide, kept from one claim about them to the next.
ghost use Rattle.std.specs.Prelude.{◌≡◌};
ghost use Rattle.equations.specs.Reasons.{has_solution};
ghost use Rattle.system.specs.Ready.{Ready};
ghost use Rattle.system.specs.Model.Marking.{Prepared};
ghost use Rattle.system.specs.Model.Listed.{equations_in};

use crate::asked::System;
use crate::basis::Basis;
use crate::reading::packed_size;
use tableau::building::build;

impl System<'_> {
    // The basis of the lines, computed where it is not there yet. No pivot is 0: a first number of 0 says that there is none. It is no Option,
    // since the numbers are memory that the caller of `mark` has lent, and `Ready` in its contract says that it is zeros at first.
    pub(crate) fn prepare(&self, rows: &mut [u32])
        requires { Ready self.now.m self.now.n self.now.lines.now rows.old }
        ensures { Prepared self.now.m self.now.n self.now.lines.now rows.new }
    {
        if rows[0] == 0 {
            let n = self.n;
            let size = packed_size(n + 1, n + 1);
            build(&mut rows[..size], self.lines, self.m, n, 0);
        }
    }

    // Whether some vector solves the lines: the constant's own pivot is m then.
    pub(crate) fn solvable(&self, rows: &mut [u32]) -> bool
        requires { Ready self.now.m self.now.n self.now.lines.now rows.old }
        ensures value { result ≡ has_solution self.now.m self.now.n (equations_in self.now) }
        ensures prepared { Prepared self.now.m self.now.n self.now.lines.now rows.new }
    {
        self.prepare(rows);
        let n = self.n;
        let size = packed_size(n + 1, n + 1);
        let basis = Basis {
            m: self.m,
            n,
            numbers: &rows[..size],
        };
        basis.pivot(n) == self.m
    }
}
