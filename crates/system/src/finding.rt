// The reasons that need the basis of the lines.
ghost use Rattle.std.specs.Prelude.{◌≡◌, true, ℕ, ◌*◌, ◌≤◌, length};
ghost use Rattle.slices.specs.Over.{over};
ghost use Rattle.equations.specs.Lists.{every};
ghost use Rattle.equations.specs.Vectors.{Vector, Below};
ghost use Rattle.equations.specs.Equation.{solves};
ghost use Rattle.equations.specs.Claim.{no_solution, from};
ghost use Rattle.equations.specs.Reasons.{keeps, right_reason};
ghost use Rattle.system.specs.Claims.{vectors_of};
ghost use Rattle.system.specs.Reasons.{shown_with, finding_of};
ghost use Rattle.system.specs.Places.{placed};
ghost use Rattle.system.specs.Model.Marking.{broken_reason, broken_shown};
ghost use Rattle.system.specs.Model.Listed.{equations_in};

use crate::asked::System;
use crate::basis::Basis;
use crate::explaining::Finding;
use crate::limits::BASIS;
use crate::reading::packed_size;
use equations::Reason;

// `shown` is a slice of 16, as `explain` is lent it: an array would be made of that by a test that never fails.
impl System<'_> {
    // No solution is claimed. (Not one function with `explain_broken`: they have the question `solvable` in common, one line, and each of
    // their four ways out has another reason, and a length and numbers of its own.)
    pub(crate) fn explain_none(&self, shown: &mut [u32]) -> Finding
        requires { length shown.old ≡ 16 }
        ensures value { result ≡ finding_of self.now.m self.now.n (equations_in self.now) no_solution }
        ensures shown_after { shown.new ≡ over (shown_with self.now.m self.now.n (equations_in self.now) no_solution) shown.old }
    {
        let mut rows = [0u32; BASIS];
        if !self.solvable(&mut rows) {
            return Finding {
                reason: Reason::Passes,
                len: 0,
            };
        }
        let n = self.n;
        let size = packed_size(n + 1, n + 1);
        let basis = Basis {
            m: self.m,
            n,
            numbers: &rows[..size],
        };
        basis.start_into(&mut shown[..n]);
        Finding {
            reason: Reason::Solvable,
            len: n,
        }
    }

    // The start breaks the line with this number, or there is no solution at all.
    pub(crate) fn explain_broken(&self, broken: u32, shown: &mut [u32]) -> Finding
        requires { length shown.old ≡ 16 }
        ensures reason_value { (result.reason ≡ broken_reason self.now.m self.now.n (equations_in self.now) broken)
            × (result.len ≡ length (broken_shown self.now.m self.now.n (equations_in self.now))) }
        ensures shown_after { shown.new ≡ over (broken_shown self.now.m self.now.n (equations_in self.now)) shown.old }
    {
        let mut rows = [0u32; BASIS];
        if self.solvable(&mut rows) {
            return Finding {
                reason: Reason::Breaks(broken),
                len: 0,
            };
        }
        let len = self.refutation(shown);
        Finding {
            reason: Reason::Unsolvable,
            len,
        }
    }

    // Start and steps are right: all that is left is a solution that they do not describe, or a superfluous step.
    pub(crate) fn explain_missing(&self, start: &[u32], steps: &[u32], shown: &mut [u32]) -> Finding
        requires formed { Vector self.now.m self.now.n start.now × Below self.now.m steps.now × (length steps.now ≤ 16 * self.now.n)
            × (length shown.old ≡ 16) }
        requires start_value { (solves self.now.m (equations_in self.now) start.now ≡ true)
            × (every (keeps self.now.m (equations_in self.now)) (vectors_of self.now.n steps.now) ≡ true) }
        ensures value { result ≡ finding_of self.now.m self.now.n (equations_in self.now) (from start.now (vectors_of self.now.n steps.now)) }
        ensures shown_after { shown.new
            ≡ over (shown_with self.now.m self.now.n (equations_in self.now) (from start.now (vectors_of self.now.n steps.now))) shown.old }
    {
        let mut rows = [0u32; BASIS];
        self.prepare(&mut rows);
        let m = self.m;
        let n = self.n;
        let size = packed_size(n + 1, n + 1);
        let basis = Basis {
            m,
            n,
            numbers: &rows[..size],
        };
        if let Some(place) = basis.missing(steps) {
            basis.missed_into(start, &mut shown[..n], place);
            return Finding {
                reason: Reason::Misses,
                len: n,
            };
        }
        let step = basis.needless(steps);
        Finding {
            reason: right_reason(step),
            len: 0,
        }
    }
}

// The reason beside a claim that describes just the solutions, by its first superfluous step.
fn right_reason(step: Option<u32>) -> Reason
    ensures { (number : ℕ) → step ≡ placed number → result ≡ right_reason number }
{
    match step {
        None => Reason::Passes,
        Some(number) => Reason::Superfluous(number),
    }
}
