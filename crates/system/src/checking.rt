// Which lines do vectors not solve? Lines and steps have the numbers 1, 2, ..
ghost use Rattle.std.specs.Prelude.{◌≡◌, ◌*◌, ◌≤◌, length};
ghost use Rattle.equations.specs.Vectors.{Below};
ghost use Rattle.equations.specs.Reasons.{broken_at, changed_step, changed_line};
ghost use Rattle.system.specs.Claims.{Claimed, claim_of, vectors_of};
ghost use Rattle.system.specs.Places.{placed};
ghost use Rattle.system.specs.Model.Marking.{changed, claim_solves};
ghost use Rattle.system.specs.Model.Listed.{equations_in};

use crate::asked::System;
use tableau::products::sum;

// A step that changes a line's left side, and this line.
#[derive(Clone, Copy)]
pub(crate) struct Change {
    pub step: u32,
    pub line: u32,
}

impl System<'_> {
    // The first line that v does not solve, if there is one.
    pub(crate) fn first_broken(&self, v: &[u32]) -> Option<u32>
        requires { (length v.now ≡ self.now.n) × Below self.now.m v.now }
        ensures { result ≡ placed (broken_at self.now.m (equations_in self.now) v.now) }
    {
        let n = self.n;
        for (index, line) in self.lines.chunks_exact(n + 1).enumerate() {
            if sum(&line[..n], v, self.m) != line[n] {
                return Some(index as u32 + 1);
            }
        }
        None
    }

    // The first step that changes a left side, if there is one, and the first line whose left side it changes. The paper asks for this form:
    // loops over steps and equations, left by a label at the first pair that fails.
    pub(crate) fn first_change(&self, steps: &[u32]) -> Option<Change>
        requires { Below self.now.m steps.now × (length steps.now ≤ 17 * self.now.n) }
        ensures { result
            ≡ changed (changed_step self.now.m (equations_in self.now) (vectors_of self.now.n steps.now))
            (changed_line self.now.m (equations_in self.now) (vectors_of self.now.n steps.now)) }
    {
        let n = self.n;
        let mut found = None;
        'steps: for (index, step) in steps.chunks_exact(n).enumerate() {
            for (place, line) in self.lines.chunks_exact(n + 1).enumerate() {
                if sum(&line[..n], step, self.m) != 0 {
                    found = Some(Change {
                        step: index as u32 + 1,
                        line: place as u32 + 1,
                    });
                    break 'steps;
                }
            }
        }
        found
    }

    // Whether all that a claim describes solves the lines: its start does, and no step changes a left side. The empty claim is that of no
    // solution, here and beside: `claim_of` has it so, by which `mark` and `explain` are promised, and no Option of its parts is spared a cut.
    pub(crate) fn claim_solves(&self, claim: &[u32]) -> bool
        requires { Claimed self.now.m self.now.n claim.now }
        ensures { result ≡ claim_solves self.now.m (equations_in self.now) (claim_of self.now.n claim.now) }
    {
        if claim.len() == 0 {
            return true;
        }
        if self.first_broken(&claim[..self.n]).is_some() {
            return false;
        }
        self.first_change(&claim[self.n..]).is_none()
    }
}
