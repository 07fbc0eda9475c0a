// Why does a claim not describe exactly the solutions?
ghost use Rattle.std.specs.Prelude.{◌≡◌, length};
ghost use Rattle.slices.specs.Over.{over};
ghost use Rattle.equations.specs.Lines.{equations_of};
ghost use Rattle.system.specs.Posed.{Posed};
ghost use Rattle.system.specs.Claims.{Claimed, claim_of};
ghost use Rattle.system.specs.Reasons.{shown_with, finding_of};

use crate::asked::System;
use equations::Reason;

// A reason, and how many numbers are shown beside it: no number stands for none here, 0 is the length of an empty list. They lie in the
// memory that the caller lends, and `finding_of`, by which `explain` is promised, has these two fields.
#[derive(Clone, Copy)]
pub struct Finding {
    pub reason: Reason,
    pub len: usize,
}

// A claim is the entries of a starting vector and of its steps; the empty one claims no solution. The numbers that are shown, a vector or
// multipliers, are 16 at most. Whether there is a solution is asked where the start is none: so a step that changes a left side is
// found without a basis.
pub fn explain(m: u32, n: usize, lines: &[u32], claim: &[u32], shown: &mut [u32]) -> Finding
    requires { Posed m n lines.now × Claimed m n claim.now × (length shown.old ≡ 16) }
    ensures value { result ≡ finding_of m n (equations_of n lines.now) (claim_of n claim.now) }
    ensures shown_after { shown.new ≡ over (shown_with m n (equations_of n lines.now) (claim_of n claim.now))
        shown.old }
{
    let system = System { m, n, lines };
    if claim.len() == 0 {
        return system.explain_none(shown);
    }
    let start = &claim[..n];
    let steps = &claim[n..];
    if let Some(broken) = system.first_broken(start) {
        return system.explain_broken(broken, shown);
    }
    if let Some(change) = system.first_change(steps) {
        return Finding {
            reason: Reason::Changes(change.step, change.line),
            len: 0,
        };
    }
    system.explain_missing(start, steps, shown)
}
