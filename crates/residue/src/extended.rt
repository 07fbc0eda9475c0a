// Euclid's chain with cofactors, as residues: for the quotients q and p of a pair by its divisor, s·q + t·p ≡ 1 (mod m).
ghost use Rattle.std.specs.Prelude.{◌≡◌, ◌+◌, ◌*◌, ◌<◌};
ghost use Rattle.residue.specs.Cofactors.{bezout_of};

use super::division::divide;
use super::modular::{signed, wide};

#[derive(Clone, Copy)]
pub struct Bezout {
    pub divisor: u32,
    pub s: u32,
    pub t: u32,
    // the quotients of a and b by the divisor
    pub q: u32,
    pub p: u32,
}

// One pass over the chain, with one division in each step and no remainder by m before its end: without their signs the cofactors
// never exceed a and b, and the signs alternate, so that one bit keeps them: after an odd number of divisions s is the negative
// one, else t. The last division of most chains is one by 1, and is not made. b is given as rest + quotient·a: whoever has divided
// b by a does not divide again, and whoever has not gives (0, b). Where the chain ends with 0, the next cofactors would be the
// quotients of b and a by the divisor.
pub fn cofactors(m: u32, a: u32, b: u32, quotient: u32, rest: u32) -> Bezout
    requires { (0 < m) × (0 < rest) × (b ≡ rest + quotient * a) × (0 < quotient → rest < a) }
    ensures value { result ≡ bezout_of m a b }
    ensures s_lt_m { (result.s < m) × (result.t < m) }
{
    let mut x = a;
    let mut y = rest;
    let mut s: u32 = 1;
    let mut s_next = quotient;
    let mut t: u32 = 0;
    let mut t_next: u32 = 1;
    let mut odd = false;
    // `while`, since nothing is gone through: how long a chain is shows only at its end.
    while y > 1 {
        let division = divide(x, y);
        let times = division.quotient;
        let s_after = s + times * s_next;
        let t_after = t + times * t_next;
        x = y;
        y = division.remainder;
        s = s_next;
        s_next = s_after;
        t = t_next;
        t_next = t_after;
        odd = !odd;
    }
    if y == 1 {
        Bezout {
            divisor: 1,
            s: signed(wide(s_next), !odd, m),
            t: signed(wide(t_next), odd, m),
            q: a,
            p: b,
        }
    } else {
        Bezout {
            divisor: x,
            s: signed(wide(s), odd, m),
            t: signed(wide(t), !odd, m),
            q: t_next,
            p: s_next,
        }
    }
}
