// One congruence a·t = b mod m: whether it has solutions, the least one and their spacing.
ghost use Rattle.std.specs.Prelude.{◌≡◌, ◌<◌};
ghost use Rattle.residue.specs.Congruence.{solutions_of};

use super::division::divide;
use super::extended::cofactors;
use super::modular::mul;

// The least solution, and the spacing of all.
#[derive(Clone, Copy)]
pub struct Solutions {
    pub least: u32,
    pub spacing: u32,
}

// For every modulus and all numbers. With g the divisor of a and m, s·(a / g) is 1 mod m / g.
pub fn solve(a: u32, b: u32, m: u32) -> Option<Solutions>
    requires { 0 < m }
    ensures { result ≡ solutions_of a b m }
{
    let bezout = cofactors(m, a, m, 0, m);
    let right = divide(b, bezout.divisor);
    if right.remainder != 0 {
        return None;
    }
    let spacing = bezout.p;
    let least = mul(bezout.s, right.quotient, spacing);
    Some(Solutions { least, spacing })
}
