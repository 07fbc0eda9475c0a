// Euclid's chain: the greatest common divisor of two numbers, with the number of divisions made.
ghost use Rattle.std.specs.Prelude.{◌≡◌, ◌+◌, ◌*◌, ◌≤◌, min};
ghost use Rattle.residue.specs.Chain.{chain_of};
ghost use Rattle.residue.specs.Digits.{digits};

use super::division::divide;

#[derive(Clone, Copy)]
pub struct Chain {
    pub divisor: u32,
    pub divisions: u32,
}

// The second promise is Lamé's: the chain is short. Each step makes one division, and goes on with what that leaves.
pub fn gcd(a: u32, b: u32) -> Chain
    ensures value { result ≡ chain_of a b }
    ensures divisions_bound { result.divisions ≤ 5 * digits (min a b) + 1 }
{
    let mut x = a;
    let mut y = b;
    let mut count: u32 = 0;
    // `while`, since nothing is gone through: how long a chain is shows only at its end.
    while y != 0 {
        let division = divide(x, y);
        x = y;
        y = division.remainder;
        count += 1;
    }
    Chain {
        divisor: x,
        divisions: count,
    }
}
