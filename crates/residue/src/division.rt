// Quotient and remainder of one pair from a single division, of 32 bits and of 64: the remainder is what is left after the quotient
// times the divisor is taken off. Wherever both are wanted, they come from here.
ghost use Rattle.std.specs.Prelude.{◌≡◌, ◌/◌, ◌%◌, ◌<◌};

#[derive(Clone, Copy)]
pub struct Division<T> {
    pub quotient: T,
    pub remainder: T,
}

// Two functions: over a trait of numbers both impls would have a quotient and a remainder of their own, so that four bodies and two
// promises of a trait would stand in place of these two bodies.
pub fn divide(a: u32, b: u32) -> Division<u32>
    requires { 0 < b }
    ensures { (result.quotient ≡ a / b) × (result.remainder ≡ a % b) }
{
    let quotient = a / b;
    let remainder = a - quotient * b;
    Division {
        quotient,
        remainder,
    }
}

pub fn divide_wide(x: u64, y: u64) -> Division<u64>
    requires { 0 < y }
    ensures { (result.quotient ≡ x / y) × (result.remainder ≡ x % y) }
{
    let quotient = x / y;
    let remainder = x - quotient * y;
    Division {
        quotient,
        remainder,
    }
}
