// Sums of products of residues mod m, reduced once.
ghost use Rattle.std.specs.Prelude.{◌≡◌, ◌+◌, ◌*◌, ◌%◌, ◌<◌, ◌≤◌, length};
ghost use Rattle.equations.specs.Vectors.{Below};
ghost use Rattle.equations.specs.Equation.{dot};

use residue::division::divide_wide;
use residue::modular::{product, reduce, wide};

// Up to this modulus, 2^24, 64 bits hold the sum of 65,536 products.
const NARROW: u32 = 16777216;

pub fn sum(a: &[u32], b: &[u32], m: u32) -> u32
    requires { (0 < m) × (length a.now ≡ length b.now) × (length a.now ≤ 65536) × Below m a.now × Below m b.now }
    ensures { result ≡ dot a.now b.now % m }
{
    if m <= NARROW {
        return narrow_sum(a, b, m);
    }
    wide_sum(a, b, m)
}

// `wide_sum` is right here too, but takes twice the instructions for a product.
fn narrow_sum(a: &[u32], b: &[u32], m: u32) -> u32
    requires { (0 < m) × (m ≤ 16777216) × (length a.now ≡ length b.now) × (length a.now ≤ 65536) × Below m a.now
        × Below m b.now }
    ensures { result ≡ dot a.now b.now % m }
{
    let mut all: u64 = 0;
    for (i, x) in a.iter().enumerate() {
        all += product(*x, b[i]);
    }
    reduce(all, m)
}

// A product has up to 64 bits, so the low and the high halves are summed apart. The loop divides by 2^32 alone, which is a shift.
fn wide_sum(a: &[u32], b: &[u32], m: u32) -> u32
    requires { (0 < m) × (length a.now ≡ length b.now) × (length a.now ≤ 65536) }
    ensures { result ≡ dot a.now b.now % m }
{
    let mut low: u64 = 0;
    let mut high: u64 = 0;
    for (i, x) in a.iter().enumerate() {
        let halves = divide_wide(product(*x, b[i]), 4294967296);
        low += halves.remainder;
        high += halves.quotient;
    }
    join(low, high, m)
}

// Small moduli leave no high half, and then one division is enough. Else what the low halves carry goes to the high ones, so that
// two will do.
fn join(low: u64, high: u64, m: u32) -> u32
    requires { (0 < m) × (high ≤ 281474976710656) }
    ensures { result ≡ (low + high * 4294967296) % m }
{
    if high == 0 {
        reduce(low, m)
    } else {
        let halves = divide_wide(low, 4294967296);
        let rest = reduce(high + halves.quotient, m);
        reduce(wide(rest) * 4294967296 + halves.remainder, m)
    }
}
