// Residue arithmetic: numbers of 32 bits, sums and products of 64 bits, and one equation with `%` for each function. A residue
// that is given is below m; what a function asks of its arguments is only what it computes with.
ghost use Rattle.std.specs.Prelude.{◌≡◌, cond, ◌+◌, ◌-◌, ◌*◌, ◌/◌, ◌%◌, ◌≤◌, ◌<◌};
ghost use Rattle.residue.specs.Inverse.{inverse_of};
ghost use Rattle.residue.specs.Negative.{negative};
ghost use Rattle.residue.specs.Residue.{residue_of};

// Both numbers are residues, so that no division is made.
pub fn add(a: u32, b: u32, m: u32) -> u32
    requires { (a < m) × (b < m) }
    ensures { (result ≡ (a + b) % m) × (result < m) }
{
    reduce_once(wide(a) + wide(b), m)
}

pub fn negate(a: u32, m: u32) -> u32
    requires { 0 < m }
    ensures { (result ≡ negative m a % m) × (result < m) }
{
    opposite(remainder(wide(a), m), m)
}

// The negative of a residue.
fn opposite(a: u32, m: u32) -> u32
    requires { a < m }
    ensures { (result ≡ negative m a % m) × (result < m) }
{
    if a == 0 { 0 } else { m - a }
}

// Most numbers are residues already, and then no division is made.
fn remainder(x: u64, m: u32) -> u32
    requires { 0 < m }
    ensures { (result ≡ x % m) × (result < m) }
{
    if x < wide(m) { x as u32 } else { reduce(x, m) }
}

// The residue of a signed number, by its size and its sign.
pub fn residue(x: i64, m: u32) -> u32
    requires { 0 < m }
    ensures { (result ≡ residue_of m x) × (result < m) }
{
    signed(x.unsigned_abs(), x < 0, m)
}

pub(crate) fn signed(size: u64, minus: bool, m: u32) -> u32
    requires { 0 < m }
    ensures { (result ≡ cond minus (negative m size % m) (size % m)) × (result < m) }
{
    let residue = remainder(size, m);
    if minus { opposite(residue, m) } else { residue }
}

pub fn mul(a: u32, b: u32, m: u32) -> u32
    requires { 0 < m }
    ensures { (result ≡ (a * b) % m) × (result < m) }
{
    reduce(product(a, b), m)
}

pub fn mul_add(acc: u32, a: u32, b: u32, m: u32) -> u32
    requires { 0 < m }
    ensures { (result ≡ (acc + a * b) % m) × (result < m) }
{
    reduce(wide(acc) + product(a, b), m)
}

// Two products need 65 bits, so the first one is reduced before the second is added.
pub fn combine(s: u32, a: u32, t: u32, b: u32, m: u32) -> u32
    requires { 0 < m }
    ensures { (result ≡ (s * a + t * b) % m) × (result < m) }
{
    mul_add(mul(s, a, m), t, b, m)
}

// What `reciprocal` wants to know of a modulus that is used many times. This and the three below take and give plain numbers, as
// docs/CONTRACTS.md promises of them, and `joint` and `left_over` with them; `Modulus` and `Factor` call them, and hold the facts.
pub fn inverse_of(m: u32) -> u64
    requires { 0 < m }
    ensures { result ≡ inverse_of m }
{
    18446744073709551615 / wide(m)
}

// What `mul_by` wants to know of a factor a that is used many times with one modulus: a·2^32 / m. It is read off the inverse of m,
// without a division, and is then at most one too small.
pub fn reciprocal(a: u32, m: u32, inverse: u64) -> u32
    requires { (a < m) × (inverse ≡ inverse_of m) }
    ensures { result ≡ a * 4294967296 / m }
{
    let low = (wide(a) * inverse / 4294967296) as u32;
    let rest = wide(a) * 4294967296 - product(low, m);
    if rest < wide(m) { low } else { low + 1 }
}

// Shoup's product, for a factor a with its reciprocal u. The test is of m alone, so that a loop over one modulus makes it once.
pub fn mul_by(a: u32, u: u32, b: u32, m: u32) -> u32
    requires { (a < m) × (u ≡ a * 4294967296 / m) }
    ensures { (result ≡ (a * b) % m) × (result < m) }
{
    if 2147483648 < m {
        reduce_once(left_over(a, u, b, m), m)
    } else {
        joint(a, u, b, 0, 0, 0, m)
    }
}

// `combine` for two factors with their reciprocals, u that of s and v that of t.
pub fn combine_by(s: u32, u: u32, a: u32, t: u32, v: u32, b: u32, m: u32) -> u32
    requires { (s < m) × (u ≡ s * 4294967296 / m) × (t < m) × (v ≡ t * 4294967296 / m) × (a < m) × (b < m) }
    ensures { (result ≡ (s * a + t * b) % m) × (result < m) }
{
    if m <= 2147483648 {
        joint(s, u, a, t, v, b, m)
    } else {
        let sum = left_over(s, u, a, m) + left_over(t, v, b, m);
        reduce_once(reduce_by_twice(sum, m), m)
    }
}

// A modulus that is used many times, with what `reciprocal` wants to know of it.
#[derive(Clone, Copy)]
pub struct Modulus {
    pub m: u32,
    inverse: u64,
    pub ghost positive: { 0 < m },
    pub ghost inverse_is: { inverse ≡ inverse_of m },
}

impl Modulus {
    pub fn new(m: u32) -> Modulus
        requires { 0 < m }
        ensures { result.m ≡ m }
    {
        Modulus {
            m,
            inverse: inverse_of(m),
        }
    }

    pub fn factor(self, a: u32) -> Factor
        requires { a < self.m }
        ensures { (result.value ≡ a) × (result.m ≡ self.m) }
    {
        Factor {
            value: a,
            reciprocal: reciprocal(a, self.m, self.inverse),
            m: self.m,
        }
    }
}

// A factor that is used many times with one modulus, with its reciprocal: no product divides.
#[derive(Clone, Copy)]
pub struct Factor {
    pub value: u32,
    reciprocal: u32,
    pub m: u32,
    pub ghost below: { value < m },
    pub ghost reciprocal_is: { reciprocal ≡ value * 4294967296 / m },
}

impl Factor {
    pub fn times(self, b: u32) -> u32
        ensures { (result ≡ (self.value * b) % self.m) × (result < self.m) }
    {
        mul_by(self.value, self.reciprocal, b, self.m)
    }

    // `combine` for two factors.
    pub fn combine(self, a: u32, other: Factor, b: u32) -> u32
        requires { (other.m ≡ self.m) × (a < self.m) × (b < self.m) }
        ensures { (result ≡ (self.value * a + other.value * b) % self.m) × (result < self.m) }
    {
        combine_by(
            self.value,
            self.reciprocal,
            a,
            other.value,
            other.reciprocal,
            b,
            self.m,
        )
    }
}

// One quotient for both products, read off u + 1 and v + 1 without a division. It is at most one too large where a + b is at most
// 2^32. With 2^32 added, what is left is not negative.
fn joint(s: u32, u: u32, a: u32, t: u32, v: u32, b: u32, m: u32) -> u32
    requires { (s < m) × (u ≡ s * 4294967296 / m) × (t < m) × (v ≡ t * 4294967296 / m) × (a + b ≤ 4294967296)
        × (m ≤ 2147483648) }
    ensures { (result ≡ (s * a + t * b) % m) × (result < m) }
{
    let quotient = ((product(u + 1, a) + product(v + 1, b)) / 4294967296) as u32;
    let sum = product(s, a) + product(t, b);
    lift(sum + 4294967296 - product(quotient, m), m)
}

// A number from -m up to m, to which 2^32 was added, made a residue. Where it is negative, its low word has the highest bit. Nothing
// is compared with m: what is as good as random would become a jump that the processor cannot foresee.
fn lift(x: u64, m: u32) -> u32
    requires { (4294967296 ≤ x + m) × (x < 4294967296 + m) × (m ≤ 2147483648) }
    ensures { (result ≡ (x + m - 4294967296) % m) × (result < m) }
{
    let low = (x % 4294967296) as u32;
    if low < 2147483648 {
        low
    } else {
        add_beyond(low, m)
    }
}

// low + m, where that is 2^32 or more, without 2^32.
fn add_beyond(low: u32, m: u32) -> u32
    requires { (0 < m) × (4294967296 ≤ low + m) }
    ensures { result ≡ low + m - 4294967296 }
{
    low - (4294967295 - m + 1)
}

// a·b without a multiple of m, for m above 2^31: the quotient is read off u, and is at most one too small.
fn left_over(a: u32, u: u32, b: u32, m: u32) -> u64
    requires { (0 < m) × (u ≡ a * 4294967296 / m) }
    ensures { (result % m ≡ (a * b) % m) × (result < 2 * m) }
{
    let quotient = (product(u, b) / 4294967296) as u32;
    product(a, b) - product(quotient, m)
}

// `u64::from` under a name that says which way: docs/CONTRACTS.md names it.
pub fn wide(x: u32) -> u64
    ensures { result ≡ x }
{
    u64::from(x)
}

// The bound is (2^32 - 1)²: another 32-bit number can be added.
pub fn product(a: u32, b: u32) -> u64
    ensures { (result ≡ a * b) × (result ≤ 18446744065119617025) }
{
    wide(a) * wide(b)
}

pub fn reduce(x: u64, m: u32) -> u32
    requires { 0 < m }
    ensures { (result ≡ x % m) × (result < m) }
{
    (x % wide(m)) as u32
}

// m is taken off at most once. The highest bit of the sum tells whether, as in `lift`; its low word is that of x - m.
fn reduce_once(x: u64, m: u32) -> u32
    requires { x < 2 * m }
    ensures { (result ≡ x % m) × (result < m) }
{
    let raised = x + (9223372036854775808 - wide(m));
    let low = (raised % 4294967296) as u32;
    if raised < 9223372036854775808 {
        add_beyond(low, m)
    } else {
        low
    }
}

// 2·m is taken off at most once. Not one function with `reduce_once`, which gives 32 bits: the multiple would go with its law.
fn reduce_by_twice(x: u64, m: u32) -> u64
    requires { x < 4 * m }
    ensures { (result % m ≡ x % m) × (result < 2 * m) }
{
    let twice = 2 * wide(m);
    let raised = x + (9223372036854775808 - twice);
    if raised < 9223372036854775808 {
        x
    } else {
        x - twice
    }
}
