// Two lines combined entry by entry, in place: the inner loops of the elimination. A factor's reciprocal is computed once for
// the whole line, so no loop divides. Each walk is one `for`: a common one, line ← s·row + t·line, would make two products for an entry
// where `reduce`, `multiple` and `scale` make one and `add_row` none. The other slice goes by the index: of what is written through
// `iter_mut().zip(..)` a proof knows the length alone.
ghost use Rattle.std.specs.Prelude.{◌≡◌, ◌+◌, ◌*◌, ◌%◌, ◌<◌, length};
ghost use Rattle.residue.specs.Negative.{negative};
ghost use Rattle.equations.specs.Vectors.{combine, Below};

use residue::extended::Bezout;
use residue::modular::{Factor, Modulus, add, negate};

// line ← row + line.
pub fn add_row(row: &[u32], line: &mut [u32], m: u32)
    requires { (length row.now ≡ length line.old) × Below m row.now × Below m line.old }
    ensures { line.new ≡ combine m 1 1 row.now line.old }
{
    for (i, y) in line.iter_mut().enumerate() {
        *y = add(row[i], *y, m);
    }
}

// p·a - b for a factor p.
fn minus(p: Factor, a: u32, b: u32) -> u32
    requires { b < p.m }
    ensures { (result ≡ (p.value * a + negative p.m 1 % p.m * b) % p.m) × (result < p.m) }
{
    let x = p.times(a);
    if b <= x { x - b } else { x + (p.m - b) }
}

// line ← p·row - line. One product for each entry.
pub(crate) fn reduce(row: &[u32], line: &mut [u32], modulus: Modulus, p: u32)
    requires { (p < modulus.m) × (length row.now ≡ length line.old) × Below modulus.m line.old }
    ensures { line.new ≡ combine modulus.m p (negative modulus.m 1 % modulus.m) row.now line.old }
{
    let factor = modulus.factor(p);
    for (i, y) in line.iter_mut().enumerate() {
        *y = minus(factor, row[i], *y);
    }
}

// row ← s·row + t·line and line ← p·row - q·line, both from the old ones.
pub(crate) fn combine_both(row: &mut [u32], line: &mut [u32], modulus: Modulus, c: Bezout)
    requires { (c.s < modulus.m) × (c.t < modulus.m) × (c.p < modulus.m) × (length row.old ≡ length line.old)
        × Below modulus.m row.old × Below modulus.m line.old }
    ensures row_after { row.new ≡ combine modulus.m c.s c.t row.old line.old }
    ensures line_after { line.new ≡ combine modulus.m c.p (negative modulus.m c.q % modulus.m) row.old line.old }
{
    let s = modulus.factor(c.s);
    let t = modulus.factor(c.t);
    let p = modulus.factor(c.p);
    let n = modulus.factor(negate(c.q, modulus.m));
    for (i, x) in row.iter_mut().enumerate() {
        let a = *x;
        let b = line[i];
        *x = s.combine(a, t, b);
        line[i] = p.combine(a, n, b);
    }
}

// row ← t·line: a row of zeros combined with the line. One product for each entry.
pub(crate) fn multiple(row: &mut [u32], line: &[u32], modulus: Modulus, t: u32)
    requires { (t < modulus.m) × (length row.old ≡ length line.now) }
    ensures { row.new ≡ combine modulus.m 0 t line.now line.now }
{
    let factor = modulus.factor(t);
    for (i, x) in row.iter_mut().enumerate() {
        *x = factor.times(line[i]);
    }
}

// line ← n·line. One product for each entry. `multiple` as a copy and this: then a solve takes six to nine percent more instructions.
pub(crate) fn scale(line: &mut [u32], modulus: Modulus, n: u32)
    requires { n < modulus.m }
    ensures { line.new ≡ combine modulus.m 0 n line.old line.old }
{
    let factor = modulus.factor(n);
    for x in line.iter_mut() {
        *x = factor.times(*x);
    }
}
