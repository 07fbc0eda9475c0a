// A line put into a basis, column by column.
ghost use Rattle.std.specs.Prelude.{◌≡◌, true, false, ◌/◌, ◌%◌, ◌<◌, ◌≤◌, length, get_or};
ghost use Rattle.equations.specs.Vectors.{Below};
ghost use Rattle.elimination.specs.Basis.{insert};
ghost use Rattle.tableau.specs.Packed.{rows, triangle, Kept, RowKept};
ghost use Rattle.tableau.specs.Column.{Inserted, UsedUp};

use crate::line::{combine_both, multiple, reduce, scale};
use residue::division::{Division, divide};
use residue::extended::cofactors;
use residue::modular::{Modulus, negate};

// One column whose row holds nothing yet. Behind its pivot m there are zeros only, so that the line alone is multiplied. Where
// the new pivot is 1, nothing would be left of the line, and it stays as it is.
fn insert_first(row: &mut [u32], line: &mut [u32], modulus: Modulus) -> bool
    requires row_nonzero { (0 < length row.old) × (length row.old ≡ length line.old) × RowKept modulus.m row.old
        × Below modulus.m line.old }
    requires row_value { (get_or row.old 0 0 ≡ modulus.m) × (0 < get_or line.old 0 0) }
    ensures inserted { result ≡ false → Inserted modulus.m row.old line.old row.new line.new }
    ensures used_up { result ≡ true → UsedUp modulus.m row.old line.old row.new }
{
    let m = modulus.m;
    let v = line[0];
    let c = cofactors(m, m, v, 0, v);
    let g = c.divisor;
    let t = c.t;
    multiple(&mut row[1..], &line[1..], modulus, t);
    row[0] = g;
    if g == 1 {
        return true;
    }
    scale(&mut line[1..], modulus, negate(c.q, m));
    false
}

// Most pivots are 1 soon, and a division by 1 is left out.
fn divide_by_pivot(v: u32, d: u32) -> Division<u32>
    requires { 0 < d }
    ensures { (result.quotient ≡ v / d) × (result.remainder ≡ v % d) }
{
    if d == 1 {
        return Division {
            quotient: v,
            remainder: 0,
        };
    }
    divide(v, d)
}

// One column; whether the line is used up. Nothing is done where the line's entry is 0, and the row stays where its
// pivot divides the entry.
fn insert_at(row: &mut [u32], line: &mut [u32], modulus: Modulus) -> bool
    requires { (0 < length row.old) × (length row.old ≡ length line.old) × RowKept modulus.m row.old × Below modulus.m line.old }
    ensures inserted { result ≡ false → Inserted modulus.m row.old line.old row.new line.new }
    ensures used_up { result ≡ true → UsedUp modulus.m row.old line.old row.new }
{
    let m = modulus.m;
    let d = row[0];
    let v = line[0];
    if v > 0 {
        if d == m {
            return insert_first(row, line, modulus);
        }
        let division = divide_by_pivot(v, d);
        let times = division.quotient;
        let rest = division.remainder;
        if rest == 0 {
            reduce(&row[1..], &mut line[1..], modulus, times);
        } else {
            let c = cofactors(m, d, v, times, rest);
            combine_both(&mut row[1..], &mut line[1..], modulus, c);
            row[0] = c.divisor;
        }
    }
    false
}

// The walk over w columns. The row of column j begins at `at`; the rows from there on and the line from its entry j on are again
// a basis and a line. The line is scratch: its caller lends a copy and does not look at it again, so no word is said of what is
// left of it.
pub(crate) fn insert(basis: &mut [u32], line: &mut [u32], modulus: Modulus, w: usize)
    requires w_in_bounds { (w ≤ length line.old) × (length basis.old ≡ triangle w (length line.old)) }
    requires kept { Kept modulus.m (rows w (length line.old) basis.old) × Below modulus.m line.old }
    ensures basis_after { rows w (length line.old) basis.new
        ≡ insert modulus.m (rows w (length line.old) basis.old) line.old }
    ensures kept_2 { Kept modulus.m (rows w (length line.old) basis.new) }
{
    let len = line.len();
    let mut at: usize = 0;
    for j in 0..w {
        let end = at + (len - j);
        if insert_at(&mut basis[at..end], &mut line[j..], modulus) {
            return;
        }
        at = end;
    }
}
