// Back substitution over packed rows.
ghost use Rattle.std.specs.Prelude.{◌≡◌, ◌+◌, ◌/◌, ◌%◌, ◌<◌, ◌≤◌, length, drop};
ghost use Rattle.residue.specs.Negative.{negative};
ghost use Rattle.equations.specs.Vectors.{Below};
ghost use Rattle.elimination.specs.Substitution.{extend, fit};
ghost use Rattle.tableau.specs.Packed.{rows, triangle, RowKept, Kept};

use crate::products::sum;

// The least entry that makes a row 0, for its pivot d and the rest of its sum. No division of 0, and none by 1.
fn least(rest: u32, m: u32, d: u32) -> u32
    requires { (rest < m) × (0 < d) }
    ensures { result ≡ negative m rest % m / d }
{
    if rest == 0 {
        0
    } else {
        if d == 1 { m - rest } else { (m - rest) / d }
    }
}

// The entry of a row's own column, from the entries y of the columns behind it. A row whose pivot is m holds nothing, and
// needs no sum.
fn entry(row: &[u32], y: &[u32], m: u32) -> u32
    requires { (0 < m) × (length row.now ≡ length y.now + 1) × (length y.now ≤ 65536) × RowKept m row.now
        × Below m y.now }
    ensures { (result ≡ fit m row.now y.now) × (result < m) }
{
    let d = row[0];
    if d == m {
        return 0;
    }
    let rest = sum(&row[1..], y, m);
    least(rest, m, d)
}

// The first j entries of x, the last one first, from those behind them. The j rows are `size` numbers, so that the last row is found
// without a walk. They have k columns more than x has entries; these are not looked at.
pub fn extend(basis: &[u32], x: &mut [u32], m: u32, j: usize, k: usize, size: usize)
    requires j_in_bounds { (j ≤ length x.old) × (length x.old ≤ 65536) × (triangle j (length x.old + k) ≤ length basis.now)
        × (size ≡ triangle j (length x.old + k)) }
    requires kept { Kept m (rows j (length x.old + k) basis.now) × Below m (drop j x.old) }
    ensures x_after { x.new
        ≡ extend m j (rows j (length x.old + k) basis.now) (drop j x.old) }
    ensures below { Below m x.new }
{
    let len = x.len();
    let mut at = size;
    for i in (0..j).rev() {
        at -= len + k - i;
        let end = at + (len - i);
        let v = entry(&basis[at..end], &x[i + 1..], m);
        x[i] = v;
    }
}
