// The equations of a safe, a line of numbers for each lock: a coefficient for each turn, and the negative of the lock's value.
ghost use Rattle.std.specs.Prelude.{◌≡◌, ◌+◌, ◌*◌, ◌%◌, ◌<◌, length};
ghost use Rattle.residue.specs.Negative.{negative};
ghost use Rattle.safe.specs.Model.Lines.{line_of, lines_from};
ghost use Rattle.safe.specs.Model.Lines.{coefficient};

use residue::division::divide_wide;
use residue::modular::negate;

// A turn counts once for each lock in its row and column, its own lock included. Row and column of a place are its quotient and its
// remainder by the number of columns.
fn coefficient(columns: usize, i: usize, p: usize) -> u32
    requires { 0 < columns }
    ensures { result ≡ coefficient columns i p }
{
    let lock = divide_wide(i as u64, columns as u64);
    let turn = divide_wide(p as u64, columns as u64);
    let in_row = lock.quotient == turn.quotient;
    let in_column = lock.remainder == turn.remainder;
    u32::from(in_row || in_column)
}

// The turns that reach a lock bring it to 0 if they add up to the negative of its value x.
fn right_side(x: u32, m: u32) -> u32
    requires { 0 < m }
    ensures { result ≡ negative m x % m }
{
    negate(x, m)
}

// The line of the lock at place i, whose value is x.
fn line_into(line: &mut [u32], m: u32, columns: usize, n: usize, i: usize, x: u32)
    requires { (0 < m) × (0 < columns) × (length line.old ≡ n + 1) }
    ensures { line.new ≡ line_of m columns n i x }
{
    for p in 0..n {
        line[p] = coefficient(columns, i, p);
    }
    line[n] = right_side(x, m);
}

// The lines of all locks. (A loop over `chunks_exact_mut` was tried: its invariant cannot name what is written.)
pub(crate) fn lines_into(lines: &mut [u32], m: u32, columns: usize, values: &[u32])
    requires { (0 < m) × (0 < columns) × (length lines.old ≡ length values.now * (length values.now + 1)) }
    ensures { lines.new ≡ lines_from m columns (length values.now) 0 values.now }
{
    let n = values.len();
    let width = n + 1;
    for (i, x) in values.iter().enumerate() {
        let at = i * width;
        line_into(&mut lines[at..at + width], m, columns, n, i, *x);
    }
}
