// Lists that do not depend on any row: a unit vector, a vector turned round.
ghost use Rattle.std.specs.Prelude.{◌≡◌, [], ◌≤◌, length};
ghost use Rattle.equations.specs.Vectors.{unit};
ghost use Rattle.elimination.specs.Tableau.{turned};

// A 1 at place i, which may lie behind the end: then there is none.
pub(crate) fn unit_vector(out: &mut [u32], i: usize)
    ensures { out.new ≡ unit (length out.old) i }
{
    out.fill(0);
    if i < out.len() {
        out[i] = 1;
    }
}

// As many entries of x as out has, in reverse order. With a copy and the library's `reverse` in place of the loop a solve takes two percent
// more instructions.
pub fn turn(x: &[u32], out: &mut [u32])
    requires { length out.old ≤ length x.now }
    ensures { out.new ≡ turned (length out.old) x.now [] }
{
    let n = out.len();
    for (i, y) in out.iter_mut().enumerate() {
        *y = x[n - 1 - i];
    }
}
