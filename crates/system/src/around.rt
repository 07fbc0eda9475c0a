// The equations through a start: the vectors g that all steps are orthogonal to are found as steps of an answer, that to a system whose
// equations are the steps themselves. Each g is then an equation g·x = g·c, for the start c.
ghost use Rattle.std.specs.Prelude.{◌≡◌, ◌+◌, ◌*◌, ◌<◌, ◌≤◌, length};
ghost use Rattle.slices.specs.Over.{over};
ghost use Rattle.equations.specs.Vectors.{Vector, Below};
ghost use Rattle.equations.specs.Lines.{as_row, as_rows};
ghost use Rattle.elimination.specs.Through.{through, lines_through, annihilators};
ghost use Rattle.system.specs.Claims.{vectors_of};
ghost use Rattle.system.specs.Model.Reading.{Laid};

use crate::limits::{EQUATIONS, LINE, UNKNOWNS};
use crate::relating::generators_into;
use slices::copying::copy;
use tableau::products::sum;

// The equations for a start with steps; how many they are.
pub(crate) fn lines_around(
    m: u32,
    n: usize,
    start: &[u32],
    steps: &[u32],
    lines: &mut [u32],
) -> usize
    requires { (1 < m) × (0 < n) × (n ≤ 16) × Vector m n start.now × Below m steps.now × (length steps.now ≤ 16 * n)
        × (n * (n + 1) ≤ length lines.old) }
    ensures value { result ≡ length (annihilators m n (vectors_of n steps.now)) }
    ensures lines_after { lines.new
        ≡ over (as_rows (lines_through m start.now (annihilators m n (vectors_of n steps.now)))) lines.old }
{
    let mut generators = [0u32; UNKNOWNS * UNKNOWNS];
    let count = annihilators_into(m, n, steps, &mut generators);
    let end = count * n;
    through_into(m, n, start, &generators[..end], lines);
    count
}

// Generators of the vectors that all of the steps are orthogonal to; how many they are. The equations of the steps go through zero.
fn annihilators_into(m: u32, n: usize, steps: &[u32], out: &mut [u32]) -> usize
    requires { (1 < m) × (0 < n) × (n ≤ 16) × Below m steps.now × (length steps.now ≤ 16 * n) × (n * n ≤ length out.old) }
    ensures { (result ≤ n) × Laid n (annihilators m n (vectors_of n steps.now)) out.old out.new result }
{
    let zero = [0u32; UNKNOWNS];
    let mut level = [0u32; EQUATIONS * LINE];
    through_into(m, n, &zero[..n], steps, &mut level);
    let size = steps.len() / n * (n + 1);
    generators_into(m, n, &level[..size], out)
}

// An equation for each of the vectors: it goes through the start. (The rows go by the index: of what is written through `chunks_exact_mut` a
// proof knows the length alone.)
fn through_into(m: u32, n: usize, start: &[u32], vectors: &[u32], lines: &mut [u32])
    requires { (0 < m) × (0 < n) × (n ≤ 16) × Vector m n start.now × Below m vectors.now
        × (length (as_rows (lines_through m start.now (vectors_of n vectors.now))) ≤ length lines.old) }
    ensures { lines.new
        ≡ over (as_rows (lines_through m start.now (vectors_of n vectors.now))) lines.old }
{
    for (i, g) in vectors.chunks_exact(n).enumerate() {
        let at = i * (n + 1);
        line_into(m, n, start, g, &mut lines[at..]);
    }
}

// g·x = g·c, for the start c.
fn line_into(m: u32, n: usize, start: &[u32], g: &[u32], line: &mut [u32])
    requires { (0 < m) × (n ≤ 16) × Vector m n start.now × Vector m n g.now × (n + 1 ≤ length line.old) }
    ensures { line.new ≡ over (as_row (through m start.now g.now)) line.old }
{
    copy(g, line);
    line[n] = sum(g, start, m);
}
