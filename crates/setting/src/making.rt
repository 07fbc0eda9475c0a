// The equations for a claim, made and written.
ghost use Rattle.std.specs.Prelude.{◌≡◌, ◌+◌, ◌≤◌, Err, length};
ghost use Rattle.questions.specs.Refusals.{by_number};
ghost use Rattle.slices.specs.Over.{over};
ghost use Rattle.questions.specs.Reply.{Gives};
ghost use Rattle.equations.specs.Lines.{equation_at, equations_of};
ghost use Rattle.system.specs.Claims.{claim_of};
ghost use Rattle.system.specs.Wanted.{wanted_of};
ghost use Rattle.setting.specs.Calls.{equation_memory, sheet_memory, made};
ghost use Rattle.setting.specs.Model.Handed.{Wantable};

use questions::{Refusal, ask};
use system::limits::{LINE, UNKNOWNS};
use system::wanting::lines_for;
use words::kinds::{COEFFICIENT, RIGHT};
use words::writing::write;

// 8 is asked of 2 · n · (n + 1) words, always: two for each number of n equations.
pub(crate) fn make(m: u32, n: usize, claim: &[u32], out: &mut [u32]) -> Result<usize, Refusal>
    requires { Wantable m n claim.now }
    ensures { Gives Err (made n (wanted_of m n (claim_of n claim.now))) out.old (by_number result) out.new }
{
    ask(2 * n * (n + 1) <= out.len(), Refusal::Buffer)?;
    let mut lines = [0u32; UNKNOWNS * LINE];
    let count = lines_for(m, n, claim, &mut lines);
    let end = count * (n + 1);
    write_lines(n, &lines[..end], out);
    Ok(count)
}

// Equations in rows of n + 1 numbers, as words at the front of out.
fn write_lines(n: usize, lines: &[u32], out: &mut [u32])
    requires { (n ≤ 16) × (length (sheet_memory (equations_of n lines.now)) ≤ length out.old) }
    ensures { out.new ≡ over (sheet_memory (equations_of n lines.now)) out.old }
{
    let mut at: usize = 0;
    for line in lines.chunks_exact(n + 1) {
        at += write_line(n, line, &mut out[at..]);
    }
}

// The words of one: a coefficient for each unknown, and the right side. How many memory words they take.
fn write_line(n: usize, line: &[u32], out: &mut [u32]) -> usize
    requires { (n ≤ 16) × (length line.now ≡ n + 1) × (length (equation_memory (equation_at n line.now)) ≤ length out.old) }
    ensures value { result ≡ length (equation_memory (equation_at n line.now)) }
    ensures out_after { out.new ≡ over (equation_memory (equation_at n line.now)) out.old }
{
    let coefficients = write(COEFFICIENT, &line[..n], out);
    coefficients + write(RIGHT, &line[n..], &mut out[coefficients..])
}
