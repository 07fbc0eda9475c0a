// The lines of an answer.
ghost use Rattle.std.specs.Prelude.{◌≡◌, ◌∷◌, ◌*◌, ◌≤◌, length};
ghost use Rattle.slices.specs.Over.{over};
ghost use Rattle.system.specs.Claims.{vectors_within};
ghost use Rattle.ledger.specs.Ledger.{most_unknowns};
ghost use Rattle.tape.specs.Output.{step_lines, block_lines};
ghost use Rattle.tape.specs.Reader.{call_room};
ghost use Rattle.tape.specs.Model.Handed.{line_room, Block};

use crate::text::line;

// A line for each of `count` steps of n entries. (`chunks_exact` would ask that n is not 0.)
fn step_lines(vectors: &[u32], count: usize, n: usize, out: &mut [u8]) -> usize
    requires { (n ≤ most_unknowns) × (count ≤ most_unknowns)
        × (count * n ≤ length vectors.now) × (line_room * count ≤ length out.old) }
    ensures value { (result ≡ length (step_lines (vectors_within count n vectors.now))) × (result ≤ line_room * count) }
    ensures out_after { out.new ≡ over (step_lines (vectors_within count n vectors.now)) out.old }
{
    let mut at = 0;
    for i in 0..count {
        let start = i * n;
        at += line(b"step", &vectors[start..start + n], &mut out[at..]);
    }
    at
}

// The lines of a block: the starting vector and the steps in the part behind it, or the multipliers.
pub(crate) fn block_lines(head: u32, numbers: &[u32], n: usize, out: &mut [u8]) -> usize
    requires { Block n head numbers.now × (call_room ≤ length out.old) }
    ensures value { result ≡ length (block_lines n (head ∷ numbers.now)) }
    ensures out_after { out.new ≡ over (block_lines n (head ∷ numbers.now)) out.old }
{
    if head == 0 {
        return line(b"none", numbers, out);
    }
    let steps = head as usize - 1;
    let from = line(b"from", &numbers[..n], out);
    from + step_lines(&numbers[n..], steps, n, &mut out[from..])
}
