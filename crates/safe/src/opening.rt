// The turns that open a safe, found by solving its equations, and written.
ghost use Rattle.std.specs.Prelude.{◌≡◌, ℕ, ◌*◌, length};
ghost use Rattle.questions.specs.Refusals.{by_number};
ghost use Rattle.safe.specs.Turns.{turns_of};
ghost use Rattle.safe.specs.Calls.{found};
ghost use Rattle.safe.specs.Model.Handed.{Lockable, Found, Gives};

use crate::LOCKS;
use crate::lines::lines_into;
use questions::{Refusal, ask};
use system::solving::{Answer, solve};
use words::kinds::ENTRY;
use words::writing::{write, written_length};

// The turns as words at the front of out, where there are any and out is long enough for them.
pub(crate) fn turns_into(
    m: u32,
    columns: usize,
    values: &[u32],
    out: &mut [u32],
) -> Result<Option<usize>, Refusal>
    requires { (rows : ℕ) × Lockable m rows columns values.now }
    ensures { (rows : ℕ) → rows * columns ≡ length values.now
        → Gives (found (turns_of m rows columns values.now)) out.old (by_number result) out.new }
{
    let answer = first_turns(m, columns, values);
    if answer.head == 0 {
        return Ok(None);
    }
    let turns = &answer.numbers[..values.len()];
    ask(written_length(turns) <= out.len(), Refusal::Buffer)?;
    Ok(Some(write(ENTRY, turns, out)))
}

// The answer's starting vector is the first turns; its head is 0 where no turns open the safe. A line has a number for each lock,
// and one more.
fn first_turns(m: u32, columns: usize, values: &[u32]) -> Answer
    requires { (rows : ℕ) × Lockable m rows columns values.now }
    ensures { (rows : ℕ) → rows * columns ≡ length values.now
        → Found (length values.now) (turns_of m rows columns values.now) result.head result.numbers }
{
    let mut lines = [0u32; LOCKS * (LOCKS + 1)];
    let n = values.len();
    let size = n * (n + 1);
    lines_into(&mut lines[..size], m, columns, values);
    solve(m, n, &lines[..size])
}
