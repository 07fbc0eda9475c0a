// The safe puzzle: locks in rows and columns that are turned together. The turns that open it are found by solving an
// equation for each lock.
#![tactic(auto)]

mod lines;
mod opening;
mod posing;

ghost use Rattle.std.specs.Prelude.{◌≡◌};
ghost use Rattle.questions.specs.Refusals.{by_number};
ghost use Rattle.safe.specs.Calls.{turned_of, buffer_after};

use opening::turns_into;
use posing::refusal;
use questions::Refusal;

// The most locks that a safe may have.
pub(crate) const LOCKS: usize = 16;

// So many words are read: one more than locks, which shows that there are too many.
pub(crate) const VALUES_ROOM: usize = LOCKS + 1;

// The first turns in dictionary order that bring all locks to 0, as words of kind 6 at the front of out: how many memory words they take, if
// any turns do.
pub fn solve(
    m: u32,
    rows: u32,
    columns: u32,
    values: &[u32],
    out: &mut [u32],
) -> Result<Option<usize>, Refusal>
    ensures value { by_number result ≡ turned_of m rows columns values.now out.old }
    ensures out_after { out.new ≡ buffer_after m rows columns values.now out.old }
{
    let mut numbers = [0u32; VALUES_ROOM];
    refusal(m, rows, columns, values, &mut numbers)?;
    let n = rows as usize * columns as usize;
    turns_into(m, columns as usize, &numbers[..n], out)
}
