// The questions about a safe. The buffer's length is asked later, where the turns are known.
ghost use Rattle.std.specs.Prelude.{◌≡◌, ◌*◌, length, take, if◌then◌else◌, Some, None};
ghost use Rattle.slices.specs.Over.{over};
ghost use Rattle.questions.specs.Questions.{first_no};
ghost use Rattle.questions.specs.Refusals.{refused_with};
ghost use Rattle.words.specs.Words.{words_in, numbers_of};
ghost use Rattle.safe.specs.Calls.{argument_questions, allowed_size};
ghost use Rattle.safe.specs.Model.Handed.{values_room};

use crate::{LOCKS, VALUES_ROOM};
use questions::{Refusal, ask, is_modulus};
use system::residues::all_below;
use words::kinds::{ENTRY, run_of};
use words::unpacking::{tops_fit, unpack_into};

// The question that turns the safe away, if one of these does. The values' numbers go to lent memory.
pub(crate) fn refusal(
    m: u32,
    rows: u32,
    columns: u32,
    values: &[u32],
    numbers: &mut [u32],
) -> Result<(), Refusal>
    requires { length numbers.old ≡ values_room }
    ensures value { refused_with result ≡ first_no (argument_questions m rows columns values.now) }
    ensures numbers_after { numbers.new ≡ over (take values_room (numbers_of (words_in values.now))) numbers.old }
{
    let mut kinds = [0u32; VALUES_ROOM];
    let count = unpack_into(values, &mut kinds, numbers);
    ask(is_modulus(m), Refusal::Modulus)?;
    let wanted = locks(rows as usize, columns as usize).ok_or(Refusal::Unknowns)?;
    ask(tops_fit(values), Refusal::Top)?;
    ask(run_of(&kinds[..count], ENTRY, wanted), Refusal::Shape)?;
    ask(all_below(m, &numbers[..count]), Refusal::Number)
}

// How many locks there are, where the size is allowed.
fn locks(rows: usize, columns: usize) -> Option<usize>
    ensures { result ≡ (if allowed_size rows columns then Some (rows * columns) else None) }
{
    let count = rows.checked_mul(columns)?;
    (0 < count && count <= LOCKS).then_some(count)
}
