// How an answer goes back to C: as a signed result, and where a call has numbers to give, in the memory that the caller lent.
ghost use Rattle.std.specs.Prelude.{◌≡◌, ◌∷◌, ◌≤◌, pos};
ghost use Rattle.questions.specs.Refusals.{number_of, by_number};
ghost use Rattle.questions.specs.Reply.{gives};
ghost use Rattle.sheet.specs.View.{held_by};
ghost use Rattle.milebadger.specs.Calls.{minus, Replied, block_reply, counted_result, marked_result};

use equations::Mark;
use questions::Refusal;
use slices::copying::copy;

// The result, with its numbers written; or minus 8, with nothing written, where the memory is too short for them.
pub(crate) fn give(res: u32, numbers: &[u32], out: &mut [u32]) -> i64
    ensures { Replied (gives (pos res) numbers.now) out.old out.new result }
{
    if out.len() < numbers.len() {
        return refuse(Refusal::Buffer);
    }
    copy(numbers, out);
    i64::from(res)
}

// The same for a block, whose result is its length: the head, and its numbers in the part of the memory behind it.
pub(crate) fn give_block(head: u32, numbers: &[u32], out: &mut [u32]) -> i64
    ensures { Replied (block_reply (head ∷ numbers.now)) out.old out.new result }
{
    if out.len() <= numbers.len() {
        return refuse(Refusal::Buffer);
    }
    out[0] = head;
    copy(numbers, &mut out[1..]);
    let written = numbers.len() + 1;
    written as i64
}

// How many, or minus the refusal. (`map_or_else`, here and in `marked`, has the same two cases, and a proof has to open its law for each.)
pub(crate) fn counted(count: Result<usize, Refusal>) -> i64
    requires { held_by (by_number count) ≤ 65536 }
    ensures { result ≡ counted_result (by_number count) }
{
    match count {
        Ok(count) => count as i64,
        Err(refusal) => refuse(refusal),
    }
}

// The number of a mark, or minus the refusal.
pub(crate) fn marked(mark: Result<Mark, Refusal>) -> i64
    ensures { result ≡ marked_result (by_number mark) }
{
    match mark {
        Ok(mark) => i64::from(u8::from(mark)),
        Err(refusal) => refuse(refusal),
    }
}

// Minus the number of a refusal.
pub(crate) fn refuse(refusal: Refusal) -> i64
    ensures { result ≡ minus (number_of refusal) }
{
    -i64::from(u32::from(refusal))
}
