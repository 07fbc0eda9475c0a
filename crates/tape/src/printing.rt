// Each call made on a sheet, and its lines printed to the front of a buffer.
ghost use Rattle.std.specs.Prelude.{◌≡◌, ◌≤◌, length};
ghost use Rattle.slices.specs.Over.{over};
ghost use Rattle.questions.specs.Refusals.{number_of, by_number};
ghost use Rattle.ledger.specs.Ledger.{most_equations};
ghost use Rattle.ledger.specs.Calls.{opens, adds, strikes, answers_from_tape, marks, meaningless, misplaced, enters, queries};
ghost use Rattle.sheet.specs.View.{held_by};
ghost use Rattle.tape.specs.FirstCall.{call_by};
ghost use Rattle.tape.specs.Output.{refused_line, mark_line};
ghost use Rattle.tape.specs.Reader.{call_room};
ghost use Rattle.tape.specs.Model.Handed.{entered_line, marked_line, Tells};

use crate::answering::block_lines;
use crate::picking::Pick;
use crate::text::line;
use equations::Mark;
use questions::Refusal;
use sheet::Sheet;

pub(crate) fn refused(refusal: Refusal, out: &mut [u8]) -> usize
    requires { call_room ≤ length out.old }
    ensures value { result ≡ length (refused_line (number_of refusal)) }
    ensures out_after { out.new ≡ over (refused_line (number_of refusal)) out.old }
{
    let numbers = [u32::from(refusal)];
    line(b"refused", &numbers, out)
}

// The line of an add or a strike, which begins with `name` where the call is accepted. (A `match`, here and in `marked_line`: both arms
// write to `out`, which two closures for one common function could not both borrow.)
fn entered_line(name: &[u8], entered: Result<usize, Refusal>, out: &mut [u8]) -> usize
    requires { (length name.now ≤ 6) × (held_by (by_number entered) ≤ most_equations) × (call_room ≤ length out.old) }
    ensures value { result ≡ length (entered_line name.now (by_number entered)) }
    ensures out_after { out.new ≡ over (entered_line name.now (by_number entered)) out.old }
{
    match entered {
        Ok(held) => {
            let numbers = [held as u32];
            line(name, &numbers, out)
        }
        Err(refusal) => refused(refusal, out),
    }
}

fn marked_line(marked: Result<Mark, Refusal>, out: &mut [u8]) -> usize
    requires { call_room ≤ length out.old }
    ensures value { result ≡ length (marked_line (by_number marked)) }
    ensures out_after { out.new ≡ over (marked_line (by_number marked)) out.old }
{
    match marked {
        Ok(mark) => mark_line(mark, out),
        Err(refusal) => refused(refusal, out),
    }
}

fn mark_line(mark: Mark, out: &mut [u8]) -> usize
    requires { call_room ≤ length out.old }
    ensures value { result ≡ length (mark_line mark) }
    ensures out_after { out.new ≡ over (mark_line mark) out.old }
{
    let numbers = [0u32; 0];
    match mark {
        Mark::Pass => line(b"pass", &numbers, out),
        Mark::Long => line(b"long", &numbers, out),
        Mark::Fail => line(b"fail", &numbers, out),
    }
}

fn open(sheet: &mut [u32; Sheet::SIZE], words: &[u32], out: &mut [u8]) -> usize
    requires { call_room ≤ length out.old }
    ensures { Tells sheet.old (enters (opens words.now)) sheet.new out.old out.new result }
{
    match Sheet::open(sheet, words) {
        Ok(_) => {
            let seen = Sheet::seen(sheet);
            let numbers = [seen.modulus, seen.unknowns as u32];
            line(b"open", &numbers, out)
        }
        Err(refusal) => refused(refusal, out),
    }
}

// `add`, `strike` and `mark` are two lines each: a call of the sheet, and its line. A common function would take the call as a closure, and
// state again what the sheet's call says of its result and of the sheet.
fn add(sheet: &mut [u32; Sheet::SIZE], words: &[u32], out: &mut [u8]) -> usize
    requires { call_room ≤ length out.old }
    ensures { Tells sheet.old (enters (adds words.now)) sheet.new out.old out.new result }
{
    let entered = Sheet::add(sheet, words);
    entered_line(b"added", entered, out)
}

fn strike(sheet: &mut [u32; Sheet::SIZE], place: u32, out: &mut [u8]) -> usize
    requires { call_room ≤ length out.old }
    ensures { Tells sheet.old (enters (strikes place)) sheet.new out.old out.new result }
{
    let entered = Sheet::strike(sheet, place);
    entered_line(b"struck", entered, out)
}

fn answer(sheet: &[u32; Sheet::SIZE], number: u32, out: &mut [u8]) -> usize
    requires { call_room ≤ length out.old }
    ensures { Tells sheet.now (queries (answers_from_tape number)) sheet.now out.old out.new result }
{
    let seen = Sheet::seen(sheet);
    match Sheet::answer_from_tape(sheet, number) {
        Ok(block) => {
            let len = block.len;
            let numbers = block.numbers;
            block_lines(block.head, &numbers[..len], seen.unknowns, out)
        }
        Err(refusal) => refused(refusal, out),
    }
}

fn mark(sheet: &[u32; Sheet::SIZE], words: &[u32], out: &mut [u8]) -> usize
    requires { call_room ≤ length out.old }
    ensures { Tells sheet.now (queries (marks words.now)) sheet.now out.old out.new result }
{
    let marked = Sheet::mark(sheet, words);
    marked_line(marked, out)
}

// A word of kind 13 that breaks the rule.
fn misplaced(sheet: &[u32; Sheet::SIZE], words: &[u32], out: &mut [u8]) -> usize
    requires { call_room ≤ length out.old }
    ensures { Tells sheet.now (queries (misplaced words.now)) sheet.now out.old out.new result }
{
    refused(Refusal::Top, out)
}

// A word that picks no call. (Like `misplaced` but for a constant, and that is all that either has.)
fn meaningless(sheet: &[u32; Sheet::SIZE], words: &[u32], out: &mut [u8]) -> usize
    requires { call_room ≤ length out.old }
    ensures { Tells sheet.now (queries (meaningless words.now)) sheet.now out.old out.new result }
{
    refused(Refusal::Shape, out)
}

// The call that was picked, with the number of its first word and the memory of all its words.
pub(crate) fn call(
    sheet: &mut [u32; Sheet::SIZE],
    pick: Pick,
    number: u32,
    taken: &[u32],
    out: &mut [u8],
) -> usize
    requires { call_room ≤ length out.old }
    ensures { Tells sheet.old (call_by pick number taken.now) sheet.new out.old out.new result }
{
    match pick {
        Pick::Opening => open(sheet, taken, out),
        Pick::Adding => add(sheet, taken, out),
        Pick::OwnAdding => add(sheet, taken, out),
        Pick::Marking => mark(sheet, taken, out),
        Pick::Striking => strike(sheet, number, out),
        Pick::Answering => answer(sheet, number, out),
        Pick::Misplaced => misplaced(sheet, taken, out),
        Pick::Nothing => meaningless(sheet, taken, out),
    }
}
