// The calls on a sheet that lies in the C program's own memory. They work there, and no sheet is copied. Where a call is refused, the
// result is minus the question's number.
ghost use Rattle.std.specs.Prelude.{◌≡◌};
ghost use Rattle.ledger.specs.Calls.{opens, adds, types, strikes};
ghost use Rattle.sheet.specs.Record.{ledger_of};
ghost use Rattle.sheet.specs.Calls.{entered_of, sheet_after, answered_of, buffer_after, marked_of, classed_of, marks_after};
ghost use Rattle.milebadger.specs.Calls.{counted_result, marked_result};
ghost use Rattle.milebadger.specs.Calls.{reasoned_result, reason_said, places_after, reason_after};

use crate::reasoning::{PLACES, give_reason, places_missing};
use crate::replying::{counted, marked, refuse};
use sheet::Sheet;

// Opens the sheet: 0.
#[unsafe(no_mangle)]
pub extern "C" fn milebadger_open(sheet: &mut [u32; Sheet::SIZE], words: &[u32]) -> i64
    ensures value { result ≡ counted_result (entered_of (ledger_of sheet.old) (opens words.now)) }
    ensures sheet_after { sheet.new ≡ sheet_after sheet.old (opens words.now) }
{
    counted(Sheet::open(sheet, words))
}

// Adds an equation: how many are then held.
#[unsafe(no_mangle)]
pub extern "C" fn milebadger_add(sheet: &mut [u32; Sheet::SIZE], words: &[u32]) -> i64
    ensures value { result ≡ counted_result (entered_of (ledger_of sheet.old) (adds words.now)) }
    ensures sheet_after { sheet.new ≡ sheet_after sheet.old (adds words.now) }
{
    counted(Sheet::add(sheet, words))
}

// Adds an equation that is typed as text: how many are then held.
#[unsafe(no_mangle)]
pub extern "C" fn milebadger_add_text(sheet: &mut [u32; Sheet::SIZE], text: &[u8]) -> i64
    ensures value { result ≡ counted_result (entered_of (ledger_of sheet.old) (types text.now)) }
    ensures sheet_after { sheet.new ≡ sheet_after sheet.old (types text.now) }
{
    counted(Sheet::add_text(sheet, text))
}

// Strikes the equation at a place, 1 for the first and 0 for the last: how many are then held.
#[unsafe(no_mangle)]
pub extern "C" fn milebadger_strike(sheet: &mut [u32; Sheet::SIZE], place: u32) -> i64
    ensures value { result ≡ counted_result (entered_of (ledger_of sheet.old) (strikes place)) }
    ensures sheet_after { sheet.new ≡ sheet_after sheet.old (strikes place) }
{
    counted(Sheet::strike(sheet, place))
}

// Writes the answer block, in words: how many they are.
#[unsafe(no_mangle)]
pub extern "C" fn milebadger_answer(sheet: &[u32; Sheet::SIZE], out: &mut [u32]) -> i64
    ensures value { result ≡ counted_result (answered_of (ledger_of sheet.now) out.old) }
    ensures out_after { out.new ≡ buffer_after (ledger_of sheet.now) out.old }
{
    counted(Sheet::answer(sheet, out))
}

// Marks a claim: 1 for a pass, 2 for a right one with a superfluous step, 0 for a fail.
#[unsafe(no_mangle)]
pub extern "C" fn milebadger_mark(sheet: &[u32; Sheet::SIZE], words: &[u32]) -> i64
    ensures { result ≡ marked_result (marked_of (ledger_of sheet.now) words.now) }
{
    marked(Sheet::mark(sheet, words))
}

// Gives the reason why a claim fails or is long: its number, which is 0 where the claim passes. The step, the equation and the number of words go to
// `at`, and the words that show a solution or multipliers to `out`.
#[unsafe(no_mangle)]
pub extern "C" fn milebadger_reason(
    sheet: &[u32; Sheet::SIZE],
    words: &[u32],
    at: &mut [u32],
    out: &mut [u32],
) -> i64
    ensures value { result ≡ reasoned_result (reason_said (ledger_of sheet.now) words.now at.old out.old) }
    ensures at_after { at.new
        ≡ places_after (reason_said (ledger_of sheet.now) words.now at.old out.old) at.old }
    ensures out_after { out.new
        ≡ reason_after (ledger_of sheet.now) words.now at.old out.old }
{
    if at.len() < PLACES {
        return places_missing(sheet, words);
    }
    match Sheet::reason(sheet, words, out) {
        Ok(reasoned) => give_reason(reasoned.reason, reasoned.words, at),
        Err(refusal) => refuse(refusal),
    }
}

// Marks the claims of a class, which lie one after another, and writes a byte for each: how many claims there are.
#[unsafe(no_mangle)]
pub extern "C" fn milebadger_class(
    sheet: &[u32; Sheet::SIZE],
    words: &[u32],
    marks: &mut [u8],
) -> i64
    ensures value { result ≡ counted_result (classed_of (ledger_of sheet.now) words.now marks.old) }
    ensures marks_after { marks.new ≡ marks_after (ledger_of sheet.now) words.now marks.old }
{
    counted(Sheet::class(sheet, words, marks))
}
