// Striking a line of a sheet.
ghost use Rattle.std.specs.Prelude.{◌≡◌, ◌<◌, T};
ghost use Rattle.questions.specs.Refusals.{by_number};
ghost use Rattle.ledger.specs.Ledger.{is_opened};
ghost use Rattle.ledger.specs.Calls.{strikes};
ghost use Rattle.ledger.specs.History.{loses, struck_at};
ghost use Rattle.sheet.specs.Record.{held_in, ledger_of, record_by};
ghost use Rattle.sheet.specs.Calls.{entered_of, sheet_after};

use crate::{CELLS_AT, HELD_AT, MODULI_AT, Sheet, UNKNOWNS_AT, wide};
use asking::entries::strike_refusal;
use questions::Refusal;
use slices::copying::move_up;

impl Sheet {
    // A strike at a place, 1 for the first line and 0 for the last: how many equations the sheet then holds.
    pub fn strike(sheet: &mut [u32; Sheet::SIZE], place: u32) -> Result<usize, Refusal>
        ensures value { by_number result ≡ entered_of (ledger_of sheet.old) (strikes place) }
        ensures sheet_after { sheet.new ≡ sheet_after sheet.old (strikes place) }
    {
        let seen = Sheet::seen(sheet);
        strike_refusal(seen, place)?;
        let fewer = seen.held - 1;
        without_line(sheet, struck_at(seen.held, place));
        Ok(fewer)
    }
}

// The place of a strike, counted from 0.
fn struck_at(held: usize, place: u32) -> usize
    requires { 0 < held }
    ensures { result ≡ struck_at held place }
{
    if place == 0 {
        held - 1
    } else {
        wide(place) - 1
    }
}

// The line at this place, counted from 0, goes with its modulus: those behind it close up.
fn without_line(sheet: &mut [u32], index: usize)
    requires { T (is_opened (ledger_of sheet.old)) × (index < held_in sheet.old) }
    ensures { sheet.new ≡ record_by sheet.old (loses index) }
{
    let held = sheet[HELD_AT];
    let width = wide(sheet[UNKNOWNS_AT]) + 1;
    let filled = wide(held) * width;
    let front = index * width;
    let at = CELLS_AT + front;
    move_up(&mut sheet[at..], width, filled - front - width);
    let own = MODULI_AT + index;
    move_up(&mut sheet[own..], 1, wide(held) - index - 1);
    sheet[HELD_AT] = held - 1;
}
