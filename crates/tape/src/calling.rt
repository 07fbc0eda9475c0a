// The reader of one call.
ghost use Rattle.std.specs.Prelude.{◌≡◌, ◌≤◌, length};
ghost use Rattle.slices.specs.Over.{over};
ghost use Rattle.sheet.specs.History.{left};
ghost use Rattle.tape.specs.Reader.{call_room, lines_on, first_on, step_of};

use crate::picking::{call_length, picked};
use crate::printing::call;
use crate::reading::{CALL_MEMORY, first_word, take_words};
use sheet::Sheet;

// Bytes enough for the lines of any call. `next` and `left_over` take any slice that long, which an array in its place would ask more than; so
// do those that print for them.
pub const CALL_ROOM: usize = 4096;

// The bytes that a call's words take, and how many bytes its lines are.
#[derive(Clone, Copy)]
pub struct Step {
    pub used: usize,
    pub written: usize,
}

// The first call on the rest of a tape, made on the sheet, its lines at the front of out.
pub fn next(sheet: &mut [u32; Sheet::SIZE], rest: &[u8], out: &mut [u8]) -> Step
    requires { (4 ≤ length rest.now) × (call_room ≤ length out.old) }
    ensures value { result ≡ step_of sheet.old rest.now }
    ensures sheet_after { sheet.new ≡ left sheet.old (first_on sheet.old rest.now) }
    ensures out_after { out.new
        ≡ over (lines_on sheet.old (first_on sheet.old rest.now)) out.old }
{
    let first = first_word(rest);
    let pick = picked(first.kind);
    let seen = Sheet::seen(sheet);
    let wanted = call_length(pick, first.number, seen.unknowns);
    let mut taken = [0u32; CALL_MEMORY];
    let count = take_words(rest, wanted, &mut taken);
    let written = call(sheet, pick, first.number, &taken[..count], out);
    Step {
        used: 4 * count,
        written,
    }
}
