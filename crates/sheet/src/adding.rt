// Adding an equation to a sheet: a line with a modulus of its own, or the sheet's.
ghost use Rattle.std.specs.Prelude.{◌≡◌, ◌+◌, ◌<◌, T, length};
ghost use Rattle.questions.specs.Questions.{allowed_own};
ghost use Rattle.questions.specs.Refusals.{by_number};
ghost use Rattle.equations.specs.Vectors.{Below};
ghost use Rattle.equations.specs.Lines.{equation_at};
ghost use Rattle.ledger.specs.Ledger.{is_opened, most_equations};
ghost use Rattle.ledger.specs.Calls.{adds};
ghost use Rattle.ledger.specs.History.{gains};
ghost use Rattle.sheet.specs.Record.{modulus_in, unknowns_in, held_in, ledger_of, record_by};
ghost use Rattle.sheet.specs.Calls.{entered_of, sheet_after};

use crate::{CELLS_AT, HELD_AT, MODULI_AT, MODULUS_AT, Sheet, UNKNOWNS_AT, wide};
use asking::adding::{EQUATION_ROOM, adding_of};
use lines::scale_into;
use questions::Refusal;

impl Sheet {
    // How many equations the sheet then holds. (It shares `with_line` with `add_text`; what is left differs in where the line and its
    // modulus come from, but for a width and a sum.)
    pub fn add(sheet: &mut [u32; Sheet::SIZE], words: &[u32]) -> Result<usize, Refusal>
        ensures value { by_number result ≡ entered_of (ledger_of sheet.old) (adds words.now) }
        ensures sheet_after { sheet.new ≡ sheet_after sheet.old (adds words.now) }
    {
        let seen = Sheet::seen(sheet);
        let mut line = [0u32; EQUATION_ROOM];
        let modulus = adding_of(seen, words, &mut line)?;
        let width = seen.unknowns + 1;
        with_line(sheet, modulus, &line[..width]);
        Ok(seen.held + 1)
    }
}

// The line mod q goes behind the last, also where nothing solves those before it.
pub(crate) fn with_line(sheet: &mut [u32], q: u32, line: &[u32])
    requires room { T (is_opened (ledger_of sheet.old)) × (held_in sheet.old < most_equations)
        × (length line.now ≡ unknowns_in sheet.old + 1) }
    requires residues { T (allowed_own (modulus_in sheet.old) q) × Below q line.now }
    ensures { sheet.new
        ≡ record_by sheet.old (gains (record { modulus = q; equation = equation_at (unknowns_in sheet.old) line.now })) }
{
    let m = sheet[MODULUS_AT];
    let held = sheet[HELD_AT];
    let width = wide(sheet[UNKNOWNS_AT]) + 1;
    let at = CELLS_AT + wide(held) * width;
    scale_into(m, q, line, &mut sheet[at..]);
    let own = MODULI_AT + wide(held);
    sheet[own] = q;
    sheet[HELD_AT] = held + 1;
}
