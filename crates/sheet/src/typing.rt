// Adding an equation that is typed as text.
ghost use Rattle.std.specs.Prelude.{◌≡◌};
ghost use Rattle.questions.specs.Refusals.{by_number};
ghost use Rattle.ledger.specs.Calls.{types};
ghost use Rattle.sheet.specs.Record.{ledger_of};
ghost use Rattle.sheet.specs.Calls.{entered_of, sheet_after};

use crate::Sheet;
use crate::adding::with_line;
use asking::entries::typing_of;
use questions::Refusal;

impl Sheet {
    // A typed equation is an add: its line goes behind the others, mod the sheet's modulus.
    pub fn add_text(sheet: &mut [u32; Sheet::SIZE], text: &[u8]) -> Result<usize, Refusal>
        ensures value { by_number result ≡ entered_of (ledger_of sheet.old) (types text.now) }
        ensures sheet_after { sheet.new ≡ sheet_after sheet.old (types text.now) }
    {
        let seen = Sheet::seen(sheet);
        let line = typing_of(seen, text)?;
        let width = seen.unknowns + 1;
        with_line(sheet, seen.modulus, &line[..width]);
        Ok(seen.held + 1)
    }
}
