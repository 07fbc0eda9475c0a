// Opening a sheet.
ghost use Rattle.std.specs.Prelude.{◌≡◌};
ghost use Rattle.questions.specs.Refusals.{by_number};
ghost use Rattle.ledger.specs.Calls.{opens};
ghost use Rattle.sheet.specs.Record.{ledger_of};
ghost use Rattle.sheet.specs.Calls.{entered_of, sheet_after};

use crate::{MODULUS_AT, Sheet, UNKNOWNS_AT};
use asking::entries::{OPENING_ROOM, open_refusal};
use questions::Refusal;

impl Sheet {
    // What the sheet held before is gone, and it holds 0 equations; a refused opening keeps it.
    pub fn open(sheet: &mut [u32; Sheet::SIZE], words: &[u32]) -> Result<usize, Refusal>
        ensures value { by_number result ≡ entered_of (ledger_of sheet.old) (opens words.now) }
        ensures sheet_after { sheet.new ≡ sheet_after sheet.old (opens words.now) }
    {
        let mut numbers = [0u32; OPENING_ROOM];
        open_refusal(words, &mut numbers)?;
        *sheet = [0u32; Sheet::SIZE];
        sheet[MODULUS_AT] = numbers[0];
        sheet[UNKNOWNS_AT] = numbers[1];
        Ok(0)
    }
}
