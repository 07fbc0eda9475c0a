// What calls see of a sheet. Nothing else reads its cells to answer.
ghost use Rattle.std.specs.Prelude.{◌≡◌, ◌≤◌};
ghost use Rattle.ledger.specs.Ledger.{is_opened, most_equations, most_unknowns};
ghost use Rattle.asking.specs.Sees.{Sees};
ghost use Rattle.sheet.specs.Record.{ledger_of};

use crate::{CELLS_AT, HELD_AT, MODULI_AT, MODULUS_AT, Sheet, UNKNOWNS_AT, wide};
use asking::{Seen, are_unknowns};
use lines::lines_fit;
use questions::is_modulus;
use system::residues::all_below;

// A sheet, and what the questions see of it.
#[derive(Clone, Copy)]
pub(crate) struct View<'a> {
    pub sheet: &'a [u32; Sheet::SIZE],
    pub seen: Seen,
    ghost sees: { Sees (ledger_of sheet.now) seen },
}

impl View<'_> {
    ghost use Rattle.sheet.specs.View.{lines_of};

    // The lines, from the first cell on: each n coefficients and a right side, both sides times m/q, as equations mod m.
    pub(crate) fn lines(&self) -> &[u32]
        ensures { result.now ≡ lines_of self.now }
    {
        let seen = self.seen;
        let end = CELLS_AT + seen.held * (seen.unknowns + 1);
        let sheet = self.sheet;
        &sheet[CELLS_AT..end]
    }
}

impl Sheet {
    pub fn seen(sheet: &[u32; Sheet::SIZE]) -> Seen
        ensures sees { Sees (ledger_of sheet.now) result }
        ensures unknowns_le_most_unknowns { (result.unknowns ≤ most_unknowns) × (result.held ≤ most_equations) }
    {
        if !Sheet::is_opened(sheet) {
            return Seen {
                opened: false,
                modulus: 0,
                unknowns: 0,
                held: 0,
            };
        }
        Seen {
            opened: true,
            modulus: sheet[MODULUS_AT],
            unknowns: wide(sheet[UNKNOWNS_AT]),
            held: wide(sheet[HELD_AT]),
        }
    }

    // Whether the numbers that count are such as calls put there.
    fn is_opened(sheet: &[u32; Sheet::SIZE]) -> bool
        ensures { result ≡ is_opened (ledger_of sheet.now) }
    {
        let m = sheet[MODULUS_AT];
        let n = wide(sheet[UNKNOWNS_AT]);
        let held = wide(sheet[HELD_AT]);
        if !is_modulus(m) {
            return false;
        }
        if !are_unknowns(n) {
            return false;
        }
        if held > Sheet::EQUATIONS {
            return false;
        }
        let end = CELLS_AT + held * (n + 1);
        let numbers = &sheet[..];
        if !all_below(m, &numbers[CELLS_AT..end]) {
            return false;
        }
        let own_end = MODULI_AT + held;
        lines_fit(m, n, &numbers[MODULI_AT..own_end], &numbers[CELLS_AT..end])
    }
}
