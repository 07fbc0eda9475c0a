// A sheet of equations in its caller's memory: opened with a modulus and a number of unknowns, then filled and emptied one equation at a
// time, answered, and marked by one claim, with the reason beside a failed mark, or by those of a class. Every call takes any numbers for
// a sheet, any words and any buffer, and works where the sheet lies.
#![tactic(auto)]

pub mod adding;
pub mod answering;
pub mod classing;
pub mod marking;
pub mod opening;
pub mod reasoning;
pub mod striking;
pub mod typing;
pub mod viewing;

ghost use Rattle.std.specs.Prelude.{◌≡◌};
ghost use Rattle.sheet.specs.Record.{fresh};

use system::limits;

// The places of the modulus, the unknowns and the number of lines held, and the first ones of the lines' moduli and of the cells. The lines
// lie one behind the other at the front of the cells: as many coefficients as there are unknowns, then the right side, both sides times
// m/q. So they are the equations mod m that answers and marks ask about, and these read them where they lie.
pub(crate) const MODULUS_AT: usize = 0;

pub(crate) const UNKNOWNS_AT: usize = 1;

pub(crate) const HELD_AT: usize = 2;

pub(crate) const MODULI_AT: usize = 3;

pub(crate) const CELLS_AT: usize = MODULI_AT + limits::EQUATIONS;

#[derive(Clone, Copy)]
pub struct Sheet {
    pub numbers: [u32; Sheet::SIZE],
}

// There is no `usize::from` of a 32-bit number.
pub(crate) fn wide(x: u32) -> usize
    ensures { result ≡ x }
{
    x as usize
}

impl Sheet {
    pub const EQUATIONS: usize = limits::EQUATIONS;

    pub const UNKNOWNS: usize = limits::UNKNOWNS;

    pub const SIZE: usize = CELLS_AT + limits::EQUATIONS * limits::LINE;

    // No modulus yet: the sheet is unopened.
    pub fn fresh() -> Sheet
        ensures { result.numbers ≡ fresh }
    {
        Sheet {
            numbers: [0u32; Sheet::SIZE],
        }
    }
}
