// How a reason goes back to C: by its number, and by the numbers of the step and of the equation that it names.
ghost use Rattle.std.specs.Prelude.{◌≡◌, [], ◌∷◌, ◌++◌, ◌≤◌, pos, length};
ghost use Rattle.slices.specs.Over.{over};
ghost use Rattle.equations.specs.Reasons.{reason_number, places_in};
ghost use Rattle.sheet.specs.Record.{ledger_of};
ghost use Rattle.milebadger.specs.Calls.{reasoned_result, place_room, without_places};

use crate::replying::refuse;
use equations::Reason;
use questions::Refusal;
use sheet::Sheet;

// The step, the equation and the number of words.
pub(crate) const PLACES: usize = 3;

// A reason by its numbers.
#[derive(Clone, Copy)]
struct Named {
    number: u32,
    step: u32,
    equation: u32,
}

// The result where `at` is too short: the questions of marking come first.
pub(crate) fn places_missing(sheet: &[u32; Sheet::SIZE], words: &[u32]) -> i64
    ensures { result ≡ reasoned_result (without_places (ledger_of sheet.now) words.now) }
{
    match Sheet::mark(sheet, words) {
        Ok(_) => refuse(Refusal::Buffer),
        Err(refusal) => refuse(refusal),
    }
}

// The reason's number, with the three numbers written.
pub(crate) fn give_reason(reason: Reason, written: usize, at: &mut [u32]) -> i64
    requires { (place_room ≤ length at.old) × (written ≤ 32) }
    ensures value { result ≡ pos (reason_number reason) }
    ensures at_after { at.new ≡ over (places_in reason ++ (written ∷ [])) at.old }
{
    let named = named_by(reason);
    at[0] = named.step;
    at[1] = named.equation;
    at[2] = written as u32;
    i64::from(named.number)
}

// One match, and not three methods of `Reason` with seven arms each.
fn named_by(reason: Reason) -> Named
    ensures { (result.number ≡ reason_number reason) × (result.step ∷ result.equation ∷ [] ≡ places_in reason) }
{
    match reason {
        Reason::Passes => Named {
            number: 0,
            step: 0,
            equation: 0,
        },
        Reason::Solvable => Named {
            number: 1,
            step: 0,
            equation: 0,
        },
        Reason::Unsolvable => Named {
            number: 2,
            step: 0,
            equation: 0,
        },
        Reason::Breaks(equation) => Named {
            number: 3,
            step: 0,
            equation: equation,
        },
        Reason::Changes(step, equation) => Named {
            number: 4,
            step: step,
            equation: equation,
        },
        Reason::Misses => Named {
            number: 5,
            step: 0,
            equation: 0,
        },
        Reason::Superfluous(needless) => Named {
            number: 6,
            step: needless,
            equation: 0,
        },
    }
}
