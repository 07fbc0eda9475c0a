// Document 01's answer to a list of equations, its mark of a claim and document 02's reason beside the mark, as definitions and laws:
// see specs/ and proofs/. Of code there are the two enums, and a test of all numbers.
#![tactic(auto)]

pub mod testing;

ghost use Rattle.std.specs.Prelude.{◌≡◌};
ghost use Rattle.equations.specs.Marks.{mark_number};

// What a marked claim gets. A long one is right, with a step that the others make superfluous.
#[derive(Clone, Copy, Debug, PartialEq, Eq)]
pub enum Mark {
    Fail = 0,
    Pass = 1,
    Long = 2,
}

// The number by which a mark goes out: a C call's result, and a byte of a class.
impl From<Mark> for u8 {
    ghost from_gives = { λ mark number. number ≡ mark_number mark };

    fn from(mark: Mark) -> u8 {
        mark as u8
    }
}

// Why a marked claim fails, or is long: the first reason that holds. Steps and equations count from 1. `Passes` is none, and no `Option` stands in
// its place: its number is 0, and the definitions say number, mark and places of every reason by one type.
#[derive(Clone, Copy)]
pub enum Reason {
    Passes,
    Solvable,
    Unsolvable,
    Breaks(u32),
    Changes(u32, u32),
    Misses,
    Superfluous(u32),
}
