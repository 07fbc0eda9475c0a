// The kinds of words, documents 01 and 02. Numbers and no enum: the documents match on the number, and kinds 0, 14 and 15 mean nothing.
ghost use Rattle.std.specs.Prelude.{◌≡◌, replicate};
ghost use Rattle.equations.specs.Vectors.{same_vector};

pub const MODULUS: u32 = 1;

pub const UNKNOWNS: u32 = 2;

pub const COEFFICIENT: u32 = 3;

pub const RIGHT: u32 = 4;

pub const HEAD: u32 = 5;

pub const ENTRY: u32 = 6;

pub const MULTIPLIER: u32 = 7;

pub const STRIKE: u32 = 8;

pub const ANSWER: u32 = 9;

pub const MINUS_COEFFICIENT: u32 = 10;

pub const MINUS_RIGHT: u32 = 11;

pub const OWN_MODULUS: u32 = 12;

pub const TOP: u32 = 13;

// Whether there are just so many kinds, all of them this one.
pub fn run_of(kinds: &[u32], kind: u32, count: usize) -> bool
    ensures { result ≡ same_vector kinds.now (replicate count kind) }
{
    kinds.len() == count && kinds.iter().all(|other| *other == kind)
}
