// Document 01's limits, and the sizes that follow from them, by name for all crates above.
pub const EQUATIONS: usize = 16;

pub const UNKNOWNS: usize = 16;

// The numbers of a line: a coefficient for each unknown, and the right side.
pub const LINE: usize = UNKNOWNS + 1;

// The vectors of a claim or a block: a starting vector, and a step for each place.
pub const VECTORS: usize = UNKNOWNS + 1;

// The numbers behind the head of a claim or a block: 272.
pub const ENTRIES: usize = VECTORS * UNKNOWNS;

// The numbers of a basis, at most: packed rows of 17, 16, .., 1 numbers are 153.
pub const BASIS: usize = LINE * (LINE + 1) / 2;

// The words of a claim or a block: 273.
pub const BLOCK: usize = ENTRIES + 1;
