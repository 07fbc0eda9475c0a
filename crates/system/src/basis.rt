// A basis of equations in n unknowns mod m, whose rows lie packed in one lent slice, with no carried column.
ghost use Rattle.system.specs.Model.Reading.{Readable};
ghost use Rattle.system.specs.Model.Readable.{readable_once};

// Made where the rows lie: a method for it would say m, n and rows in three clauses, by which each caller had to rewrite.
// Its numbers are just those of the rows, and each row is kept: a pivot from 1 to m, and residues behind it.
#[derive(Clone, Copy)]
pub(crate) struct Basis<'a> {
    pub m: u32,
    pub n: usize,
    pub numbers: &'a [u32],
    ghost readable: { Readable m n numbers.now } by { readable_once m n numbers.now },
}
