// What is asked: a list of equations in n unknowns mod m, that lie in one lent slice.
ghost use Rattle.system.specs.Posed.{Posed};
ghost use Rattle.system.specs.Model.Asked.{posed_once};

// Its lines have n coefficients and a right side each. Steps have no such struct: they go to methods of this one and of `Basis`, and each would ask
// that the m and n of the steps are its own, in place of what it asks of their numbers.
#[derive(Clone, Copy)]
pub(crate) struct System<'a> {
    pub m: u32,
    pub n: usize,
    pub lines: &'a [u32],
    ghost posed: { Posed m n lines.now } by { posed_once m n lines.now },
}
