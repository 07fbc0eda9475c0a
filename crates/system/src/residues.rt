// Whether numbers are residues.
ghost use Rattle.std.specs.Prelude.{◌≡◌};
ghost use Rattle.equations.specs.Multipliers.{all_below};

use equations::testing::every;

pub fn all_below(m: u32, numbers: &[u32]) -> bool
    ensures { result ≡ all_below m numbers.now }
{
    every(numbers, |number| number < m)
}
