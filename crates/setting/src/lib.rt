// A sheet for a wanted answer: from a claim, the equations that just its vectors solve, as words that an add takes.
#![tactic(auto)]

mod making;
mod posing;

ghost use Rattle.std.specs.Prelude.{◌≡◌};
ghost use Rattle.questions.specs.Refusals.{by_number};
ghost use Rattle.setting.specs.Calls.{made_of, sheet_after};

use asking::queries::CLAIM_ROOM;
use making::make;
use posing::refusal;
use questions::Refusal;

// At most n equations at the front of out, for a claim in words: how many it wrote.
pub fn sheet_for(m: u32, n: u32, claim: &[u32], out: &mut [u32]) -> Result<usize, Refusal>
    ensures value { by_number result ≡ made_of m n claim.now out.old }
    ensures out_after { out.new ≡ sheet_after m n claim.now out.old }
{
    let mut numbers = [0u32; CLAIM_ROOM];
    refusal(m, n, claim, &mut numbers)?;
    let unknowns = n as usize;
    let end = numbers[0] as usize * unknowns + 1;
    make(m, unknowns, &numbers[1..end], out)
}
