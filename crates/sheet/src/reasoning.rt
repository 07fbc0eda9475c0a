// The reason why a student's claim about a sheet's equations fails, or is long.
ghost use Rattle.std.specs.Prelude.{◌≡◌, ◌<◌, Err, length};
ghost use Rattle.slices.specs.Over.{over};
ghost use Rattle.questions.specs.Refusals.{by_number};
ghost use Rattle.questions.specs.Reply.{result_of, memory_after};
ghost use Rattle.equations.specs.Vectors.{Below};
ghost use Rattle.ledger.specs.Marking.{shown_kind};
ghost use Rattle.sheet.specs.Record.{ledger_of};
ghost use Rattle.sheet.specs.Calls.{reasoned_of, shown_after};
ghost use Rattle.sheet.specs.View.{ledger_in, explained_of, explained_numbers, shown_by};

use crate::Sheet;
use crate::viewing::View;
use asking::queries::CLAIM_ROOM;
use blocks::counts_for;
use equations::Reason;
use questions::{Refusal, ask};
use system::explaining::{Finding, explain};
use system::limits::UNKNOWNS;
use words::kinds::{ENTRY, MULTIPLIER};
use words::writing::write;

// The reason, and how many words are written beside it.
#[derive(Clone, Copy)]
pub struct Reasoned {
    pub reason: Reason,
    pub words: usize,
}

impl Sheet {
    // What is shown, a vector or multipliers, goes to the front of the buffer.
    pub fn reason(
        sheet: &[u32; Sheet::SIZE],
        words: &[u32],
        buffer: &mut [u32],
    ) -> Result<Reasoned, Refusal>
        ensures value { by_number result ≡ reasoned_of (ledger_of sheet.now) words.now buffer.old }
        ensures buffer_after { buffer.new
            ≡ shown_after (ledger_of sheet.now) words.now buffer.old }
    {
        let seen = Sheet::seen(sheet);
        let mut shown = [0u32; UNKNOWNS];
        let finding = View { sheet, seen }.explain_claim(words, &mut shown)?;
        let len = finding.len;
        show(seen.modulus, finding.reason, &shown[..len], buffer)
    }
}

impl View<'_> {
    // The entries are explained. What is shown stands at the front of 16 numbers.
    fn explain_claim(&self, words: &[u32], shown: &mut [u32]) -> Result<Finding, Refusal>
        requires { length shown.old ≡ 16 }
        ensures value { by_number result ≡ explained_of (ledger_in self.now) words.now }
        ensures shown_after { shown.new ≡ over (explained_numbers (ledger_in self.now) words.now) shown.old }
    {
        let mut numbers = [0u32; CLAIM_ROOM];
        let entries = self.entries(words, &mut numbers)?;
        let seen = self.seen;
        let finding = explain(seen.modulus, seen.unknowns, self.lines(), entries, shown);
        Ok(finding)
    }
}

// The numbers, which are residues mod m, as words; 8 is asked last.
fn show(m: u32, reason: Reason, numbers: &[u32], buffer: &mut [u32]) -> Result<Reasoned, Refusal>
    requires { Below m numbers.now }
    ensures value { by_number result ≡ result_of Err (shown_by m reason numbers.now) buffer.old }
    ensures buffer_after { buffer.new ≡ memory_after (shown_by m reason numbers.now) buffer.old }
{
    let room = numbers.len() * counts_for(m);
    ask(room <= buffer.len(), Refusal::Buffer)?;
    let kind = kind_of(reason);
    let written = write(kind, numbers, buffer);
    Ok(Reasoned {
        reason,
        words: written,
    })
}

// The kind of the words that are written beside a reason.
fn kind_of(reason: Reason) -> u32
    ensures { (result ≡ shown_kind reason) × (result < 16) }
{
    match reason {
        Reason::Passes => ENTRY,
        Reason::Solvable => ENTRY,
        Reason::Unsolvable => MULTIPLIER,
        Reason::Breaks(equation) => ENTRY,
        Reason::Changes(step, equation) => ENTRY,
        Reason::Misses => ENTRY,
        Reason::Superfluous(step) => ENTRY,
    }
}
